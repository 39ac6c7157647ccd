// Water in the last runs (02, §10): the first run at which the minutes of the last w runs exceed what a pump permit allows.
#![tactic(auto)]

ghost use Rattle.std.specs.Prelude.{◌≡◌, ◌≤◌, Ok};
ghost use Rattle.rules.specs.Answer.{fine};
ghost use Rattle.rules.specs.Window.{first_exceeding, window_in_range, window_of, window};
ghost use Rattle.window.specs.Exceeded.{window_in};

// The most runs that a window may have, and that a list may have.
const LONGEST: u64 = 1440;

const MOST: usize = 4096;

// 39: no window or no list has so many runs.
#[derive(Clone, Copy, Debug, PartialEq, Eq)]
pub struct OutOfRange;

// The first position of the list at which the sum of the last `w` runs exceeds the limit, if there is one: that of the window's last run.
#[tactic(auto, using(std::proofs::lemmas::Bool::Decides::nat_tests), unfolding(rules::specs::Window::window_in_range, rules::specs::Window::ask_window, rules::specs::Window::window))]
pub fn window(minutes: &[u32], w: u64, limit: u64) -> Result<Option<usize>, OutOfRange>
    ensures { window_in result ≡ window w limit minutes.now }
{
    if !in_range(w, minutes.len()) {
        return Err(OutOfRange);
    }
    Ok(first_exceeding(minutes, w as usize, limit))
}

// 39: is w from 1 to 1,440, and the list not over 4,096?
#[tactic(auto, unfolding(rules::specs::Window::window_in_range))]
fn in_range(w: u64, runs: usize) -> bool
    ensures { result ≡ window_in_range w runs }
{
    (1..=LONGEST).contains(&w) && runs <= MOST
}

// One pass: the sum is kept from run to run, each new run is added, and the oldest one dropped as soon as there are more than `w`.
fn first_exceeding(minutes: &[u32], w: usize, limit: u64) -> Option<usize>
    requires { (1 ≤ w) × (w ≤ 1440) }
    ensures { window_in (Ok result) ≡ window_of fine (first_exceeding w limit minutes.now) }
{
    let mut sum: u64 = 0;
    // The position of the window's first run, kept beside that of its last.
    let mut first = 0;
    for (last, run) in minutes.iter().enumerate() {
        sum += u64::from(*run);
        if w <= last {
            sum -= u64::from(minutes[first]);
            first += 1;
        }
        if limit < sum {
            return Some(last);
        }
    }
    None
}
