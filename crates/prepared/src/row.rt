// A row of a prepared list: what is kept of one parameter, and what must hold of it by itself.
ghost use Rattle.std.specs.Prelude.{◌≡◌, true, ◌&&◌, ◌+◌, ◌*◌, ◌%◌, ◌<◌, ◌≤◌, eqb, length};
ghost use Rattle.rules.specs.Text.{bytes_at, inside, is_text};
ghost use Rattle.rules.specs.Value.{Value};
ghost use Rattle.rules.specs.Parameters.{act_of, next_style, rank};
ghost use Rattle.builder.specs.Params.{style_for};
ghost use Rattle.cells.specs.Text.{key_of, last_key};
ghost use Rattle.prepared.specs.Prepared.{row_right};
ghost use Rattle.prepared.specs.Rows.{row_in, row_at, stands};

use builder::params::{Step, bytes_at};
use calls::slot::SLOTS;
use cells::key::{first_key, last_key, short_key};
use cells::text;

// How many cells a row takes, and how many stand before the first one.
pub const ROW: usize = 6;

pub const FRONT: usize = 2;

// Which cell of a row is which; the first is the code.
pub const STYLE: usize = 1;

pub const NAME: usize = 2;

pub const DEFAULT_KIND: usize = 3;

pub const DEFAULT_PAYLOAD: usize = 4;

pub const KEY: usize = 5;

// What the cells of a row hold: the step that adds the parameter, the number of the style under which it was added, and the key of its name.
#[derive(Clone, Copy, Debug, PartialEq, Eq)]
pub struct Row {
    pub step: Step,
    pub style: u64,
    pub key: u64,
}

// Row i, which must be there.
pub(crate) fn row_at(cells: &[u64], i: usize) -> Row
    requires { 8 + 6 * i ≤ length cells.now }
    ensures { row_in result ≡ row_at cells.now i }
{
    let at = FRONT + ROW * i;
    Row {
        step: Step {
            code: cells[at],
            name: cells[at + NAME],
            default_kind: cells[at + DEFAULT_KIND],
            default_payload: cells[at + DEFAULT_PAYLOAD],
        },
        style: cells[at + STYLE],
        key: cells[at + KEY],
    }
}

// The key of a name: most names that differ are told apart by one comparison. It is read in one go unless the area ends too soon.
pub(crate) fn key_of(area: &[u8], name: u64) -> u64
    ensures { result ≡ key_of (bytes_at area.now name) }
{
    let start = (name / 256) as usize;
    if start + 8 <= area.len() {
        return first_key(area, start, (name % 256) as usize);
    }
    text::key_of(bytes_at(area, name))
}

// Does this code add a parameter, and may it stand under this style? Most rows are of parameters that have a name, so these are told first.
fn may_stand(code: u64, style: u64) -> bool
    ensures { (v : Value) → result ≡ stands code style v }
{
    if code < 4 {
        if code == 0 {
            return false;
        }
        return style < 3;
    }
    match code {
        6 => style < 2,
        7 => style < 3,
        _ => false,
    }
}

// The number of the style that follows a parameter with this code, which was added under this style.
pub(crate) fn style_after(code: u64, style: u64) -> u64
    requires { style < 3 }
    ensures { (v : Value) → stands code style v ≡ true → result ≡ rank (next_style (style_for style) (act_of code v)) }
{
    if code < 4 {
        return style;
    }
    match code {
        6 => 2,
        _ => 3,
    }
}

impl Row {
    // The slot of its name, by the last bytes: those of a short name are its key.
    pub(crate) fn slot(self, area: &[u8]) -> usize
        requires { (inside area.now self.step.name ≡ true) × (self.key ≡ key_of (bytes_at area.now self.step.name)) }
        ensures { result ≡ last_key (bytes_at area.now self.step.name) % 929 }
    {
        if self.step.name % 256 <= 8 {
            return (self.key as usize) % SLOTS;
        }
        (last_key(area, self.step.name) as usize) % SLOTS
    }

    // All that a row by itself is asked.
    pub(crate) fn is_right(self, area: &[u8]) -> bool
        ensures { result ≡ row_right area.now (row_in self) }
    {
        let step = self.step;
        if !may_stand(step.code, self.style) || !step.uses_right(area) {
            return false;
        }
        if step.code < 4 {
            return name_right(area, step.name, self.key);
        }
        self.key == key_of(area, step.name)
    }
}

// Is this the name of a parameter, and its key the other? A short name where eight bytes can be read lies inside the area, and is read in one go.
fn name_right(area: &[u8], name: u64, key: u64) -> bool
    ensures { result ≡ (is_text 1 area.now name && eqb key (key_of (bytes_at area.now name))) }
{
    let start = (name / 256) as usize;
    let len = (name % 256) as usize;
    if 0xff_ffff < name || len == 0 {
        return false;
    }
    if start + 8 <= area.len() && len <= 8 {
        return key == short_key(area, start, len);
    }
    len <= 64 && start + len <= area.len() && key == key_of(area, name)
}
