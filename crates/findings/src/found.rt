// What the names of a call fill, looked at by index: the first slot that is both filled by position and named (16), and the first
// required one that is neither (20 to 22).
ghost use Rattle.std.specs.Prelude.{◌≡◌, ◌-◌, ◌≤◌};
ghost use Rattle.findings.specs.Found.{first_named, first_missing};
ghost use Rattle.builder.specs.Spec.{index_of};

use crate::resolve::Resolution;
use builder::params::Parameters;

impl Resolution {
    // The first of the slots filled by position that is named.
    pub fn first_named(&self) -> Option<usize>
        requires { self.now.next ≤ 64 }
        ensures { index_of result ≡ first_named self.now.sources 0 self.now.next }
    {
        self.sources[..self.next]
            .iter()
            .position(|source| *source != 0)
    }
}

// The first of the slots from `next` on whose parameter is required and that no name fills: that has no cell among `sources`.
pub fn first_missing(params: &Parameters, sources: &[usize; 64], next: usize) -> Option<usize>
    requires { params.now.len ≤ 64 }
    ensures { index_of result ≡ first_missing params.now.codes sources.now next (params.now.len - next) }
{
    (next..params.len).find(|i| params.codes[*i] == 1 && sources[*i] == 0)
}
