// The lines of an input one by one (01, sheets): each is what stands before a byte 10. Bytes behind the last byte 10 are no line.
ghost use Rattle.std.specs.Prelude.{◌≤◌, length};

use crate::piece::end_of;

// The lines from byte `at` on.
#[derive(Clone, Copy, Debug)]
pub struct Lines<'a> {
    pub input: &'a [u8],
    pub at: usize,
    pub ghost within: { at ≤ length input.now },
}

impl<'a> Iterator for Lines<'a> {
    ghost use Rattle.std.specs.Prelude.{◌-◌};
    ghost use Rattle.std.specs.Iterator.{at_most};
    ghost use Rattle.sheet_lines.specs.Lines.{NextLine};

    type Item = &'a [u8];

    ghost next_gives = { NextLine };

    ghost remaining = { λ s. at_most (length s.input.now - s.at) };

    fn next(&mut self) -> Option<&'a [u8]> {
        let end = end_of(b'\n', self.input, self.at)?;
        let line = &self.input[self.at..end];
        self.at = end + 1;
        Some(line)
    }
}
