// Pieces of an input (01, sheets): where a line or a cell ends.
ghost use Rattle.std.specs.Prelude.{◌≤◌, length};
ghost use Rattle.sheet_lines.specs.Piece.{MarkFound, SplitOnce};

// The index of the first `mark` from `from` on.
pub fn end_of(mark: u8, input: &[u8], from: usize) -> Option<usize>
    requires { from ≤ length input.now }
    ensures { MarkFound mark input.now from result }
{
    for at in from..input.len() {
        if input[at] == mark {
            return Some(at);
        }
    }
    None
}

// The bytes before the first `mark`, and those behind it.
pub(crate) fn split_once<'a>(mark: u8, bytes: &'a [u8]) -> Option<(&'a [u8], &'a [u8])>
    ensures { SplitOnce mark bytes.now result }
{
    let at = end_of(mark, bytes, 0)?;
    Some((&bytes[..at], &bytes[at + 1..]))
}
