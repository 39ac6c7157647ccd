// What the rows of a call sheet amount to (01, sheets): a row is judged after the rows before it, and all that it asks of those is how
// many there are of each part and what each star is. These counts are the head of the call record that the sheet describes.
ghost use Rattle.std.specs.Prelude.{◌≡◌, cond};
ghost use Rattle.calls.specs.Head.{head_of, Few};
ghost use Rattle.sheet_lines.specs.Word.{call_part_of};
ghost use Rattle.sheet_judge.specs.Counts.{more_as};

use calls::head::Head;
use sheet_lines::word::{CallPart, is_dict, is_list};

// The counts with one row more.
pub(crate) fn counts_after(counts: Head, part: CallPart, value: &[u8]) -> Head
    requires { Few 64 (head_of counts) }
    ensures { result ≡ more_as counts (call_part_of part) value.now }
{
    let mut counted = counts;
    match part {
        CallPart::Positional => counted.p += 1,
        CallPart::Named => counted.n += 1,
        CallPart::Star => counted.star_kind = kind_of(is_list(value)),
        CallPart::Item => counted.s += 1,
        CallPart::Double => counted.double_kind = kind_of(is_dict(value)),
        CallPart::Entry => counted.d += 1,
    }
    counted
}

// The kind of a star's value: 1 if it is what the star takes, 2 for anything else. Without a row for it the kind is 0.
fn kind_of(one: bool) -> u64
    ensures { result ≡ cond one 1 2 }
{
    if one { 1 } else { 2 }
}
