// A name as it is printed (01, printed list): without `**` in front, and then without `*` in front.
// Reworked from starlark 0.14.2, src/eval/runtime/params/spec.rs (parameters_str), Apache-2.0.
ghost use Rattle.std.specs.Prelude.{◌≡◌};
ghost use Rattle.rules.specs.Text.{bytes_at};
ghost use Rattle.rules.specs.Printed.{printed_name};
ghost use Rattle.printer.specs.Name.{without_prefix};

use builder::params::bytes_at;

// The name of a payload. Where three stars stand in front all of them go, and of four one is left.
pub(crate) fn printed_name<'a>(area: &'a [u8], payload: u64) -> &'a [u8]
    ensures { result.now ≡ printed_name (bytes_at area.now payload) }
{
    let name = bytes_at(area, payload);
    strip_prefix(strip_prefix(name, b"**"), b"*")
}

// The name behind a prefix, or the name where it has no such prefix.
fn strip_prefix<'a, 'b>(name: &'a [u8], prefix: &'b [u8]) -> &'a [u8]
    ensures { result.now ≡ without_prefix prefix.now name.now }
{
    name.strip_prefix(prefix).unwrap_or(name)
}
