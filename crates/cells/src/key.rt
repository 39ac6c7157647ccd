// Eight bytes of a text as one number, read in one go: most texts that differ are told apart by one comparison, and short ones that are equal
// (01, by their bytes) are known by one.
ghost use Rattle.std.specs.Prelude.{◌≡◌, true, ◌+◌, ◌≤◌, length, take, drop};
ghost use Rattle.rules.specs.Text.{same_bytes, inside, bytes_at};
ghost use Rattle.cells.specs.Text.{key_of, last_key, IsWord, HasWord, ShortSame};

use crate::text::{key_of, part};

// The eight bytes from an index on. Unrolled, the loop is one load.
fn word_at(area: &[u8], at: usize) -> u64
    requires { at + 8 ≤ length area.now }
    ensures { IsWord (drop at area.now) result }
{
    let mut word: u64 = 0;
    for i in 0..8 {
        word = word * 256 + (area[at + i] as u64);
    }
    word
}

// The key of `len` bytes from `start` on, where the area has eight.
pub fn first_key(area: &[u8], start: usize, len: usize) -> u64
    requires { start + 8 ≤ length area.now }
    ensures { result ≡ key_of (take len (drop start area.now)) }
{
    let word = word_at(area, start);
    if 8 <= len {
        return word;
    }
    if len == 0 {
        return 0;
    }
    word >> (64 - 8 * len)
}

// The same of one to eight bytes: those that are not wanted are shifted out.
pub fn short_key(area: &[u8], start: usize, len: usize) -> u64
    requires { (start + 8 ≤ length area.now) × (1 ≤ len) × (len ≤ 8) }
    ensures { result ≡ key_of (take len (drop start area.now)) }
{
    word_at(area, start) >> (64 - 8 * len)
}

// The last bytes of the text of a payload as one number.
pub fn last_key(area: &[u8], payload: u64) -> u64
    requires { inside area.now payload ≡ true }
    ensures { result ≡ last_key (bytes_at area.now payload) }
{
    let len = (payload % 256) as usize;
    let end = (payload / 256) as usize + len;
    if end < 8 {
        return key_of(part(area, payload));
    }
    let word = word_at(area, end - 8);
    if 8 <= len {
        return word;
    }
    word % (1 << (8 * len))
}

// Are two texts short and equal? No says nothing: they may be equal and long.
#[inline(always)]
pub fn short_same(a: &[u8], x: u64, b: &[u8], y: u64) -> bool
    ensures { result ≡ true → ShortSame a.now x b.now y }
{
    let len = (x % 256) as usize;
    if len == 0 {
        return false;
    }
    if 8 < len {
        return false;
    }
    if (y % 256) as usize != len {
        return false;
    }
    if !has_word(a, x) {
        return false;
    }
    if !has_word(b, y) {
        return false;
    }
    same_bytes(a, (x / 256) as usize, b, (y / 256) as usize, len)
}

// Can eight bytes be read where the text of this payload starts, and may a text start there?
fn has_word(area: &[u8], payload: u64) -> bool
    ensures { result ≡ true → HasWord area.now payload }
{
    if 65535 < payload / 256 {
        return false;
    }
    (payload / 256) as usize + 8 <= area.len()
}

// Are `len` bytes from one index on the same as from another?
fn same_bytes(a: &[u8], at: usize, b: &[u8], from: usize, len: usize) -> bool
    requires { (at + 8 ≤ length a.now) × (from + 8 ≤ length b.now) × (1 ≤ len) × (len ≤ 8) }
    ensures { result ≡ same_bytes (take len (drop at a.now)) (take len (drop from b.now)) }
{
    let one = word_at(a, at);
    let other = word_at(b, from);
    let behind = 64 - 8 * len;
    one >> behind == other >> behind
}
