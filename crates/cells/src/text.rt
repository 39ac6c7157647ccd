// Texts: a run of bytes in a lent area (01, cells, texts and records).
ghost use Rattle.std.specs.Prelude.{◌≡◌};
ghost use Rattle.rules.specs.Text.{payload_of, same_bytes};
ghost use Rattle.cells.specs.Text.{read_text, part_at, place_at, key_of};

// Where a text starts in its area, and how many bytes it has: the two halves of a payload. Both always fit a payload.
#[derive(Clone, Copy, Debug, PartialEq, Eq)]
pub struct Text {
    pub start: u16,
    pub len: u8,
}

impl Text {
    pub fn payload(self) -> u64
        ensures { result ≡ payload_of self.start self.len }
    {
        (self.start as u64) * 256 + (self.len as u64)
    }
}

// The text that a payload names, if it has `least` to 64 bytes and lies inside the area.
pub fn read_text(area: &[u8], least: u64, payload: u64) -> Option<Text>
    ensures { result ≡ read_text least area.now payload }
{
    let start = payload / 256;
    let len = payload % 256;
    if 65535 < start {
        return None;
    }
    if (area.len() as u64) < start + len {
        return None;
    }
    if len < least {
        return None;
    }
    if 64 < len {
        return None;
    }
    Some(Text {
        start: start as u16,
        len: len as u8,
    })
}

// The bytes that a payload names, where they lie in the area; none where the payload does not lie inside the area.
pub fn part<'a>(area: &'a [u8], payload: u64) -> &'a [u8]
    ensures bytes { result.now ≡ part_at area.now payload }
    ensures place { result.ref_ptr ≡ place_at area.entry payload }
{
    let start = (payload / 256) as usize;
    let len = (payload % 256) as usize;
    if 65535 < start {
        return &area[..0];
    }
    if area.len() < start + len {
        return &area[..0];
    }
    let end = start + len;
    &area[start..end]
}

// Are two texts equal? They are when their bytes are.
pub fn same(a: &[u8], b: &[u8]) -> bool
    ensures { result ≡ same_bytes a.now b.now }
{
    a == b
}

// Are the texts of two payloads equal, each in its area?
pub fn same_text(a: &[u8], x: u64, b: &[u8], y: u64) -> bool
    ensures { result ≡ same_bytes (part_at a.now x) (part_at b.now y) }
{
    same(part(a, x), part(b, y))
}

// The first bytes of a text as one number, so that most texts that differ are told apart by one comparison.
pub fn key_of(bytes: &[u8]) -> u64
    ensures { result ≡ key_of bytes.now }
{
    let mut key: u64 = 0;
    let first = &bytes[..bytes.len().min(8)];
    for byte in first {
        key = key * 256 + (*byte as u64);
    }
    key
}
