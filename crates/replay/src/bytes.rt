// Bytes of a record. Past its end they are zero, so that no length must be shown here.
ghost use Rattle.std.specs.Prelude.{◌≡◌, ◌<◌, ◌==◌, length, get_or, drop};
ghost use Rattle.std.specs.List.{list_all};
ghost use Rattle.leaf_node.specs.Page.{word};
ghost use Rattle.leaf_work.specs.Tests.{every};
ghost use Rattle.replay.specs.Parts.{key_from, has_at, has_part, is_held};

pub(crate) fn byte(s: &[u8], at: usize) -> u8
    ensures { result ≡ get_or s.now at 0 }
{
    s.get(at).copied().unwrap_or(0)
}

// A number of two bytes, low byte first.
pub(crate) fn number(s: &[u8], at: usize) -> usize
    ensures value { result ≡ word s.now at }
    ensures upper_bound { result < 65536 }
{
    if at < s.len() {
        usize::from(u16::from_le_bytes([byte(s, at), byte(s, at + 1)]))
    } else {
        0
    }
}

// The 32 bytes from `at` on; zeros where the record ends before.
pub(crate) fn key(s: &[u8], at: usize) -> [u8; 32]
    ensures { result ≡ key_from s.now at }
{
    let mut out = [0u8; 32];
    if s.len() < 32 {
        return out;
    }
    if s.len() - 32 < at {
        return out;
    }
    out.copy_from_slice(&s[at..at + 32]);
    out
}

// Whether the record has these bytes from `at` on.
pub(crate) fn same(s: &[u8], at: usize, bytes: &[u8]) -> bool
    ensures { result ≡ has_at s.now at bytes.now }
{
    if s.len() < at {
        return false;
    }
    s[at..].starts_with(bytes)
}

// Whether the record has from `at` on the n bytes that another buffer has from `from` on; false where one of them ends before.
pub(crate) fn same_part(s: &[u8], at: usize, other: &[u8], from: usize, n: usize) -> bool
    ensures { result ≡ has_part s.now at other.now from n }
{
    if other.len() < n {
        return false;
    }
    if other.len() - n < from {
        return false;
    }
    same(s, at, &other[from..from + n])
}

// What lent buffers hold before a call.
pub(crate) const HELD: u8 = 0x5a;

fn all_held(s: &[u8]) -> bool
    ensures { result ≡ list_all (λ x. x == 0x5a) s.now }
{
    s.iter().all(|x| *x == HELD)
}

// Whether a buffer still holds that from `from` on.
pub(crate) fn held(s: &[u8], from: usize) -> bool
    ensures { result ≡ every is_held (drop from s.now) }
{
    if s.len() < from {
        return true;
    }
    all_held(&s[from..])
}
