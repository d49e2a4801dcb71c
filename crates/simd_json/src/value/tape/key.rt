//! Whether two keys are the same.
ghost use Rattle.std.specs.Prelude.{◌≡◌, ◌+◌, ◌≤◌, bytes_eq, drop, length, take};
ghost use Rattle.std.specs.Int.{from_le_bytes, to_le_bytes, w16, w32, w64};

// Whether two keys of one length are the same. The first and the last word, which may overlap,
// cover up to 16 bytes. `==` sets four words up before the loop over keys, which costs more than
// the rest of a short look-up.
#[inline(always)]
pub(super) fn is_same(key: &str, other: &str) -> bool
    requires { length key.now ≡ length other.now }
    ensures { result ≡ bytes_eq key.now other.now }
{
    let len = other.len();
    if len > 16 {
        return key == other;
    }
    let (key, other) = (key.as_bytes(), other.as_bytes());
    if len >= 8 {
        return word(key, 0) == word(other, 0) && word(key, len - 8) == word(other, len - 8);
    }
    if len >= 4 {
        return half(key, 0) == half(other, 0) && half(key, len - 4) == half(other, len - 4);
    }
    if len >= 2 {
        return pair(key, 0) == pair(other, 0) && pair(key, len - 2) == pair(other, len - 2);
    }
    len == 0 || key[0] == other[0]
}

// Eight bytes from an index on.
#[inline(always)]
fn word(bytes: &[u8], at: usize) -> u64
    requires { at + 8 ≤ length bytes.now }
    ensures value { result ≡ from_le_bytes w64 (take 8 (drop at bytes.now)) }
    ensures bytes { to_le_bytes w64 result ≡ take 8 (drop at bytes.now) }
{
    u64::from_le_bytes([
        bytes[at],
        bytes[at + 1],
        bytes[at + 2],
        bytes[at + 3],
        bytes[at + 4],
        bytes[at + 5],
        bytes[at + 6],
        bytes[at + 7],
    ])
}

// Four bytes from an index on.
#[inline(always)]
fn half(bytes: &[u8], at: usize) -> u32
    requires { at + 4 ≤ length bytes.now }
    ensures value { result ≡ from_le_bytes w32 (take 4 (drop at bytes.now)) }
    ensures bytes { to_le_bytes w32 result ≡ take 4 (drop at bytes.now) }
{
    u32::from_le_bytes([bytes[at], bytes[at + 1], bytes[at + 2], bytes[at + 3]])
}

// Two bytes from an index on.
#[inline(always)]
fn pair(bytes: &[u8], at: usize) -> u16
    requires { at + 2 ≤ length bytes.now }
    ensures value { result ≡ from_le_bytes w16 (take 2 (drop at bytes.now)) }
    ensures bytes { to_le_bytes w16 result ≡ take 2 (drop at bytes.now) }
{
    u16::from_le_bytes([bytes[at], bytes[at + 1]])
}
