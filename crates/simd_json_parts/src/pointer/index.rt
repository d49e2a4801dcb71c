//! The array index that a reference token is (RFC 6901, section 4).
ghost use Rattle.std.specs.Prelude.{◌≡◌, option_and_then};
ghost use Rattle.std.specs.Char.{is_ascii_digit};
ghost use Rattle.std.specs.List.{list_all};
ghost use Rattle.simd_json_parts.specs.Followed.{fits_64};
ghost use Rattle.simd_json_parts.specs.Pointed.{array_index, is_array_index};

/// The array index that a reference token is, or `None` where it is none, or is 2^64 or more.
#[inline(always)]
pub fn read_index(token: &str) -> Option<usize>
    ensures { result ≡ option_and_then fits_64 (array_index token.now) }
{
    let digits = token.as_bytes();
    if digits.len() == 1 && digits[0].is_ascii_digit() {
        return Some(usize::from(digits[0] - b'0'));
    }
    if !is_index(digits) {
        return None;
    }
    token.parse().ok()
}

/// Whether a reference token is an array index: `0`, or digits of which the first is not `0`.
#[inline(never)]
pub fn is_index(token: &[u8]) -> bool
    ensures { result ≡ is_array_index token.now }
{
    are_digits(token) && (token.len() == 1 || (token.len() > 1 && token[0] != b'0'))
}

fn are_digits(token: &[u8]) -> bool
    ensures { result ≡ list_all is_ascii_digit token.now }
{
    token.iter().all(|byte| byte.is_ascii_digit())
}
