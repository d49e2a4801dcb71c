//! Numbers at the front of bytes: how long one is, and the float nearest to one with a fraction.
ghost use Rattle.std.specs.Prelude.{◌≡◌, ◌<◌, ℕ, List, length, drop, IfSome};
ghost use Rattle.simd_json_ondemand.specs.Numerals.{IsNumberLen, IsDecimalFloat};

use simd_json_parts::charutils::is_structural_or_whitespace;
use simd_json_scalars::numberparse::{Number, Numeral, parse_number, parse_short};

// The length of the number at the front, if one is there.
#[inline(always)]
pub(crate) fn number_len(bytes: &[u8]) -> Option<usize>
    ensures { (b : List ℕ) (i : ℕ) → drop i b ≡ bytes.now → IsNumberLen b i result }
{
    if let Some(Numeral::Decimal(len)) = parse_short(bytes) {
        return Some(len);
    }
    match parse_number(bytes) {
        Number::Integer(_, len) => Some(len),
        Number::Decimal(len) => Some(len),
        Number::Invalid(_) => None,
    }
}

// The float nearest to the number at the front, if it has a fraction, no exponent, and a byte after
// it: then its digits are read once.
#[inline]
pub(crate) fn fraction(bytes: &[u8]) -> Option<f64>
    requires { 0 < length bytes.now }
    ensures { (b : List ℕ) (i : ℕ) → drop i b ≡ bytes.now → IfSome result (IsDecimalFloat b i) }
{
    let minus = bytes[0] == b'-';
    let start = minus as usize;
    let numeral = fast_float::Numeral::scan(&bytes[start..]);
    let whole = numeral.whole();
    let places = numeral.fraction().len();
    if places == 0 || whole.is_empty() || numeral.len() != whole.len() + 1 + places {
        return None;
    }
    if whole[0] == b'0' && whole.len() > 1 {
        return None;
    }
    let end = start + numeral.len();
    if end == bytes.len() || !is_structural_or_whitespace(bytes[end]) {
        return None;
    }
    Some(numeral.to_float(minus))
}
