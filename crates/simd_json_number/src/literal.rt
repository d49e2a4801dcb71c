//! The parts of a literal.
ghost use Rattle.std.specs.Int.Digits.{number_from_digits};
ghost use Rattle.std.specs.List.{position_or_len};
ghost use Rattle.std.specs.Prelude.{◌≡◌, ◌+◌, ◌<◌, drop, length, slice_index, IsTrue};
ghost use Rattle.simd_json_number.specs.Numbers.{digits, is_e, is_point};
ghost use Rattle.simd_json_parts.specs.Numbers.{has_minus};
ghost use Rattle.simd_json_parts.specs.Integers.{number_of};

// A literal, without what does not change its value.
#[derive(Clone, Copy, Debug)]
pub(crate) struct LiteralParts<'text> {
    // Whether it is below zero.
    pub(crate) is_negative: bool,
    // What is before the `e`, from the first digit on that is not 0: nothing for zero.
    pub(crate) significant: &'text [u8],
    // What is after the point.
    pub(crate) fraction: &'text [u8],
    // What is after the `e`.
    pub(crate) exponent: &'text [u8],
    ghost leading: { 0 < length significant.now → 0 < slice_index (digits significant.now) 0 },
    ghost below_zero: { IsTrue is_negative → 0 < length significant.now },
}

impl<'text> LiteralParts<'text> {
    ghost use Rattle.simd_json_number.specs.Magnitudes.{exponent, magnitude, value};
    ghost use Rattle.simd_json_number.specs.Numbers.{meaning};

    pub(crate) fn of(bytes: &'text [u8]) -> LiteralParts<'text>
        ensures { value result ≡ meaning bytes.now }
    {
        let end = exponent_at(bytes);
        let significand = &bytes[..end];
        let significant = significant(significand);
        LiteralParts {
            is_negative: has_minus(significand) && !significant.is_empty(),
            significant,
            fraction: after(significand, point_at(significand)),
            exponent: after(bytes, end),
        }
    }

    // The same number, below zero or not.
    pub(crate) fn with_sign(self, is_negative: bool) -> LiteralParts<'text>
        ensures magnitude { magnitude result ≡ magnitude self.entry }
        ensures exponent { exponent result ≡ exponent self.entry }
        ensures sign { number_of result.is_negative (magnitude self.entry)
            ≡ number_of is_negative (magnitude self.entry) }
    {
        LiteralParts {
            is_negative: is_negative && !self.significant.is_empty(),
            significant: self.significant,
            fraction: self.fraction,
            exponent: self.exponent,
        }
    }
}

// The index of the `e`, or how many bytes there are.
fn exponent_at(bytes: &[u8]) -> usize
    ensures { result ≡ position_or_len is_e bytes.now }
{
    for (index, byte) in bytes.iter().enumerate() {
        if *byte == b'e' || *byte == b'E' {
            return index;
        }
    }
    bytes.len()
}

// The index of the point, or how many bytes there are.
fn point_at(significand: &[u8]) -> usize
    ensures { result ≡ position_or_len is_point significand.now }
{
    for (index, byte) in significand.iter().enumerate() {
        if *byte == b'.' {
            return index;
        }
    }
    significand.len()
}

// The bytes after an index.
fn after(bytes: &[u8], index: usize) -> &[u8]
    ensures { result.now ≡ drop (index + 1) bytes.now }
{
    if index < bytes.len() {
        return &bytes[index + 1..];
    }
    &[]
}

// From the first digit on that is not 0.
fn significant(significand: &[u8]) -> &[u8]
    ensures same { number_from_digits 10 (digits result.now)
        ≡ number_from_digits 10 (digits significand.now) }
    ensures leading { 0 < length result.now → 0 < slice_index (digits result.now) 0 }
{
    let mut left = significand;
    while let Some((first, others)) = left.split_first() {
        if *first >= b'1' && *first <= b'9' {
            return left;
        }
        left = others;
    }
    left
}

// Whether they begin with `-`.
pub(crate) fn has_minus(bytes: &[u8]) -> bool
    ensures { result ≡ has_minus bytes.now }
{
    match bytes.first() {
        Some(first) => *first == b'-',
        None => false,
    }
}
