use simd_json_parts::node::StaticNode;
use simd_json_scalars::numberparse::{Number, Numeral, is_integer, parse_number, parse_numeral};
use std::test::Fail;

const NUMBERS: [(&[u8], Number); 49] = [
    (b"0", Number::Integer(StaticNode::U64(0), 1)),
    (b"-0", Number::Integer(StaticNode::I64(0), 2)),
    (b"-1", Number::Integer(StaticNode::I64(-1), 2)),
    (b"257", Number::Integer(StaticNode::U64(257), 3)),
    (
        b"18446744073709551615",
        Number::Integer(StaticNode::U64(u64::MAX), 20),
    ),
    (
        b"-9223372036854775808",
        Number::Integer(StaticNode::I64(i64::MIN), 20),
    ),
    (b"123]", Number::Integer(StaticNode::U64(123), 3)),
    (b"123,", Number::Integer(StaticNode::U64(123), 3)),
    (b"123 ", Number::Integer(StaticNode::U64(123), 3)),
    (b"1e309", Number::Decimal(5)),
    (b"1E-7", Number::Decimal(4)),
    (b"-0.0", Number::Decimal(4)),
    (b"1.50", Number::Decimal(4)),
    (b"0e99999999999", Number::Decimal(13)),
    (b"", Number::Invalid(0)),
    (b"x", Number::Invalid(0)),
    (
        b"18446744073709551616",
        Number::Integer(StaticNode::U128(1 << 64), 20),
    ),
    (b"18446744073709551616x", Number::Invalid(20)),
    (
        b"-9223372036854775809",
        Number::Integer(StaticNode::I128(-9_223_372_036_854_775_809), 20),
    ),
    (
        b"-18446744073709551616",
        Number::Integer(StaticNode::I128(-18_446_744_073_709_551_616), 21),
    ),
    (
        b"340282366920938463463374607431768211455",
        Number::Integer(StaticNode::U128(u128::MAX), 39),
    ),
    (
        b"-170141183460469231731687303715884105728",
        Number::Integer(StaticNode::I128(i128::MIN), 40),
    ),
    (
        b"340282366920938463463374607431768211456",
        Number::Invalid(38),
    ),
    (
        b"-170141183460469231731687303715884105729",
        Number::Invalid(40),
    ),
    (
        b"-340282366920938463463374607431768211456",
        Number::Invalid(39),
    ),
    (
        b"99999999999999999999999999999999999999,",
        Number::Integer(
            StaticNode::U128(99_999_999_999_999_999_999_999_999_999_999_999_999),
            38,
        ),
    ),
    (b"01", Number::Invalid(1)),
    (b"-01", Number::Invalid(2)),
    (b"1a", Number::Invalid(1)),
    (b"123a", Number::Invalid(3)),
    (b"1_000", Number::Invalid(1)),
    (b"0x1", Number::Invalid(1)),
    (b"-", Number::Invalid(1)),
    (b"-x", Number::Invalid(1)),
    (b"-.5", Number::Invalid(1)),
    (b"1e", Number::Invalid(2)),
    (b"1e+", Number::Invalid(3)),
    (b"1e]", Number::Invalid(2)),
    (b"9e-]", Number::Invalid(3)),
    (b"0.1.2", Number::Invalid(3)),
    (b"-1.0.", Number::Invalid(4)),
    (b"1.2a-3", Number::Invalid(3)),
    (b"1.8011670033376514H-308", Number::Invalid(18)),
    (b"1.", Number::Invalid(2)),
    (b"1.e", Number::Invalid(2)),
    (b"1.0e", Number::Invalid(4)),
    (b"0e99999999999x", Number::Invalid(13)),
    (b"0e99999999999.5", Number::Invalid(13)),
    (b"1\"a\"", Number::Invalid(1)),
];

#[test]
fn numbers_are_read(rt: HostRuntime) {
    for (bytes, number) in &NUMBERS {
        assert_eq!(rt; parse_number(bytes), *number);
    }
    assert!(rt; matches!(parse_number(b"-0"), Number::Integer(StaticNode::I64(0), 2)));
}

// Of more digits than an integer has.
#[test]
fn long_numbers_are_rejected(rt: HostRuntime) {
    let mut digits = [b'9'; 10_001];
    assert_eq!(rt; parse_number(&digits[1..]), Number::Invalid(38));
    digits[0] = b'-';
    assert_eq!(rt; parse_number(&digits), Number::Invalid(39));
}

const NUMERALS: [(&[u8], Numeral); 10] = [
    (b"0", Numeral::Integer(0)),
    (b"-0,", Numeral::Integer(0)),
    (b"257]", Numeral::Integer(257)),
    (
        b"-257 is read at one look at 32 bytes",
        Numeral::Integer(257),
    ),
    (
        b"9999999999999999999,",
        Numeral::Integer(9_999_999_999_999_999_999),
    ),
    (b"18446744073709551615", Numeral::Long(20)),
    (b"-9223372036854775808", Numeral::Long(20)),
    (b"-9223372036854775809x", Numeral::Invalid(20)),
    (b"-1.5e7", Numeral::Decimal(6)),
    (b"-x", Numeral::Invalid(1)),
];

#[test]
fn numerals_are_read(rt: HostRuntime) {
    for (bytes, numeral) in &NUMERALS {
        assert_eq!(rt; parse_numeral(bytes), *numeral);
    }
}

#[test]
fn ten_bytes_are_digits(rt: HostRuntime) {
    for c in 0..=u8::MAX {
        assert_eq!(rt; is_integer(c), b"0123456789".contains(&c), "{c}");
    }
}

// The number at the front, read byte by byte as the grammar has it.
fn read_plainly(bytes: &[u8]) -> Numeral {
    let minus = if bytes.starts_with(b"-") { 1 } else { 0 };
    let end = digits_end(bytes, minus);
    let whole = match bytes.get(minus) {
        Some(b'0') => minus + 1,
        _ => end,
    };
    if whole == minus {
        return Numeral::Invalid(minus);
    }
    match literal_end(bytes, whole) {
        Ok(end) if end == whole => numeral_of(&bytes[minus..whole], minus, bytes.get(whole)),
        Ok(end) if ends_number(bytes.get(end)) => Numeral::Decimal(end),
        Ok(end) | Err(end) => Numeral::Invalid(end),
    }
}

// The end of the fraction and the exponent, or where one breaks off.
fn literal_end(bytes: &[u8], whole: usize) -> std::result::Result<usize, usize> {
    let mut end = whole;
    if let Some(b'.') = bytes.get(end) {
        let digits = end + 1;
        end = digits_end(bytes, digits);
        if end == digits {
            return Err(end);
        }
    }
    if let Some(b'e' | b'E') = bytes.get(end) {
        let digits = match bytes.get(end + 1) {
            Some(b'+' | b'-') => end + 2,
            _ => end + 1,
        };
        end = digits_end(bytes, digits);
        if end == digits {
            return Err(end);
        }
    }
    Ok(end)
}

fn digits_end(bytes: &[u8], from: usize) -> usize {
    let mut end = from;
    while let Some(b'0'..=b'9') = bytes.get(end) {
        end += 1;
    }
    end
}

// Whether a number ends before this byte, or at the end of the input.
fn ends_number(next: Option<&u8>) -> bool {
    match next {
        Some(c) => b"[]{}:, \t\n\r".contains(c),
        None => true,
    }
}

// Whether one look at 32 bytes reads what is read byte by byte, where this many bytes follow.
fn agrees(
    rt: &HostRuntime,
    number: &[u8],
    more: u8,
    count: usize,
) -> std::result::Result<bool, Fail> {
    let mut bytes = Vec::from_slice(rt.alloc(), number)?;
    for _ in 0..count {
        bytes.push(more)?;
    }
    Ok(parse_numeral(bytes.as_slice()) == read_plainly(bytes.as_slice()))
}

#[test]
fn five_bytes_are_read_at_one_look(rt: HostRuntime) -> std::result::Result<(), Fail> {
    let pieces = [b'0', b'7', b'-', b'.', b'e', b',', b'x'];
    for n in 0..16_807 {
        let mut number = Vec::new(rt.alloc());
        let mut rest = n;
        for _ in 0..5 {
            if let Some(c) = pieces.get(rest % 7) {
                number.push(*c)?;
            }
            rest /= 7;
        }
        for more in [b' ', b'9', b'.'] {
            assert!(rt; agrees(&rt, number.as_slice(), more, 30)?, "{n} {more}");
        }
    }
    Ok(())
}

#[test]
fn numbers_of_every_length_are_read_at_one_look(rt: HostRuntime) -> std::result::Result<(), Fail> {
    for whole in 0..36 {
        for fraction in 0..36 {
            let mut number = Vec::new(rt.alloc());
            for _ in 0..whole {
                number.push(b'1')?;
            }
            assert!(rt;
                agrees(&rt, number.as_slice(), b']', fraction)?,
                "{whole} {fraction}"
            );
            number.push(b'.')?;
            for _ in 0..fraction {
                number.push(b'2')?;
            }
            for more in [b',', b'e'] {
                assert!(rt;
                    agrees(&rt, number.as_slice(), more, 32)?,
                    "{whole} {fraction}"
                );
            }
        }
    }
    Ok(())
}

// What digits are read as, by the grammar, after a minus or none and before a byte or the end: no
// digit, no point and no mark of an exponent follows.
fn numeral_of(digits: &[u8], minus: usize, next: Option<&u8>) -> Numeral {
    let len = minus.wrapping_add(digits.len());
    let mut magnitude = 0u64;
    for c in digits {
        magnitude = magnitude
            .wrapping_mul(10)
            .wrapping_add(c.wrapping_sub(b'0') as u64);
    }
    if digits.len() > 1 && digits.starts_with(b"0") {
        return Numeral::Invalid(minus.wrapping_add(1));
    }
    if !ends_number(next) {
        Numeral::Invalid(len)
    } else if len > 19 {
        Numeral::Long(len)
    } else {
        Numeral::Integer(magnitude)
    }
}

#[test]
fn digits_of_every_length_are_read(rt: HostRuntime) -> std::result::Result<(), Fail> {
    let runs = [
        b"12345678909876543210",
        b"99999999999999999999",
        b"10000000000000000001",
        b"00000000000000000009",
        b"05928374650192837465",
    ];
    let nexts = b"[]{}:, \t\n\r/;x-\x00\x80\xff";
    let more = b"7,x.9\xff0-]1e8:\x00 5/;3}\x80 6:9\"2+[4\n7{0:99,8]";
    for n in 0..147_600 {
        if let Some(run) = runs.get(n / 29_520) {
            let digits = &run[..n / 82 % 20 + 1];
            let minus = n / 41 % 2;
            let next = nexts.get(n / 1640 % 18);
            let mut bytes = Vec::new(rt.alloc());
            if minus == 1 {
                bytes.push(b'-')?;
            }
            bytes.extend_from_slice(digits)?;
            if let Some(c) = next {
                bytes.push(*c)?;
                bytes.extend_from_slice(&more[..n % 41])?;
            }
            assert_eq!(rt;
                parse_numeral(bytes.as_slice()),
                numeral_of(digits, minus, next),
                "{n}"
            );
        }
    }
    Ok(())
}
