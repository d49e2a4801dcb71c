// What accessors and comparisons return: the ends of each width, and each kind beside the others.
use crate::tests::{Tested, array_len, object_len};
use simd_json::tape::{Array, Object, Value};
use simd_json::{Node, StaticNode, TryTypeError, ValueType, to_tape};
use std::process::Abort;

// The result for each integer type: from i8 to i128, from u8 to u128, and usize.
type Each = [Option<i128>; 11];

type TriedEach<T> = [std::result::Result<T, TryTypeError>; 11];

// The kind that is expected for each.
const EXPECTED: [ValueType; 11] = [
    ValueType::I64,
    ValueType::I64,
    ValueType::I64,
    ValueType::I64,
    ValueType::I128,
    ValueType::U64,
    ValueType::U64,
    ValueType::U64,
    ValueType::U64,
    ValueType::U128,
    ValueType::U64,
];

const NONE: Each = [None; 11];

// The number as the widest one with a sign. Here and below a call takes the place of `map` with a
// function, since it is proved in less time.
fn widened<T: Drop>(number: Option<T>) -> Option<i128>
where
    i128: From<T>,
{
    match number {
        Some(number) => Some(i128::from(number)),
        None => None,
    }
}

fn of_usize(number: usize) -> i128 {
    i128::from(number as u64)
}

fn widened_usize(number: Option<usize>) -> Option<i128> {
    match number {
        Some(number) => Some(of_usize(number)),
        None => None,
    }
}

// The number, or -1 for one that is past `i128`.
fn of_u128(number: u128) -> i128 {
    i128::try_from(number).unwrap_or(-1)
}

fn narrowed(number: Option<u128>) -> Option<i128> {
    match number {
        Some(number) => Some(of_u128(number)),
        None => None,
    }
}

fn tried<T: Drop>(
    number: std::result::Result<T, TryTypeError>,
) -> std::result::Result<i128, TryTypeError>
where
    i128: From<T>,
{
    match number {
        Ok(number) => Ok(i128::from(number)),
        Err(rejection) => Err(rejection),
    }
}

fn tried_keyed<T: Drop>(
    number: std::result::Result<Option<T>, TryTypeError>,
) -> std::result::Result<Option<i128>, TryTypeError>
where
    i128: From<T>,
{
    match number {
        Ok(number) => Ok(widened(number)),
        Err(rejection) => Err(rejection),
    }
}

fn as_each(value: &Value<'_, '_>) -> Each {
    [
        widened(value.as_i8()),
        widened(value.as_i16()),
        widened(value.as_i32()),
        widened(value.as_i64()),
        value.as_i128(),
        widened(value.as_u8()),
        widened(value.as_u16()),
        widened(value.as_u32()),
        widened(value.as_u64()),
        narrowed(value.as_u128()),
        widened_usize(value.as_usize()),
    ]
}

fn get_each(value: &Value<'_, '_>, k: &str) -> Each {
    [
        widened(value.get_i8(k)),
        widened(value.get_i16(k)),
        widened(value.get_i32(k)),
        widened(value.get_i64(k)),
        value.get_i128(k),
        widened(value.get_u8(k)),
        widened(value.get_u16(k)),
        widened(value.get_u32(k)),
        widened(value.get_u64(k)),
        narrowed(value.get_u128(k)),
        widened_usize(value.get_usize(k)),
    ]
}

fn try_as_each(value: &Value<'_, '_>) -> TriedEach<i128> {
    [
        tried(value.try_as_i8()),
        tried(value.try_as_i16()),
        tried(value.try_as_i32()),
        tried(value.try_as_i64()),
        value.try_as_i128(),
        tried(value.try_as_u8()),
        tried(value.try_as_u16()),
        tried(value.try_as_u32()),
        tried(value.try_as_u64()),
        value.try_as_u128().map(of_u128),
        value.try_as_usize().map(of_usize),
    ]
}

fn try_get_each(value: &Value<'_, '_>, k: &str) -> TriedEach<Option<i128>> {
    [
        tried_keyed(value.try_get_i8(k)),
        tried_keyed(value.try_get_i16(k)),
        tried_keyed(value.try_get_i32(k)),
        tried_keyed(value.try_get_i64(k)),
        value.try_get_i128(k),
        tried_keyed(value.try_get_u8(k)),
        tried_keyed(value.try_get_u16(k)),
        tried_keyed(value.try_get_u32(k)),
        tried_keyed(value.try_get_u64(k)),
        value.try_get_u128(k).map(narrowed),
        value.try_get_usize(k).map(widened_usize),
    ]
}

// Whether the value is equal to the number as one of each type that it fits.
fn eq_each(value: &Value<'_, '_>, number: i128) -> [bool; 11] {
    [
        matches!(i8::try_from(number), Ok(n) if value.eq_i8(n)),
        matches!(i16::try_from(number), Ok(n) if value.eq_i16(n)),
        matches!(i32::try_from(number), Ok(n) if value.eq_i32(n)),
        matches!(i64::try_from(number), Ok(n) if value.eq_i64(n)),
        value.eq_i128(number),
        matches!(u8::try_from(number), Ok(n) if value.eq_u8(n)),
        matches!(u16::try_from(number), Ok(n) if value.eq_u16(n)),
        matches!(u32::try_from(number), Ok(n) if value.eq_u32(n)),
        matches!(u64::try_from(number), Ok(n) if value.eq_u64(n)),
        matches!(u128::try_from(number), Ok(n) if value.eq_u128(n)),
        matches!(usize::try_from(number), Ok(n) if value.eq_usize(n)),
    ]
}

// What each integer accessor returns of the value with the key `k` of a document, which is of the
// kind `got`.
fn assert_each(
    rt: &(impl AllocGlobal + Abort),
    document: &Value<'_, '_>,
    k: &str,
    got: ValueType,
    wanted: &Each,
) {
    let value = document.get(k).expect(rt, "it is there");
    assert_eq!(rt; value.value_type(), got, "{k:?}");
    assert_eq!(rt; as_each(&value), *wanted, "{k:?}");
    assert_eq!(rt; get_each(document, k), *wanted, "{k:?}");
    let tried = try_as_each(&value);
    let tried_keyed = try_get_each(document, k);
    for (i, expected) in EXPECTED.iter().enumerate() {
        let rejection = TryTypeError {
            expected: *expected,
            got,
        };
        let answer = wanted[i].ok_or(rejection);
        assert_eq!(rt; tried[i], answer, "{k:?}");
        assert_eq!(rt; tried_keyed[i], answer.map(Some), "{k:?}");
    }
}

// Where the key is missing, and where the value is not an object.
fn assert_missing(rt: &impl Abort, document: &Value<'_, '_>, member: &Value<'_, '_>) {
    assert_eq!(rt; get_each(document, "missing"), NONE);
    assert_eq!(rt; try_get_each(document, "missing"), [Ok(None); 11]);
    let rejection = TryTypeError {
        expected: ValueType::Object,
        got: member.value_type(),
    };
    assert_eq!(rt; get_each(member, "k"), NONE);
    assert_eq!(rt; try_get_each(member, "k"), [Err(rejection); 11]);
}

// The number, where there are at least as many bits as it takes.
fn within(bits: u32, narrowest: u32, number: i128) -> Option<i128> {
    if bits < narrowest { None } else { Some(number) }
}

// The number for each type that is as wide as it takes, with a sign and without.
fn from_bits(with_sign: u32, without: u32, number: i128) -> Each {
    [
        within(8, with_sign, number),
        within(16, with_sign, number),
        within(32, with_sign, number),
        within(64, with_sign, number),
        within(128, with_sign, number),
        within(8, without, number),
        within(16, without, number),
        within(32, without, number),
        within(64, without, number),
        within(128, without, number),
        within(64, without, number),
    ]
}

// A document, its number, and the bits that it takes with a sign and without; 256 where none
// suffice.
type Integer = (&'static [u8], i128, u32, u32);

const INTEGERS: [Integer; 21] = [
    (b"{\"k\":0}", 0, 8, 8),
    (b"{\"k\":-0}", 0, 8, 8),
    (b"{\"k\":-1}", -1, 8, 256),
    (b"{\"k\":-128}", -128, 8, 256),
    (b"{\"k\":-129}", -129, 16, 256),
    (b"{\"k\":127}", 127, 8, 8),
    (b"{\"k\":128}", 128, 16, 8),
    (b"{\"k\":255}", 255, 16, 8),
    (b"{\"k\":300}", 300, 16, 16),
    (b"{\"k\":-32768}", -32_768, 16, 256),
    (b"{\"k\":-32769}", -32_769, 32, 256),
    (b"{\"k\":32768}", 32_768, 32, 16),
    (b"{\"k\":65535}", 65_535, 32, 16),
    (b"{\"k\":65536}", 65_536, 32, 32),
    (b"{\"k\":-2147483649}", -2_147_483_649, 64, 256),
    (b"{\"k\":2147483648}", 2_147_483_648, 64, 32),
    (b"{\"k\":4294967296}", 4_294_967_296, 64, 64),
    (
        b"{\"k\":-9223372036854775808}",
        -9_223_372_036_854_775_808,
        64,
        256,
    ),
    (
        b"{\"k\":9223372036854775807}",
        9_223_372_036_854_775_807,
        64,
        64,
    ),
    (
        b"{\"k\":9223372036854775808}",
        9_223_372_036_854_775_808,
        128,
        64,
    ),
    (
        b"{\"k\":18446744073709551615}",
        18_446_744_073_709_551_615,
        128,
        64,
    ),
];

fn assert_integer(rt: &(impl AllocGlobal + Abort), row: &Integer) -> Tested {
    let (input, number, with_sign, without) = *row;
    let mut read = Vec::from_slice(rt.alloc(), input)?;
    let tape = to_tape(rt.alloc(), read.as_mut_slice())?;
    let document = tape.as_value();
    let got = if input.contains(&b'-') {
        ValueType::I64
    } else {
        ValueType::U64
    };
    let wanted = from_bits(with_sign, without, number);
    assert_each(rt, &document, "k", got, &wanted);
    let value = document.get("k").expect(rt, "it is there");
    assert_missing(rt, &document, &value);
    assert_equal_to(rt, &value, number, &wanted);
    Ok(())
}

// It is equal to its number and no other, as one of each type that the number fits.
fn assert_equal_to(rt: &impl Abort, value: &Value<'_, '_>, number: i128, wanted: &Each) {
    for other in [number, number.wrapping_sub(1), number & 0xff] {
        let is_equal = wanted.map(|fits| fits == Some(other));
        assert_eq!(rt; eq_each(value, other), is_equal, "{number:?}, {other:?}");
    }
}

#[test]
fn integers_fit_from_a_width_on(rt: HostRuntime) -> Tested {
    for row in &INTEGERS {
        assert_integer(&rt, row)?;
    }
    Ok(())
}

// A document, its number with a sign and without, and its kind.
type LongInteger = (&'static [u8], Option<i128>, Option<u128>, ValueType);

const LONG_INTEGERS: [LongInteger; 6] = [
    (
        b"{\"k\":18446744073709551616}",
        Some(1 << 64),
        Some(1 << 64),
        ValueType::U128,
    ),
    (
        b"{\"k\":-9223372036854775809}",
        Some(-9_223_372_036_854_775_809),
        None,
        ValueType::I128,
    ),
    (
        b"{\"k\":170141183460469231731687303715884105727}",
        Some(i128::MAX),
        Some((1 << 127) - 1),
        ValueType::U128,
    ),
    (
        b"{\"k\":170141183460469231731687303715884105728}",
        None,
        Some(1 << 127),
        ValueType::U128,
    ),
    (
        b"{\"k\":-170141183460469231731687303715884105728}",
        Some(i128::MIN),
        None,
        ValueType::I128,
    ),
    (
        b"{\"k\":340282366920938463463374607431768211455}",
        None,
        Some(u128::MAX),
        ValueType::U128,
    ),
];

fn assert_long_integer(rt: &(impl AllocGlobal + Abort), row: &LongInteger) -> Tested {
    let (input, signed, unsigned, kind) = *row;
    let mut read = Vec::from_slice(rt.alloc(), input)?;
    let tape = to_tape(rt.alloc(), read.as_mut_slice())?;
    let document = tape.as_value();
    let mut wanted = NONE;
    wanted[4] = signed;
    wanted[9] = narrowed(unsigned);
    assert_each(rt, &document, "k", kind, &wanted);
    assert_eq!(rt; document.get_u128("k"), unsigned);
    assert_eq!(rt; document.try_get_u128("k").ok(), unsigned.map(Some));
    let value = document.get("k").expect(rt, "it is there");
    assert_eq!(rt;
        (value.as_u128(), value.try_as_u128().ok()),
        (unsigned, unsigned)
    );
    assert_equal_to_signed(rt, &value, signed);
    assert_equal_to_unsigned(rt, &value, unsigned);
    Ok(())
}

const SIGNED: [i128; 3] = [i128::MIN, 1 << 64, i128::MAX];

const UNSIGNED: [u128; 3] = [1 << 64, 1 << 127, u128::MAX];

fn assert_equal_to_signed(rt: &impl Abort, value: &Value<'_, '_>, number: Option<i128>) {
    for other in &SIGNED {
        assert_eq!(rt; value.eq_i128(*other), number == Some(*other));
    }
}

fn assert_equal_to_unsigned(rt: &impl Abort, value: &Value<'_, '_>, number: Option<u128>) {
    for other in &UNSIGNED {
        assert_eq!(rt; value.eq_u128(*other), number == Some(*other));
    }
}

#[test]
fn integers_past_64_bits_have_kinds_of_their_own(rt: HostRuntime) -> Tested {
    for row in &LONG_INTEGERS {
        assert_long_integer(&rt, row)?;
    }
    Ok(())
}

// What an accessor of the kind `expected` returns of a value of the kind `got`.
fn own<T: Drop>(
    expected: ValueType,
    got: ValueType,
    answer: T,
) -> std::result::Result<T, TryTypeError> {
    if expected == got {
        Ok(answer)
    } else {
        Err(TryTypeError { expected, got })
    }
}

// What the accessors of null and truth values return of the value with the key `k`.
fn assert_words(rt: &impl Abort, document: &Value<'_, '_>, k: &str, got: ValueType) {
    let value = document.get(k).expect(rt, "it is there");
    let null = own(ValueType::Null, got, ());
    assert_eq!(rt; (value.as_null(), value.try_as_null()), (null.ok(), null));
    assert_eq!(rt; value.eq_null(), null.is_ok());
    let truth = own(ValueType::Bool, got, true);
    assert_eq!(rt; (value.as_bool(), value.try_as_bool()), (truth.ok(), truth));
    assert_eq!(rt; document.get_bool(k), truth.ok());
    assert_eq!(rt; document.try_get_bool(k), truth.map(Some));
    assert_eq!(rt;
        (value.eq_bool(true), value.eq_bool(false)),
        (truth.is_ok(), false)
    );
}

// What those of strings return.
fn assert_strings(rt: &impl Abort, document: &Value<'_, '_>, k: &str, got: ValueType) {
    let value = document.get(k).expect(rt, "it is there");
    let string = own(ValueType::String, got, "a\n");
    assert_eq!(rt; (value.as_str(), value.try_as_str()), (string.ok(), string));
    assert_eq!(rt; value.into_string(), string.ok());
    assert_eq!(rt; value.try_into_string(), string);
    assert_eq!(rt; document.get_str(k), string.ok());
    assert_eq!(rt; document.try_get_str(k), string.map(Some));
    assert_eq!(rt;
        (value.eq_str("a\n"), value.eq_str("a")),
        (string.is_ok(), false)
    );
}

// What those of decimals return.
fn assert_decimals(rt: &impl Abort, document: &Value<'_, '_>, k: &str, got: ValueType) {
    let value = document.get(k).expect(rt, "it is there");
    let decimal = own(ValueType::Decimal, got, "1.50");
    assert_eq!(rt;
        (value.as_decimal(), value.try_as_decimal()),
        (decimal.ok(), decimal)
    );
    assert_eq!(rt; document.get_decimal(k), decimal.ok());
    assert_eq!(rt; document.try_get_decimal(k), decimal.map(Some));
}

type Tried<T> = std::result::Result<T, TryTypeError>;

fn tried_array_len(array: Tried<Array<'_, '_>>) -> Tried<usize> {
    match array {
        Ok(array) => Ok(array.len()),
        Err(rejection) => Err(rejection),
    }
}

fn keyed_array_len(array: Tried<Option<Array<'_, '_>>>) -> Tried<Option<usize>> {
    match array {
        Ok(array) => Ok(array_len(array)),
        Err(rejection) => Err(rejection),
    }
}

fn tried_object_len(object: Tried<Object<'_, '_>>) -> Tried<usize> {
    match object {
        Ok(object) => Ok(object.len()),
        Err(rejection) => Err(rejection),
    }
}

fn keyed_object_len(object: Tried<Option<Object<'_, '_>>>) -> Tried<Option<usize>> {
    match object {
        Ok(object) => Ok(object_len(object)),
        Err(rejection) => Err(rejection),
    }
}

fn is_there(member: Tried<Option<Value<'_, '_>>>) -> Tried<bool> {
    match member {
        Ok(member) => Ok(member.is_some()),
        Err(rejection) => Err(rejection),
    }
}

// What those of arrays return: how many members there are.
fn assert_arrays(rt: &impl Abort, document: &Value<'_, '_>, k: &str, got: ValueType) {
    let value = document.get(k).expect(rt, "it is there");
    let array = own(ValueType::Array, got, 1usize);
    assert_eq!(rt; value.is_array(), array.is_ok());
    assert_eq!(rt; array_len(value.as_array()), array.ok());
    assert_eq!(rt; array_len(value.into_array()), array.ok());
    assert_eq!(rt; tried_array_len(value.try_as_array()), array);
    assert_eq!(rt; array_len(document.get_array(k)), array.ok());
    assert_eq!(rt; keyed_array_len(document.try_get_array(k)), array.map(Some));
}

// What those of objects return.
fn assert_objects(rt: &impl Abort, document: &Value<'_, '_>, k: &str, got: ValueType) {
    let value = document.get(k).expect(rt, "it is there");
    let object = own(ValueType::Object, got, 2usize);
    assert_eq!(rt; value.is_object(), object.is_ok());
    assert_eq!(rt; object_len(value.as_object()), object.ok());
    assert_eq!(rt; object_len(value.into_object()), object.ok());
    assert_eq!(rt; tried_object_len(value.try_as_object()), object);
    assert_eq!(rt; object_len(document.get_object(k)), object.ok());
    assert_eq!(rt;
        keyed_object_len(document.try_get_object(k)),
        object.map(Some)
    );
}

#[test]
fn kinds_answer_for_themselves_alone(rt: HostRuntime) -> Tested {
    let mut input = *b"{\"null\":null,\"truth\":true,\"string\":\"a\\n\",\"decimal\":1.50,\
        \"minus\":-7,\"plus\":7,\"array\":[[1,2]],\"object\":{\"a\":1,\"b\":{}}}";
    let tape = to_tape(rt.alloc(), &mut input)?;
    let document = tape.as_value();
    let rows = [
        ("null", ValueType::Null, NONE),
        ("truth", ValueType::Bool, NONE),
        ("string", ValueType::String, NONE),
        ("decimal", ValueType::Decimal, NONE),
        ("minus", ValueType::I64, from_bits(8, 256, -7)),
        ("plus", ValueType::U64, from_bits(8, 8, 7)),
        ("array", ValueType::Array, NONE),
        ("object", ValueType::Object, NONE),
    ];
    for (k, got, numbers) in &rows {
        assert_each(&rt, &document, k, *got, numbers);
        assert_words(&rt, &document, k, *got);
        assert_strings(&rt, &document, k, *got);
        assert_decimals(&rt, &document, k, *got);
        assert_arrays(&rt, &document, k, *got);
        assert_objects(&rt, &document, k, *got);
    }
    Ok(())
}

// The kind of each node, and its name.
#[test]
fn kinds_are_named(rt: HostRuntime) -> Tested {
    let rows = [
        (StaticNode::Null, ValueType::Null, "Null"),
        (StaticNode::Bool(false), ValueType::Bool, "Bool"),
        (StaticNode::I64(0), ValueType::I64, "I64"),
        (StaticNode::U64(0), ValueType::U64, "U64"),
        (StaticNode::I128(0), ValueType::I128, "I128"),
        (StaticNode::U128(0), ValueType::U128, "U128"),
    ];
    for (scalar, kind, name) in &rows {
        assert_eq!(rt; scalar.value_type(), *kind);
        assert_eq!(rt; Node::Static(*scalar).value_type(), *kind);
        assert_eq!(rt; kind.to_string(rt.alloc())?.as_str(), *name);
    }
    Ok(())
}

#[test]
fn the_first_value_with_a_key_is_asked(rt: HostRuntime) -> Tested {
    let rows: [(&[u8], usize); 2] = [
        (b"{\"a\":1,\"a\":2}", 2),
        (b"{\"a\":1,\"a\":[2],\"b\":[]}", 3),
    ];
    for (input, len) in rows {
        let mut read = Vec::from_slice(rt.alloc(), input)?;
        let tape = to_tape(rt.alloc(), read.as_mut_slice())?;
        let value = tape.as_value();
        assert_eq!(rt; object_len(value.as_object()), Some(len));
        let first = value.get("a").expect(&rt, "it is there");
        assert!(rt; first.eq_u64(1));
        assert_eq!(rt; value.get_u8("a"), Some(1));
        assert!(rt; value.get_array("a").is_none());
        let other = own(ValueType::Array, ValueType::U64, None);
        assert_eq!(rt; keyed_array_len(value.try_get_array("a")), other);
    }
    Ok(())
}

// For a missing key or index there is nothing; for a value that has none an error names the kind.
#[test]
fn missing_members_differ_from_other_kinds(rt: HostRuntime) -> Tested {
    let mut input = *b"{\"a\":null,\"b\":[7]}";
    let tape = to_tape(rt.alloc(), &mut input)?;
    let object = tape.as_value();
    assert_eq!(rt;
        (object.get_str("c"), object.try_get_str("c")),
        (None, Ok(None))
    );
    assert_eq!(rt; is_there(object.try_get("c")), Ok(false));
    assert_eq!(rt; is_there(object.try_get("a")), Ok(true));
    let no_array = own(ValueType::Array, ValueType::Object, false);
    assert_eq!(rt; is_there(object.try_get_idx(0)), no_array);
    let array = object.get("b").expect(&rt, "it is there");
    assert_eq!(rt; is_there(array.try_get_idx(1)), Ok(false));
    assert_eq!(rt; is_there(array.try_get_idx(0)), Ok(true));
    let no_object = own(ValueType::Object, ValueType::Array, false);
    assert_eq!(rt; is_there(array.try_get("a")), no_object);
    assert_eq!(rt;
        array.try_get_bool("a"),
        own(ValueType::Object, ValueType::Array, None)
    );
    Ok(())
}

// Two documents, and whether they are equal.
type Compared = (&'static [u8], &'static [u8], bool);

const COMPARED: [Compared; 7] = [
    (b"[1]", b"[ 1 ]", true),
    (b"[-0]", b"[0]", true),
    (b"[1.0]", b"[1]", false),
    (b"[1.0]", b"[1.00]", false),
    (b"{\"a\":1,\"b\":2}", b"{\"b\":2,\"a\":1}", false),
    (b"\"\\u0061\"", b"\"a\"", true),
    (b"[-1]", b"[1]", false),
];

fn assert_compared(rt: &(impl AllocGlobal + Abort), row: &Compared) -> Tested {
    let (left, right, same) = *row;
    let mut left = Vec::from_slice(rt.alloc(), left)?;
    let mut right = Vec::from_slice(rt.alloc(), right)?;
    let left = to_tape(rt.alloc(), left.as_mut_slice())?;
    let right = to_tape(rt.alloc(), right.as_mut_slice())?;
    assert!(rt; !left.is_empty() && !right.is_empty());
    assert_eq!(rt; left.as_value() == right.as_value(), same);
    Ok(())
}

#[test]
fn values_are_compared_by_what_they_say(rt: HostRuntime) -> Tested {
    for row in &COMPARED {
        assert_compared(&rt, row)?;
    }
    Ok(())
}
