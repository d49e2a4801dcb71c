// Scalars of a tape, what fits none of them, and floats.
use crate::tests::{MEMORY, bytes_of, read_owned_from};
use serde::DeserializeOwned;
use simd_json::tape::Value;
use simd_json::to_tape;
use simd_json_serde::from_value;
use std::alloc::Global;
use std::process::Abort;

// The element with this index, if it is read as the type.
fn read_at<T: DeserializeOwned>(
    rt: &impl Abort,
    alloc: Global,
    array: &Value<'_, '_>,
    index: usize,
) -> Option<T> {
    let element = array.get_idx(index).expect(rt, "it is there");
    from_value(alloc, &element).ok()
}

#[test]
fn integers_are_read_where_they_fit(rt: HostRuntime) {
    let alloc = rt.alloc();
    let text = "[-128,-129,255,256,65536,-2147483649,18446744073709551616]";
    let mut input = bytes_of(&rt, alloc, text);
    let tape = to_tape(alloc, &mut input).expect(&rt, MEMORY);
    let array = tape.as_value();
    assert_eq!(rt; read_at::<i8>(&rt, alloc, &array, 0), Some(-128));
    assert_eq!(rt; read_at::<i8>(&rt, alloc, &array, 1), None);
    assert_eq!(rt; read_at::<i16>(&rt, alloc, &array, 1), Some(-129));
    assert_eq!(rt; read_at::<i16>(&rt, alloc, &array, 4), None);
    assert_eq!(rt; read_at::<i32>(&rt, alloc, &array, 4), Some(65536));
    assert_eq!(rt; read_at::<i32>(&rt, alloc, &array, 5), None);
    assert_eq!(rt; read_at::<i64>(&rt, alloc, &array, 5), Some(-2147483649));
    assert_eq!(rt; read_at::<i64>(&rt, alloc, &array, 6), None);
    assert_eq!(rt;
        read_at::<i128>(&rt, alloc, &array, 6),
        Some(18446744073709551616)
    );
    assert_eq!(rt; read_at::<u8>(&rt, alloc, &array, 2), Some(255));
    assert_eq!(rt; read_at::<u8>(&rt, alloc, &array, 3), None);
    assert_eq!(rt; read_at::<u16>(&rt, alloc, &array, 3), Some(256));
    assert_eq!(rt; read_at::<u16>(&rt, alloc, &array, 4), None);
    assert_eq!(rt; read_at::<u32>(&rt, alloc, &array, 4), Some(65536));
    assert_eq!(rt; read_at::<u32>(&rt, alloc, &array, 0), None);
    assert_eq!(rt; read_at::<u64>(&rt, alloc, &array, 3), Some(256));
    assert_eq!(rt; read_at::<u64>(&rt, alloc, &array, 6), None);
    assert_eq!(rt;
        read_at::<u128>(&rt, alloc, &array, 6),
        Some(18446744073709551616)
    );
}

#[test]
fn other_scalars_are_read(rt: HostRuntime) {
    let alloc = rt.alloc();
    let mut input = bytes_of(&rt, alloc, r#"[true,"\u00e9","a\n",1.5,1e400,null]"#);
    let tape = to_tape(alloc, &mut input).expect(&rt, MEMORY);
    let array = tape.as_value();
    assert_eq!(rt; read_at::<bool>(&rt, alloc, &array, 0), Some(true));
    assert_eq!(rt; read_at::<bool>(&rt, alloc, &array, 5), None);
    assert_eq!(rt; read_at::<char>(&rt, alloc, &array, 1), Some('é'));
    assert_eq!(rt; read_at::<char>(&rt, alloc, &array, 2), None);
    let text = read_at::<String>(&rt, alloc, &array, 2);
    assert!(rt; text.is_some_and(|text| text.as_str() == "a\n"), "a string");
    assert_eq!(rt; read_at::<f64>(&rt, alloc, &array, 3), Some(1.5));
    assert_eq!(rt; read_at::<f32>(&rt, alloc, &array, 3), Some(1.5));
    assert_eq!(rt; read_at::<f64>(&rt, alloc, &array, 4), None);
    assert_eq!(rt; read_at::<f32>(&rt, alloc, &array, 5), None);
}

// The bits of the nearest `f64` and `f32`, by Python's `float` and `fractions`; none past the
// greatest. Halves go to the even one.
const NEAREST: [(&str, Option<u64>, Option<u32>); 24] = [
    (
        "9007199254740993",
        Some(0x4340000000000000),
        Some(0x5a000000),
    ),
    (
        "9007199254740993.0",
        Some(0x4340000000000000),
        Some(0x5a000000),
    ),
    (
        "9007199254740993.00000000000000000000000000000001",
        Some(0x4340000000000001),
        Some(0x5a000000),
    ),
    (
        "-9007199254740993",
        Some(0xc340000000000000),
        Some(0xda000000),
    ),
    (
        "18446744073709551615",
        Some(0x43f0000000000000),
        Some(0x5f800000),
    ),
    (
        "340282366920938463463374607431768211455",
        Some(0x47f0000000000000),
        None,
    ),
    (
        "-170141183460469231731687303715884105728",
        Some(0xc7e0000000000000),
        Some(0xff000000),
    ),
    ("1e23", Some(0x44b52d02c7e14af6), Some(0x65a96816)),
    ("-0.0", Some(0x8000000000000000), Some(0x80000000)),
    ("1e-400", Some(0x0000000000000000), Some(0x00000000)),
    (
        "2.4703282292062327e-324",
        Some(0x0000000000000000),
        Some(0x00000000),
    ),
    (
        "2.4703282292062328e-324",
        Some(0x0000000000000001),
        Some(0x00000000),
    ),
    (
        "2.2250738585072011e-308",
        Some(0x000fffffffffffff),
        Some(0x00000000),
    ),
    ("1.797693134862315807e308", Some(0x7fefffffffffffff), None),
    ("1.797693134862315808e308", None, None),
    ("1e309", None, None),
    ("16777217", Some(0x4170000010000000), Some(0x4b800000)),
    (
        "16777217.000000001",
        Some(0x4170000010000000),
        Some(0x4b800001),
    ),
    (
        "1.000000059604644775390625",
        Some(0x3ff0000010000000),
        Some(0x3f800000),
    ),
    (
        "1.00000005960464477539062500000001",
        Some(0x3ff0000010000000),
        Some(0x3f800001),
    ),
    (
        "3.4028235677973365e38",
        Some(0x47effffff0000000),
        Some(0x7f7fffff),
    ),
    (
        "3.4028235677973366e38",
        Some(0x47effffff0000000),
        Some(0x7f7fffff),
    ),
    (
        "7.006492321624085e-46",
        Some(0x3690000000000000),
        Some(0x00000000),
    ),
    (
        "7.006492321624086e-46",
        Some(0x3690000000000000),
        Some(0x00000001),
    ),
];

#[test]
fn floats_are_the_nearest(rt: HostRuntime) {
    let alloc = rt.alloc();
    for (literal, double, single) in NEAREST {
        let found = read_owned_from::<f64>(&rt, alloc, literal).ok();
        assert_eq!(rt; found.map(|x| f64::to_bits(x)), double, "{literal}");
        let found = read_owned_from::<f32>(&rt, alloc, literal).ok();
        assert_eq!(rt; found.map(|x| f32::to_bits(x)), single, "{literal}");
    }
}
