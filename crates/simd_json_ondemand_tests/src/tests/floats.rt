// Numbers as the nearest `f64`.
use super::MEMORY;
use simd_json_ondemand::{Document, Index};
use std::num::f64_to_bits_with_nan;

// Literals, and the bits of the float nearest to each, as Python's `struct.pack('>d', ..)` has
// them.
const FLOATS: &[(&[u8], u64)] = &[
    (b"0", 0x0000_0000_0000_0000),
    (b"-0", 0x8000_0000_0000_0000),
    (b"1", 0x3ff0_0000_0000_0000),
    (b"-1", 0xbff0_0000_0000_0000),
    (b"0.1", 0x3fb9_9999_9999_999a),
    (b" 0.5 ", 0x3fe0_0000_0000_0000),
    (b"-0.25", 0xbfd0_0000_0000_0000),
    (b"-0.0", 0x8000_0000_0000_0000),
    (b"65.613616999999977", 0x4050_6745_803c_d140),
    (b"-141.00299999999999", 0xc061_a018_9374_bc6a),
    (b"-1e3", 0xc08f_4000_0000_0000),
    (b"1.7976931348623157e308", 0x7fef_ffff_ffff_ffff),
    (b"1e400", 0x7ff0_0000_0000_0000),
    (b"-1e400", 0xfff0_0000_0000_0000),
    (b"4.9e-324", 0x0000_0000_0000_0001),
    (b"1e-400", 0x0000_0000_0000_0000),
    (b"-1e-400", 0x8000_0000_0000_0000),
    (b"2.2250738585072014E-308", 0x0010_0000_0000_0000),
    (b"9007199254740993", 0x4340_0000_0000_0000),
    (b"9007199254740991.5", 0x4340_0000_0000_0000),
    (
        b"340282366920938463463374607431768211455",
        0x47f0_0000_0000_0000,
    ),
    (
        b"-170141183460469231731687303715884105728",
        0xc7e0_0000_0000_0000,
    ),
    (b"12345678901234567890123.4E-5", 0x437b_69b4_ba63_0f35),
    (b"123456789.123456789", 0x419d_6f34_547e_6b75),
    (
        b"0.000000000000000000000000000000000000000000000001",
        0x35f7_624f_8a76_2fd8,
    ),
];

#[test]
fn numbers_are_read_as_the_nearest_float(rt: HostRuntime) {
    let mut index = Index::new(rt.alloc(), 64).expect(&rt, MEMORY);
    for (input, bits) in FLOATS {
        let value = Document::scan(&mut index, input)
            .expect(&rt, "it is scanned")
            .as_value();
        let found = match value.as_f64() {
            Some(number) => Some(f64_to_bits_with_nan(number)),
            None => None,
        };
        assert_eq!(rt; found, Some(*bits), "{input:?}");
    }
    for input in [
        b"\"1\"".as_slice(),
        b"null",
        b"[1]",
        b"{}",
        b"nan",
        b"inf",
        b"+1",
        b".5",
        b"-.5",
        b"01.5",
        b"-00.5",
        b"1.",
        b"1.5x",
        b"1.5.",
    ] {
        let value = Document::scan(&mut index, input)
            .expect(&rt, "it is scanned")
            .as_value();
        assert_eq!(rt; value.as_f64(), None, "{input:?}");
    }
}
