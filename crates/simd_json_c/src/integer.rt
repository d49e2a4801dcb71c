//! The literal of an integer as 128 bits.
ghost use Rattle.std.specs.Prelude.{◌≡◌, ◌%◌};
ghost use Rattle.simd_json_c.specs.Integers.{IsIntegerPut, bits_of};

use crate::status::{INVALID_NUMBER, OK};
use simd_json::StaticNode;
use simd_json_scalars::numberparse::{Number, parse_number};

/// Writes an integer, as it is written, as the lower and the upper half of its 128 bits: of a
/// negative one in two's complement.
#[unsafe(no_mangle)]
pub extern "C" fn simd_json_integer(literal: &[u8], low: &mut u64, high: &mut u64) -> i32
    ensures { IsIntegerPut literal.now result low.old low.new high.old high.new }
{
    let Number::Integer(node, len) = parse_number(literal) else {
        return INVALID_NUMBER;
    };
    if len != literal.len() {
        return INVALID_NUMBER;
    }
    let bits = bits_of(node);
    *low = (bits % (1 << 64)) as u64;
    *high = (bits >> 64) as u64;
    OK
}

// The bits of an integer in two's complement.
fn bits_of(node: StaticNode) -> u128
    ensures { result ≡ bits_of node }
{
    match node {
        StaticNode::I64(value) => (value as i128).cast_unsigned(),
        StaticNode::U64(value) => value as u128,
        StaticNode::I128(value) => value.cast_unsigned(),
        StaticNode::U128(value) => value,
        _ => 0,
    }
}
