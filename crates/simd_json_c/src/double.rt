//! The literal of a number as floating point.
ghost use Rattle.simd_json_c.specs.Doubles.{IsDoublePut};

use crate::fraction::short_fraction;
use crate::status::{INVALID_NUMBER, OK};
use simd_json_scalars::numberparse::{Number, parse_number};

/// Writes the double nearest to a number, as it is written: with its digits, fraction and exponent.
#[unsafe(no_mangle)]
pub extern "C" fn simd_json_double(literal: &[u8], number: &mut f64) -> i32
    ensures { IsDoublePut literal.now result number.old number.new }
{
    match short_fraction(literal) {
        Some(nearest) => {
            *number = nearest;
            OK
        }
        None => put_nearest(literal, number),
    }
}

// The same of any literal.
#[cold]
#[inline(never)]
fn put_nearest(literal: &[u8], number: &mut f64) -> i32
    ensures { IsDoublePut literal.now result number.old number.new }
{
    let len = match parse_number(literal) {
        Number::Integer(_, len) => len,
        Number::Decimal(len) => len,
        Number::Invalid(_) => return INVALID_NUMBER,
    };
    if len != literal.len() {
        return INVALID_NUMBER;
    }
    match fast_float::parse(literal) {
        Ok(nearest) => {
            *number = nearest;
            OK
        }
        Err(_) => INVALID_NUMBER,
    }
}
