//! Numbers beside those that a node holds as they are: integers of other types, the float nearest
//! to a literal, and integers as keys.
ghost use Rattle.std.specs.Prelude.{◌≡◌, false, IfErr, IfOk};
ghost use Rattle.std.specs.Result.{result_ok};
ghost use Rattle.std.specs.Float.{binary32, binary64};
ghost use Rattle.serde.specs.Event.{double, unsigned as unsigned_event};
ghost use Rattle.simd_json_serde.specs.Ahead.{ahead, float, nearest, unsigned};
ghost use Rattle.simd_json_serde.specs.Faults.{IsOfNext, reader_fault};
ghost use Rattle.simd_json_serde.specs.Places.{spot};
ghost use Rattle.simd_json_serde.specs.Steps.{IsNearest, ReadsAs};

use crate::error::{MismatchKind, StepFault};
use crate::node_reader::NodeReader;
use simd_json::{Node, StaticNode, ValueType};
use std::num::{nearest_i64_to_f64, nearest_u64_to_f64};

impl<'n, 'i> NodeReader<'n, 'i> {
    // An integer, if it fits the type that is read.
    #[inline(always)]
    pub(crate) fn fitting<T>(&self, number: Option<T>) -> Result<T, StepFault>
        ensures exact { result_ok result ≡ number }
        ensures fault { IfErr result (λ e. e ≡ reader_fault self.now MismatchKind.InvalidValue) }
    {
        match number {
            Some(number) => Ok(number),
            None => Err(self.fault(MismatchKind::InvalidValue)),
        }
    }

    // As `u64`, of any node. Most integers are without a sign and of 64 bits, so it is out of line.
    #[cold]
    #[inline(never)]
    pub(crate) fn other_u64(&mut self) -> Result<u64, StepFault>
        ensures given { IfOk result
            (λ v. ReadsAs (spot self.old) (unsigned_event v) (spot self.new)) }
        ensures exact { self.old.at_key ≡ false
            → result_ok result ≡ ahead (unsigned 64) (spot self.old) }
        ensures place { IfErr result (IsOfNext self.old) }
    {
        let at_key = self.at_key;
        match self.take()? {
            Node::Static(StaticNode::U64(n)) => Ok(n),
            Node::Static(StaticNode::I64(n)) => self.fitting(u64::try_from(n).ok()),
            Node::Static(StaticNode::I128(n)) => self.fitting(u64::try_from(n).ok()),
            Node::Static(StaticNode::U128(n)) => self.fitting(u64::try_from(n).ok()),
            Node::String(key) if at_key && is_integer_key(key) => match key.parse::<u64>() {
                Ok(n) => Ok(n),
                Err(_) => Err(self.fault(MismatchKind::InvalidValue)),
            },
            other => Err(self.unexpected(ValueType::U64, other)),
        }
    }

    // As `f64`, of any node. Most floats are decimals, so it is out of line.
    #[cold]
    #[inline(never)]
    pub(crate) fn other_f64(&mut self) -> Result<f64, StepFault>
        ensures given { IfOk result (λ v. ReadsAs (spot self.old) (double v) (spot self.new)) }
        ensures exact { result_ok result ≡ ahead (float binary64) (spot self.old) }
        ensures place { IfErr result (IsOfNext self.old) }
    {
        match self.take()? {
            Node::Decimal(literal) => self.nearest_f64(literal),
            Node::Static(StaticNode::I64(n)) => Ok(nearest_i64_to_f64(n)),
            Node::Static(StaticNode::U64(n)) => Ok(nearest_u64_to_f64(n)),
            Node::Static(StaticNode::I128(n)) => {
                let mut digits = itoa::Buffer::new();
                self.nearest_f64(digits.format(n))
            }
            Node::Static(StaticNode::U128(n)) => {
                let mut digits = itoa::Buffer::new();
                self.nearest_f64(digits.format(n))
            }
            other => Err(self.unexpected(ValueType::Decimal, other)),
        }
    }

    // The float nearest to a literal, if it is finite.
    pub(crate) fn nearest_f32(&self, literal: &str) -> Result<f32, StepFault>
        ensures near { IfOk result (λ x. IsNearest binary32 x literal.now) }
        ensures exact { result_ok result ≡ nearest binary32 literal.now }
        ensures fault { IfErr result (λ e. e ≡ reader_fault self.now MismatchKind.InvalidValue) }
    {
        match fast_float::parse::<f32, _>(literal) {
            Ok(x) if x.is_finite() => Ok(x),
            _ => Err(self.fault(MismatchKind::InvalidValue)),
        }
    }

    #[inline(always)]
    pub(crate) fn nearest_f64(&self, literal: &str) -> Result<f64, StepFault>
        ensures near { IfOk result (λ x. IsNearest binary64 x literal.now) }
        ensures exact { result_ok result ≡ nearest binary64 literal.now }
        ensures fault { IfErr result (λ e. e ≡ reader_fault self.now MismatchKind.InvalidValue) }
    {
        match fast_float::parse::<f64, _>(literal) {
            Ok(x) if x.is_finite() => Ok(x),
            _ => Err(self.fault(MismatchKind::InvalidValue)),
        }
    }
}

// Whether a key spells an integer as JSON does: without `+` and without leading zeros.
pub(crate) fn is_integer_key(key: &str) -> bool {
    let bytes = key.as_bytes();
    match bytes.strip_prefix(b"-").unwrap_or(bytes) {
        [b'0'] => true,
        [b'1'..=b'9', ..] => true,
        _ => false,
    }
}
