//! Where arrays and objects end, so that a cursor around them moves there.
ghost use Rattle.std.specs.Prelude.{◌≡◌, ◌<◌, length};

use crate::array::Position;
use crate::skip::{close_here, skip};
use crate::value::{Document, Value};

/// The end of an array or an object, which [`Array::end`](crate::Array::end) and
/// [`Object::end`](crate::Object::end) return.
#[derive(Clone, Copy, Debug, PartialEq, Eq)]
pub struct End {
    // the number of the structural index after it
    pub(crate) after: usize,
}

impl<'d> Document<'d> {
    ghost use Rattle.simd_json_ondemand.specs.Docs.{places};
    ghost use Rattle.simd_json_ondemand.specs.Within.{after_at};

    // The end of the container that a cursor is in.
    #[inline(always)]
    #[tactic(auto, using(simd_json_check::proofs::Scans::within))]
    pub(crate) fn end(self, at: usize, position: Position) -> End
        requires { at < length (places self) }
        ensures { result.after ≡ after_at self.entry at position }
    {
        let from = match position {
            Position::AtValue => skip(self.input, self.indexes, at),
            Position::First | Position::AfterValue => at,
        };
        End {
            after: close_here(self.input, self.indexes, from),
        }
    }
}

impl<'d> Value<'d> {
    ghost use Rattle.simd_json_ondemand.specs.Within.{after};

    // Where the value ends.
    #[inline(always)]
    #[tactic(auto, using(simd_json_check::proofs::Scans::within))]
    pub(crate) fn end(self) -> End
        ensures { result.after ≡ after self.entry }
    {
        let document = self.document;
        End {
            after: skip(document.input, document.indexes, self.at),
        }
    }
}
