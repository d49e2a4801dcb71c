//! The walk of a JSON Pointer (RFC 6901, section 4), over the values of a tape or of a document
//! that is read on demand.
ghost use Rattle.std.specs.Prelude.{◌≡◌, ◌+◌, ℕ, List, Option, Result, Err, IfOk, IfErr, true};
ghost use Rattle.std.specs.List.{slice_range};
ghost use Rattle.simd_json_parts.specs.Followed.{IsPlain, IsTokenAt};
ghost use Rattle.simd_json_parts.specs.Led.{LeadsTo, StopsAt};

use super::token::next_token;

/// A value from which reference tokens lead on: to the children that they name.
pub trait Parent: Copy {
    /// Why a search for a child stopped, if it can.
    type Stop;

    ghost names: { Self → List ℕ → Result (Option Self) Self.Stop → Type 0 };

    /// Returns the child that a token names, or `None` where it names none.
    ///
    /// Requires of a token that is called plain that it has no `~`, so that it is the key itself.
    fn child(self, token: &str, is_plain: bool) -> Result<Option<Self>, Self::Stop>
        requires { is_plain ≡ true → IsPlain token.now }
        ensures { names self token.now result };
}

/// Returns how far a pointer leads: the value that is reached, and how many bytes of the pointer
/// were followed. It is followed to its end unless it is malformed there, or its next token names
/// no child of the value.
///
/// Returns an error where the search for a child stops.
#[inline(always)]
pub fn follow<V: Parent>(value: V, pointer: &str) -> Result<(V, usize), V::Stop>
    ensures led { IfOk result (λ r. LeadsTo V.names pointer.now value r.1 r.0) }
    ensures stopped { IfOk result (λ r. StopsAt V.names pointer.now r.1 r.0) }
    ensures err { IfErr result (λ s. (v : V) × (i e : ℕ) × LeadsTo V.names pointer.now value i v
        × IsTokenAt pointer.now i e × V.names v (slice_range pointer.now (i + 1) e) (Err s)) }
{
    let bytes = pointer.as_bytes();
    let mut reached = value;
    let mut followed = 0;
    while let Some(token) = next_token(bytes, followed) {
        let text = &pointer[followed + 1..token.end];
        match reached.child(text, token.is_plain) {
            Ok(Some(next)) => reached = next,
            Ok(None) => return Ok((reached, followed)),
            Err(stop) => return Err(stop),
        }
        followed = token.end;
    }
    Ok((reached, followed))
}
