//! A JSON Pointer that is split once (RFC 6901), for look-ups in many documents.
ghost use Rattle.std.specs.Prelude.{◌≡◌, ◌≤◌, take, true};
ghost use Rattle.simd_json_parts.specs.Followed.{ends_from, tokens_after};
ghost use Rattle.simd_json_parts.specs.Pointed.{is_pointer};

use super::key::is_well_formed;
use super::token::next_token;

/// A JSON Pointer (RFC 6901), split into at most `N` reference tokens. Nothing is allocated.
///
/// To look up the same place in many documents, split the pointer once: `Value::at` then costs
/// little more than a look-up by a key or an index for each token.
///
/// ```
/// use simd_json::Pointer;
/// use simd_json::tape::Value;
///
/// // How many of the servers listen on a port.
/// fn listening(servers: &[Value<'_, '_>]) -> usize {
///     let Some(port) = Pointer::<2>::new("/listen/port") else {
///         return 0;
///     };
///     servers.iter().filter(|server| server.at(&port).is_some()).count()
/// }
/// ```
#[derive(Clone, Copy, Debug)]
pub struct Pointer<'pointer, const N: usize> {
    text: &'pointer str,
    // The first `len` of them are the ends of its tokens. A `/` is before each token.
    ends: [usize; N],
    len: usize,
    ghost formed: { is_pointer text.now ≡ true },
    ghost counted: { len ≤ N },
    ghost split: { take len ends ≡ ends_from 0 (tokens_after text.now) },
}

impl<'pointer, const N: usize> Pointer<'pointer, N> {
    ghost use Rattle.std.specs.Prelude.{◌≡◌, ◌≤◌, ◌↔◌, IfSome, IsSome, true};
    ghost use Rattle.simd_json_parts.specs.Followed.{ends_from, tokens_after};
    ghost use Rattle.simd_json_parts.specs.Pointed.{is_pointer, token_count};
    ghost use Rattle.simd_json_parts.specs.PointedText.{text};

    /// The pointer, split.
    ///
    /// Returns `None` where it has more than `N` reference tokens, or is malformed (section 3): it
    /// is not empty and does not begin with a `/`, or a `~` of it is followed by neither `0` nor
    /// `1`. A malformed pointer leads nowhere in any document.
    pub fn new(pointer: &'pointer str) -> Option<Pointer<'pointer, N>>
        ensures formed { IsSome result
            ↔ ((is_pointer pointer.now ≡ true) × (token_count pointer.now ≤ N)) }
        ensures text { IfSome result (λ split. text split ≡ pointer.now) }
    {
        let bytes = pointer.as_bytes();
        let mut ends = [0; N];
        let mut len = 0;
        let mut at = 0;
        while at < bytes.len() {
            let Some(token) = next_token(bytes, at) else {
                return None;
            };
            if len == N || !is_well_formed(&bytes[at + 1..token.end]) {
                return None;
            }
            ends[len] = token.end;
            len += 1;
            at = token.end;
        }
        Some(Pointer {
            text: pointer,
            ends,
            len,
        })
    }

    /// The pointer as it was given to [`new`](Pointer::new).
    pub fn as_str(&self) -> &'pointer str
        ensures { result.now ≡ text self.now }
    {
        self.text
    }

    /// Where each of its reference tokens ends, in bytes of [`as_str`](Pointer::as_str). A token is
    /// what lies between the `/` where the one before it ends, or the first byte, and its own end.
    #[inline(always)]
    pub fn ends(&self) -> &[usize]
        ensures { result.now ≡ ends_from 0 (tokens_after (text self.now)) }
    {
        &self.ends[..self.len]
    }
}
