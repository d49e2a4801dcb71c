//! A JSON Pointer (RFC 6901) that is prepared once, for look-ups in many documents.
ghost use Rattle.std.specs.Prelude.{◌≡◌, ◌<◌, IfOk, IfErr, length, true};
ghost use Rattle.std.specs.String.{string_bytes};
ghost use Rattle.simd_json_stages.specs.Capacities.{IsOutOfMemory};
ghost use Rattle.simd_json_ondemand.specs.WantedKey.{IsKeyed};

use crate::key::WantedKey;
use simd_json_parts::error::Result;
use simd_json_parts::pointer::next_token;
use std::alloc::{Allocator, Global};

/// A JSON Pointer (RFC 6901) that is prepared to be looked up together with others, in many
/// documents: [`Value::pointers`]. It keeps a copy of its text.
#[derive(Drop)]
pub struct PreparedPointer<A: Allocator = Global> {
    pub(crate) text: String<A>,
    // Where the first reference token ends, if that is a key as it stands, without a `~`; else 0.
    pub(crate) key_end: usize,
    // the first eight bytes of that key, as a `WantedKey` has them
    pub(crate) first: [u8; 8],
    is_plain: bool,
    // whether there is such a token, and no other
    pub(crate) is_key: bool,
    ghost keyed: { 0 < key_end → IsKeyed (string_bytes text) key_end first is_plain },
    ghost eight: { length first ≡ 8 },
    ghost alone: { is_key ≡ true → (0 < key_end) × (key_end ≡ length (string_bytes text)) },
}

impl<A: Allocator> PreparedPointer<A> {
    ghost use Rattle.simd_json_ondemand.specs.Prepared.{first_key, pointer_text};

    /// Prepares a pointer. One that is malformed leads nowhere, as in
    /// [`Value::pointer`](crate::Value::pointer).
    ///
    /// Returns `OutOfMemory` if the allocation for its text fails.
    pub fn new(alloc: A, pointer: &str) -> Result<PreparedPointer<A>>
        ensures text { IfOk result (λ p. pointer_text p ≡ pointer.now) }
        ensures fault { IfErr result IsOutOfMemory }
    {
        let text = String::from_str(alloc, pointer)?;
        let bytes = pointer.as_bytes();
        match next_token(bytes, 0) {
            Some(token) if token.is_plain => {
                let key = WantedKey::of(&bytes[1..token.end]);
                Ok(PreparedPointer {
                    text,
                    key_end: token.end,
                    first: key.first,
                    is_plain: key.is_plain,
                    is_key: token.end == bytes.len(),
                })
            }
            _ => Ok(PreparedPointer {
                text,
                key_end: 0,
                first: [0; 8],
                is_plain: false,
                is_key: false,
            }),
        }
    }

    /// Returns the text of the pointer.
    pub fn as_str(&self) -> &str
        ensures { result.now ≡ pointer_text self.now }
    {
        self.text.as_str()
    }

    // The key that the first token is.
    #[inline(always)]
    pub(crate) fn key(&self) -> WantedKey<'_>
        requires { 0 < self.now.key_end }
        ensures { result.key.now ≡ first_key self.now }
    {
        WantedKey {
            key: &self.text.as_bytes()[1..self.key_end],
            first: self.first,
            is_plain: self.is_plain,
        }
    }
}
