//! How far the machine is: a small value that each step takes and returns, so that it stays in
//! registers.
//!
//! The last token is the one at the structural index that was read last. A token is known by its
//! index and its first byte. The machine of simdjson's paper jumps from state to state by `goto`;
//! here `Step`, `Following` and `NextMember` say where to go on.
ghost use Rattle.std.specs.Prelude.{◌≡◌, ◌≢◌, ◌<◌, ◌≤◌, ◌+◌, length, get_or};
ghost use Rattle.std.specs.Prelude.{IfOk, IfErr, IsTrue, IsFalse};
ghost use Rattle.simd_json_parts.specs.Bytes.{byte_at, is_closing};
ghost use Rattle.simd_json_stages.specs.Building.{end_kind};
ghost use Rattle.simd_json_stages.specs.Members.{AfterToken};
ghost use Rattle.simd_json_stages.specs.Progresses.{IsNext};

use super::builder::Builder;
use super::fault::{Fault, FaultKind};
use super::input::Original;
use super::stack::Container;
use std::result::Result;

// What stays the same on the way through the tokens.
#[derive(Clone, Copy, Drop)]
pub(crate) struct Route<'m> {
    // the structural indexes: byte indexes into the input, ascending
    pub(crate) indexes: &'m [u32],
    // the index of the end of the input
    pub(crate) end: usize,
    // whether the token at the last of them is known to be a closing bracket
    pub(crate) ends_closed: bool,
    // how many containers may be open at a time
    pub(crate) max_depth: usize,
}

impl Route<'_> {
    // The structural index `number` in the list, or the end of the input if there are fewer.
    #[inline(always)]
    pub(super) fn position_or_end(self, number: usize) -> usize
        requires { IsTrue self.ends_closed → number < length self.indexes.now }
        ensures { result ≡ get_or self.entry.indexes.now number self.entry.end }
    {
        if self.ends_closed || number < self.indexes.len() {
            self.indexes[number] as usize
        } else {
            self.end
        }
    }
}

// How far the machine is. A word and two bytes are first, as in `Fault`: a `Result` of both shares
// registers. The word is `read`, and not an index, which is loaded from 32 bits: in a `Result` of
// an enum that holds this, the compiler takes the first word apart, and can put together again
// only what it has as a whole.
#[derive(Clone, Copy, Drop)]
pub(crate) struct Progress {
    // how many structural indexes were read: the place of the next one in the list
    pub(crate) read: usize,
    // the first byte of the last token
    pub(crate) byte: u8,
    // the kind of the innermost open container; if none is open, `Array`
    pub(crate) container: Container,
    // the byte index of that token in the input
    pub(crate) at: usize,
    // how many containers are open
    pub(crate) depth: usize,
    // how many members of the innermost container were read; if none is open, 1 after the root,
    // else 0
    pub(crate) len: usize,
}

impl Progress {
    // Whether no token is left. If the last of all is a closing bracket, a token follows any other
    // one, which saves the comparison with the list's length.
    #[inline(always)]
    pub(super) fn is_last(self, indexes: &[u32], ends_closed: bool) -> bool
        requires within { self.read ≤ length indexes.now }
        requires left { IsTrue ends_closed → self.byte ≢ 93 → self.byte ≢ 125
            → self.read < length indexes.now }
        ensures last { IsTrue result → self.read ≡ length indexes.now }
        ensures left { IsFalse result → self.read < length indexes.now }
    {
        if ends_closed && self.byte != b']' && self.byte != b'}' {
            return false;
        }
        self.read == indexes.len()
    }

    // Goes on to the next token. If none is left, the fault is `Syntax` at the last one.
    #[inline(always)]
    pub(super) fn next_token<K: Original, B: Builder>(
        self,
        builder: &B,
        route: Route,
    ) -> Result<Progress, Fault>
        requires { AfterToken K.bytes route (B.reads K.bytes builder.now) self }
        ensures next { IfOk result (IsNext K.bytes route.entry.indexes.now self) }
        ensures none { IfErr result (λ f. (self.read ≡ length route.entry.indexes.now)
            × (f ≡ record {
              kind = FaultKind.Syntax;
              index = self.at;
              byte = byte_at K.bytes self.at;
            })) }
    {
        if self.is_last(route.indexes, route.ends_closed) {
            return Err(self.fault(FaultKind::Syntax));
        }
        let at = route.indexes[self.read] as usize;
        Ok(Progress {
            read: self.read + 1,
            at,
            byte: builder.byte(at),
            ..self
        })
    }

    // A fault of this kind at the last token.
    #[inline(always)]
    pub(super) fn fault(self, kind: FaultKind) -> Fault
        ensures { result ≡ record { kind = kind; index = self.at; byte = self.byte } }
    {
        Fault {
            kind,
            index: self.at,
            byte: self.byte,
        }
    }

    // The fault of a token after the root. A root whose last token is a closing bracket is a
    // container, and any other a scalar.
    #[cold]
    pub(super) fn fault_after_root(self) -> Fault
        ensures { result ≡ record {
          kind = end_kind (is_closing self.byte);
          index = self.at;
          byte = self.byte;
        } }
    {
        if self.byte == b']' || self.byte == b'}' {
            self.fault(FaultKind::InternalError)
        } else {
            self.fault(FaultKind::TrailingData)
        }
    }
}

// What reading a value from its first token on led to.
#[derive(Clone, Copy, Drop)]
pub(super) enum Step {
    // a container was opened: at the first token of its first member
    Opened(Progress),
    // the value is complete: at its last token
    Read(Progress),
}

// What follows a member.
#[derive(Clone, Copy, Drop)]
pub(super) enum Following {
    // another one: at its first token
    Next(Progress),
    // the end of its container: at the closing bracket, which completes a member of the parent
    Closed(Progress),
}

// What the machine reads next.
#[derive(Clone, Copy, Drop)]
pub(super) enum NextMember {
    // a member of the innermost container, at its first token, and in an object the kind of fault
    // if that is not a key
    Next(Progress, FaultKind),
    // nothing: the root is complete, and no token is left
    End,
}
