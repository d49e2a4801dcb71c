//! The walk along an array or an object, over any bytes. Each step tests what the grammar has at
//! that place, and tells an item and the end from a place where the walk stops. Of that place only
//! its number is kept: what is there is read where an error is asked for.
ghost use Rattle.std.specs.Prelude.{◌≡◌, ◌==◌, ◌<◌, ◌≤◌, ◌+◌, ◌-◌, length, drop, IfOk, IfSome};
ghost use Rattle.std.specs.Prelude.{false, option_map, slice_index};
ghost use Rattle.simd_json_ondemand.specs.Stopped.{error_at, told};
ghost use Rattle.simd_json_ondemand.specs.Walks.{may_begin_value, found};
ghost use Rattle.simd_json_parts.specs.Bytes.{byte_at, comma, quote, right_brace, right_bracket};

use crate::array::Position;
use crate::skip::skip;
use crate::unexpected::{Expected, Got, Unexpected};
use crate::value::{Document, Value};

/// Where a walk stopped, and what it expected there. Its fields lie where those of a value lie in
/// an `Option<Value>`: else a value that is found is written in pieces, and read at once.
#[derive(Clone, Copy)]
pub struct StoppedAt<'d> {
    pub(crate) expected: Expected,
    pub(crate) document: Document<'d>,
    // how many structural indexes are before it
    pub(crate) at: usize,
}

impl<'d> StoppedAt<'d> {
    // The error that names the place.
    #[cold]
    pub(crate) fn error(self) -> Unexpected
        ensures { result ≡ error_at self.entry }
    {
        let document = self.document;
        let expected = self.expected;
        if self.at >= document.indexes.len() {
            return Unexpected {
                index: document.input.len(),
                expected,
                got: Got::End,
            };
        }
        let value = Value {
            document,
            at: self.at,
        };
        let got = match value.value_type() {
            Some(kind) => Got::Value(kind),
            None => Got::Other,
        };
        Unexpected {
            index: document.indexes[self.at] as usize,
            expected,
            got,
        }
    }
}

// What a walk found, without the place where it stopped.
#[inline(always)]
pub(crate) fn found<T>(walked: Result<Option<T>, StoppedAt<'_>>) -> Option<T>
    ensures { result ≡ found walked.entry }
{
    match walked {
        Ok(found) => found,
        Err(_) => None,
    }
}

// What a walk found, or the error that names the place where it stopped.
#[inline(always)]
pub(crate) fn told<T>(walked: Result<T, StoppedAt<'_>>) -> Result<T, Unexpected>
    ensures { result ≡ told (λ x. x) walked.entry }
{
    match walked {
        Ok(found) => Ok(found),
        Err(stop) => Err(stop.error()),
    }
}

impl<'d> Document<'d> {
    ghost use Rattle.simd_json_ondemand.specs.Docs.{places, text};
    ghost use Rattle.simd_json_ondemand.specs.Stopped.{error_at, told};
    ghost use Rattle.simd_json_ondemand.specs.Unexpected.{unexpected};
    ghost use Rattle.simd_json_ondemand.specs.Walks.{value_here, behind_token};
    ghost use Rattle.simd_json_ondemand.specs.Walks.{behind_item, item_ahead};
    ghost use Rattle.simd_json_ondemand.specs.Walks.{element_ahead, member_ahead, member_here};
    ghost use Rattle.simd_json_ondemand.specs.Within.{IsBehindComma, IsItemAt};

    // Where something else was expected of the token with this number.
    #[inline(always)]
    pub(crate) fn stop(self, at: usize, expected: Expected) -> StoppedAt<'d>
        ensures error { error_at result
            ≡ unexpected (text self.entry) expected (drop at (places self.entry)) }
        ensures expected { result.expected ≡ expected }
    {
        StoppedAt {
            expected,
            document: self,
            at,
        }
    }

    // The number of the value that begins here.
    #[inline(always)]
    fn value_at(self, at: usize) -> Result<usize, StoppedAt<'d>>
        requires { at ≤ length (places self) }
        ensures value { told (λ k. drop k (places self.entry)) result
            ≡ value_here (text self.entry) (drop at (places self.entry)) }
        ensures bound { IfOk result (λ k. (k ≡ at) × (k < length (places self.entry))) }
    {
        if at < self.indexes.len() && may_begin_value(self.byte(at)) {
            return Ok(at);
        }
        Err(self.stop(at, Expected::Value))
    }

    // The number of the token behind one that begins with this byte.
    #[inline(always)]
    fn behind(self, at: usize, byte: u8, expected: Expected) -> Result<usize, StoppedAt<'d>>
        requires { at ≤ length (places self) }
        ensures token { told (λ k. drop k (places self.entry)) result
            ≡ behind_token (text self.entry) byte expected (drop at (places self.entry)) }
        ensures bound { IfOk result (λ k. (k ≡ at + 1) × (k ≤ length (places self.entry))) }
        ensures byte { IfOk result (λ k.
            byte_at (text self.entry) (slice_index (places self.entry) at) ≡ byte) }
    {
        if at < self.indexes.len() && self.byte(at) == byte {
            return Ok(at + 1);
        }
        Err(self.stop(at, expected))
    }

    // The number of the token behind a comma, or `None` at the closing bracket.
    #[inline(always)]
    fn behind_item(
        self,
        at: usize,
        close: u8,
        expected: Expected,
    ) -> Result<Option<usize>, StoppedAt<'d>>
        requires at { at ≤ length (places self) }
        requires close { (close == comma) ≡ false }
        ensures item { told (option_map (λ k. drop k (places self.entry))) result
            ≡ behind_item (text self.entry) close expected (drop at (places self.entry)) }
        ensures comma { IfOk result (λ k. IfSome k (IsBehindComma self.entry at)) }
    {
        if at < self.indexes.len() {
            let byte = self.byte(at);
            if byte == b',' {
                return Ok(Some(at + 1));
            }
            if byte == close {
                return Ok(None);
            }
        }
        Err(self.stop(at, expected))
    }

    // The number of the token where the item that a cursor comes to next is to begin.
    #[inline(always)]
    #[tactic(auto, using(simd_json_check::proofs::Scans::within))]
    fn item_ahead(
        self,
        at: usize,
        position: Position,
        close: u8,
        expected: Expected,
    ) -> Result<Option<usize>, StoppedAt<'d>>
        requires at { at < length (places self) }
        requires close { (close == comma) ≡ false }
        ensures item { told (option_map (λ k. drop k (places self.entry))) result
            ≡ item_ahead (text self.entry) close expected position (drop at (places self.entry)) }
        ensures place { IfOk result (λ k. IfSome k (IsItemAt close self.entry at position)) }
    {
        match position {
            Position::First => {
                if self.byte(at) == close {
                    return Ok(None);
                }
                Ok(Some(at))
            }
            Position::AtValue => {
                self.behind_item(skip(self.input, self.indexes, at), close, expected)
            }
            Position::AfterValue => self.behind_item(at, close, expected),
        }
    }

    // The number of the element that a cursor comes to next.
    #[inline(always)]
    pub(crate) fn element_ahead(
        self,
        at: usize,
        position: Position,
    ) -> Result<Option<usize>, StoppedAt<'d>>
        requires { at < length (places self) }
        ensures element { told (option_map (λ k. drop k (places self.entry))) result
            ≡ element_ahead (text self.entry) position (drop at (places self.entry)) }
        ensures bound { IfOk result (λ k. IfSome k (λ k. k < length (places self.entry))) }
        ensures place { IfOk result (λ k. IfSome k
            (IsItemAt right_bracket self.entry at position)) }
    {
        match self.item_ahead(at, position, b']', Expected::CommaOrBracket)? {
            Some(next) => Ok(Some(self.value_at(next)?)),
            None => Ok(None),
        }
    }

    // The number of the value of the member that a cursor comes to next; its key is two before.
    #[inline(always)]
    pub(crate) fn member_ahead(
        self,
        at: usize,
        position: Position,
    ) -> Result<Option<usize>, StoppedAt<'d>>
        requires { at < length (places self) }
        ensures member { told (option_map (λ k. drop (k - 2) (places self.entry))) result
            ≡ member_ahead (text self.entry) position (drop at (places self.entry)) }
        ensures bound { IfOk result (λ k. IfSome k (λ k. (2 ≤ k)
            × (k < length (places self.entry)))) }
        ensures place { IfOk result (λ k. IfSome k (λ k.
            IsItemAt right_brace self.entry at position (k - 2))) }
        ensures key { IfOk result (λ k. IfSome k (λ k.
            byte_at (text self.entry) (slice_index (places self.entry) (k - 2)) ≡ quote)) }
    {
        match self.item_ahead(at, position, b'}', Expected::CommaOrBrace)? {
            Some(key) => Ok(Some(self.member_at(key)?)),
            None => Ok(None),
        }
    }

    // The number of the value of the member whose key is here.
    #[inline(always)]
    fn member_at(self, key: usize) -> Result<usize, StoppedAt<'d>>
        requires { key ≤ length (places self) }
        ensures member { told (λ k. drop (k - 2) (places self.entry)) result
            ≡ member_here (text self.entry) (drop key (places self.entry)) }
        ensures bound { IfOk result (λ k. (k ≡ key + 2) × (k < length (places self.entry))) }
        ensures key { IfOk result (λ k.
            byte_at (text self.entry) (slice_index (places self.entry) key) ≡ quote) }
    {
        let colon = self.behind(key, b'"', Expected::Key)?;
        let value = self.behind(colon, b':', Expected::Colon)?;
        self.value_at(value)
    }
}

// Whether a value may begin with the byte.
#[inline(always)]
fn may_begin_value(c: u8) -> bool
    ensures { result ≡ may_begin_value c }
{
    BEGINNINGS[c as usize]
}

// For each byte from 0 on, whether a value may begin with it: `[ { " t f n -` or a digit.
const BEGINNINGS: [bool; 256] = [
    NO, NO, NO, NO, NO, NO, NO, NO, NO, NO, NO, NO, NO, NO, NO, NO, NO, NO, NO, NO, NO, NO, NO, NO,
    NO, NO, NO, NO, NO, NO, NO, NO, NO, NO, YES, NO, NO, NO, NO, NO, NO, NO, NO, NO, NO, YES, NO,
    NO, YES, YES, YES, YES, YES, YES, YES, YES, YES, YES, NO, NO, NO, NO, NO, NO, NO, NO, NO, NO,
    NO, NO, NO, NO, NO, NO, NO, NO, NO, NO, NO, NO, NO, NO, NO, NO, NO, NO, NO, NO, NO, NO, NO,
    YES, NO, NO, NO, NO, NO, NO, NO, NO, NO, NO, YES, NO, NO, NO, NO, NO, NO, NO, YES, NO, NO, NO,
    NO, NO, YES, NO, NO, NO, NO, NO, NO, YES, NO, NO, NO, NO, NO, NO, NO, NO, NO, NO, NO, NO, NO,
    NO, NO, NO, NO, NO, NO, NO, NO, NO, NO, NO, NO, NO, NO, NO, NO, NO, NO, NO, NO, NO, NO, NO, NO,
    NO, NO, NO, NO, NO, NO, NO, NO, NO, NO, NO, NO, NO, NO, NO, NO, NO, NO, NO, NO, NO, NO, NO, NO,
    NO, NO, NO, NO, NO, NO, NO, NO, NO, NO, NO, NO, NO, NO, NO, NO, NO, NO, NO, NO, NO, NO, NO, NO,
    NO, NO, NO, NO, NO, NO, NO, NO, NO, NO, NO, NO, NO, NO, NO, NO, NO, NO, NO, NO, NO, NO, NO, NO,
    NO, NO, NO, NO, NO, NO, NO, NO, NO, NO, NO, NO, NO, NO, NO, NO, NO, NO, NO, NO, NO, NO, NO,
];

const YES: bool = true;

const NO: bool = false;
