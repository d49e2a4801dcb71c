//! Strings, numbers and words become nodes.
//!
//! Booleans are compared four letters at a time. Numbers are read by `numberparse`, their digits by
//! words of eight bytes, as in section 3.2 of the paper that `stage2` names: short ones by
//! `parse_short`, which is inlined, and others by `parse_numeral`. Unlike simdjson, a number with a
//! fraction or an exponent is only checked, and its node holds the literal; integers have up to 128
//! bits.
ghost use Rattle.std.specs.Prelude.{◌≡◌, ◌<◌, ◌≤◌, ◌+◌, ◌^◌, ◌==◌, ◌&&◌, ◌||◌, ℕ, List, length};
ghost use Rattle.std.specs.Prelude.{drop, [], ◌∷◌, ◌++◌, nat_eq, codes, true, false};
ghost use Rattle.std.specs.Prelude.{MatchOption, MatchResult, IfErr, OnOk};
ghost use Rattle.std.specs.List.{starts_with};
ghost use Rattle.simd_json_parts.specs.Bytes.{is_terminator, byte_at, minus_sign};
ghost use Rattle.simd_json_parts.specs.Faults.{fault_with};
ghost use Rattle.simd_json_parts.specs.Nodes.{static_item};
ghost use Rattle.simd_json_parts.specs.Integers.{integer_node, max_magnitude_64};
ghost use Rattle.simd_json_parts.specs.StringAt.{escape_fault};
ghost use Rattle.simd_json_scalars.specs.NumberRead.{IsNumberAt};
ghost use Rattle.simd_json_scalars.specs.NumeralRead.{IsIntegerLiteral};
ghost use Rattle.simd_json_scalars.specs.declared.numberparse.Number.TheVariants.{Integer};
ghost use Rattle.simd_json_scalars.specs.declared.numberparse.Number.TheVariants.{Invalid};
ghost use Rattle.simd_json_stages.specs.Members.{AtString};
ghost use Rattle.simd_json_stages.specs.Put.{is_boolean, AtNumber, AtOther, IsBadString};
ghost use Rattle.simd_json_stages.specs.Put.{IsNoScalar, IsScalarPut, IsStringPut, SameSink};
ghost use Rattle.simd_json_stages.specs.Rejections.{error_type, rejected_kind, number_rejection};

use super::builder::Builder;
use super::fault::{Fault, FaultKind};
use super::input::Original;
use super::progress::{Progress, Route};
use simd_json_parts::charutils::{byte_or_space, is_structural_or_whitespace};
use simd_json_parts::node::StaticNode;
use simd_json_scalars::numberparse::{
    Numeral, integer_node, is_integer, parse_long, parse_numeral, parse_short,
};
use simd_json_scalars::stringparse::BadEscape;
use std::result::Result;

/// Returns whether the bytes begin with `true`, and end there or go on with a structural character
/// or whitespace.
pub fn is_valid_true_atom(bytes: &[u8]) -> bool
    ensures { result
        ≡ (starts_with nat_eq bytes.now (codes "true") && is_terminator (byte_at bytes.now 4)) }
{
    bytes.starts_with(b"true") && ends_at(bytes, 4)
}

/// Returns whether the bytes begin with `false`, and end there or go on with a structural character
/// or whitespace.
pub fn is_valid_false_atom(bytes: &[u8]) -> bool
    ensures { result
        ≡ (starts_with nat_eq bytes.now (codes "false") && is_terminator (byte_at bytes.now 5)) }
{
    bytes.starts_with(b"false") && ends_at(bytes, 5)
}

/// Returns whether the bytes begin with `null`, and end there or go on with a structural character
/// or whitespace.
pub fn is_valid_null_atom(bytes: &[u8]) -> bool
    ensures { result
        ≡ (starts_with nat_eq bytes.now (codes "null") && is_terminator (byte_at bytes.now 4)) }
{
    bytes.starts_with(b"null") && ends_at(bytes, 4)
}

// Whether a scalar may end before the byte at index `at`; the end of the input is read as a space.
fn ends_at(bytes: &[u8], at: usize) -> bool
    ensures { result ≡ is_terminator (byte_at bytes.now at) }
{
    is_structural_or_whitespace(byte_or_space(bytes, at))
}

// Appends the string at the last token. Only whitespace is between its closing quote and the next
// structural index.
#[inline(always)]
pub(super) fn push_string<K: Original, B: Builder>(
    builder: &mut B,
    route: Route,
    p: Progress,
) -> Result<(), Fault>
    requires { AtString K.bytes route (B.reads K.bytes builder.old) (B.node_room builder.old)
        (length (B.held_nodes builder.old)) p }
    ensures sink { SameSink B.node_room B.lender builder.old builder.new }
    ensures put { OnOk result
        (IsStringPut K.bytes p.at (B.held_nodes builder.old) (B.held_nodes builder.new)
        (B.reads K.bytes builder.new)) }
    ensures rejected { IfErr result (IsBadString K.bytes p.at) }
{
    let next = route.position_or_end(p.read);
    match builder.push_string(p.at, next) {
        Ok(()) => Ok(()),
        Err(bad) => Err(bad_escape(p.at, bad)),
    }
}

// The fault of a bad escape in the string whose opening quote has index `at`.
#[cold]
fn bad_escape(at: usize, bad: BadEscape) -> Fault
    requires { at + bad.offset < 2 ^ 64 }
    ensures { fault_with (error_type result.kind) result.index result.byte
        ≡ escape_fault (at + bad.offset) bad.letter }
{
    let kind = if bad.letter == b'u' {
        FaultKind::InvalidUnicodeCodepoint
    } else {
        FaultKind::InvalidEscape
    };
    Fault {
        kind,
        index: at + bad.offset,
        byte: bad.letter,
    }
}

// Appends the scalar at the last token, which is not a string. Each kind has a branch that stores
// its own node: a node that is chosen by branches and then stored is copied field by field.
#[inline(always)]
pub(super) fn push_scalar<K: Original, B: Builder>(
    builder: &mut B,
    p: Progress,
) -> Result<(), Fault>
    requires { AtOther K.bytes (B.reads K.bytes builder.old) (B.node_room builder.old)
        (length (B.held_nodes builder.old)) p }
    ensures sink { SameSink B.node_room B.lender builder.old builder.new }
    ensures put { OnOk result
        (IsScalarPut K.bytes p.at (B.held_nodes builder.old) (B.held_nodes builder.new)
        (B.reads K.bytes builder.new)) }
    ensures rejected { IfErr result (IsNoScalar K.bytes p.at) }
{
    if is_integer(p.byte) || p.byte == b'-' {
        return push_number::<K, B>(builder, p);
    }
    let rest = builder.from(p.at);
    if p.byte == b'n' {
        if !is_valid_null_atom(rest) {
            return Err(no_scalar(p.at, p.byte));
        }
        builder.push_static(StaticNode::Null);
        return Ok(());
    }
    match parse_boolean(rest) {
        Some(value) => builder.push_static(StaticNode::Bool(value)),
        None => return Err(no_scalar(p.at, p.byte)),
    }
    Ok(())
}

// Reads the boolean at the front, if a structural character, whitespace or the end follows it.
// Which of the two it may be is computed from the first letter: a branch on it would be
// mispredicted for every other one of mixed booleans.
#[inline(always)]
fn parse_boolean(bytes: &[u8]) -> Option<bool>
    ensures { MatchOption result
        ((is_boolean true bytes.now ≡ false) × (is_boolean false bytes.now ≡ false))
        (λ value. is_boolean value bytes.now ≡ true) }
{
    if bytes.len() < 6 {
        return parse_last_boolean(bytes);
    }
    let letters = u32::from_le_bytes([bytes[0], bytes[1], bytes[2], bytes[3]]);
    let is_true = (letters >> 4) & 1;
    if letters != FALS - is_true * (FALS - TRUE) {
        return None;
    }
    let end = 5 - is_true as usize;
    if bytes[end - 1] != b'e' || !is_structural_or_whitespace(bytes[end]) {
        return None;
    }
    Some(is_true == 1)
}

// Four letters as a word, the first in the lowest byte. Bit 4 is set in a `t` and not in an `f`.
const TRUE: u32 = 0x6575_7274;

const FALS: u32 = 0x736c_6166;

// The same with fewer than six bytes left.
#[cold]
fn parse_last_boolean(bytes: &[u8]) -> Option<bool>
    ensures { MatchOption result
        ((is_boolean true bytes.now ≡ false) × (is_boolean false bytes.now ≡ false))
        (λ value. is_boolean value bytes.now ≡ true) }
{
    if is_valid_true_atom(bytes) {
        return Some(true);
    }
    if is_valid_false_atom(bytes) {
        return Some(false);
    }
    None
}

// The fault of a token that is not a scalar, by its first byte.
#[cold]
fn no_scalar(at: usize, byte: u8) -> Fault
    ensures { result ≡ record { kind = rejected_kind byte; index = at; byte = byte } }
{
    let kind = match byte {
        b't' => FaultKind::ExpectedTrue,
        b'f' => FaultKind::ExpectedFalse,
        b'n' => FaultKind::ExpectedNull,
        _ => FaultKind::InternalError,
    };
    Fault {
        index: at,
        byte,
        kind,
    }
}

// Appends the number at the last token. Each kind has a branch that stores its own node, as in
// `push_scalar`.
#[inline(always)]
fn push_number<K: Original, B: Builder>(builder: &mut B, p: Progress) -> Result<(), Fault>
    requires { AtNumber K.bytes (B.reads K.bytes builder.old) (B.node_room builder.old)
        (length (B.held_nodes builder.old)) p }
    ensures sink { SameSink B.node_room B.lender builder.old builder.new }
    ensures put { OnOk result
        (IsScalarPut K.bytes p.at (B.held_nodes builder.old) (B.held_nodes builder.new)
        (B.reads K.bytes builder.new)) }
    ensures rejected { IfErr result (IsNoScalar K.bytes p.at) }
{
    let rest = builder.from(p.at);
    let numeral = match parse_short(rest) {
        Some(numeral) => numeral,
        None => parse_numeral(rest),
    };
    match numeral {
        Numeral::Integer(magnitude) => {
            if p.byte == b'-' {
                builder.push_static(integer_node(true, magnitude));
            } else {
                builder.push_static(StaticNode::U64(magnitude));
            }
        }
        Numeral::Decimal(len) => builder.push_decimal(p.at, len),
        Numeral::Long(len) => {
            let node = read_long(rest, p.at, len)?;
            builder.push_integer(p.at, len, node);
        }
        Numeral::Invalid(offset) => return Err(invalid_number(rest, p.at, offset)),
    }
    Ok(())
}

// Reads the integer at the front of `rest`, whose literal has `len` bytes, or returns its fault.
// `rest` is the input from index `at` on.
#[cold]
#[inline(never)]
fn read_long(rest: &[u8], at: usize, len: usize) -> Result<StaticNode, Fault>
    requires literal { IsIntegerLiteral rest.now len }
    requires fits { at + length rest.now < 2 ^ 64 }
    ensures { (b : List ℕ) → drop at b ≡ rest.now → at ≤ length b → MatchResult result
        (λ node. IsNumberAt b at (Integer node len)) (λ f. (offset : ℕ)
        × IsNumberAt b at (Invalid offset) × (f ≡ number_rejection b (at + offset))) }
{
    match parse_long(rest, len) {
        Ok(node) => Ok(node),
        Err(offset) => Err(invalid_number(rest, at, offset)),
    }
}

// The fault of a number that is rejected `offset` bytes after its first one; the end of the input
// is read as a space.
#[cold]
fn invalid_number(rest: &[u8], at: usize, offset: usize) -> Fault
    requires { at + length rest.now < 2 ^ 64 }
    ensures { (b : List ℕ) → drop at b ≡ rest.now → offset ≤ length rest.now
        → result ≡ number_rejection b (at + offset) }
{
    let offset = offset.min(rest.len());
    Fault {
        kind: FaultKind::InvalidNumber,
        index: at + offset,
        byte: byte_or_space(rest, offset),
    }
}
