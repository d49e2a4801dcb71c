//! How far an input is known to be UTF-8 (RFC 3629).
//!
//! The test is that of `simdutf8`: J. Keiser and D. Lemire, "Validating UTF-8 In Less Than One
//! Instruction Per Byte", Software: Practice and Experience 51 (2021). simdjson tests each block
//! while it is scanned. Here a window of 8 KiB is tested after its scan, and one that is all ASCII,
//! as the scan has found, not at all. Before a list grows, all of the input that is left is tested
//! at once, so that an input that is not UTF-8 is rejected before any memory is taken.
//!
//! In this module `checked` is the number of bytes at the front that are known to be UTF-8, and all
//! indexes count bytes of the input.
ghost use Rattle.std.specs.Prelude.{◌≡◌, ◌≤◌, ◌<◌, ℕ, length, true, IfOk, IfErr, IsUtf8};
ghost use Rattle.simd_json_parts.specs.Bytes.{byte_at};
ghost use Rattle.simd_json_stages.specs.Carries.{IsChecked};
ghost use Rattle.simd_json_stages.specs.Scans.{IsBadEncoding};

use simd_json_parts::error::{Error, ErrorType, Result};

// Steps back one byte if `at` is inside a character.
fn back_in_character(input: &[u8], at: usize) -> usize
    ensures { (result ≤ at) × (length input.now ≤ at → result ≡ at) }
{
    match input.get(at) {
        Some(byte) if byte & 0xc0 == 0x80 => at.saturating_sub(1),
        _ => at,
    }
}

// Returns the start of the character that `end` would split, or `end` itself: in UTF-8 at most
// three bytes of such a character are before `end`.
fn character_start(input: &[u8], end: usize) -> usize
    ensures { (result ≤ end) × (length input.now ≤ end → result ≡ end) }
{
    back_in_character(
        input,
        back_in_character(input, back_in_character(input, end)),
    )
}

// Checks the input from `checked` to its end, and returns its length.
#[inline(never)]
pub(super) fn check_rest(input: &[u8], checked: usize) -> Result<usize>
    requires checked { IsChecked input.now checked }
    ensures utf8 { IfOk result (λ to. (to ≡ length input.now) × IsUtf8 input.now) }
    ensures fault { IfErr result (IsBadEncoding input.now) }
{
    if simdutf8::is_utf8(&input[checked..]) {
        Ok(input.len())
    } else {
        Err(Error::generic(ErrorType::InvalidUtf8))
    }
}

// Checks the input from `checked` to `end`, or to the start of a character that `end` would split.
// Returns how far that is. If that part is not UTF-8, checking the whole rest decides.
#[inline(never)]
fn check_up_to(input: &[u8], checked: usize, end: usize) -> Result<usize>
    requires checked { IsChecked input.now checked }
    requires end_within { end ≤ length input.now }
    ensures utf8 { IfOk result (IsChecked input.now) }
    ensures whole { IfOk result (λ to. end ≡ length input.now → to ≡ length input.now) }
    ensures fault { IfErr result (IsBadEncoding input.now) }
{
    let to = character_start(input, end);
    if checked <= to && simdutf8::is_utf8(&input[checked..to]) {
        return Ok(to);
    }
    check_rest(input, checked)
}

// Checks the input up to the end of the window from `start` to `end`, unless it is checked already,
// or the window is all ASCII and all before it is checked. Returns how far the input is known to be
// UTF-8 then; if the window ends the input, that is its end. Most windows need no test, so this
// much is compiled into each caller.
#[inline(always)]
pub(super) fn check_window(
    input: &[u8],
    checked: usize,
    start: usize,
    end: usize,
    is_ascii: bool,
) -> Result<usize>
    requires checked { IsChecked input.now checked }
    requires order { start ≤ end }
    requires end_within { end ≤ length input.now }
    requires ascii { is_ascii ≡ true → (i : ℕ) → start ≤ i → i < end → byte_at input.now i < 128 }
    ensures utf8 { IfOk result (IsChecked input.now) }
    ensures whole { IfOk result (λ to. end ≡ length input.now → to ≡ length input.now) }
    ensures fault { IfErr result (IsBadEncoding input.now) }
{
    if end <= checked {
        return Ok(checked);
    }
    if is_ascii && checked == start {
        return Ok(end);
    }
    check_up_to(input, checked, end)
}
