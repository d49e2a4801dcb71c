//! What a program in C calls to time typed reading, beside the toolchain's `serde_json`: of the
//! same texts into the same types.
//!
//! ```c
//! uint64_t simd_json_typed_owned(uint8_t *texts, size_t size, size_t stride, size_t len,
//!                                uint32_t form);
//! ```
//!
//! `simd_json_typed_borrowed`, `simd_json_typed_serde_json` and
//! `simd_json_typed_serde_json_borrowed` take the same. Texts of `len` bytes lie at the front of
//! each whole `stride` of `texts`; `form` is 0 for lines of a log, 1 for tweets and 2 for a map.
//! Each returns a sum over what was read, on which all agree, or 2^64 - 1 if a text was rejected or
//! does not fit the type.
//!
//! Ours keep their memory from text to text.
#![tactic(auto)]

mod forms;
#[cfg(test)]
mod tests;

use forms::{Borrowed, Line, Map, Sum, Timeline};
use serde::{Deserialize, DeserializeOwned};
use simd_json::Buffers;
use simd_json_serde::{ReadError, Scratch};
use std::alloc::Global;

// Returned where a text is not read.
const NONE: u64 = u64::MAX;

/// By `from_slice_mut_owned_with`, into types that own their strings.
#[unsafe(no_mangle)]
pub extern "C" fn simd_json_typed_owned(
    alloc: Global,
    texts: &mut [u8],
    stride: usize,
    len: usize,
    form: u32,
) -> u64 {
    let sum = match form {
        0 => owned::<Line<String>>(alloc, texts, stride, len),
        1 => owned::<Timeline<String>>(alloc, texts, stride, len),
        _ => owned::<Map>(alloc, texts, stride, len),
    };
    sum.unwrap_or(NONE)
}

/// By `from_slice_mut_with`, into types that borrow them, by `borrowed_str`.
#[unsafe(no_mangle)]
pub extern "C" fn simd_json_typed_borrowed(
    alloc: Global,
    texts: &mut [u8],
    stride: usize,
    len: usize,
    form: u32,
) -> u64 {
    borrowed(alloc, texts, stride, len, form).unwrap_or(NONE)
}

/// By `serde_json::from_slice`, into types that own their strings.
#[unsafe(no_mangle)]
pub extern "C" fn simd_json_typed_serde_json(
    alloc: Global,
    texts: &[u8],
    stride: usize,
    len: usize,
    form: u32,
) -> u64 {
    let sum = match form {
        0 => by_serde_json::<Line<String>>(alloc, texts, stride, len),
        1 => by_serde_json::<Timeline<String>>(alloc, texts, stride, len),
        _ => by_serde_json::<Map>(alloc, texts, stride, len),
    };
    sum.unwrap_or(NONE)
}

/// By `serde_json::from_slice`, into types that borrow them. It rejects a string with an escape.
#[unsafe(no_mangle)]
pub extern "C" fn simd_json_typed_serde_json_borrowed(
    alloc: Global,
    texts: &[u8],
    stride: usize,
    len: usize,
    form: u32,
) -> u64 {
    let sum = match form {
        0 => by_serde_json::<Line<&str>>(alloc, texts, stride, len),
        1 => by_serde_json::<Timeline<&str>>(alloc, texts, stride, len),
        _ => by_serde_json::<Map>(alloc, texts, stride, len),
    };
    sum.unwrap_or(NONE)
}

fn owned<T: DeserializeOwned + Sum>(
    alloc: Global,
    texts: &mut [u8],
    stride: usize,
    len: usize,
) -> Option<u64> {
    let mut buffers = Buffers::new(alloc, len).ok()?;
    let mut scratch = Scratch::new(alloc);
    let mut sum = 0u64;
    for slot in texts.chunks_exact_mut(stride.max(1)) {
        let text = slot.get_mut(..len)?;
        let read = simd_json_serde::from_slice_mut_owned_with::<T>(
            text,
            &mut buffers,
            &mut scratch,
        );
        sum = sum.wrapping_add(read.ok()?.sum());
    }
    Some(sum)
}

fn borrowed(alloc: Global, texts: &mut [u8], stride: usize, len: usize, form: u32) -> Option<u64> {
    let mut buffers = Buffers::new(alloc, len).ok()?;
    let mut scratch = Scratch::new(alloc);
    let mut sum = 0u64;
    for slot in texts.chunks_exact_mut(stride.max(1)) {
        let text = slot.get_mut(..len)?;
        sum = sum.wrapping_add(borrowed_one(form, text, &mut buffers, &mut scratch)?);
    }
    Some(sum)
}

// What is borrowed lives until the next text.
fn borrowed_one(
    form: u32,
    text: &mut [u8],
    buffers: &mut Buffers<Global>,
    scratch: &mut Scratch,
) -> Option<u64> {
    match form {
        0 => summed(simd_json_serde::from_slice_mut_with::<Line<Borrowed<'_>>>(
            text, buffers, scratch,
        )),
        1 => summed(simd_json_serde::from_slice_mut_with::<Timeline<Borrowed<'_>>>(
            text, buffers, scratch,
        )),
        _ => summed(simd_json_serde::from_slice_mut_with::<Map>(text, buffers, scratch)),
    }
}

fn summed<T: Sum>(read: Result<T, ReadError>) -> Option<u64> {
    Some(read.ok()?.sum())
}

fn by_serde_json<'de, T: Deserialize<'de> + Sum>(
    alloc: Global,
    texts: &'de [u8],
    stride: usize,
    len: usize,
) -> Option<u64> {
    let mut sum = 0u64;
    for slot in texts.chunks_exact(stride.max(1)) {
        let read = serde_json::from_slice::<T>(alloc, slot.get(..len)?);
        sum = sum.wrapping_add(read.ok()?.sum());
    }
    Some(sum)
}
