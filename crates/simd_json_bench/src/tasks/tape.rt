//! The tasks by a tape.
use super::{ASKED, ERROR, WANTED, distinct, level_mark, mark};
use memchr::memchr;
use simd_json::tape::{Array, Value};
use simd_json::{Buffers, Tape, fill_tape};
use std::alloc::Global;
use std::num::f64_to_bits_with_nan;

// Of texts of `len` bytes, one at the front of each whole stride.
pub(crate) fn of_texts(
    alloc: Global,
    texts: &mut [u8],
    stride: usize,
    len: usize,
    task: u32,
) -> Option<u64> {
    let mut buffers = Buffers::new(alloc, len).ok()?;
    let mut tape = Tape::null(alloc).ok()?;
    let mut sum = 0u64;
    for slot in texts.chunks_exact_mut(stride.max(1)) {
        fill_tape(slot.get_mut(..len)?, &mut buffers, &mut tape).ok()?;
        sum = sum.wrapping_add(answer(alloc, tape.as_value(), task)?);
    }
    Some(sum)
}

// Of each line its level, and of those at the level `error` the status.
pub(crate) fn of_lines(alloc: Global, texts: &mut [u8]) -> Option<u64> {
    let mut buffers = Buffers::new(alloc, 0).ok()?;
    let mut tape = Tape::null(alloc).ok()?;
    let mut sum = 0u64;
    let mut left = texts;
    for _ in 0..left.len() {
        let Some(end) = memchr(b'\n', left) else {
            break;
        };
        let (text, others) = left.split_at_mut(end);
        fill_tape(text, &mut buffers, &mut tape).ok()?;
        sum = sum.wrapping_add(line(tape.as_value())?);
        left = others.get_mut(1..)?;
    }
    Some(sum)
}

fn answer(alloc: Global, root: Value<'_, '_>, task: u32) -> Option<u64> {
    match task {
        0 => partial(root),
        1 => found(root),
        2 => top(root),
        3 => users(alloc, root),
        4 => catalogue(root),
        5 => literals(root),
        6 => floats(root),
        8 => asked(root, false),
        9 => asked(root, true),
        _ => None,
    }
}

fn statuses<'t, 'd>(root: Value<'t, 'd>) -> Option<Array<'t, 'd>> {
    root.get("statuses")?.as_array()
}

fn partial(root: Value<'_, '_>) -> Option<u64> {
    let mut sum = 0u64;
    for status in statuses(root)?.iter() {
        sum = sum.wrapping_add(tweet(status)?);
    }
    Some(sum)
}

fn tweet(tweet: Value<'_, '_>) -> Option<u64> {
    let user = tweet.get("user")?;
    Some(
        mark(tweet.get("created_at")?.as_str()?)
            .wrapping_add(tweet.get("id")?.as_u64()?)
            .wrapping_add(mark(tweet.get("text")?.as_str()?))
            .wrapping_add(tweet.get("in_reply_to_status_id")?.as_u64().unwrap_or(0))
            .wrapping_add(user.get("id")?.as_u64()?)
            .wrapping_add(mark(user.get("screen_name")?.as_str()?))
            .wrapping_add(tweet.get("retweet_count")?.as_u64()?)
            .wrapping_add(tweet.get("favorite_count")?.as_u64()?),
    )
}

fn found(root: Value<'_, '_>) -> Option<u64> {
    for tweet in statuses(root)?.iter() {
        if tweet.get("id")?.as_u64()? == WANTED {
            return Some(mark(tweet.get("text")?.as_str()?));
        }
    }
    None
}

fn top(root: Value<'_, '_>) -> Option<u64> {
    let mut most = 0u64;
    let mut top = None;
    for tweet in statuses(root)?.iter() {
        let retweets = tweet.get("retweet_count")?.as_u64()?;
        if top.is_none() || retweets > most {
            most = retweets;
            top = Some(tweet);
        }
    }
    let tweet = top?;
    Some(
        mark(tweet.get("text")?.as_str()?)
            .wrapping_add(mark(tweet.get("user")?.get("name")?.as_str()?))
            .wrapping_add(most),
    )
}

fn users(alloc: Global, root: Value<'_, '_>) -> Option<u64> {
    let mut ids = Vec::new(alloc);
    for tweet in statuses(root)?.iter() {
        ids.push(tweet.get("user")?.get("id")?.as_u64()?).ok()?;
        if let Some(repeated) = tweet.get("retweeted_status") {
            ids.push(repeated.get("user")?.get("id")?.as_u64()?).ok()?;
        }
    }
    Some(distinct(&mut ids))
}

fn catalogue(root: Value<'_, '_>) -> Option<u64> {
    let mut sum = 0u64;
    for performance in root.get_array("performances")?.iter() {
        let event = performance.get("eventId")?.as_u64()?;
        sum = sum.wrapping_add(1_000_003).wrapping_add(event);
        for price in performance.get_array("prices")?.iter() {
            sum = sum.wrapping_add(price.get("amount")?.as_u64()?);
        }
    }
    Some(sum)
}

fn asked(root: Value<'_, '_>, is_beneath: bool) -> Option<u64> {
    let mut sum = 0u64;
    for _ in 0..ASKED {
        let found = if is_beneath {
            amounts_beneath(root)
        } else {
            amounts(root)?
        };
        sum = sum.wrapping_add(found);
    }
    Some(sum)
}

#[inline(never)]
fn amounts(root: Value<'_, '_>) -> Option<u64> {
    let mut sum = 0u64;
    for performance in root.get_array("performances")?.iter() {
        for price in performance.get_array("prices")?.iter() {
            sum = sum.wrapping_add(price.get_u64("amount")?);
        }
    }
    Some(sum)
}

#[inline(never)]
fn amounts_beneath(root: Value<'_, '_>) -> u64 {
    let mut sum = 0u64;
    for value in root.descendants::<32>() {
        if let Some(amount) = value.get_u64("amount") {
            sum = sum.wrapping_add(amount);
        }
    }
    sum
}

fn rings<'t, 'd>(root: Value<'t, 'd>) -> Option<Array<'t, 'd>> {
    let feature = root.get("features")?.get_idx(0)?;
    feature.get("geometry")?.get_array("coordinates")
}

fn literals(root: Value<'_, '_>) -> Option<u64> {
    let mut sum = 0u64;
    for ring in rings(root)?.iter() {
        for point in ring.as_array()?.iter() {
            for number in point.as_array()?.iter() {
                sum = sum.wrapping_add(literal_len(number)?);
            }
        }
    }
    Some(sum)
}

// Of an integer as it is printed.
#[inline(always)]
fn literal_len(number: Value<'_, '_>) -> Option<u64> {
    if let Some(literal) = number.as_decimal() {
        return Some(literal.len() as u64);
    }
    let integer = number.as_i64()?;
    let digits = integer.unsigned_abs().checked_ilog10().unwrap_or(0);
    Some(
        u64::from(digits)
            .wrapping_add(1)
            .wrapping_add(u64::from(integer < 0)),
    )
}

fn floats(root: Value<'_, '_>) -> Option<u64> {
    let mut sum = 0u64;
    for ring in rings(root)?.iter() {
        for point in ring.as_array()?.iter() {
            for number in point.as_array()?.iter() {
                sum = sum.wrapping_add(f64_to_bits_with_nan(float(number)?));
            }
        }
    }
    Some(sum)
}

#[inline(always)]
fn float(number: Value<'_, '_>) -> Option<f64> {
    match number.as_decimal() {
        Some(literal) => fast_float::parse(literal.as_bytes()).ok(),
        None => Some(f64::from(number.as_i32()?)),
    }
}

#[inline(always)]
fn line(root: Value<'_, '_>) -> Option<u64> {
    let level = level_mark(root.get("level")?.as_str()?)?;
    if level == ERROR {
        let status = root.get("status")?.as_u64()?;
        return Some(level.wrapping_add(status.wrapping_mul(1_000_039)));
    }
    Some(level)
}
