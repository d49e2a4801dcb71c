//! The tasks on demand: keys are looked for in the order of the input.
use super::{ERROR, WANTED, distinct, level_mark, mark};
use memchr::memchr_iter;
use simd_json_ondemand::{Array, Checker, Document, Object, Result, Value};
use std::alloc::Global;
use std::num::f64_to_bits_with_nan;

// Of texts of `len` bytes, one at the front of each whole stride.
pub(crate) fn of_texts(
    alloc: Global,
    texts: &[u8],
    stride: usize,
    len: usize,
    task: u32,
    checks: bool,
) -> Option<u64> {
    let mut checker = Checker::empty(alloc);
    checker.index.reserve(len).ok()?;
    let mut buffer = Vec::new(alloc);
    let mut sum = 0u64;
    for slot in texts.chunks_exact(stride.max(1)) {
        let root = read(&mut checker, slot.get(..len)?, checks)
            .ok()?
            .as_value();
        sum = sum.wrapping_add(answer(alloc, root, task, &mut buffer)?);
    }
    Some(sum)
}

// Of each line its level, and of those at the level `error` the status.
pub(crate) fn of_lines(alloc: Global, texts: &[u8], checks: bool) -> Option<u64> {
    let mut checker = Checker::empty(alloc);
    let mut buffer = Vec::new(alloc);
    let mut sum = 0u64;
    let mut from = 0usize;
    for end in memchr_iter(b'\n', texts) {
        let root = read(&mut checker, texts.get(from..end)?, checks)
            .ok()?
            .as_value();
        sum = sum.wrapping_add(line(root, &mut buffer)?);
        from = end.saturating_add(1);
    }
    Some(sum)
}

#[inline(always)]
fn read<'d>(checker: &'d mut Checker, text: &'d [u8], checks: bool) -> Result<Document<'d>> {
    if checks {
        Document::check(checker, text, 1024)
    } else {
        Document::scan(&mut checker.index, text)
    }
}

// Each task is a function of its own, as it is where a user calls it: together they leave one
// another no registers.
fn answer(alloc: Global, root: Value<'_>, task: u32, buffer: &mut Vec<u8>) -> Option<u64> {
    match task {
        0 => partial(root, buffer),
        1 => found(root, buffer),
        2 => top(root, buffer),
        3 => users(alloc, root),
        4 => catalogue(root),
        5 => coordinates::<false>(root),
        6 => coordinates::<true>(root),
        _ => None,
    }
}

#[inline(always)]
fn text_mark(value: Value<'_>, buffer: &mut Vec<u8>) -> Option<u64> {
    match value.decode(buffer) {
        Ok(text) => Some(mark(text?)),
        Err(_) => None,
    }
}

fn statuses(root: Value<'_>) -> Option<Array<'_>> {
    root.get("statuses")?.as_array()
}

#[inline(never)]
fn partial(root: Value<'_>, buffer: &mut Vec<u8>) -> Option<u64> {
    let mut sum = 0u64;
    let mut statuses = statuses(root)?;
    for _ in 0..usize::MAX {
        let Some(status) = statuses.next_value() else {
            break;
        };
        let mut fields = status.as_object()?;
        sum = sum.wrapping_add(tweet(&mut fields, buffer)?);
        statuses.pass(fields.end());
    }
    Some(sum)
}

#[inline(always)]
fn tweet(tweet: &mut Object<'_>, buffer: &mut Vec<u8>) -> Option<u64> {
    let created_at = text_mark(tweet.find("created_at")?, buffer)?;
    let id = tweet.find("id")?.as_u64()?;
    let text = text_mark(tweet.find("text")?, buffer)?;
    let reply = tweet.find("in_reply_to_status_id")?.as_u64().unwrap_or(0);
    let mut user = tweet.find("user")?.as_object()?;
    let user_id = user.find("id")?.as_u64()?;
    let name = text_mark(user.find("screen_name")?, buffer)?;
    tweet.pass(user.end());
    let retweets = tweet.find("retweet_count")?.as_u64()?;
    let favorites = tweet.find("favorite_count")?.as_u64()?;
    Some(
        created_at
            .wrapping_add(id)
            .wrapping_add(text)
            .wrapping_add(reply)
            .wrapping_add(user_id)
            .wrapping_add(name)
            .wrapping_add(retweets)
            .wrapping_add(favorites),
    )
}

#[inline(never)]
fn found(root: Value<'_>, buffer: &mut Vec<u8>) -> Option<u64> {
    let mut statuses = statuses(root)?;
    for _ in 0..usize::MAX {
        let mut tweet = statuses.next_value()?.as_object()?;
        if tweet.find("id")?.as_u64()? == WANTED {
            return text_mark(tweet.find("text")?, buffer);
        }
        statuses.pass(tweet.end());
    }
    None
}

#[inline(never)]
fn top(root: Value<'_>, buffer: &mut Vec<u8>) -> Option<u64> {
    let mut most = 0u64;
    let mut top = None;
    let mut statuses = statuses(root)?;
    for _ in 0..usize::MAX {
        let Some(status) = statuses.next_value() else {
            break;
        };
        let mut tweet = status.as_object()?;
        let text = tweet.find("text")?;
        let mut user = tweet.find("user")?.as_object()?;
        let name = user.find("name")?;
        tweet.pass(user.end());
        let retweets = tweet.find("retweet_count")?.as_u64()?;
        if top.is_none() || retweets > most {
            most = retweets;
            top = Some((text, name));
        }
        statuses.pass(tweet.end());
    }
    let (text, name) = top?;
    Some(
        text_mark(text, buffer)?
            .wrapping_add(text_mark(name, buffer)?)
            .wrapping_add(most),
    )
}

#[inline(never)]
fn users(alloc: Global, root: Value<'_>) -> Option<u64> {
    let mut ids = Vec::new(alloc);
    let mut statuses = statuses(root)?;
    for _ in 0..usize::MAX {
        let Some(status) = statuses.next_value() else {
            break;
        };
        let mut tweet = status.as_object()?;
        let mut user = tweet.find("user")?.as_object()?;
        ids.push(user.find("id")?.as_u64()?).ok()?;
        tweet.pass(user.end());
        if let Some(repeated) = tweet.find("retweeted_status") {
            let mut repeated = repeated.as_object()?;
            ids.push(repeated.find("user")?.get("id")?.as_u64()?).ok()?;
            tweet.pass(repeated.end());
        }
        statuses.pass(tweet.end());
    }
    Some(distinct(&mut ids))
}

#[inline(never)]
fn catalogue(root: Value<'_>) -> Option<u64> {
    let mut sum = 0u64;
    let mut performances = root.get("performances")?.as_array()?;
    for _ in 0..usize::MAX {
        let Some(performance) = performances.next_value() else {
            break;
        };
        let mut performance = performance.as_object()?;
        let event = performance.find("eventId")?.as_u64()?;
        let mut prices = performance.find("prices")?.as_array()?;
        sum = sum
            .wrapping_add(1_000_003)
            .wrapping_add(event)
            .wrapping_add(amounts(&mut prices)?);
        performance.pass(prices.end());
        performances.pass(performance.end());
    }
    Some(sum)
}

fn amounts(prices: &mut Array<'_>) -> Option<u64> {
    let mut sum = 0u64;
    for _ in 0..usize::MAX {
        let Some(price) = prices.next_value() else {
            break;
        };
        let mut price = price.as_object()?;
        sum = sum.wrapping_add(price.find("amount")?.as_u64()?);
        prices.pass(price.end());
    }
    Some(sum)
}

fn rings(root: Value<'_>) -> Option<Array<'_>> {
    let feature = root.get("features")?.get_idx(0)?;
    feature.get("geometry")?.get("coordinates")?.as_array()
}

#[inline(never)]
fn coordinates<const FLOATS: bool>(root: Value<'_>) -> Option<u64> {
    let mut sum = 0u64;
    let mut rings = rings(root)?;
    for _ in 0..usize::MAX {
        let Some(ring) = rings.next_value() else {
            break;
        };
        let mut points = ring.as_array()?;
        sum = sum.wrapping_add(all_points::<FLOATS>(&mut points)?);
        rings.pass(points.end());
    }
    Some(sum)
}

#[inline(always)]
fn all_points<const FLOATS: bool>(points: &mut Array<'_>) -> Option<u64> {
    let mut sum = 0u64;
    for _ in 0..usize::MAX {
        let Some(point) = points.next_value() else {
            break;
        };
        let mut numbers = point.as_array()?;
        sum = sum.wrapping_add(all_numbers::<FLOATS>(&mut numbers)?);
        points.pass(numbers.end());
    }
    Some(sum)
}

#[inline(always)]
fn all_numbers<const FLOATS: bool>(numbers: &mut Array<'_>) -> Option<u64> {
    let mut sum = 0u64;
    for _ in 0..usize::MAX {
        let Some(number) = numbers.next_value() else {
            break;
        };
        sum = sum.wrapping_add(if FLOATS {
            f64_to_bits_with_nan(number.as_f64()?)
        } else {
            number.raw()?.len() as u64
        });
    }
    Some(sum)
}

#[inline(always)]
fn line(root: Value<'_>, buffer: &mut Vec<u8>) -> Option<u64> {
    let mut members = root.as_object()?;
    let level = match members.find("level")?.decode(buffer) {
        Ok(text) => level_mark(text?)?,
        Err(_) => return None,
    };
    if level == ERROR {
        let status = members.find("status")?.as_u64()?;
        return Some(level.wrapping_add(status.wrapping_mul(1_000_039)));
    }
    Some(level)
}
