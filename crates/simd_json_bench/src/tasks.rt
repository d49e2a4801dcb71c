//! Tasks: of each text some values are asked for, by a tape and on demand. A task has a number, as
//! C passes it:
//!
//! | | of each text |
//! |---|---|
//! | 0 | of each tweet eight fields |
//! | 1 | the text of the tweet [`WANTED`] |
//! | 2 | the text and the name of the first tweet of those retweeted most |
//! | 3 | the users of tweets and of those that these repeat, each once |
//! | 4 | of each performance the event and the amounts |
//! | 5 | of each coordinate how long its literal is |
//! | 6 | each coordinate as a float |
//! | 8 | the amounts of the prices of each performance, [`ASKED`] times |
//! | 9 | each amount, wherever it is, [`ASKED`] times |
//!
//! Each is a sum, modulo 2^64, on which all contenders agree.
pub(crate) mod on_demand;
pub(crate) mod path;
pub(crate) mod tape;

// The id of the tweet that is looked for.
const WANTED: u64 = 505_874_901_689_851_900;

// How often each text is asked for its amounts, so that this takes longer than the parse.
const ASKED: u32 = 32;

// Reported where a text or a value of it is missing.
pub(crate) const NONE: u64 = u64::MAX;

// What is added of a text: its length, and its first and its last byte.
fn mark(text: &str) -> u64 {
    let bytes = text.as_bytes();
    let first = bytes.first().copied().unwrap_or(0);
    let last = bytes.last().copied().unwrap_or(0);
    (bytes.len() as u64)
        .wrapping_mul(1_000_003)
        .wrapping_add(u64::from(first))
        .wrapping_add(u64::from(last))
}

// What is added of a line with this level, but for the status of an error.
fn level_mark(level: &str) -> Option<u64> {
    match level {
        "debug" => Some(1),
        "info" => Some(1_000_003),
        "warn" => Some(1_000_033),
        "error" => Some(ERROR),
        _ => None,
    }
}

const ERROR: u64 = 1_000_037;

// The sum of ids, each once.
fn distinct(ids: &mut Vec<u64>) -> u64 {
    ids.sort_unstable();
    ids.dedup();
    let mut sum = ids.len() as u64;
    for id in ids.iter() {
        sum = sum.wrapping_add(*id);
    }
    sum
}
