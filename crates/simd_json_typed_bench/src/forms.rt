//! The types, and the sums of their values.
use serde::Deserialize;
use simd_json_serde::borrowed_str;
use std::convert::AsStr;

/// A number that depends on what was read. It is the same for each form of a type.
pub(crate) trait Sum: Drop {
    fn sum(&self) -> u64;
}

#[derive(Drop, Deserialize)]
pub(crate) struct Line<S> {
    time: u64,
    level: S,
    host: S,
    path: S,
    status: u16,
    ms: f64,
    user: Option<u64>,
    retry: bool,
    text: S,
}

#[derive(Drop, Deserialize)]
pub(crate) struct Timeline<S> {
    statuses: Vec<Tweet<S>>,
}

#[derive(Drop, Deserialize)]
struct Tweet<S> {
    id: u64,
    text: S,
    user: User<S>,
    retweet_count: u32,
    favorite_count: u32,
}

#[derive(Drop, Deserialize)]
struct User<S> {
    id: u64,
    name: S,
    screen_name: S,
    followers_count: u32,
}

/// A string that is borrowed.
#[derive(Drop, Deserialize)]
pub(crate) struct Borrowed<'de>(#[serde(deserialize_with = borrowed_str)] &'de str);

impl AsStr for Borrowed<'_> {
    ghost text = { λ s. s.0.now };

    fn as_str(&self) -> &str {
        self.0
    }
}

/// Outlines, as GeoJSON has them.
#[derive(Drop, Deserialize)]
pub(crate) struct Map {
    features: Vec<Feature>,
}

#[derive(Drop, Deserialize)]
struct Feature {
    geometry: Geometry,
}

#[derive(Drop, Deserialize)]
struct Geometry {
    coordinates: Vec<Vec<(f64, f64)>>,
}

// A string's length, and its first and its last byte.
fn mark(text: &impl AsStr) -> u64 {
    let bytes = text.as_str().as_bytes();
    let first = bytes.first().copied().unwrap_or(0);
    let last = bytes.last().copied().unwrap_or(0);
    (bytes.len() as u64)
        .wrapping_mul(1_000_003)
        .wrapping_add(u64::from(first))
        .wrapping_add(u64::from(last))
}

impl<S: AsStr + Drop> Sum for Line<S> {
    fn sum(&self) -> u64 {
        self.time
            .wrapping_add(mark(&self.level))
            .wrapping_add(mark(&self.host))
            .wrapping_add(mark(&self.path))
            .wrapping_add(u64::from(self.status))
            .wrapping_add(u64::from(self.ms > 500.0))
            .wrapping_add(self.user.unwrap_or(0))
            .wrapping_add(u64::from(self.retry))
            .wrapping_add(mark(&self.text))
    }
}

impl<S: AsStr + Drop> Sum for Timeline<S> {
    fn sum(&self) -> u64 {
        let mut sum = 0u64;
        for tweet in &self.statuses {
            sum = sum
                .wrapping_add(tweet.id)
                .wrapping_add(mark(&tweet.text))
                .wrapping_add(tweet.user.id)
                .wrapping_add(mark(&tweet.user.name))
                .wrapping_add(mark(&tweet.user.screen_name))
                .wrapping_add(u64::from(tweet.user.followers_count))
                .wrapping_add(u64::from(tweet.retweet_count))
                .wrapping_add(u64::from(tweet.favorite_count));
        }
        sum
    }
}

// Of each point on which side of two lines it is: Rust's `serde_json` rounds otherwise.
impl Sum for Map {
    fn sum(&self) -> u64 {
        let mut sum = 0u64;
        for feature in &self.features {
            for ring in &feature.geometry.coordinates {
                sum = sum.wrapping_add(sides(ring));
            }
        }
        sum
    }
}

fn sides(ring: &[(f64, f64)]) -> u64 {
    let mut sum = ring.len() as u64;
    for (x, y) in ring {
        sum = sum
            .wrapping_add(u64::from(*x > -100.0))
            .wrapping_add(u64::from(*y > 60.0));
    }
    sum
}
