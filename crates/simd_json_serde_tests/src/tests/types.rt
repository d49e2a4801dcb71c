// Types of each form that the derives read.
use serde::{Deserialize, Serialize};
use std::borrow::CowStr;

#[derive(Drop, Deserialize)]
pub(super) struct Line<'a> {
    pub(super) level: &'a str,
    pub(super) status: u16,
    pub(super) path: CowStr<'a>,
    pub(super) took: Option<f64>,
}

#[derive(Drop, PartialEq, Deserialize)]
pub(super) struct Tweet {
    id: u64,
    text: String,
    #[serde(rename = "screen_name", alias = "handle")]
    name: String,
    place: Option<Point>,
    #[serde(default)]
    indices: Vec<(u32, u32)>,
}

#[derive(Drop, PartialEq, Serialize, Deserialize)]
pub(super) struct Point {
    x: i8,
    y: i8,
}

#[derive(Drop, PartialEq, Serialize, Deserialize)]
pub(super) struct Placed {
    id: u8,
    #[serde(flatten)]
    point: Point,
}

#[derive(Drop, PartialEq, Deserialize)]
#[serde(recursive, deny_unknown_fields)]
pub(super) struct Folder {
    size: u8,
    #[serde(recursive)]
    folders: Vec<Folder>,
}

#[derive(Drop, PartialEq, Serialize, Deserialize)]
pub(super) enum Shape {
    Dot,
    Line(u8, u8),
    Circle { radius: f64 },
    Named(String),
}

#[derive(Drop, PartialEq, Serialize, Deserialize)]
#[serde(tag = "kind", rename_all = "snake_case")]
pub(super) enum Command {
    Stop,
    MoveTo { x: i32, y: i32 },
}

#[derive(Drop, PartialEq, Serialize, Deserialize)]
#[serde(tag = "t", content = "c")]
pub(super) enum Message {
    Ping,
    Text(String),
    Point { x: u8 },
}

#[derive(Drop, PartialEq, Deserialize)]
#[serde(untagged)]
pub(super) enum Either {
    Number(i64),
    Pair(u8, bool),
    List(Vec<u8>),
    Text(String),
}

// The types without fields.
pub(super) type Wide = (
    (i8, i16, i32, i64),
    (i128, u128, f32, f64),
    (char, bool, (), usize),
    [u8; 3],
);
