//! The exports for C: `include/simd_json.h` declares and documents each.
//!
//! A slice is a pointer and a length. A [`Global`](std::alloc::Global) has no bytes, so C passes
//! nothing for it. No export has a precondition.
#![tactic(auto)]

mod cells;
mod demand;
mod double;
mod fields;
mod fraction;
mod integer;
mod lent;
mod lists;
mod location;
mod number;
mod parser;
mod pointer;
mod position;
mod print;
mod printable;
mod scan;
mod scanned;
mod status;
mod version;

pub use cells::Cell;
pub use demand::{FoundValue, simd_json_parser_pointer, simd_json_parser_scan};
pub use double::simd_json_double;
pub use fields::{Field, simd_json_parser_add, simd_json_parser_pointers};
pub use integer::simd_json_integer;
pub use lent::{Lent, simd_json_parser_parse};
pub use lists::simd_json_check;
pub use location::{InputPosition, simd_json_location};
pub use number::{simd_json_int64, simd_json_number};
pub use parser::{Parser, simd_json_close, simd_json_open, simd_json_parser_check};
pub use pointer::{simd_json_get, simd_json_is_pointer, simd_json_pointer};
pub use position::simd_json_node_position;
pub use print::{simd_json_parser_print, simd_json_print};
pub use scan::simd_json_scan;
pub use status::{ErrorPlace, simd_json_kind_name, simd_json_status_name};
pub use version::simd_json_version;
