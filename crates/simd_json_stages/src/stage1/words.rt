//! The words of a block: from classes to structural indexes by arithmetic, as in G. Langdale and D.
//! Lemire, "Parsing Gigabytes of JSON per Second", VLDB Journal 28 (2019), section 3.1. Bit `i` of
//! a word is that of byte `i` of the block.
//!
//! - **Escaped bytes** come right after an odd number of backslashes. Adding to the backslashes the
//!   starts of the runs that begin at an odd bit carries through these runs and leaves the others
//!   as they are, which with the parity of a bit tells whether it is escaped. The paper adds twice,
//!   for runs from even and from odd bits; here one sum does, as in later versions of simdjson. A
//!   block without a backslash skips this.
//! - **Strings** lie between quotes that are not escaped: the prefix XOR of the quotes is set from
//!   an opening quote up to the byte before its closing one. The paper multiplies without carry by
//!   all ones; here six shifts do the same.
//! - **Starts of tokens** outside strings: structural characters, opening quotes, and each other
//!   byte that is not whitespace and does not continue such a token. The paper calls the latter
//!   pseudo-structural characters.
//!
//! A block needs three bits from the one before: whether its first byte is escaped, whether it
//! begins inside a string, and whether its first byte may continue a token. The work is split by
//! that: `classify` needs the first, `find_parts` none, so that several blocks run at once, and
//! `find_starts` the other two. It also finds control bytes inside strings, which are errors.
ghost use Rattle.std.specs.Prelude.{◌≡◌, ◌==◌, ◌-◌, ◌<◌, ◌++◌, ℕ, List, drop, replicate, Bool};
ghost use Rattle.std.specs.List.{list_any};
ghost use Rattle.simd_json_parts.specs.Bytes.{backslash};
ghost use Rattle.std.specs.Int.{from_bool};
ghost use Rattle.simd_json_stages.specs.Words.{HasBits, HasLastBits, escaped_in};
ghost use Rattle.simd_json_stages.specs.Carries.{is_escaped_at};
ghost use Rattle.simd_json_stages.specs.Blocks.{IsBlock, IsControl, IsCarried, HasClasses};
ghost use Rattle.simd_json_stages.specs.Blocks.{AreStarts, AreParts, AreClassified};

use super::classes::{backslashes, classes};

// The bits of even index.
const EVEN: u64 = 0x5555_5555_5555_5555;

// What `find_escaped` finds in a block.
#[derive(Clone, Copy, Drop)]
struct Escaped {
    // a bit for each byte that is escaped
    escaped: u64,
    // 1 if the first byte after the block is escaped, else 0
    next: u64,
}

// What `classify` finds in a block: the words of its classes and its escaped bytes. It depends on
// the block before only by whether its first byte is escaped.
#[derive(Clone, Copy, Drop)]
pub(super) struct Classified {
    // a bit for each byte that is whitespace or a quote, escaped or not
    pub(super) space_or_quote: u64,
    // a bit for each structural character and quote, and for 0x02, 0x0C and 0x1A
    pub(super) op_or_quote: u64,
    // a bit for each byte below 0x20
    pub(super) control: u64,
    // a bit for each byte that is escaped
    pub(super) escaped: u64,
    // 1 if the first byte after the block is escaped, else 0
    pub(super) next: u64,
    // not 0 if a byte is not ASCII
    pub(super) high: u64,
    // whether one of the bytes is a backslash
    pub(super) has_backslash: bool,
}

// What `find_parts` finds in a block without what precedes it.
#[derive(Clone, Copy, Drop)]
pub(super) struct Parts {
    // a bit for each byte with an odd number of quotes up to it that are not escaped: inside a
    // string, if the block begins outside
    pub(super) parity: u64,
    // a bit for each other byte than structural characters, whitespace and such quotes: outside
    // strings it is part of a number, a word or stray text
    pub(super) plain: u64,
    // a bit for each whitespace
    pub(super) space: u64,
    // a bit for each quote that is not escaped
    pub(super) quote: u64,
}

// What one block hands to the next, besides whether its first byte is escaped.
#[derive(Clone, Copy, Drop)]
pub(super) struct Carry {
    // all ones if the block ends inside a string, else 0
    pub(super) inside: u64,
    // 1 if its last byte is plain (see `Parts`), else 0
    pub(super) plain: u64,
}

// What `find_starts` finds in a block.
#[derive(Clone, Copy, Drop)]
pub(super) struct BlockStarts {
    // a bit for each structural index
    pub(super) starts: u64,
    // a bit for each byte below 0x20 inside a string
    pub(super) bad: u64,
    // for the next block
    pub(super) carry: Carry,
}

// Finds the bytes right after an odd number of backslashes. `before` is 1 if the first byte is
// escaped, else 0; an escaped backslash does not begin a run.
#[inline(always)]
fn find_escaped(backslash: u64, before: u64) -> Escaped
    ensures { (c : Bool) → before ≡ from_bool c → (HasBits result.escaped (escaped_in c backslash))
        × (result.next ≡ from_bool (escaped_in c backslash 64)) }
{
    let live = backslash & !before;
    let follows = (live << 1) | before;
    let odd_starts = live & !EVEN & !follows;
    let (even_runs, over) = odd_starts.overflowing_add(live);
    Escaped {
        escaped: (EVEN ^ (even_runs << 1)) & follows,
        next: over as u64,
    }
}

// Finds the classes of a block and its escaped bytes. `before` is 1 if its first byte is escaped,
// else 0.
#[inline(always)]
pub(super) fn classify(bytes: &[u8; 64], before: u64) -> Classified
    ensures classified { (b : List ℕ) (i : ℕ) → IsBlock b i bytes.now
        → before ≡ from_bool (is_escaped_at b i) → AreClassified b i result }
    ensures escapes { result.has_backslash ≡ list_any (λ x. x == backslash) bytes.now }
{
    let m = classes(bytes);
    // Most blocks hold no backslash.
    let e = if m.has_backslash {
        find_escaped(backslashes(bytes), before)
    } else {
        Escaped {
            escaped: before,
            next: 0,
        }
    };
    Classified {
        space_or_quote: m.space_or_quote,
        op_or_quote: m.op_or_quote,
        control: m.control,
        escaped: e.escaped,
        next: e.next,
        high: m.high,
        has_backslash: m.has_backslash,
    }
}

// The upper `len` bits of a word, moved to its lower end. Two shifts, since a shift by 64 would be
// out of range.
#[inline(always)]
fn last_bits(word: u64, len: usize) -> u64
    requires { len < 64 }
    ensures { HasLastBits len word result }
{
    (word >> 1) >> (63 - len)
}

// Like `classify`, for a block of the last `len` of these bytes followed by spaces: its words are
// those of the bytes, moved. Only `high` is that of all 64 bytes.
#[inline(always)]
pub(super) fn classify_last(bytes: &[u8; 64], len: usize, before: u64) -> Classified
    requires { len < 64 }
    ensures { (b : List ℕ) (i : ℕ)
        → IsBlock b i (drop (64 - len) bytes.now ++ replicate (64 - len) 32)
        → before ≡ from_bool (is_escaped_at b i) → AreClassified b i result }
{
    let m = classes(bytes);
    let backslash = last_bits(backslashes(bytes), len);
    let Escaped { escaped, next } = if backslash != 0 {
        find_escaped(backslash, before)
    } else {
        Escaped {
            escaped: before,
            next: 0,
        }
    };
    Classified {
        space_or_quote: last_bits(m.space_or_quote, len) | !last_bits(u64::MAX, len),
        op_or_quote: last_bits(m.op_or_quote, len),
        control: last_bits(m.control, len),
        escaped,
        next,
        high: m.high,
        has_backslash: backslash != 0,
    }
}

// Finds what the words of a block say by themselves.
#[inline(always)]
pub(super) fn find_parts(space_or_quote: u64, op_or_quote: u64, control: u64, escaped: u64) -> Parts
    ensures { (b : List ℕ) (i : ℕ) → HasClasses b i space_or_quote op_or_quote control escaped
        → AreParts b i result }
{
    let quotes = space_or_quote & op_or_quote;
    let op = op_or_quote & !(control | space_or_quote);
    // Not `space_or_quote & !op_or_quote`: LLVM would take that apart, lane by lane.
    let space = space_or_quote ^ quotes;
    let quote = quotes & !escaped;
    // The prefix XOR: each bit is the XOR of all quotes up to it, as in the carry-less product with
    // all ones.
    let a = quote ^ (quote << 1);
    let b = a ^ (a << 2);
    let c = b ^ (b << 4);
    let d = c ^ (c << 8);
    let e = d ^ (d << 16);
    Parts {
        parity: e ^ (e << 32),
        plain: !(op | space | quote),
        space,
        quote,
    }
}

// Finds the structural indexes of a block, from what the block before hands to it: those of all
// bytes but plain ones after a plain one, whitespace, the bytes inside strings and closing quotes.
#[inline(always)]
pub(super) fn find_starts(parts: Parts, control: u64, carry: Carry) -> BlockStarts
    ensures { (b : List ℕ) (i : ℕ) → AreParts b i parts → IsControl b i control
        → IsCarried b i carry → AreStarts b i result }
{
    let inside = parts.parity ^ carry.inside;
    let follows = (parts.plain << 1) | carry.plain;
    BlockStarts {
        starts: !((parts.plain & follows) | parts.space | (inside ^ parts.quote)),
        bad: control & inside,
        carry: Carry {
            inside: 0u64.wrapping_sub(inside >> 63),
            plain: parts.plain >> 63,
        },
    }
}
