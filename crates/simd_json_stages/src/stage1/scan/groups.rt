//! The scan of groups of eight blocks, in three loops:
//!
//! 1. `classify_group`: the classes of each block and its escaped bytes, and the list of blocks
//!    with a backslash.
//! 2. `part_group`: the arithmetic that needs no other block. It is the same for each, so LLVM does
//!    several blocks at once by vectors.
//! 3. `place_group`: the structural indexes, from left to right.
//!
//! simdjson takes one or two blocks through all of this before the next. Here the second loop runs
//! in vectors, at the cost of storing the words in between. Also, the first half of a group, or all
//! but its last block, is skipped in step 3 if it lies inside a string: it has no structural index.
ghost use Rattle.std.specs.Prelude.{◌≡◌, ◌≢◌, ◌+◌, ◌-◌, ◌*◌, ◌%◌, ◌^◌, ◌<◌, ◌≤◌, ℕ, List, length};
ghost use Rattle.simd_json_stages.specs.Blocks.{AreBlocks, CanList, IsClassified, IsPlaced};
ghost use Rattle.simd_json_stages.specs.BlockScans.{CanScan, Classifies, Scans};
ghost use Rattle.simd_json_stages.specs.Groups.{HaveClasses, HaveControl, HaveParts, HasNoQuotes};

use super::windows::Window;
use super::{Classifying, Placing, ScanState};
use crate::stage1::BLOCK_LEN;
use crate::stage1::words::{Carry, Parts, classify, find_parts};

// The number of blocks of a group.
pub(super) const GROUP: usize = 8;

// The number of blocks of its first half.
const HALF: usize = GROUP / 2;

// The last block of a group. It is placed even if all others are skipped: then the loop that places
// runs at least once, and LLVM keeps its state in the same registers.
const LAST: usize = GROUP - 1;

// A word for each block of a group.
type Words = [u64; GROUP];

// What the first loop finds, a word for each block: the fields of `Classified` that the others
// need.
#[derive(Clone, Copy, Drop)]
struct GroupClasses {
    // the bits of whitespace and quotes
    space_or_quote: Words,
    // the bits of structural characters and quotes, and of 0x02, 0x0C and 0x1A
    op_or_quote: Words,
    // the bits of bytes below 0x20
    control: Words,
    // the bits of escaped bytes
    escaped: Words,
}

// What the second loop finds, a word for each block: the fields of `Parts`.
#[derive(Clone, Copy, Drop)]
struct GroupParts {
    // the bits with an odd number of quotes up to them
    parity: Words,
    // the bits of bytes of numbers, words and stray text
    plain: Words,
    // the bits of whitespace
    space: Words,
    // the bits of quotes that are not escaped
    quote: Words,
}

// Memory for the words of one group, used by one group after another.
#[derive(Clone, Copy, Drop)]
struct Group {
    // of the first loop
    classes: GroupClasses,
    // of the second
    parts: GroupParts,
}

impl Group {
    // The memory before the first group.
    const EMPTY: Group = Group {
        classes: GroupClasses {
            space_or_quote: [0; GROUP],
            op_or_quote: [0; GROUP],
            control: [0; GROUP],
            escaped: [0; GROUP],
        },
        parts: GroupParts {
            parity: [0; GROUP],
            plain: [0; GROUP],
            space: [0; GROUP],
            quote: [0; GROUP],
        },
    };
}

// The first loop: classifies the blocks of the group from number `first` on, and lists those with a
// backslash.
#[inline(always)]
fn classify_group(
    blocks: &[[u8; 64]],
    first: usize,
    escape_blocks: &mut [u32],
    classes: &mut GroupClasses,
    before: Classifying,
) -> Classifying
    requires within { first + GROUP ≤ length blocks.now }
    requires short { BLOCK_LEN * (first + GROUP) ≤ 2 ^ 32 }
    requires capacity { CanList blocks.now first (first + GROUP) before.listed
        (length escape_blocks.old) }
    ensures classified { Classifies blocks.now first (first + GROUP) before result
        escape_blocks.old escape_blocks.new }
    ensures classes { (b : List ℕ) → AreBlocks b blocks.now
        → IsClassified b first before escape_blocks.old → HaveClasses b first GROUP classes.new }
{
    let mut now = before;
    let mut k = 0;
    while k < GROUP {
        let found = classify(&blocks[first + k], now.escaped);
        now = now.with_block(found, first + k, escape_blocks);
        classes.space_or_quote[k] = found.space_or_quote;
        classes.op_or_quote[k] = found.op_or_quote;
        classes.control[k] = found.control;
        classes.escaped[k] = found.escaped;
        k += 1;
    }
    now
}

// The second loop: the parts of each block from its classes. Always inlined, like the first: a call
// would cost a tenth of the scan.
#[inline(always)]
fn part_group(classes: &GroupClasses, parts: &mut GroupParts)
    ensures { (b : List ℕ) (first : ℕ) → HaveClasses b first GROUP classes.now
        → HaveParts b first GROUP parts.new }
{
    let mut k = 0;
    while k < GROUP {
        let found = find_parts(
            classes.space_or_quote[k],
            classes.op_or_quote[k],
            classes.control[k],
            classes.escaped[k],
        );
        parts.parity[k] = found.parity;
        parts.plain[k] = found.plain;
        parts.space[k] = found.space;
        parts.quote[k] = found.quote;
        k += 1;
    }
}

// Not 0 if one of the first `end` blocks has a quote that is not escaped.
fn quotes_before(group: &GroupParts, end: usize) -> u64
    requires within { end ≤ GROUP }
    ensures { (b : List ℕ) (first : ℕ) → HaveParts b first GROUP group.now → result ≡ 0
        → HasNoQuotes b (BLOCK_LEN * first) (BLOCK_LEN * (first + end)) }
{
    let mut quotes = 0;
    let mut k = 0;
    while k < end {
        quotes |= group.quote[k];
        k += 1;
    }
    quotes
}

// Skips the first `end` blocks, which are all inside a string: they have no structural index, and
// each of their control bytes is bad. Returns the state after them.
fn pass_blocks(group: &GroupParts, control: &Words, end: usize, before: Placing) -> Placing
    requires within { (0 < end) × (end ≤ GROUP) }
    requires inside { before.carry.inside ≢ 0 }
    ensures used { result.used ≡ before.used }
    ensures placed { (b : List ℕ) (first : ℕ) (out : List ℕ) → HaveControl b first GROUP control.now
        → HaveParts b first GROUP group.now
        → HasNoQuotes b (BLOCK_LEN * first) (BLOCK_LEN * (first + end))
        → IsPlaced b first before out → IsPlaced b (first + end) result out }
{
    let mut bad = before.bad;
    let mut k = 0;
    while k < end {
        bad |= control[k];
        k += 1;
    }
    Placing {
        carry: Carry {
            inside: before.carry.inside,
            plain: group.plain[end - 1] >> 63,
        },
        bad,
        used: before.used,
    }
}

// Skips the first blocks of the group if they lie inside a string. Returns how many, and the state
// after them.
fn pass_group(group: &GroupParts, control: &Words, before: Placing) -> (usize, Placing)
    ensures few { result.0 ≤ GROUP }
    ensures used { result.1.used ≡ before.used }
    ensures placed { (b : List ℕ) (first : ℕ) (out : List ℕ) → HaveControl b first GROUP control.now
        → HaveParts b first GROUP group.now
        → IsPlaced b first before out → IsPlaced b (first + result.0) result.1 out }
{
    // The test for quotes comes first: nearly each half has one, while every other group begins
    // inside a string.
    if quotes_before(group, HALF) == 0 && before.carry.inside != 0 {
        if quotes_before(group, LAST) == 0 {
            return (LAST, pass_blocks(group, control, LAST, before));
        }
        return (HALF, pass_blocks(group, control, HALF, before));
    }
    (0, before)
}

// The third loop: writes the structural indexes of the group from block number `first` on.
fn place_group(
    first: usize,
    group: &GroupParts,
    control: &Words,
    structural_indexes: &mut [u32],
    before: Placing,
) -> Placing
    requires short { BLOCK_LEN * (first + GROUP) ≤ 2 ^ 32 }
    requires capacity { before.used + BLOCK_LEN * GROUP ≤ length structural_indexes.old }
    ensures few { result.used ≤ before.used + BLOCK_LEN * GROUP }
    ensures placed { (b : List ℕ) → HaveControl b first GROUP control.now
        → HaveParts b first GROUP group.now → IsPlaced b first before structural_indexes.old
        → IsPlaced b (first + GROUP) result structural_indexes.new }
{
    let (mut k, mut now) = pass_group(group, control, before);
    while k < GROUP {
        let parts = Parts {
            parity: group.parity[k],
            plain: group.plain[k],
            space: group.space[k],
            quote: group.quote[k],
        };
        now = now.place_block(parts, control[k], first + k, structural_indexes);
        k += 1;
    }
    now
}

// Scans the group from block number `first` on.
fn scan_group(
    blocks: &[[u8; 64]],
    first: usize,
    structural_indexes: &mut [u32],
    escape_blocks: &mut [u32],
    group: &mut Group,
    before: ScanState,
) -> ScanState
    requires { CanScan blocks.now first (first + GROUP) before
        structural_indexes.old escape_blocks.old }
    ensures { Scans blocks.now first (first + GROUP) before result
        structural_indexes.old escape_blocks.old structural_indexes.new escape_blocks.new }
{
    let classifying = classify_group(
        blocks,
        first,
        escape_blocks,
        &mut group.classes,
        before.classifying,
    );
    part_group(&group.classes, &mut group.parts);
    let placing = place_group(
        first,
        &group.parts,
        &group.classes.control,
        structural_indexes,
        before.placing,
    );
    ScanState {
        classifying,
        placing,
    }
}

// Scans a window that consists of whole groups.
#[inline(never)]
pub(super) fn scan_groups(
    blocks: &[[u8; 64]],
    window: Window,
    structural_indexes: &mut [u32],
    escape_blocks: &mut [u32],
    before: ScanState,
) -> ScanState
    requires groups { (window.end - window.first) % GROUP ≡ 0 }
    requires fits { CanScan blocks.now window.first window.end before
        structural_indexes.old escape_blocks.old }
    ensures { Scans blocks.now window.first window.end before result
        structural_indexes.old escape_blocks.old structural_indexes.new escape_blocks.new }
{
    let mut group = Group::EMPTY;
    let mut done = before;
    let mut i = window.first;
    while i < window.end {
        done = scan_group(
            blocks,
            i,
            structural_indexes,
            escape_blocks,
            &mut group,
            done,
        );
        i += GROUP;
    }
    done
}
