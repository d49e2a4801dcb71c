//! The walk with a list of levels that grows: the same stack is taken however deep a value is
//! nested.
ghost use Rattle.std.specs.Prelude.{◌≡◌, ◌+◌, ◌<◌, ◌≤◌, ◌^◌, length, map, take, OnErr, OnOk};
ghost use Rattle.simd_json_parts.specs.Nodes.{item_of};
ghost use Rattle.simd_json_parts.specs.Printed.{text};
ghost use Rattle.simd_json_print.specs.Frames.{IsAtValue, IsDeep, IsFurther, IsNext};
ghost use Rattle.simd_json_print.specs.Texts.{IsPrintedBy, Leads};

use crate::document::walk::{FEW, Level, Unprinted, put_from, put_value};
use crate::text::{Target, Text};
use simd_json_parts::node::Node;
use std::alloc::{AllocError, Allocator};

/// Puts the value of the nodes. The first `FEW` levels are on the stack. Where more are needed, all
/// are kept in the list, which becomes longer where it must.
///
/// Returns an error if an allocation fails. What was put by then is a prefix of the text.
pub(crate) fn put_growing<T: Target, const SIZE: usize, const PRETTY: bool, A: Allocator>(
    out: &mut Text<'_, T, SIZE>,
    nodes: &[Node<'_>],
    levels: &mut Vec<Level, A>,
) -> Result<(), AllocError>
    ensures put { IsPrintedBy T.state out.old out.new (map item_of nodes.now)
        (λ d. text PRETTY d 0) (length levels.old.items) result }
    ensures longer { length levels.old.items ≤ length levels.new.items }
{
    // More than a document has whose size is within the limit: ends may be too great for a level.
    if nodes.len() > u32::MAX as usize {
        put_value::<T, SIZE, PRETTY>(out, nodes, 0);
        return Ok(());
    }
    let mut few = [Level::EMPTY; FEW];
    let mut used = 0;
    let whole = Unprinted { nodes };
    let deep = put_from::<T, SIZE, PRETTY>(out, &mut few, &mut used, 0, whole);
    if deep.nodes.is_empty() {
        return Ok(());
    }
    keep(&few, levels)?;
    let mut value = deep;
    while !value.nodes.is_empty() {
        lengthen_past(levels, used)?;
        value = put_listed::<T, SIZE, PRETTY, A>(out, levels, &mut used, value);
    }
    Ok(())
}

// Puts a value and all that follows it, as [`put_from`], with the levels of a list.
fn put_listed<'tape, 'input, T: Target, const SIZE: usize, const PRETTY: bool, A: Allocator>(
    out: &mut Text<'_, T, SIZE>,
    levels: &mut Vec<Level, A>,
    used: &mut usize,
    value: Unprinted<'tape, 'input>,
) -> Unprinted<'tape, 'input>
    requires nested { used.old ≤ length levels.old.items }
    requires room { used.old + length value.nodes.now < 2 ^ 32 }
    ensures further { IsFurther levels.old.items used.old (length value.entry.nodes.now)
        levels.new.items used.new (length result.nodes.now) }
    ensures deep { IsDeep levels.new.items used.new (map item_of result.nodes.now) }
    ensures put { Leads T.state out.old out.new
        (IsAtValue PRETTY 0 levels.old.items used.old (map item_of value.entry.nodes.now))
        (IsNext PRETTY 0 levels.new.items used.new (map item_of result.nodes.now)) }
{
    put_from::<T, SIZE, PRETTY>(out, levels.as_mut_slice(), used, 0, value)
}

// Makes these the first of the levels, which become more than they.
#[cold]
#[inline(never)]
fn keep<A: Allocator>(outer: &[Level], levels: &mut Vec<Level, A>) -> Result<(), AllocError>
    requires { length outer.now < 2 ^ 32 }
    ensures kept { OnOk result (take (length outer.now) levels.new.items ≡ outer.now) }
    ensures past { OnOk result (length outer.now < length levels.new.items) }
    ensures failed { OnErr result (length levels.old.items ≤ length outer.now) }
    ensures longer { length levels.old.items ≤ length levels.new.items }
{
    lengthen_past(levels, outer.len())?;
    store(levels.as_mut_slice(), outer);
    Ok(())
}

// Makes these the first of the levels.
fn store(levels: &mut [Level], outer: &[Level])
    requires { length outer.now ≤ length levels.old }
    ensures { take (length outer.now) levels.new ≡ outer.now }
{
    levels[..outer.len()].copy_from_slice(outer);
}

// Makes the list longer than `count` levels, if it is not.
fn lengthen_past<A: Allocator>(levels: &mut Vec<Level, A>, count: usize) -> Result<(), AllocError>
    requires { count < 2 ^ 32 }
    ensures past { OnOk result (count < length levels.new.items) }
    ensures failed { OnErr result (length levels.old.items ≤ count) }
    ensures kept { take (length levels.old.items) levels.new.items ≡ levels.old.items }
    ensures longer { length levels.old.items ≤ length levels.new.items }
{
    if levels.len() <= count {
        levels.resize(count + FEW, Level::EMPTY)?;
    }
    Ok(())
}
