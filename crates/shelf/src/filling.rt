//! A text put in among the blocks.
ghost use Rattle.std.specs.Prelude.{◌≡◌, ◌+◌, ◌<◌, ◌≤◌, [], length, take, drop, slice_index_or, slice_set, IfOk, OnOk, OnErr};
ghost use Rattle.std.specs.List.{insert};
ghost use Rattle.shelf.specs.inside.Places.{AreFilled, IsAt, joined};
ghost use Rattle.shelf.specs.inside.Written.{entries_put, parted};

use crate::block::{Block, FULL};
use std::alloc::{AllocError, Global};

/// Puts a text in at a place of a block, which is parted if it is full, and says where it is then: its block, and
/// its place in it. For want of memory no entry changes.
pub(crate) fn put<V: Drop>(
    alloc: Global,
    blocks: &mut Vec<Block<V>>,
    at: usize,
    i: usize,
    key: &str,
    value: V,
) -> Result<(usize, usize), AllocError>
    requires within { at < length blocks.old.items }
    requires place { i ≤ length (slice_index_or blocks.old.items at []) }
    requires short { length key.now ≤ 511 }
    requires filled { AreFilled blocks.old.items }
    ensures filled { AreFilled blocks.new.items }
    ensures ok { OnOk result (joined blocks.new.items ≡ entries_put blocks.old.items at i (key.now, value)) }
    ensures there { IfOk result (λ spot. IsAt key.now spot.1 (slice_index_or blocks.new.items spot.0 [])) }
    ensures err { OnErr result (joined blocks.new.items ≡ joined blocks.old.items) }
{
    if blocks[at].len() < FULL {
        return put_in(blocks, at, i, key, value);
    }
    let cut = cut_of(at + 1 == blocks.len(), i);
    split(alloc, blocks, at, cut)?;
    if i <= cut {
        put_in(blocks, at, i, key, value)
    } else {
        put_in(blocks, at + 1, i - cut, key, value)
    }
}

/// Where a full block is parted: at its half, but near its end where texts come in order.
fn cut_of(last: bool, i: usize) -> usize
    ensures some { 0 < result }
    ensures less { result < 128 }
{
    if last && i == FULL {
        FULL - 1
    } else {
        FULL / 2
    }
}

fn put_in<V: Drop>(
    blocks: &mut Vec<Block<V>>,
    at: usize,
    i: usize,
    key: &str,
    value: V,
) -> Result<(usize, usize), AllocError>
    requires within { at < length blocks.old.items }
    requires place { i ≤ length (slice_index_or blocks.old.items at []) }
    requires room { length (slice_index_or blocks.old.items at []) < 128 }
    requires short { length key.now ≤ 511 }
    ensures there { IfOk result (λ spot. IsAt key.now spot.1 (slice_index_or blocks.new.items spot.0 [])) }
    ensures ok { OnOk result (blocks.new.items ≡ slice_set blocks.old.items at (insert (slice_index_or blocks.old.items at []) i (key.now, value))) }
    ensures err { OnErr result (blocks.new.items ≡ blocks.old.items) }
{
    let block = &mut blocks[at];
    block.insert(i, key, value)?;
    Ok((at, i))
}

/// Parts a block in two. For want of memory nothing changes.
fn split<V: Drop>(
    alloc: Global,
    blocks: &mut Vec<Block<V>>,
    at: usize,
    cut: usize,
) -> Result<(), AllocError>
    requires within { at < length blocks.old.items }
    requires inside { cut ≤ length (slice_index_or blocks.old.items at []) }
    ensures ok { OnOk result (blocks.new.items ≡ parted blocks.old.items at cut) }
    ensures err { OnErr result (blocks.new.items ≡ blocks.old.items) }
{
    blocks.reserve(1)?;
    let block = &mut blocks[at];
    let right = block.split_off(alloc, cut)?;
    blocks.insert(at + 1, right)?;
    Ok(())
}
