//! Where a text is among the blocks, or would be put in.
ghost use Rattle.std.specs.Prelude.{◌≡◌, ◌<◌, ◌≤◌, [], length, take, drop, slice_index_or, true, false, None, Some, MatchOption, IfOk, IfErr, OnOk, OnErr};
ghost use Rattle.std.specs.BTreeMap.{insert_entry};
ghost use Rattle.std.specs.Map.{lookup, set_value};
ghost use Rattle.std.specs.Option.{unwrap_or};
ghost use Rattle.shelf.specs.Texts.{is_text, text_cmp};
ghost use Rattle.shelf.specs.inside.Places.{AreAbove, AreBelow, AreFilled, AreSorted, IsBetween, IsBlockOf, IsFound, joined};
ghost use Rattle.shelf.specs.inside.Walks.{IsShelf};

use crate::block::{Block, FULL, block_between, block_of};
use crate::filling::put;
use std::alloc::{AllocError, Global};
use std::cmp::Ordering;

/// Where a text is: its block, and its place in it.
pub(crate) fn spot<V>(blocks: &[Block<V>], key: &str) -> Option<(usize, usize)>
    requires { IsShelf blocks.now }
    ensures { MatchOption result (lookup (is_text key.now) (joined blocks.now) ≡ None) (λ p. IsFound key.now p.0 p.1 blocks.now) }
{
    if blocks.is_empty() {
        return None;
    }
    let at = block_of(blocks, key);
    match blocks[at].search(key) {
        Ok(i) => Some((at, i)),
        Err(_) => None,
    }
}

/// Where a text is, or where it would be put in. It costs little where that is at a place of a block, or just after it.
pub(crate) fn find<V>(
    blocks: &[Block<V>],
    near: (usize, usize),
    key: &str,
) -> Result<(usize, usize), (usize, usize)>
    requires some { 0 < length blocks.now }
    requires shelf { IsShelf blocks.now }
    ensures ok { IfOk result (λ p. IsFound key.now p.0 p.1 blocks.now) }
    ensures err { IfErr result (λ p. IsBlockOf key.now p.0 blocks.now
        × IsBetween key.now p.1 (slice_index_or blocks.now p.0 [])) }
{
    let at = block_near(blocks, near.0, key);
    // (no block has a place FULL)
    let place = if at == near.0 { near.1 } else { FULL };
    match blocks[at].search_near(place, key) {
        Ok(i) => Ok((at, i)),
        Err(i) => Err((at, i)),
    }
}

/// The block in which the text is, or would be put in. It costs little where that is the one given.
fn block_near<V>(blocks: &[Block<V>], near: usize, key: &str) -> usize
    requires some { 0 < length blocks.now }
    requires filled { AreFilled blocks.now }
    requires sorted { AreSorted (joined blocks.now) }
    ensures { IsBlockOf key.now result blocks.now }
{
    let count = blocks.len();
    if near == 0 || count <= near {
        return block_of(blocks, key);
    }
    if are_above(blocks, near, key) {
        return block_between(blocks, 0, near, key);
    }
    let next = near + 1;
    if are_above(blocks, next, key) {
        return near;
    }
    block_between(blocks, next, count, key)
}

/// Whether the texts of the blocks from one on are above a text. If not, those of the blocks before it are below.
fn are_above<V>(blocks: &[Block<V>], at: usize, key: &str) -> bool
    requires within { at ≤ length blocks.now }
    requires filled { AreFilled blocks.now }
    requires sorted { AreSorted (joined blocks.now) }
    ensures above { result ≡ true → AreAbove key.now (joined (drop at blocks.now)) }
    ensures below { result ≡ false → AreBelow key.now (joined (take at blocks.now)) }
    ensures some { result ≡ false → at < length blocks.now }
{
    if at == blocks.len() {
        return true;
    }
    match blocks[at].text(0).cmp(key) {
        Ordering::Greater => true,
        _ => false,
    }
}

/// Puts a text in with a value if it is not there, and says where it is. It is sought near a place of a block first. For
/// want of memory no entry changes.
pub(crate) fn enter<V: Drop>(
    alloc: Global,
    blocks: &mut Vec<Block<V>>,
    near: (usize, usize),
    key: &str,
    value: V,
) -> Result<(usize, usize), AllocError>
    requires short { length key.now ≤ 511 }
    requires shelf { IsShelf blocks.old.items }
    ensures shelf { IsShelf blocks.new.items }
    ensures found { IfOk result (λ p. IsFound key.now p.0 p.1 blocks.new.items) }
    // The key is put among the entries with the value, or it was one of them.
    ensures entered { OnOk result (
        ((w : V) → set_value (is_text key.now) (joined blocks.new.items) w
        ≡ insert_entry text_cmp (joined blocks.old.items) key.now w)
        × (lookup (is_text key.now) (joined blocks.new.items)
        ≡ Some (unwrap_or (lookup (is_text key.now) (joined blocks.old.items)) value))) }
    ensures err { OnErr result (joined blocks.new.items ≡ joined blocks.old.items) }
{
    if blocks.is_empty() {
        let block = Block::one(alloc, key, value)?;
        blocks.push(block)?;
        return Ok((0, 0));
    }
    match find(blocks, near, key) {
        Ok((at, i)) => Ok((at, i)),
        Err((at, i)) => put(alloc, blocks, at, i, key, value),
    }
}
