//! Going over texts in order.
ghost use Rattle.std.specs.Prelude.{◌≡◌, ◌≤◌, ◌<◌, ℕ, List, [], length, drop, slice_index_or};
ghost use Rattle.std.specs.Iterator.{at_most};
ghost use Rattle.std.specs.Map.Iter.{TakesFirst, deref_pair};
ghost use Rattle.std.specs.BTreeMap.Range.{entries_between};
ghost use Rattle.std.specs.declared.ops.Bound.TheVariants.{Included, Unbounded};
ghost use Rattle.shelf.specs.Texts.{text_cmp};
ghost use Rattle.shelf.specs.inside.Places.{AreFilled, AreSorted, IsBlockOf, joined};
ghost use Rattle.shelf.specs.inside.Walks.{IsShelf};

use crate::block::{Block, block_between, block_of};
use std::cmp::Ordering;
use std::iter::Iterator;
use std::marker::Model;

/// The texts that are left, in order, each with its value.
#[derive(Drop)]
pub struct Walk<'a, V> {
    blocks: &'a [Block<V>],
    index: usize,
}

impl<'a, V> Model for Walk<'a, V> {
    ghost use Rattle.std.specs.Prelude.{List, ℕ};

    ghost Value = { List (List ℕ × V) };

    ghost use Rattle.shelf.specs.inside.Walks.{rest, IsWalk};

    ghost view = { λ w. rest w.blocks.now w.index };

    ghost invariant = { λ w. IsWalk w.blocks.now w.index };
}

impl<'a, V> Walk<'a, V> {
    /// Passes over the texts below a text. It costs little where few are left out.
    pub fn skip_to(&mut self, least: &str)
        ensures { self.new ≡ entries_between text_cmp (Included least.now) Unbounded self.old }
    {
        let blocks = self.blocks;
        if blocks.is_empty() {
            return;
        }
        let passed = self.index;
        let at = near_block_of(blocks, least);
        let place = blocks[at].place(least);
        let index = if at == 0 { place.max(passed) } else { place };
        *self = walk_at(blocks, at, index);
    }
}

impl<'a, V> Iterator for Walk<'a, V> {
    type Item = (&'a str, &'a V);

    ghost next_gives = { TakesFirst deref_pair };

    ghost remaining = { λ s. at_most (length s) };

    fn next(&mut self) -> Option<(&'a str, &'a V)> {
        let (block, others) = self.blocks.split_first()?;
        let count = block.len();
        let entry = block.entry(self.index);
        if self.index + 1 < count {
            self.index += 1;
        } else {
            self.blocks = others;
            self.index = 0;
        }
        Some(entry)
    }
}

pub(crate) fn walk_all<V>(blocks: &[Block<V>]) -> Walk<'_, V>
    requires { IsShelf blocks.now }
    ensures { result ≡ joined blocks.now }
{
    Walk { blocks, index: 0 }
}

pub(crate) fn walk_from<'a, V>(blocks: &'a [Block<V>], least: &str) -> Walk<'a, V>
    requires { IsShelf blocks.now }
    ensures { result ≡ entries_between text_cmp (Included least.now) Unbounded (joined blocks.now) }
{
    if blocks.is_empty() {
        return Walk { blocks, index: 0 };
    }
    let at = block_of(blocks, least);
    let index = blocks[at].place(least);
    walk_at(blocks, at, index)
}

/// The block in which the text is, or would be put in. It costs little where that is near the first.
fn near_block_of<V>(blocks: &[Block<V>], key: &str) -> usize
    requires some { 0 < length blocks.now }
    requires filled { AreFilled blocks.now }
    requires sorted { AreSorted (joined blocks.now) }
    ensures { IsBlockOf key.now result blocks.now }
{
    let mut low = 0;
    let mut high = 1;
    'steps: while high < blocks.len() {
        match blocks[high].text(0).cmp(key) {
            Ordering::Greater => return block_between(blocks, low, high, key),
            _ => {
                low = high;
                high = high.saturating_add(high);
            }
        }
    }
    block_between(blocks, low, blocks.len(), key)
}

/// What is left after a place.
fn walk_at<V>(blocks: &[Block<V>], at: usize, index: usize) -> Walk<'_, V>
    requires shelf { IsShelf blocks.now }
    requires within { at < length blocks.now }
    requires inside { index ≤ length (slice_index_or blocks.now at []) }
    ensures { result ≡ drop index (joined (drop at blocks.now)) }
{
    if index < blocks[at].len() {
        return Walk {
            blocks: &blocks[at..],
            index,
        };
    }
    Walk {
        blocks: &blocks[at + 1..],
        index: 0,
    }
}
