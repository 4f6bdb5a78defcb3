//! All texts.
ghost use Rattle.std.specs.Prelude.{◌≡◌, ◌≤◌, ◌==◌, [], length, None, IfOk, OnOk, OnErr};
ghost use Rattle.std.specs.BTreeMap.{insert_entry};
ghost use Rattle.std.specs.Option.{option_copied, option_copied_mut, unwrap_or};
ghost use Rattle.std.specs.List.Sorted.{IsStrictlySortedBy};
ghost use Rattle.std.specs.Map.{lookup, keys_of, set_value, remove_entry};
ghost use Rattle.std.specs.BTreeMap.Range.{entries_between};
ghost use Rattle.std.specs.declared.ops.Bound.TheVariants.{Included, Unbounded};
ghost use Rattle.std.specs.Borrow.{LendsSo, LendsSoOk, sem};
ghost use Rattle.shelf.specs.contracts.texts.Shelf.{the_row};
ghost use Rattle.shelf.specs.Texts.{text_cmp, is_text};

use crate::block::Block;
use crate::filling::put;
use crate::finding::{enter, find, spot};
use crate::removing::take_out;
use crate::walk::{Walk, walk_all, walk_from};
use std::alloc::{AllocError, Global};
use std::marker::Model;

/// Texts in order, each with a value. They stand in blocks, one text after another, so that none has memory
/// of its own. A look-up is by halves among blocks and within one; a text put in moves those of its block. It is
/// first looked for where the last one was put, so those that come in order take a few comparisons each.
#[derive(Drop)]
pub struct Shelf<V> {
    alloc: Global,
    blocks: Vec<Block<V>>,
    // The block and the place in it where a text was put in or written last.
    last: (usize, usize),
}

impl<V> Model for Shelf<V> {
    ghost use Rattle.std.specs.Prelude.{List, ℕ};

    ghost Value = { List (List ℕ × V) };

    ghost use Rattle.shelf.specs.inside.Places.{joined};
    ghost use Rattle.shelf.specs.inside.Walks.{IsShelf};

    ghost view = { λ s. joined s.blocks.items };

    ghost invariant = { λ s. IsShelf s.blocks.items };
}

impl<V> Shelf<V> {
    /// No text. It takes no memory.
    pub fn new(alloc: Global) -> Shelf<V>
        ensures { result ≡ [] }
    {
        Shelf {
            alloc,
            blocks: Vec::new(alloc),
            last: (0, 0),
        }
    }

    /// Whether there is no text.
    pub fn is_empty(&self) -> bool
        ensures { result ≡ (length self.now == 0) }
    {
        self.blocks.is_empty()
    }

    /// How many texts there are. It goes over the blocks.
    pub fn len(&self) -> usize
        ensures { result ≡ length self.now }
    {
        let blocks = self.blocks.as_slice();
        let mut count = 0;
        for block in blocks {
            count += block.len();
        }
        count
    }

    /// The value at a text.
    pub fn get(&self, key: &str) -> Option<&V>
        ensures { option_copied result ≡ lookup (is_text key.now) self.now }
    {
        let (at, i) = spot(&self.blocks, key)?;
        Some(self.blocks[at].value(i))
    }

    /// The value at a text, to be written.
    pub fn get_mut(&mut self, key: &str) -> Option<&mut V>
        ensures* writes_back { sem 𝓛 (LendsSo (the_row V.row) V.row self.entry result (λ n w. n ≡ set_value (is_text key.now) self.entry.now w) (λ n. n ≡ self.entry.now)) }
        ensures value { option_copied_mut result ≡ lookup (is_text key.now) self.old }
    {
        let Some((at, i)) = spot(&self.blocks, key) else {
            return None;
        };
        let block = self.blocks.get_mut(at)?;
        block.value_mut(i)
    }

    /// The value at a text, to be written; a text that is not there is put in first, with a value. It is looked up
    /// once. For want of memory nothing changes.
    pub fn get_or_insert(&mut self, key: &str, value: V) -> Result<&mut V, AllocError>
    where
        V: Drop,
        requires { length key.now ≤ 511 }
        ensures* writes_back { sem 𝓛 (LendsSoOk (the_row V.row) V.row self.entry result (λ n w. n ≡ insert_entry text_cmp self.entry.now key.now w) (λ n. n ≡ self.entry.now)) }
        ensures value { IfOk result (λ lent. lent.now ≡ unwrap_or (lookup (is_text key.now) self.old) value) }
    {
        let (at, i) = enter(self.alloc, &mut self.blocks, self.last, key, value)?;
        self.last = (at, i);
        let block = &mut self.blocks[at];
        Ok(block.item_mut(i))
    }

    /// Puts a text in with its value, or writes the value of one that is there, and gives the value that was
    /// there. For want of memory nothing changes.
    pub fn insert(&mut self, key: &str, value: V) -> Result<Option<V>, AllocError>
    where
        V: Drop,
        requires { length key.now ≤ 511 }
        ensures entries { OnOk result (self.new ≡ insert_entry text_cmp self.old key.now value) }
        ensures old { IfOk result (λ old. old ≡ lookup (is_text key.now) self.old) }
        ensures err { OnErr result (self.new ≡ self.old) }
    {
        if self.blocks.is_empty() {
            let block = Block::one(self.alloc, key, value)?;
            self.blocks.push(block)?;
            return Ok(None);
        }
        match find(&self.blocks, self.last, key) {
            Ok((at, i)) => {
                self.last = (at, i);
                let block = &mut self.blocks[at];
                Ok(Some(block.replace(i, value)))
            }
            Err((at, i)) => {
                self.last = put(self.alloc, &mut self.blocks, at, i, key, value)?;
                Ok(None)
            }
        }
    }

    /// Takes a text out, and gives its value, if it is there. It takes no memory.
    pub fn remove(&mut self, key: &str) -> Option<V>
    where
        V: Drop,
        ensures entries { self.new ≡ remove_entry (is_text key.now) self.old }
        ensures gone { lookup (is_text key.now) self.new ≡ None }
        ensures value { result ≡ lookup (is_text key.now) self.old }
    {
        let (at, i) = spot(&self.blocks, key)?;
        Some(take_out(&mut self.blocks, at, i))
    }

    /// All texts in order, each with its value.
    pub fn iter(&self) -> Walk<'_, V>
        ensures all { result ≡ self.now }
        ensures ordered { IsStrictlySortedBy text_cmp (keys_of self.now) }
    {
        walk_all(&self.blocks)
    }

    /// The texts from the first that is not below a text on, in order, each with its value.
    pub fn range(&self, least: &str) -> Walk<'_, V>
        ensures between { result ≡ entries_between text_cmp (Included least.now) Unbounded self.now }
        ensures ordered { IsStrictlySortedBy text_cmp (keys_of self.now) }
    {
        walk_from(&self.blocks, least)
    }
}
