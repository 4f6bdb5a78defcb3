//! One block of texts.
ghost use Rattle.std.specs.Prelude.{◌≡◌, ℕ, ◌+◌, ◌-◌, ◌^◌, ◌<◌, ◌≤◌, [], ◌∷◌, ◌++◌, length, map, take, drop, slice_index, slice_index_or, Some, IfOk, IfErr, OnOk, OnErr, All};
ghost use Rattle.std.specs.List.{slice_get, insert, remove, remove_range};
ghost use Rattle.std.specs.String.Boundary.{IsSplitPoint};
ghost use Rattle.std.specs.Map.{keys_of, values_of};
ghost use Rattle.std.specs.Map.Iter.{deref_pair};
ghost use Rattle.std.specs.Borrow.{Lends, LendsSo, sem};
ghost use Rattle.std.specs.Option.{option_copied_mut};
ghost use Rattle.std.specs.String.{string_bytes, string_len, string_capacity};
ghost use Rattle.std.specs.Vec.{vec_len, vec_capacity};
ghost use Rattle.shelf.specs.contracts.block.Block.{the_row};
ghost use Rattle.shelf.specs.inside.Ends.{with_end, without_end};
ghost use Rattle.shelf.specs.inside.Written.{with_value};
ghost use Rattle.shelf.specs.inside.Places.{AreSorted, AreFilled, AreBelow, AreAbove, IsAt, IsBetween, IsPlace, IsBlockOf, joined};

use std::alloc::{AllocError, Global};
use std::cmp::Ordering;
use std::marker::Model;
use std::mem::replace;

/// As many texts as a block that is out of room gets room for. Twice what it had would stay unused for a third.
const STEP: usize = 8;

/// As many texts as a block has at most. So many of at most 511 bytes each end below 2^16.
pub(crate) const FULL: usize = 128;

/// Texts one after another, where each ends, and their values.
#[derive(Drop)]
pub(crate) struct Block<V> {
    texts: String,
    ends: Vec<u16>,
    values: Vec<V>,
}

impl<V> Model for Block<V> {
    ghost use Rattle.std.specs.Prelude.{List, ℕ, length};

    ghost Value = { List (List ℕ × V) };

    ghost use Rattle.std.specs.String.{string_bytes};
    ghost use Rattle.shelf.specs.inside.Blocks.{entries, IsBlock};

    ghost view = { λ b. entries (string_bytes b.texts) b.ends.items b.values.items };

    ghost invariant = { λ b. IsBlock (string_bytes b.texts) b.ends.items (length b.values.items) };
}

impl<V> Block<V> {
    /// No text. It takes no memory.
    pub(crate) fn new(alloc: Global) -> Block<V>
        ensures { result ≡ [] }
    {
        Block {
            texts: String::new(alloc),
            ends: Vec::new(alloc),
            values: Vec::new(alloc),
        }
    }

    /// The block of one text.
    pub(crate) fn one(alloc: Global, key: &str, value: V) -> Result<Block<V>, AllocError>
    where
        V: Drop,
        requires { length key.now ≤ 511 }
        ensures { IfOk result (λ block. block ≡ (key.now, value) ∷ []) }
    {
        let mut block = Block::new(alloc);
        block.insert(0, key, value)?;
        Ok(block)
    }

    pub(crate) fn len(&self) -> usize
        ensures len { result ≡ length self.now }
        ensures few { result ≤ 128 }
    {
        self.values.len()
    }

    pub(crate) fn text(&self, i: usize) -> &str
        requires { i < length self.now }
        ensures { result.now ≡ slice_index_or (keys_of self.now) i [] }
    {
        let start = start_of(&self.ends, i) as usize;
        let end = self.ends[i] as usize;
        &self.texts.as_str()[start..end]
    }

    pub(crate) fn value(&self, i: usize) -> &V
        requires { i < length self.now }
        ensures { slice_get (values_of self.now) i ≡ Some result.now }
    {
        &self.values[i]
    }

    pub(crate) fn entry(&self, i: usize) -> (&str, &V)
        requires { i < length self.now }
        ensures { slice_get self.now i ≡ Some (deref_pair result) }
    {
        (self.text(i), self.value(i))
    }

    /// Where the text is, or where it would be put in.
    pub(crate) fn search(&self, key: &str) -> Result<usize, usize>
        requires { AreSorted self.now }
        ensures ok { IfOk result (λ i. IsAt key.now i self.now) }
        ensures err { IfErr result (λ i. IsBetween key.now i self.now) }
    {
        self.search_between(0, self.len(), key)
    }

    /// The same. It costs little where that is at a place, or just after it.
    pub(crate) fn search_near(&self, near: usize, key: &str) -> Result<usize, usize>
        requires { AreSorted self.now }
        ensures ok { IfOk result (λ i. IsAt key.now i self.now) }
        ensures err { IfErr result (λ i. IsBetween key.now i self.now) }
    {
        if self.len() <= near {
            return self.search(key);
        }
        match self.text(near).cmp(key) {
            Ordering::Less => self.search_after(near, key),
            Ordering::Equal => Ok(near),
            Ordering::Greater => self.search_between(0, near, key),
        }
    }

    /// The same of a text that is above the one at a place.
    fn search_after(&self, i: usize, key: &str) -> Result<usize, usize>
        requires within { i < length self.now }
        requires below { AreBelow key.now (take (i + 1) self.now) }
        requires sorted { AreSorted self.now }
        ensures ok { IfOk result (λ i. IsAt key.now i self.now) }
        ensures err { IfErr result (λ i. IsBetween key.now i self.now) }
    {
        let count = self.len();
        let next = i + 1;
        if next < count {
            if let Ordering::Greater = self.text(next).cmp(key) {
                return Err(next);
            }
        }
        self.search_between(next, count, key)
    }

    /// The same of the places from one up to another.
    fn search_between(&self, mut low: usize, mut high: usize, key: &str) -> Result<usize, usize>
        requires up { low ≤ high }
        requires within { high ≤ length self.now }
        requires below { AreBelow key.now (take low self.now) }
        requires above { AreAbove key.now (drop high self.now) }
        requires sorted { AreSorted self.now }
        ensures ok { IfOk result (λ i. IsAt key.now i self.now) }
        ensures err { IfErr result (λ i. IsBetween key.now i self.now) }
    {
        'halves: while low < high {
            let mid = low + (high - low) / 2;
            match self.text(mid).cmp(key) {
                Ordering::Less => low = mid + 1,
                Ordering::Equal => return Ok(mid),
                Ordering::Greater => high = mid,
            }
        }
        Err(low)
    }

    /// Puts a text in at a place, with its value. For want of memory nothing changes.
    pub(crate) fn insert(&mut self, i: usize, key: &str, value: V) -> Result<(), AllocError>
    where
        V: Drop,
        requires within { i ≤ length self.old }
        requires room { length self.old < 128 }
        requires short { length key.now ≤ 511 }
        ensures ok { OnOk result (self.new ≡ insert self.old i (key.now, value)) }
        ensures err { OnErr result (self.new ≡ self.old) }
    {
        make_room_in(&mut self.texts, key.len())?;
        make_room(&mut self.values)?;
        let start = start_of(&self.ends, i);
        put_end(&mut self.ends, i, key.len() as u16)?;
        self.texts.insert_str(start as usize, key)?;
        self.values.insert(i, value)?;
        Ok(())
    }

    /// The value at a place, to be written.
    pub(crate) fn value_mut(&mut self, i: usize) -> Option<&mut V>
        ensures* writes_back { sem 𝓛 (LendsSo (the_row V.row) V.row self.entry result (λ n w. n ≡ with_value self.entry.now i w) (λ n. n ≡ self.entry.now)) }
        ensures value { option_copied_mut result ≡ slice_get (values_of self.old) i }
    {
        self.values.get_mut(i)
    }

    /// The value at a place that has one, to be written.
    pub(crate) fn item_mut(&mut self, i: usize) -> &mut V
        requires { i < length self.old }
        ensures* writes_back { sem 𝓛 (Lends (the_row V.row) V.row self.entry result (λ w. with_value self.entry.now i w)) }
        ensures value { slice_get (values_of self.old) i ≡ Some result.now }
    {
        &mut self.values[i]
    }

    /// Writes the value at a place, and gives the one that was there.
    pub(crate) fn replace(&mut self, i: usize, value: V) -> V
        requires { i < length self.old }
        ensures old { slice_get (values_of self.old) i ≡ Some result }
        ensures new { self.new ≡ with_value self.old i value }
    {
        replace(&mut self.values[i], value)
    }

    /// Takes the text at a place out, and gives its value. It takes no memory.
    pub(crate) fn remove(&mut self, i: usize) -> V
        requires { i < length self.old }
        ensures value { slice_get (values_of self.old) i ≡ Some result }
        ensures rest { self.new ≡ remove self.old i }
    {
        let start = start_of(&self.ends, i);
        let end = self.ends[i];
        cut_out(&mut self.texts, start as usize, end as usize);
        take_end(&mut self.ends, i, end - start);
        let value = self.values.remove(i);
        self.give_back();
        value
    }

    /// Gives room back that no text needs, now and then.
    fn give_back(&mut self)
        ensures { self.new ≡ self.old }
    {
        if self.values.len() % STEP == 0 {
            self.texts.shrink_to_fit();
            self.ends.shrink_to_fit();
            self.values.shrink_to_fit();
        }
    }

    /// Takes the texts from a place on, with their values. For want of memory nothing changes.
    pub(crate) fn split_off(&mut self, alloc: Global, at: usize) -> Result<Block<V>, AllocError>
        requires { at ≤ length self.old }
        ensures left { OnOk result (self.new ≡ take at self.old) }
        ensures right { IfOk result (λ right. right ≡ drop at self.old) }
        ensures err { OnErr result (self.new ≡ self.old) }
    {
        let start = start_of(&self.ends, at);
        let texts = String::from_str(alloc, &self.texts.as_str()[start as usize..])?;
        let ends = ends_from(alloc, &self.ends, at)?;
        let values = self.values.split_off(at)?;
        self.texts.truncate(start as usize);
        self.ends.truncate(at);
        self.texts.shrink_to_fit();
        self.ends.shrink_to_fit();
        self.values.shrink_to_fit();
        Ok(Block {
            texts,
            ends,
            values,
        })
    }

    /// How many texts are below a text.
    pub(crate) fn place(&self, key: &str) -> usize
        requires { AreSorted self.now }
        ensures { IsPlace key.now result self.now }
    {
        match self.search(key) {
            Ok(i) => i,
            Err(i) => i,
        }
    }
}

/// Makes room for one more, and for a few beyond. For want of memory nothing changes.
fn make_room<T>(items: &mut Vec<T>) -> Result<(), AllocError>
    ensures items { items.new.items ≡ items.old.items }
    ensures room { OnOk result (vec_len items.new < vec_capacity items.new) }
{
    if items.len() < items.capacity() {
        return Ok(());
    }
    items.reserve_exact(STEP)
}

/// Makes room for a text of so many bytes, and for a few such beyond. For want of memory nothing changes.
fn make_room_in(texts: &mut String, bytes: usize) -> Result<(), AllocError>
    requires { bytes ≤ 511 }
    ensures bytes { string_bytes texts.new ≡ string_bytes texts.old }
    ensures room { OnOk result (string_len texts.new + bytes ≤ string_capacity texts.new) }
{
    if bytes <= texts.capacity() - texts.len() {
        return Ok(());
    }
    texts.reserve_exact(STEP * bytes)
}

/// Adds so much to each.
fn raise(ends: &mut [u16], by: u16)
    requires { All (λ end. end + by < 2 ^ 16) ends.old }
    ensures { ends.new ≡ map (λ end. end + by) ends.old }
{
    for end in ends.iter_mut() {
        *end += by;
    }
}

/// Takes so much from each.
fn lower(ends: &mut [u16], by: u16)
    requires { All (λ end. by ≤ end) ends.old }
    ensures { ends.new ≡ map (λ end. end - by) ends.old }
{
    for end in ends.iter_mut() {
        *end -= by;
    }
}

/// The same from a place on.
fn lower_from(ends: &mut [u16], i: usize, by: u16)
    requires within { i ≤ length ends.old }
    requires rising { All (λ end. by ≤ end) (drop i ends.old) }
    ensures { ends.new ≡ take i ends.old ++ map (λ end. end - by) (drop i ends.old) }
{
    lower(&mut ends[i..], by);
}

/// The ends of the texts from a place on, as they are where that text comes first.
fn ends_from(alloc: Global, ends: &[u16], at: usize) -> Result<Vec<u16>, AllocError>
    requires within { at ≤ length ends.now }
    requires rising { All (λ end. slice_index (0 ∷ ends.now) at ≤ end) (drop at ends.now) }
    ensures { IfOk result (λ left. left.items ≡ map (λ end. end - slice_index (0 ∷ ends.now) at) (drop at ends.now)) }
{
    let mut left = Vec::from_slice(alloc, &ends[at..])?;
    lower(&mut left, start_of(ends, at));
    Ok(left)
}

/// Puts in the end of a text of so many bytes. For want of memory nothing changes.
fn put_end(ends: &mut Vec<u16>, i: usize, by: u16) -> Result<(), AllocError>
    requires within { i ≤ length ends.old.items }
    requires fits { All (λ end. end + by < 2 ^ 16) (0 ∷ ends.old.items) }
    ensures ok { OnOk result (ends.new.items ≡ with_end ends.old.items i by) }
    ensures err { OnErr result (ends.new.items ≡ ends.old.items) }
{
    let start = start_of(ends, i);
    make_room(ends)?;
    ends.insert(i, start)?;
    raise(&mut ends[i..], by);
    Ok(())
}

/// Takes the end of a text of so many bytes out.
fn take_end(ends: &mut Vec<u16>, i: usize, by: u16)
    requires within { i < length ends.old.items }
    requires rising { All (λ end. by ≤ end) (drop (i + 1) ends.old.items) }
    ensures { ends.new.items ≡ without_end ends.old.items i by }
{
    ends.remove(i);
    lower_from(ends, i, by);
}

/// Cuts a part out of texts. It takes no memory.
fn cut_out(texts: &mut String, start: usize, end: usize)
    requires up { start ≤ end }
    requires starts { IsSplitPoint (string_bytes texts.old) start }
    requires stops { IsSplitPoint (string_bytes texts.old) end }
    ensures { string_bytes texts.new ≡ remove_range (string_bytes texts.old) start end }
{
    let _ = texts.replace_range(start..end, "");
}

/// The block in which the text is, or would be put in.
pub(crate) fn block_of<V>(blocks: &[Block<V>], key: &str) -> usize
    requires some { 0 < length blocks.now }
    requires filled { AreFilled blocks.now }
    requires sorted { AreSorted (joined blocks.now) }
    ensures { IsBlockOf key.now result blocks.now }
{
    block_between(blocks, 0, blocks.len(), key)
}

/// The same, of the blocks from one up to another.
pub(crate) fn block_between<V>(
    blocks: &[Block<V>],
    mut low: usize,
    mut high: usize,
    key: &str,
) -> usize
    requires up { low < high }
    requires within { high ≤ length blocks.now }
    requires below { AreBelow key.now (joined (take low blocks.now)) }
    requires above { AreAbove key.now (joined (drop high blocks.now)) }
    requires filled { AreFilled blocks.now }
    requires sorted { AreSorted (joined blocks.now) }
    ensures { IsBlockOf key.now result blocks.now }
{
    'halves: while low + 1 < high {
        let mid = low + (high - low) / 2;
        match blocks[mid].text(0).cmp(key) {
            Ordering::Greater => high = mid,
            _ => low = mid,
        }
    }
    low
}

/// Where a text starts.
fn start_of(ends: &[u16], i: usize) -> u16
    requires { i ≤ length ends.now }
    ensures { result ≡ slice_index (0 ∷ ends.now) i }
{
    if i == 0 { 0 } else { ends[i - 1] }
}
