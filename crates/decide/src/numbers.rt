//! Numbers, found by a hash of texts.
ghost use Rattle.std.specs.Prelude.{◌≡◌, ◌<◌, ◌≤◌, ◌+◌, IfOk, OnOk, length};

use names::{Name, Node, Object};
use std::alloc::{AllocError, Global};

/// So many slots a table has at first.
const ROOM: usize = 64;

/// The number of a slot that is free.
const FREE: usize = usize::MAX;

/// A number under its key, or a slot that is free.
#[derive(Clone, Copy, Drop)]
struct Entry {
    key: u64,
    number: usize,
}

/// A number for each key. The key of a node, or of an object, is a hash of its texts, begun with a secret seed, or the next
/// one that was free: who finds a number sees whose it is. An entry stands in the slot of its key, or in the next one that
/// was free; at least a quarter of the slots are.
#[derive(Drop)]
pub(crate) struct Numbers {
    alloc: Global,
    seed: u64,
    slots: Vec<Entry>,
    taken: usize,
}

impl Numbers {
    pub(crate) fn new(alloc: Global, seed: u64) -> Numbers {
        Numbers {
            alloc,
            seed,
            slots: Vec::new(alloc),
            taken: 0,
        }
    }

    /// The key of the object's node of the relation, unless another node has it.
    pub(crate) fn key_of(&self, object: &Object, relation: &Name) -> u64 {
        mixed(self.key_of_object(object), relation.as_str())
    }

    /// The key of an object, unless another object has it.
    pub(crate) fn key_of_object(&self, object: &Object) -> u64 {
        mixed(self.seed, object.id.as_str())
    }

    pub(crate) fn get(&self, key: u64) -> Option<usize> {
        if self.slots.is_empty() {
            return None;
        }
        let entry = self.slots[slot_of(&self.slots, key)];
        if entry.number == FREE || entry.key != key {
            return None;
        }
        Some(entry.number)
    }

    pub(crate) fn insert(&mut self, key: u64, number: usize) -> Result<(), AllocError> {
        if self.taken >= self.slots.len() / 4 * 3 {
            self.grow()?;
        }
        put(&mut self.slots, Entry { key, number });
        self.taken = self.taken.saturating_add(1);
        Ok(())
    }

    /// Moves the entries to a larger table.
    fn grow(&mut self) -> Result<(), AllocError>
        ensures slots { OnOk result (0 < length self.new.slots.items) }
        ensures taken { self.new.taken ≡ self.old.taken }
    {
        let room = self.slots.len().saturating_mul(4).max(ROOM);
        let mut slots = free_slots(self.alloc, room)?;
        for entry in &self.slots {
            if entry.number != FREE {
                put(&mut slots, *entry);
            }
        }
        self.slots = slots;
        Ok(())
    }
}

fn free_slots(alloc: Global, room: usize) -> Result<Vec<Entry>, AllocError>
    ensures { IfOk result (λ v. length v.items ≡ room) }
{
    let mut slots = Vec::new(alloc);
    let free = Entry {
        key: 0,
        number: FREE,
    };
    slots.resize(room, free)?;
    Ok(slots)
}

/// The slot that has the key, or else one that is free for it, if there is one.
fn slot_of(slots: &[Entry], key: u64) -> usize
    requires { 0 < length slots.now }
    ensures { result < length slots.now }
{
    let count = slots.len();
    let mut at = key as usize & (count - 1);
    for _ in 0..count {
        let entry = &slots[at];
        if entry.key == key || entry.number == FREE {
            return at;
        }
        at = if at + 1 < count { at + 1 } else { 0 };
    }
    at
}

fn put(slots: &mut Vec<Entry>, entry: Entry)
    requires { 0 < length slots.old.items }
    ensures { length slots.new.items ≡ length slots.old.items }
{
    let at = slot_of(slots, entry.key);
    slots[at] = entry;
}

/// So many kinds of relations are told apart.
pub(crate) const KINDS: usize = 64;

/// A number for the node's relation, which a few others may have.
pub(crate) fn kind_of(node: &Node) -> usize
    ensures { result < 64 }
{
    let relation = node.relation.as_str();
    let namespace = first_byte(node.object.namespace.as_str()).wrapping_mul(5);
    (relation.len() ^ first_byte(relation) ^ namespace) % KINDS
}

fn first_byte(text: &str) -> usize {
    match text.as_bytes().first() {
        Some(byte) => usize::from(*byte),
        None => 0,
    }
}

/// The hash with a text, eight bytes a step.
fn mixed(hash: u64, text: &str) -> u64 {
    let bytes = text.as_bytes();
    let count = bytes.len();
    let mut hash = hash ^ count as u64;
    if count < 8 {
        return stepped(hash, short(bytes));
    }
    for i in 0..count / 8 {
        hash = stepped(hash, eight(bytes, 8 * i));
    }
    stepped(hash, eight(bytes, count - 8))
}

fn stepped(hash: u64, word: u64) -> u64 {
    folded(hash ^ word, 0x9e37_79b9_7f4a_7c15)
}

/// The two halves of the product, as one: each bit depends on all bits of both numbers.
fn folded(one: u64, other: u64) -> u64 {
    let product = one as u128 * other as u128;
    (product & 0xffff_ffff_ffff_ffff) as u64 ^ (product >> 64) as u64
}

/// The bytes of a text that has fewer than eight.
fn short(bytes: &[u8]) -> u64
    requires { length bytes.now < 8 }
{
    let count = bytes.len();
    if count >= 4 {
        return (four(bytes, 0) << 32) ^ four(bytes, count - 4);
    }
    let mut word = 0u64;
    for byte in bytes {
        word = word.rotate_left(8) ^ *byte as u64;
    }
    word
}

fn four(bytes: &[u8], i: usize) -> u64
    requires { i + 4 ≤ length bytes.now }
{
    u32::from_le_bytes([bytes[i], bytes[i + 1], bytes[i + 2], bytes[i + 3]]) as u64
}

fn eight(bytes: &[u8], i: usize) -> u64
    requires { i + 8 ≤ length bytes.now }
{
    u64::from_le_bytes([
        bytes[i],
        bytes[i + 1],
        bytes[i + 2],
        bytes[i + 3],
        bytes[i + 4],
        bytes[i + 5],
        bytes[i + 6],
        bytes[i + 7],
    ])
}
