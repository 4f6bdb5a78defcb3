//! Marks of questions, which tell cheaply that most of them are not kept.
use names::{Name, Node, Object, ObjectId};

/// So many words of 64 marks.
const WORDS: usize = 64;

/// After so many questions the marks are made anew: later ones would find most places marked.
const MOST: usize = 2048;

/// Marks of the questions that were kept lately. What is not marked is not looked for on a check's way, which rests on nothing but
/// time: a look-up compares whole questions.
#[derive(Drop)]
pub(crate) struct Marks {
    words: [u64; WORDS],
    count: usize,
}

impl Marks {
    pub(crate) fn none() -> Marks {
        Marks {
            words: [0; WORDS],
            count: 0,
        }
    }

    pub(crate) fn mark(&mut self, node: &Node, user: &Object) {
        if self.count >= MOST {
            *self = Marks::none();
        }
        let place = place_of(node, user);
        self.words[place / 64 % WORDS] |= 1u64 << (place % 64);
        self.count = self.count.saturating_add(1);
    }

    pub(crate) fn has(&self, node: &Node, user: &Object) -> bool {
        let place = place_of(node, user);
        (self.words[place / 64 % WORDS] >> (place % 64)) & 1 == 1
    }
}

/// A number that ids which differ near their ends seldom share.
fn place_of(node: &Node, user: &Object) -> usize {
    let (object, user) = (tail_of(&node.object.id), tail_of(&user.id));
    let mixed = (object ^ user.rotate_left(32) ^ kind_of(&node.relation)).wrapping_mul(
        0x9e37_79b9_7f4a_7c15,
    );
    (mixed >> 40) as usize
}

/// The last eight bytes of an id, or all.
fn tail_of(id: &ObjectId) -> u64 {
    let bytes = id.as_str().as_bytes();
    let mut tail = 0u64;
    for byte in &bytes[bytes.len().saturating_sub(8)..] {
        tail = tail << 8 | u64::from(*byte);
    }
    tail
}

fn kind_of(relation: &Name) -> u64 {
    let text = relation.as_str();
    match text.as_bytes().first() {
        Some(byte) => u64::from(*byte) << 8 ^ text.len() as u64,
        None => 0,
    }
}
