//! What a caller asks to be written.

use crate::{Items, Tuple};

/// What an operation does with its tuple. The second and third names of section 2.4 of the Zanzibar
/// paper; that an insert of what is there and a delete of what is not are refused is this project's.
#[derive(Clone, Copy, Debug, PartialEq, Eq)]
pub enum OpKind {
    /// Puts a tuple that is not there.
    Insert,
    /// Puts a tuple, whether it is there or not.
    Touch,
    /// Takes away a tuple that is there.
    Delete,
}

/// One operation of a write.
#[derive(Debug, Drop)]
pub struct Op {
    pub kind: OpKind,
    pub tuple: Tuple,
}

/// What must hold for a write to be done. `Z` is a zookie.
#[derive(Debug, Drop)]
pub enum Condition<Z> {
    /// The tuple is there.
    Exists(Tuple),
    /// The tuple is not there.
    Absent(Tuple),
    /// No commit after the zookie's revision has an event on the tuple.
    Unchanged(Tuple, Z),
}

/// Operations on distinct tuples that are done together, if the conditions hold. `Z` is a zookie.
#[derive(Debug, Drop)]
pub struct Write<Z> {
    pub conditions: Items<Condition<Z>>,
    pub ops: Items<Op>,
}
