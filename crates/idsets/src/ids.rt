//! Ids in place of names.
ghost use Rattle.std.specs.Prelude.{◌≡◌, ◌++◌, ◌∷◌, ℕ, [], length, nat_lt, if◌then◌else◌, Some, IfOk, IfSome, IfNone, OnErr};
ghost use Rattle.std.specs.List.{slice_get};
ghost use Rattle.std.specs.Option.{option_copied};
ghost use Rattle.idsets.specs.Naming.{AreDistinct};
ghost use Rattle.std.proofs.Common.{rules};

use indexmap::IndexSet;
use names::{Node, Object, Subject};
use std::alloc::{AllocError, Global};
use std::hash::{Hash, RandomState};
use std::marker::Model;

/// Names that are one where their order says that they are equal, and of which a copy is the same.
pub trait Named: Ord + Hash + Clone + Drop {
    ghost use Rattle.std.specs.declared.cmp.Ordering.TheVariants.{Equal};

    ghost exact: { (a b : Self) → Self.cmp a b ≡ Equal → a ≡ b };

    ghost copied: { (a b : Self) → Self.is_clone a b → b ≡ a };
}

impl Named for Object {
    ghost use Rattle.idsets.specs.Exact.{exact_objects};

    ghost exact = { exact_objects };

    ghost copied = { λ a b. Prim.search rules };
}

impl Named for Node {
    ghost use Rattle.idsets.specs.Exact.{exact_nodes};

    ghost exact = { exact_nodes };

    ghost copied = { λ a b. Prim.search rules };
}

impl Named for Subject {
    ghost use Rattle.idsets.specs.Exact.{exact_subjects};

    ghost exact = { exact_subjects };

    ghost copied = { λ a b. Prim.search rules };
}

/// Names with an id each: 0, 1, 2 and so on, in the order in which they were first seen. An id is found by a hash under a
/// key that whoever makes them hands in.
#[derive(Drop)]
pub struct Ids<N: Named> {
    names: IndexSet<N, RandomState>,
}

impl<N: Named> Model for Ids<N> {
    ghost use Rattle.std.specs.Prelude.{List};

    ghost Value = { List N };

    ghost view = { λ s. s.names.keys };
}

impl<N: Named> Ids<N> {
    /// No name. It takes no memory.
    pub fn new(alloc: Global, keys: RandomState) -> Ids<N>
        ensures { result ≡ [] }
    {
        Ids {
            names: IndexSet::with_hasher(alloc, keys),
        }
    }

    /// The key of the hashes.
    pub fn keys(&self) -> RandomState {
        *self.names.hasher()
    }

    /// How many names were seen.
    pub fn len(&self) -> usize
        ensures len { result ≡ length self.now }
        ensures distinct { AreDistinct self.now }
    {
        self.names.len()
    }

    /// The id of a name that was seen.
    pub fn id_of(&self, name: &N) -> Option<u64>
        ensures found { IfSome result (λ id. slice_get self.now id ≡ Some name.now) }
        ensures missing { IfNone result ((id : ℕ) → slice_get self.now id ≡ Some name.now → ⊥) }
    {
        match self.names.get_index_of(name) {
            Some(id) => Some(id as u64),
            None => None,
        }
    }

    /// The name of an id that was given.
    pub fn name(&self, id: u64) -> Option<&N>
        ensures { option_copied result ≡ slice_get self.now id }
    {
        self.names.get_index(id as usize)
    }

    /// The id of a name, the next one if it was not seen before. For want of memory nothing changes.
    pub fn see(&mut self, name: N) -> Result<u64, AllocError>
        ensures id { IfOk result (λ id. slice_get self.new id ≡ Some name) }
        ensures names { IfOk result (λ id. self.new ≡ (if nat_lt id (length self.old) then self.old else self.old ++ name ∷ [])) }
        ensures err { OnErr result (self.new ≡ self.old) }
    {
        let Ok((id, _)) = self.names.insert_full(name) else {
            return Err(AllocError);
        };
        Ok(id as u64)
    }
}
