//! Names in order.

ghost use Rattle.std.specs.Prelude.{◌≡◌, ◌↔◌, ℕ, true, false, length, Contains, Some, IfSome, IfNone};
ghost use Rattle.std.specs.List.{slice_get};
ghost use Rattle.std.specs.List.Sorted.{IsStrictlySortedBy};
ghost use Rattle.std.specs.Option.{option_copied};
ghost use Rattle.idsets.specs.Naming.{AreDistinct};

use idsets::Named;
use std::marker::Model;

/// Names in ascending order, each once. A name's id is its place, which is found by halves.
#[derive(Drop)]
pub(crate) struct Sorted<N: Named> {
    names: Vec<N>,
}

impl<N: Named> Model for Sorted<N> {
    ghost use Rattle.std.specs.Prelude.{List};
    ghost use Rattle.std.specs.List.Sorted.{IsStrictlySortedBy};

    ghost Value = { List N };

    ghost view = { λ s. s.names.items };

    ghost invariant = { λ s. IsStrictlySortedBy N.cmp s.names.items };
}

impl<N: Named> Sorted<N> {
    /// The names of a list, each once. It takes no memory.
    pub(crate) fn of(mut names: Vec<N>) -> Sorted<N>
        ensures names { (n : N) → Contains result n ↔ Contains names.items n }
        ensures sorted { IsStrictlySortedBy N.cmp result }
    {
        names.sort_unstable();
        names.dedup();
        Sorted { names }
    }

    /// The names in order.
    pub(crate) fn as_slice(&self) -> &[N]
        ensures names { result.now ≡ self.now }
        ensures sorted { IsStrictlySortedBy N.cmp self.now }
    {
        self.names.as_slice()
    }

    /// The names in order, to be changed.
    pub(crate) fn into_vec(self) -> Vec<N>
        ensures { result.items ≡ self }
    {
        self.names
    }

    /// How many names there are.
    pub(crate) fn len(&self) -> usize
        ensures len { result ≡ length self.now }
        ensures distinct { AreDistinct self.now }
    {
        self.names.len()
    }

    /// The id of a name that is among them.
    pub(crate) fn id_of(&self, name: &N) -> Option<u64>
        ensures found { IfSome result (λ id. slice_get self.now id ≡ Some name.now) }
        ensures missing { IfNone result ((id : ℕ) → slice_get self.now id ≡ Some name.now → ⊥) }
    {
        match self.names.binary_search(name) {
            Ok(at) => Some(at as u64),
            Err(_) => None,
        }
    }

    /// The name of an id.
    pub(crate) fn name(&self, id: u64) -> Option<&N>
        ensures { option_copied result ≡ slice_get self.now id }
    {
        self.names.get(id as usize)
    }

    /// Whether the name is among them.
    pub(crate) fn contains(&self, name: &N) -> bool
        ensures yes { result ≡ true → Contains self.now name.now }
        ensures no { result ≡ false → ¬ (Contains self.now name.now) }
    {
        match self.id_of(name) {
            Some(_) => true,
            None => false,
        }
    }
}
