//! Who waits for a node.
ghost use Rattle.std.specs.Prelude.{◌≡◌, ◌<◌, ◌++◌, ◌∷◌, [], ℕ, List, Contains, IfNone, IsTrue, None, OnOk, length, slice_index};
ghost use Rattle.std.specs.Option.{option_to_list};

use std::alloc::{AllocError, Global};
use std::marker::Model;

/// The nodes that wait for one, by their numbers.
#[derive(Drop)]
pub(crate) struct Waiting {
    pub(crate) items: Askers,
}

/// Numbers, in the order in which they came. Most often these are one or two, which take no memory.
#[derive(Drop)]
pub(crate) struct Askers {
    first: Option<usize>,
    second: Option<usize>,
    others: Vec<usize>,
}

impl Model for Askers {
    ghost Value = { List ℕ };

    ghost view = { λ a. option_to_list a.first ++ option_to_list a.second ++ a.others.items };

    ghost invariant = { λ a. IfNone a.first (a.second ≡ None) × IfNone a.second (a.others.items ≡ []) };
}

impl Askers {
    pub(crate) fn none(alloc: Global) -> Askers
        ensures { result ≡ [] }
    {
        Askers {
            first: None,
            second: None,
            others: Vec::new(alloc),
        }
    }

    pub(crate) fn contains(&self, number: usize) -> bool
        ensures { IsTrue result → Contains self.now number }
    {
        is_it(self.first, number) || is_it(self.second, number) || self.others.contains(&number)
    }

    pub(crate) fn add(&mut self, number: usize) -> Result<(), AllocError>
        ensures { OnOk result (self.new ≡ self.old ++ number ∷ []) }
    {
        match (self.first, self.second) {
            (None, _) => self.first = Some(number),
            (_, None) => self.second = Some(number),
            _ => self.others.push(number)?,
        }
        Ok(())
    }

    pub(crate) fn len(&self) -> usize
        ensures { result ≡ length self.now }
    {
        match (self.first, self.second) {
            (None, _) => 0,
            (_, None) => 1,
            _ => 2 + self.others.len(),
        }
    }

    /// The number at a place, from 0.
    pub(crate) fn get(&self, i: usize) -> usize
        requires { i < length self.now }
        ensures { result ≡ slice_index self.now i }
    {
        match self.first {
            Some(first) => {
                if i == 0 {
                    return first;
                }
                match self.second {
                    Some(second) => {
                        if i == 1 {
                            return second;
                        }
                        self.others[i - 2]
                    }
                    None => unreachable!(),
                }
            }
            None => unreachable!(),
        }
    }
}

fn is_it(asker: Option<usize>, number: usize) -> bool
    ensures { IsTrue result → Contains (option_to_list asker) number }
{
    match asker {
        Some(asker) => asker == number,
        None => false,
    }
}
