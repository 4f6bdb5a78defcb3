//! Searches in sets of ids, one after another.
ghost use Rattle.std.specs.Prelude.{◌≡◌, ◌+◌, ◌-◌, ◌^◌, min};
ghost use Rattle.idsets.specs.Sets.{IsLeastFrom};

use crate::IdSet;
use crate::place::{known_below, place_from};
use std::marker::Model;

/// A set of ids that is searched, and counts how often.
pub trait Seek {
    ghost use Rattle.std.specs.Prelude.{List, ℕ};

    /// The ids.
    ghost ids: { Self → List ℕ };

    /// How often it was searched. At 2^64 - 1 it stays there.
    ghost seeks: { Self → ℕ };

    /// The first of the ids that is not below this one.
    fn seek(&mut self, id: u64) -> Option<u64>
        ensures first { IsLeastFrom (ids self.old) id result }
        ensures same { ids self.new ≡ ids self.old }
        ensures counted { seeks self.new ≡ min (seeks self.old + 1) (2 ^ 64 - 1) };
}

/// Searches in a set from where the last one ended. It costs little where few ids are passed over.
#[derive(Drop)]
pub struct Galloping<'a> {
    set: &'a IdSet,
    at: usize,
    seeks: u64,
}

impl<'a> Model for Galloping<'a> {
    ghost use Rattle.std.specs.Prelude.{◌≤◌, length};
    ghost use Rattle.idsets.specs.Sets.{Sought};

    ghost Value = { Sought };

    ghost view = { λ g. record { ids = g.set.now; seeks = g.seeks } };

    ghost invariant = { λ g. g.at ≤ length g.set.now };
}

impl<'a> Galloping<'a> {
    /// A set that was not searched yet.
    pub fn new(set: &'a IdSet) -> Galloping<'a>
        ensures ids { result.ids ≡ set.now }
        ensures seeks { result.seeks ≡ 0 }
    {
        Galloping {
            set,
            at: 0,
            seeks: 0,
        }
    }

    /// How often it was searched.
    pub fn seeks(&self) -> u64
        ensures { result ≡ self.now.seeks }
    {
        self.seeks
    }
}

impl<'a> Seek for Galloping<'a> {
    ghost ids = { λ s. s.ids };

    ghost seeks = { λ s. s.seeks };

    fn seek(&mut self, id: u64) -> Option<u64> {
        let ids = self.set.as_slice();
        let known = known_below(ids, self.at, id);
        let at = place_from(ids, known, id);
        *self = Galloping {
            set: self.set,
            at,
            seeks: self.seeks.saturating_add(1),
        };
        if at < ids.len() { Some(ids[at]) } else { None }
    }
}
