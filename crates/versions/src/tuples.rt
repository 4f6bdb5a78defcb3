//! Going over the tuples of one revision whose texts begin alike.
ghost use Rattle.std.specs.Prelude.{◌≡◌, filter, length, Bool};
ghost use Rattle.std.specs.Iterator.{at_most, YieldsFirst};
ghost use Rattle.std.specs.List.Sorted.{IsStrictlySortedBy};
ghost use Rattle.names.specs.Order.{tuple_cmp};
ghost use Rattle.names.specs.declared.tuple.Tuple.{Tuple};
ghost use Rattle.versions.specs.Ranges.{is_from, standing_in, IsRange};
ghost use Rattle.versions.specs.Versions.{AreRising, keys, tuples_at};
ghost use Rattle.tuple_keys.specs.Texts.{IsStartOf};

use crate::version::Versions;
use crate::version_map::VersionMap;
use shelf::Walk;
use std::iter::Iterator;
use std::marker::Model;
use tuple_keys::{Start, TupleRef};

/// The tuples that are left, in order. None is copied. It takes no memory.
#[derive(Drop)]
pub struct Tuples<'a> {
    start: Start,
    rev: u64,
    walk: Walk<'a, Versions>,
}

impl<'a> Model for Tuples<'a> {
    ghost use Rattle.std.specs.Prelude.{List};
    ghost use Rattle.std.specs.Coded.{coded_list};
    ghost use Rattle.names.specs.declared.tuple.Tuple.{Tuple as TupleValue};
    ghost use Rattle.meaning.specs.inside.Codes.{coded_tuple};
    ghost use Rattle.versions.specs.Ranges.{standing_in, IsRange};

    ghost Value = { List TupleValue };

    ghost coded = { coded_list coded_tuple };

    ghost view = { λ s. standing_in s.start s.rev s.walk };

    ghost invariant = { λ s. IsRange s.start s.walk };
}

impl<'a> Tuples<'a> {
    /// Passes over the tuples before one. It is found by a look-up: those between are not gone over.
    pub fn skip_to(&mut self, least: &TupleRef<'_>)
        ensures { self.new ≡ filter (is_from least.now) self.old }
    {
        self.walk.skip_to(least.as_str());
    }
}

impl<'a> Iterator for Tuples<'a> {
    type Item = TupleRef<'a>;

    ghost next_gives = { YieldsFirst (λ s. s) };

    ghost remaining = { λ s. at_most (length s) };

    fn next(&mut self) -> Option<TupleRef<'a>> {
        first_standing(&mut self.walk, &self.start, self.rev)
    }
}

impl VersionMap {
    /// The tuples whose texts begin so and that stand at a revision. Those of other texts are not gone over.
    pub fn range(&self, start: Start, rev: u64) -> Tuples<'_>
        requires { AreRising self.now }
        ensures all { (test : Tuple → Bool) → IsStartOf start test
            → result ≡ filter test (tuples_at self.now rev) }
        ensures ordered { IsStrictlySortedBy tuple_cmp (keys self.now) }
    {
        let texts = self.texts();
        let walk = texts.range(start.as_str());
        Tuples { start, rev, walk }
    }
}

/// The first tuple whose text begins so and that stands at the revision. What is before it is passed.
fn first_standing<'a>(
    walk: &mut Walk<'a, Versions>,
    start: &Start,
    rev: u64,
) -> Option<TupleRef<'a>>
    requires { IsRange start.now walk.old }
    ensures range { IsRange start.now walk.new }
    ensures first { YieldsFirst (standing_in start.now rev) walk.old result walk.new }
{
    while let Some((text, versions)) = walk.next() {
        let Some(_) = start.rest_of(text) else {
            return None;
        };
        if versions.stands_at(rev) {
            return Some(TupleRef::of(text));
        }
    }
    None
}
