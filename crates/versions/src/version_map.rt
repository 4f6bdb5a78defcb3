//! The versions of every tuple.
ghost use Rattle.std.specs.Prelude.{◌≡◌, true, [], OnOk, OnErr, IfOk};
ghost use Rattle.versions.specs.Versions.{IsRising, versions_at, is_there, is_based, last_rev, stands, with_version, drop_last, after_settle, base_versions, HasSame, ChangesAt};
ghost use Rattle.tuple_keys.specs.Named.{user_tuple};
ghost use Rattle.versions.specs.Texts.{entries_of, AreSpelled};

use crate::places::{Texts, pop_version, push_version, put_base, settle_version, versions_of};
use crate::version::Version;
use names::{Node, Object, Tuple};
use shelf::Shelf;
use std::alloc::{AllocError, Global};
use std::marker::Model;
use tuple_keys::{Scratch, TupleRef};

/// The tuples that have versions, in order, each with its versions.
#[derive(Drop)]
pub struct VersionMap {
    alloc: Global,
    map: Texts,
}

impl Model for VersionMap {
    ghost use Rattle.versions.specs.Versions.{Entries};
    ghost use Rattle.versions.specs.Texts.{entries_of, AreSpelled};

    ghost Value = { Entries };

    ghost view = { λ m. entries_of m.map };

    ghost invariant = { λ m. AreSpelled m.map };
}

impl VersionMap {
    /// No versions. It takes no memory.
    pub fn new(alloc: Global) -> VersionMap
        ensures { result ≡ [] }
    {
        VersionMap {
            alloc,
            map: Shelf::new(alloc),
        }
    }

    pub(crate) fn texts(&self) -> &Texts
        ensures entries { entries_of result.now ≡ self.now }
        ensures spelled { AreSpelled result.now }
    {
        &self.map
    }

    /// Whether the last version of the tuple up to a revision is a put. It takes no memory.
    pub fn stands_at(&self, tuple: &Tuple, rev: u64) -> bool
        requires { IsRising (versions_at self.now tuple.now) }
        ensures { result ≡ stands (versions_at self.now tuple.now) rev }
    {
        let scratch = Scratch::of(tuple);
        self.holds_at(&scratch.tuple_ref(), rev)
    }

    /// The same of the tuple that names the user. It takes no memory.
    pub fn has_user(&self, node: &Node, user: &Object, rev: u64) -> bool
        requires { IsRising (versions_at self.now (user_tuple node.now user.now)) }
        ensures { result ≡ stands (versions_at self.now (user_tuple node.now user.now)) rev }
    {
        let asked = Scratch::of_user(node, user);
        self.holds_at(&asked.tuple_ref(), rev)
    }

    /// The revision of the tuple's last version, or 0 where it has none. It takes no memory.
    pub fn last_rev(&self, tuple: &Tuple) -> u64
        ensures { result ≡ last_rev (versions_at self.now tuple.now) }
    {
        let scratch = Scratch::of(tuple);
        match versions_of(self.texts(), &scratch.tuple_ref()) {
            Some(versions) => versions.last_rev(),
            None => 0,
        }
    }

    /// Whether the tuple's last version is a put.
    pub(crate) fn holds(&self, key: &TupleRef<'_>) -> bool
        ensures { result ≡ is_there (versions_at self.now key.now) }
    {
        match versions_of(self.texts(), key) {
            Some(versions) => versions.is_there(),
            None => false,
        }
    }

    /// Whether the tuple's last version up to a revision is a put.
    fn holds_at(&self, key: &TupleRef<'_>, rev: u64) -> bool
        requires { IsRising (versions_at self.now key.now) }
        ensures { result ≡ stands (versions_at self.now key.now) rev }
    {
        match versions_of(self.texts(), key) {
            Some(versions) => versions.stands_at(rev),
            None => false,
        }
    }

    /// Gives the tuple a version more. Says whether its last version before was a put.
    pub(crate) fn push(&mut self, key: &TupleRef<'_>, version: Version) -> Result<bool, AllocError>
        ensures ok { OnOk result (ChangesAt key.now (with_version version) self.old self.new) }
        ensures was_there { IfOk result (λ was_there. was_there ≡ is_there (versions_at self.old key.now)) }
        ensures err { OnErr result (HasSame self.old self.new) }
    {
        push_version(self.alloc, &mut self.map, key, version)
    }

    pub(crate) fn pop(&mut self, key: &TupleRef<'_>)
        ensures { ChangesAt key.now drop_last self.old self.new }
    {
        pop_version(&mut self.map, key);
    }

    /// Takes the tuple's oldest version above the floor into what the floor holds. Says whether the floor
    /// held the tuple before.
    pub(crate) fn settle_one(&mut self, key: &TupleRef<'_>) -> bool
        ensures versions { ChangesAt key.now after_settle self.old self.new }
        ensures was_based { result ≡ is_based (versions_at self.old key.now) }
    {
        settle_version(&mut self.map, key)
    }

    /// Puts the tuple into what the floor holds.
    pub(crate) fn put_base(&mut self, tuple: &Tuple) -> Result<(), AllocError>
        ensures { OnOk result (ChangesAt tuple.now (λ _. base_versions true) self.old self.new) }
    {
        put_base(self.alloc, &mut self.map, tuple)
    }
}
