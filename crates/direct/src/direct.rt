//! The direct groups of users, at revisions.
ghost use Rattle.direct.specs.Before.{AreUpTo};

use crate::memberships::Memberships;
use crate::naming::named;
use crate::noted::{EarlierGroups, set_at};
use crate::replacing::{number_all, renewed, replace_all};
use config::Config;
use idsets::{IdSet, Ids};
use leopard::Input;
use names::{Event, Node, Object, Tuple};
use rows::View;
use std::alloc::{AllocError, Global};
use std::hash::RandomState;

/// Which groups name each user by a tuple of their own (MEMBER2GROUP of Zanzibar, section 3.2.4), at each revision from a
/// base to a cursor, under one configuration. Kept is what they are at the cursor, and for earlier revisions what a
/// commit replaced: of each user whose groups it changed those before. No tuple is kept.
#[derive(Drop)]
pub struct Direct {
    pub(crate) config: Config,
    pub(crate) base: u64,
    pub(crate) cursor: u64,
    pub(crate) kept: Memberships,
    pub(crate) earlier: Vec<EarlierGroups>,
    ghost noted: { AreUpTo cursor earlier.items },
}

impl Direct {
    ghost use Rattle.std.specs.Prelude.{◌≡◌, ◌<◌, ◌≤◌, ◌+◌, ◌-◌, ◌^◌, ◌↔◌, ℕ, Contains, max, OnOk, OnErr, IfOk, IfSome, IfNone};
    ghost use Rattle.names.specs.declared.node.Node.{Node as NodeValue};
    ghost use Rattle.meaning.specs.Snap.{Snap};
    ghost use Rattle.meaning.specs.TupleSet as set;
    ghost use Rattle.leopard.specs.Finding.{IsNamedBy};
    ghost use Rattle.leopard.specs.Groups.{MemberToGroup};
    ghost use Rattle.direct.specs.Revisions.{IsDirectOf, IsNext, NotesChanged};

    /// The direct groups of one revision, whose view this is: base and cursor are that revision, and nothing is noted. All
    /// tuples are gone over once. Names are hashed under this key.
    pub fn restart(
        alloc: Global,
        keys: RandomState,
        view: &View,
        rev: u64,
    ) -> Result<Direct, AllocError>
        ensures direct { IfOk result (λ direct. (snaps : ℕ → Snap) → snaps rev ≡ view.now → IsDirectOf direct snaps) }
        ensures base { IfOk result (λ direct. direct.base ≡ rev) }
        ensures cursor { IfOk result (λ direct. direct.cursor ≡ rev) }
    {
        let tuples = view.tuples(alloc)?;
        Direct::begun(alloc, keys, view.config(), &tuples, rev)
    }

    /// The same of a snapshot that was copied, whose revision this is. No view is read, so they may be made beside whoever
    /// takes commits.
    pub fn of(
        alloc: Global,
        keys: RandomState,
        input: &Input,
        rev: u64,
    ) -> Result<Direct, AllocError>
        ensures direct { IfOk result (λ direct. (snaps : ℕ → Snap) → snaps rev ≡ input.now → IsDirectOf direct snaps) }
        ensures base { IfOk result (λ direct. direct.base ≡ rev) }
        ensures cursor { IfOk result (λ direct. direct.cursor ≡ rev) }
    {
        Direct::begun(alloc, keys, input.config(), input.tuples(), rev)
    }

    /// The direct groups of one revision, of whose snapshot these are the configuration and the tuples.
    fn begun(
        alloc: Global,
        keys: RandomState,
        config: &Config,
        tuples: &[Tuple],
        rev: u64,
    ) -> Result<Direct, AllocError>
        ensures direct { IfOk result (λ direct. (snaps : ℕ → Snap) → config.now ≡ (snaps rev).config → tuples.now ≡ set.items (snaps rev).tuples
            → IsDirectOf direct snaps) }
        ensures base { IfOk result (λ direct. direct.base ≡ rev) }
        ensures cursor { IfOk result (λ direct. direct.cursor ≡ rev) }
    {
        let config = config.again(alloc)?;
        let kept = Memberships::of(alloc, keys, &config, tuples)?;
        Ok(Direct {
            config,
            base: rev,
            cursor: rev,
            kept,
            earlier: Vec::new(alloc),
        })
    }

    /// The first revision that is told of.
    pub fn base(&self) -> u64
        ensures { result ≡ self.now.base }
    {
        self.base
    }

    /// The last revision that is told of.
    pub fn cursor(&self) -> u64
        ensures { result ≡ self.now.cursor }
    {
        self.cursor
    }

    /// Takes the next commit, one of events. It costs the sets of the users that these name, and reads no tuple. For want
    /// of memory what is told is what it was.
    pub fn take(&mut self, alloc: Global, events: &[Event]) -> Result<(), AllocError>
        requires { self.old.cursor < 2 ^ 64 - 1 }
        ensures direct { OnOk result ((snaps : ℕ → Snap) → IsDirectOf self.old snaps
            → IsNext snaps self.old.cursor events.now → IsDirectOf self.new snaps) }
        ensures noted { OnOk result (NotesChanged self.old self.new events.now) }
        ensures base { self.new.base ≡ self.old.base }
        ensures cursor { OnOk result (self.new.cursor ≡ self.old.cursor + 1) }
        ensures err { OnErr result ((snaps : ℕ → Snap) → IsDirectOf self.old snaps → IsDirectOf self.new snaps) }
        ensures err_cursor { OnErr result (self.new.cursor ≡ self.old.cursor) }
    {
        let rev = self.cursor + 1;
        number_all(alloc, &self.config, &mut self.kept, events)?;
        let renewed = renewed(alloc, &self.config, &self.kept, events)?;
        self.earlier.reserve(renewed.len())?;
        replace_all(rev, renewed, &mut self.kept.sets, &mut self.earlier);
        self.cursor = rev;
        Ok(())
    }

    /// The groups that have a number, each at its number.
    pub fn groups(&self) -> &Ids<Node>
        ensures { result.now ≡ self.now.kept.groups }
    {
        &self.kept.groups
    }

    /// The numbers of the groups that name the user by a tuple of their own, at a revision from the base to the cursor,
    /// where anything was ever kept of it. It takes no memory.
    pub fn kept_at(&self, user: &Object, rev: u64) -> Option<&IdSet>
        ensures kept { IfSome result (λ ids. (snaps : ℕ → Snap) → IsDirectOf self.now snaps → self.now.base ≤ rev → rev ≤ self.now.cursor
            → (n : NodeValue) → IsNamedBy self.now.kept.groups ids.now n ↔ MemberToGroup (snaps rev) user.now n) }
        ensures none { IfNone result ((snaps : ℕ → Snap) → IsDirectOf self.now snaps → self.now.base ≤ rev → rev ≤ self.now.cursor
            → (n : NodeValue) → MemberToGroup (snaps rev) user.now n → ⊥) }
    {
        let id = self.kept.users.id_of(user)?;
        Some(set_at(&self.earlier, &self.kept.sets, id, rev))
    }

    /// The groups that name the user by a tuple of their own, at a revision from the base to the cursor. No order is
    /// promised.
    pub fn groups_at(&self, alloc: Global, user: &Object, rev: u64) -> Result<Vec<Node>, AllocError>
        ensures { IfOk result (λ v. (snaps : ℕ → Snap) → IsDirectOf self.now snaps → self.now.base ≤ rev → rev ≤ self.now.cursor
            → (n : NodeValue) → Contains v.items n ↔ MemberToGroup (snaps rev) user.now n) }
    {
        match self.kept_at(user, rev) {
            Some(ids) => named(alloc, &self.kept.groups, ids.as_slice()),
            None => Ok(Vec::new(alloc)),
        }
    }

    /// Moves the base up to a revision, whose view this is. What was noted up to it is dropped, and the later rest is
    /// kept. Where it is above the cursor, it is begun anew there; for want of memory nothing changes.
    pub fn rebase(&mut self, alloc: Global, view: &View, rev: u64) -> Result<(), AllocError>
        ensures direct { OnOk result ((snaps : ℕ → Snap) → IsDirectOf self.old snaps → self.old.base ≤ rev
            → snaps rev ≡ view.now → IsDirectOf self.new snaps) }
        ensures base { OnOk result (self.new.base ≡ rev) }
        ensures cursor { OnOk result (self.new.cursor ≡ max self.old.cursor rev) }
        ensures err { OnErr result (self.new ≡ self.old) }
    {
        if self.cursor < rev {
            *self = Direct::restart(alloc, self.kept.groups.keys(), view, rev)?;
            return Ok(());
        }
        self.raise(rev);
        Ok(())
    }

    /// Moves the base up to a revision that is not above the cursor. What was noted up to it is dropped, and the later
    /// rest is kept. It takes no memory.
    pub fn raise(&mut self, rev: u64)
        requires { rev ≤ self.old.cursor }
        ensures direct { (snaps : ℕ → Snap) → IsDirectOf self.old snaps → self.old.base ≤ rev → IsDirectOf self.new snaps }
        ensures base { self.new.base ≡ rev }
        ensures cursor { self.new.cursor ≡ self.old.cursor }
    {
        self.earlier.retain(|e| rev < e.rev);
        self.base = rev;
    }
}
