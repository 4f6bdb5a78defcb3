//! Which groups name each user, by numbers.
ghost use Rattle.std.specs.Prelude.{◌≤◌, length};
ghost use Rattle.idsets.specs.Naming.{AreDistinct};

use crate::indexed::is_direct;
use crate::naming::see;
use config::Config;
use idsets::{IdSet, Ids};
use names::{Node, Object, Tuple};
use std::alloc::{AllocError, Global};
use std::hash::RandomState;

/// Users and groups with a number each, and at the number of each user those of the groups that name it by a tuple of
/// their own. There may be a set more than there are users, and then it has nothing.
#[derive(Drop)]
pub(crate) struct Memberships {
    pub(crate) users: Ids<Object>,
    pub(crate) groups: Ids<Node>,
    pub(crate) sets: Vec<IdSet>,
    ghost room: { length users ≤ length sets.items },
    ghost users_apart: { AreDistinct users },
    ghost groups_apart: { AreDistinct groups },
}

/// A user and a group, by their numbers.
#[derive(Drop)]
pub(crate) struct Membership {
    pub(crate) user: u64,
    pub(crate) group: u64,
}

impl Memberships {
    ghost use Rattle.std.specs.Prelude.{◌≡◌, ◌<◌, ◌++◌, ◌∷◌, ◌||◌, [], ℕ, List, Some, IfOk, OnOk, nat_eq, slice_set};
    ghost use Rattle.std.specs.List.{slice_get};
    ghost use Rattle.names.specs.declared.tuple.Tuple.{Tuple as TupleValue};
    ghost use Rattle.meaning.specs.Config.{Configured};
    ghost use Rattle.idsets.specs.Sets.{has};
    ghost use Rattle.direct.specs.Before.{set_in};
    ghost use Rattle.direct.specs.inside.Keeping.{IsMore, AreNumbers, AreFound, AreKept};

    /// The memberships that some tuples tell. Names are hashed under this key.
    pub(crate) fn of(
        alloc: Global,
        keys: RandomState,
        config: &Config,
        tuples: &[Tuple],
    ) -> Result<Memberships, AllocError>
        ensures { IfOk result (AreKept config.now tuples.now) }
    {
        let mut kept = Memberships::new(alloc, keys);
        for tuple in tuples {
            kept.add(alloc, config, tuple)?;
        }
        Ok(kept)
    }

    /// Nobody is named. It takes no memory.
    fn new(alloc: Global, keys: RandomState) -> Memberships
        ensures { (config : Configured) → AreKept config [] result }
    {
        let users = Ids::new(alloc, keys);
        let groups = Ids::new(alloc, keys);
        let _ = (users.len(), groups.len());
        Memberships {
            users,
            groups,
            sets: Vec::new(alloc),
        }
    }

    /// Puts in that a group names a user, where the tuple tells it.
    fn add(&mut self, alloc: Global, config: &Config, tuple: &Tuple) -> Result<(), AllocError>
        ensures { OnOk result ((ts : List TupleValue) → AreKept config.now ts self.old
            → AreKept config.now (ts ++ tuple.now ∷ []) self.new) }
    {
        match self.number(alloc, config, tuple)? {
            Some(found) => self.put(found),
            None => Ok(()),
        }
    }

    fn put(&mut self, found: Membership) -> Result<(), AllocError>
        requires { found.user < length self.old.sets.items }
        ensures users { self.new.users ≡ self.old.users }
        ensures groups { self.new.groups ≡ self.old.groups }
        ensures sets { OnOk result ((set : List ℕ) × (self.new.sets.items ≡ slice_set self.old.sets.items found.user set)
            × ((other : ℕ) → has set other ≡ (nat_eq other found.group || has (set_in self.old.sets.items found.user) other))) }
    {
        let set = &mut self.sets[found.user as usize];
        set.insert(found.group)?;
        Ok(())
    }

    /// The numbers of the tuple's user and group, where a group names a user by it, new ones for those that were not seen
    /// before. No group names a new user yet.
    pub(crate) fn number(
        &mut self,
        alloc: Global,
        config: &Config,
        tuple: &Tuple,
    ) -> Result<Option<Membership>, AllocError>
        ensures more { IsMore self.old self.new }
        ensures numbers { IfOk result (AreNumbers config.now self.new tuple.now) }
    {
        if !is_direct(config, tuple) {
            return Ok(None);
        }
        let user = self.see_user(alloc, &tuple.subject.object)?;
        let group = self.see_group(&tuple.node)?;
        Ok(Some(Membership { user, group }))
    }

    fn see_user(&mut self, alloc: Global, user: &Object) -> Result<u64, AllocError>
        ensures more { IsMore self.old self.new }
        ensures number { IfOk result (λ number. slice_get self.new.users number ≡ Some user.now) }
    {
        let user = user.clone()?;
        self.make_room(alloc)?;
        see(&mut self.users, user)
    }

    /// Makes a set for one user more, where there is none yet.
    fn make_room(&mut self, alloc: Global) -> Result<(), AllocError>
        ensures users { self.new.users ≡ self.old.users }
        ensures groups { self.new.groups ≡ self.old.groups }
        ensures sets { (user : ℕ) → set_in self.new.sets.items user ≡ set_in self.old.sets.items user }
        ensures room { OnOk result (length self.new.users < length self.new.sets.items) }
    {
        if self.users.len() < self.sets.len() {
            return Ok(());
        }
        self.sets.push(IdSet::new(alloc))?;
        Ok(())
    }

    fn see_group(&mut self, group: &Node) -> Result<u64, AllocError>
        ensures more { IsMore self.old self.new }
        ensures number { IfOk result (λ number. slice_get self.new.groups number ≡ Some group.now) }
    {
        see(&mut self.groups, group.clone()?)
    }

    /// The numbers of the tuple's user and group, where a group names a user by it and both were seen.
    pub(crate) fn numbers_of(&self, config: &Config, tuple: &Tuple) -> Option<Membership>
        ensures { AreFound config.now self.now tuple.now result }
    {
        if !is_direct(config, tuple) {
            return None;
        }
        let user = self.users.id_of(&tuple.subject.object)?;
        let group = self.groups.id_of(&tuple.node)?;
        Some(Membership { user, group })
    }
}
