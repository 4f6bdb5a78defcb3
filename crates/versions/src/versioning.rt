//! What events do to the versions.
ghost use Rattle.std.specs.Prelude.{◌≤◌, ◌<◌, ◌^◌, ◌∷◌, [], length, take, OnOk, OnErr, IfOk};
ghost use Rattle.meaning.specs.TupleSet as set;
ghost use Rattle.versions.specs.Versions.{versions_at, GoesOn, Changes, HasChanged, HasBase, HasSame, TakesOff, SettlesEvents, EndsWithEvents, SettlesCommits, EndsWithCommit, LeavesSpans};

use crate::change::Change;
use crate::version::Version;
use crate::version_map::VersionMap;
use names::Tuple;
use std::alloc::{AllocError, Global};
use tuple_keys::{KeptCommit, KeptEvents};

impl VersionMap {
    /// The versions of the tuples that the floor holds.
    pub fn of_base(alloc: Global, tuples: &[Tuple]) -> Result<VersionMap, AllocError>
        ensures { IfOk result (λ m. HasBase m (set.from_list tuples.now)) }
    {
        let mut map = VersionMap::new(alloc);
        for i in 0..tuples.len() {
            map.put_base(&tuples[i])?;
        }
        Ok(map)
    }

    /// Takes the newest version of each event's tuple off again. It takes no memory.
    pub fn undo(&mut self, events: &KeptEvents) -> Change
        ensures versions { TakesOff self.old events.now self.new }
        ensures change { HasChanged self.old events.now result }
        ensures come { result.come ≤ length events.now }
        ensures gone { result.gone ≤ length events.now }
    {
        self.undo_first(events, events.len())
    }

    /// The same of so many of the first events.
    fn undo_first(&mut self, events: &KeptEvents, count: usize) -> Change
        requires within { count ≤ length events.now }
        requires small { count < 2 ^ 63 }
        ensures versions { TakesOff self.old (take count events.now) self.new }
        ensures change { HasChanged self.old (take count events.now) result }
        ensures come { result.come ≤ count }
        ensures gone { result.gone ≤ count }
    {
        let mut change = Change::none();
        let mut left = count;
        while left > 0 {
            left -= 1;
            let event = events.event(left);
            self.pop(event.tuple_ref());
            change = change.and(Version::of(0, &event).put, self.holds(event.tuple_ref()));
        }
        change
    }

    /// Gives each event's tuple its version, or where memory is refused, none.
    pub fn put_all(&mut self, events: &KeptEvents, rev: u64) -> Result<Change, AllocError>
        ensures ok { OnOk result (GoesOn (versions_at self.old) self.new rev events.now) }
        ensures change { IfOk result (λ change. Changes (versions_at self.old) events.now change) }
        ensures come { IfOk result (λ change. change.come ≤ length events.now) }
        ensures gone { IfOk result (λ change. change.gone ≤ length events.now) }
        ensures err { OnErr result (HasSame self.old self.new) }
    {
        let mut change = Change::none();
        for i in 0..events.len() {
            let event = events.event(i);
            let version = Version::of(rev, &event);
            match self.push(event.tuple_ref(), version) {
                Ok(was_there) => change = change.and(version.put, was_there),
                Err(e) => {
                    let _ = self.undo_first(events, i);
                    return Err(e);
                }
            }
        }
        Ok(change)
    }

    /// Takes the events of the revision above the floor into what the floor holds. Says how many spans end
    /// there.
    fn settle_events(&mut self, events: &KeptEvents) -> u64
        ensures versions { SettlesEvents self.old events.now self.new }
        ensures ended { EndsWithEvents self.old events.now result }
    {
        let mut ended = 0;
        for i in 0..events.len() {
            let event = events.event(i);
            if self.settle_one(event.tuple_ref()) {
                ended += 1;
            }
        }
        ended
    }

    fn settle_commit(&mut self, commit: &KeptCommit) -> u64
        ensures versions { SettlesCommits self.old (commit.now ∷ []) self.new }
        ensures ended { EndsWithCommit self.old commit.now result }
    {
        match commit.events() {
            Some(events) => self.settle_events(events),
            None => 0,
        }
    }

    /// Takes the commits above the floor into what the floor holds. Says how many of the spans are left. It
    /// takes no memory.
    pub fn settle(&mut self, commits: &[KeptCommit], spans: u64) -> u64
        ensures versions { SettlesCommits self.old commits.now self.new }
        ensures spans { LeavesSpans self.old commits.now spans result }
    {
        let mut left = spans;
        for i in 0..commits.len() {
            left = left.saturating_sub(self.settle_commit(&commits[i]));
        }
        left
    }
}
