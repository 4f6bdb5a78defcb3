//! One random history, compared after each commit.

use crate::changes::{any_changes, clearing, follow};
use crate::comparing::{compare_all_checks, compare_checks, compare_groups, compare_members};
use crate::configurations::config_of;
use crate::dice::Dice;
use crate::followed::Followed;
use crate::score::Score;
use crate::table::Table;
use crate::universe::Universe;
use config::Config;
use names::{Commit, Node, Object, Refusal};
use snapshots::Snapshot;
use std::alloc::{AllocError, Global};
use std::hash::RandomState;

/// How many times a history is changed.
const TURNS: u64 = 12;

/// A history and what is kept of it, with the same by the definitions: the snapshot of its newest revision, a table of each
/// revision from 0 on, and the nodes that are marked. A whole one is asked about each node and user at each revision.
#[derive(Drop)]
struct Run<'a> {
    alloc: Global,
    universe: &'a Universe,
    whole: bool,
    dice: Dice,
    snapshot: Snapshot,
    tables: Vec<Table>,
    marks: Vec<Node>,
    followed: Followed,
}

impl Run<'_> {
    // Where the commit can follow, it is made everywhere.
    fn add(&mut self, commit: &Commit<Config>, score: &mut Score) -> Result<(), Refusal> {
        if !self.followed.add(commit)? {
            return Ok(());
        }
        follow(self.alloc, &mut self.snapshot, commit)?;
        score.count_commit(self.followed.newest());
        if self.whole {
            let (alloc, universe) = (self.alloc, self.universe);
            compare_all_checks(alloc, &self.followed, &self.snapshot, universe, score)?;
        }
        self.tell()
    }

    // A table of the newest revision.
    fn tell(&mut self) -> Result<(), Refusal> {
        let user = any_user(self.universe, &mut self.dice)?;
        let table = Table::of(self.alloc, &self.snapshot, self.universe, user)?;
        self.tables.push(table)?;
        Ok(())
    }

    // (Apart from who owns it: each way out of a function that does costs the proof that it is let go.)
    fn go_on(&mut self, score: &mut Score) -> Result<(), Refusal> {
        self.tell()?;
        for _ in 0..TURNS {
            self.turn(score)?;
            if score.difference.is_some() {
                return Ok(());
            }
        }
        Ok(())
    }

    fn turn(&mut self, score: &mut Score) -> Result<(), Refusal> {
        self.grow(score)?;
        self.remark()?;
        self.catch_up()?;
        self.raise()?;
        self.compare(score)
    }

    // A commit, or two.
    fn grow(&mut self, score: &mut Score) -> Result<(), Refusal> {
        let universe = self.universe;
        if self.followed.newest() > 0 && self.dice.roll(6) > 0 {
            let kinds = universe.policy.kinds;
            let commit = any_changes(self.alloc, &self.snapshot, kinds, &mut self.dice)?;
            return self.add(&commit, score);
        }
        let config = config_of(self.alloc, universe.policy, &mut self.dice)?;
        let commit = clearing(self.alloc, &self.snapshot, &config)?;
        self.add(&commit, score)?;
        self.add(&Commit::Config(config), score)
    }

    // A mark comes or goes.
    fn remark(&mut self) -> Result<(), Refusal> {
        if self.dice.roll(3) == 0 {
            return Ok(self.drop_mark()?);
        }
        let universe = self.universe;
        let Some(node) = self.dice.pick(&universe.nodes) else {
            return Ok(());
        };
        self.followed.mark(node)?;
        if !self.marks.contains(node) {
            self.marks.push(node.clone()?)?;
        }
        Ok(())
    }

    fn drop_mark(&mut self) -> Result<(), AllocError> {
        let place = self.dice.roll(self.marks.len() as u64) as usize;
        if place < self.marks.len() {
            let node = self.marks.swap_remove(place);
            self.followed.unmark(&node)?;
        }
        Ok(())
    }

    // Each part takes some commits, or none.
    fn catch_up(&mut self) -> Result<(), AllocError> {
        for _ in 0..self.dice.roll(4) {
            self.followed.take_for_members()?;
        }
        for _ in 0..self.dice.roll(4) {
            self.followed.take_for_groups()?;
        }
        Ok(())
    }

    // The base of the group index rises, or the floor, or the members begin anew.
    fn raise(&mut self) -> Result<(), AllocError> {
        let sides = self.followed.newest().saturating_add(1);
        let rev = self.dice.roll(sides);
        match self.dice.roll(16) {
            0 | 1 => self.followed.rebase(rev),
            2 | 3 => {
                self.followed.trim(rev);
                Ok(())
            }
            4 => self.followed.begin_anew(),
            _ => Ok(()),
        }
    }

    fn compare(&self, score: &mut Score) -> Result<(), Refusal> {
        let (alloc, followed) = (self.alloc, &self.followed);
        if let Some(table) = self.tables.get(followed.cursor() as usize) {
            compare_members(alloc, followed, table, &self.marks, score)?;
            compare_checks(alloc, followed, followed.cursor(), table, score)?;
        }
        if let Some(table) = self.tables.get(followed.base() as usize) {
            compare_checks(alloc, followed, followed.base(), table, score)?;
        }
        compare_groups(alloc, followed, &self.tables, score)
    }
}

fn any_user(universe: &Universe, dice: &mut Dice) -> Result<Object, Refusal> {
    match dice.pick(&universe.users) {
        Some(user) => Ok(user.clone()?),
        None => Err(Refusal::Malformed),
    }
}

fn begun(
    alloc: Global,
    keys: RandomState,
    universe: &Universe,
    seed: u64,
    whole: bool,
) -> Result<Run<'_>, AllocError> {
    let followed = Followed::new(alloc, keys)?;
    Ok(Run {
        alloc,
        universe,
        whole,
        dice: Dice::new(seed),
        snapshot: Snapshot::empty(alloc),
        tables: Vec::new(alloc),
        marks: Vec::new(alloc),
        followed,
    })
}

/// Compares a history of the seed, up to the first difference, and a whole one also at each node and user of each revision.
pub(crate) fn compare(
    alloc: Global,
    keys: RandomState,
    universe: &Universe,
    seed: u64,
    whole: bool,
    score: &mut Score,
) -> Result<(), Refusal> {
    let mut run = begun(alloc, keys, universe, seed, whole)?;
    run.go_on(score)
}
