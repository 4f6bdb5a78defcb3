//! Tables in memory.
ghost use Rattle.std.specs.Prelude.{◌≡◌, ◌≤◌, ◌+◌, length, take, drop, OnOk, IfErr};
ghost use Rattle.rows.specs.Follows.{IsNext};
ghost use Rattle.rows.specs.Retained.{empty_store, newest, with_commit, after_trim};
ghost use Rattle.tables.specs.Limits.{IsLoadable};
ghost use Rattle.tables.specs.Listing.{listed};

use crate::change::TableChange;
use crate::copy::commits_again;
use crate::tables::{Tables, TablesError};
use names::Items;
use rows::{Loaded, Rows, what_follows_has_room};
use std::alloc::{AllocError, Global};
use std::marker::Model;
use tuple_keys::KeptCommit;

/// Tables that hold a history in memory. They are lost with the program, and never fault.
#[derive(Drop)]
pub struct Listed {
    alloc: Global,
    number: u64,
    // What stands at the floor. A trim that was refused memory has left commits in it that `commits` still has.
    base: Rows,
    commits: Vec<KeptCommit>,
}

impl Model for Listed {
    ghost use Rattle.rows.specs.Retained.{Retained};
    ghost use Rattle.rows.specs.inside.Codes.{coded_retained};
    ghost use Rattle.tables.specs.Listing.{listed, IsListed};

    ghost Value = { Retained };

    ghost coded = { coded_retained };

    ghost view = { λ t. listed t.number t.base t.commits.items };

    ghost invariant = { λ t. IsListed t.number t.base t.commits.items };
}

impl Listed {
    /// The tables of a new store with this number.
    pub fn new(alloc: Global, number: u64) -> Listed
        ensures { result ≡ empty_store number }
    {
        Listed {
            alloc,
            number,
            base: Rows::empty(alloc),
            commits: Vec::new(alloc),
        }
    }

    // Puts a commit behind the others.
    fn push(&mut self, commit: &KeptCommit) -> Result<(), TablesError>
        requires { IsNext self.old commit.now }
        ensures ok { OnOk result (self.new ≡ with_commit self.old commit.now) }
        ensures err { IfErr result (λ why. (why ≡ TablesError.Memory) × (self.new ≡ self.old)) }
    {
        if self.commits.reserve(1).is_err() {
            return Err(TablesError::Memory);
        }
        let Ok(commit) = commit.again() else {
            return Err(TablesError::Memory);
        };
        what_follows_has_room();
        self.commits.push_reserved(commit);
        Ok(())
    }

    // Raises the floor: the commits up to it go into what stands there.
    fn raise(&mut self, floor: u64) -> Result<(), TablesError>
        requires above { self.old.floor ≤ floor }
        requires there { floor ≤ newest self.old }
        ensures ok { OnOk result (self.new ≡ after_trim self.old floor) }
        ensures err { IfErr result (λ why. (why ≡ TablesError.Memory) × (self.new ≡ self.old)) }
    {
        let Ok(()) = absorb_up_to(&mut self.base, &self.commits, floor) else {
            return Err(TablesError::Memory);
        };
        let count = (floor - self.base.floor()) as usize;
        self.base.trim(floor);
        drop_first(&mut self.commits, count);
        Ok(())
    }
}

impl Tables for Listed {
    ghost use Rattle.std.specs.Prelude.{◌≡◌};
    ghost use Rattle.tables.specs.Device.{sound_device};
    ghost use Rattle.tables.specs.Leaving.{IsOneOf, only_one};

    ghost holds = { λ t r. t ≡ r };

    ghost leaves = { λ t rs. IsOneOf rs t };

    ghost device = { λ t. sound_device };

    ghost count = { λ t. 0 };

    fn load(&mut self, alloc: Global) -> Result<Loaded, TablesError> {
        let Ok(commits) = commits_again(alloc, &self.commits) else {
            return Err(TablesError::Memory);
        };
        let floor = self.base.floor();
        let view = self.base.at(floor);
        let Ok(tuples) = view.tuples(alloc) else {
            return Err(TablesError::Memory);
        };
        let Ok(config) = view.config().again(alloc) else {
            return Err(TablesError::Memory);
        };
        Ok(Loaded {
            number: self.number,
            floor,
            config,
            tuples: Items::of(tuples),
            commits: Items::of(commits),
        })
    }

    fn change(&mut self, change: &TableChange) -> Result<(), TablesError> {
        match change {
            TableChange::Commit { commit, .. } => self.push(commit),
            TableChange::Trim { floor, .. } => self.raise(*floor),
        }
    }

    fn faults(&self) -> u64 {
        0
    }

    ghost settled = { λ t r held whole. only_one t r held };

    ghost weaker = { λ t rs ss among left. among t left };
}

// Takes the commits up to a revision into the rows, which have the first of them already.
fn absorb_up_to(rows: &mut Rows, commits: &[KeptCommit], rev: u64) -> Result<(), AllocError>
    requires first { rows.old.commits ≡ take (length rows.old.commits) commits.now }
    requires loadable { IsLoadable (listed rows.old.number rows.old commits.now) }
    requires low { rows.old.floor ≤ rev }
    requires high { rev ≤ rows.old.floor + length commits.now }
    ensures same { rows.new ≡ listed rows.old.number rows.old rows.new.commits }
    ensures first { rows.new.commits ≡ take (length rows.new.commits) commits.now }
    ensures up { OnOk result (rev ≤ newest rows.new) }
{
    let start = (rows.newest() - rows.floor()) as usize;
    let end = (rev - rows.floor()) as usize;
    for i in start..end {
        rows.absorb(&commits[i])?;
    }
    Ok(())
}

// Drops the oldest commits.
fn drop_first(commits: &mut Vec<KeptCommit>, count: usize)
    requires { count ≤ length commits.old.items }
    ensures { commits.new.items ≡ drop count commits.old.items }
{
    let left = commits.as_slice().len() - count;
    commits.rotate_left(count);
    commits.truncate(left);
}
