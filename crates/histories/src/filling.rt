//! The histories.
ghost use Rattle.std.specs.Prelude.{◌≡◌, ◌<◌, ◌^◌};

use crate::making::{commit_of, configuration};
use config::Config;
use names::{Commit, Refusal};
use rows::Rows;
use std::alloc::{AllocError, Global};
use tuple_keys::KeptCommit;

/// Three histories of one store, and the list of its commits.
#[derive(Drop)]
pub(crate) struct Histories {
    first: Rows,
    second: Rows,
    third: Rows,
    commits: Vec<KeptCommit>,
}

impl Histories {
    /// The tuples of the one that has the fewest.
    pub(crate) fn tuples(&self) -> u64 {
        let first = self.first.counts().tuples;
        let second = self.second.counts().tuples;
        first.min(second).min(self.third.counts().tuples)
    }

    pub(crate) fn commits(&self) -> usize {
        self.commits.len()
    }

    /// Adds a commit to the list, and to each history that does not refuse it.
    fn add(&mut self, alloc: Global, commit: &Commit<Config>) -> Result<(), AllocError> {
        let kept = KeptCommit::of(alloc, commit)?;
        absorb(&mut self.first, commit, &kept)?;
        absorb(&mut self.second, commit, &kept)?;
        absorb(&mut self.third, commit, &kept)?;
        self.commits.push(kept)?;
        Ok(())
    }
}

/// The histories after the configuration and so many commits.
pub(crate) fn filled(alloc: Global, count: u32, step: u32) -> Result<Histories, Refusal>
    requires { count < 2 ^ 16 }
{
    let mut histories = Histories {
        first: Rows::empty(alloc),
        second: Rows::empty(alloc),
        third: Rows::empty(alloc),
        commits: Vec::new(alloc),
    };
    histories.add(alloc, &configuration(alloc)?)?;
    let count = u64::from(count);
    for number in 0..count {
        let commit = commit_of(alloc, number, count, step)?;
        histories.add(alloc, &commit)?;
    }
    Ok(histories)
}

/// Adds the commit, unless it is refused.
fn absorb(rows: &mut Rows, commit: &Commit<Config>, kept: &KeptCommit) -> Result<(), AllocError>
    requires { kept.now ≡ commit.now }
{
    if rows.refuses(commit)? {
        return Ok(());
    }
    rows.admits_its_tuples();
    rows.absorb(kept)
}
