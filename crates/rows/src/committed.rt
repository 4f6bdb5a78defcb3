//! Commits as they are kept.
ghost use Rattle.std.specs.Prelude.{◌≡◌, ◌<◌, ◌≤◌, ◌+◌, ◌-◌, ◌^◌, ◌++◌, ◌∷◌, [], List, length, take, drop, OnOk, OnErr, IfOk};
ghost use Rattle.names.specs.declared.limits.TheConstants.{MAX_REV, MAX_ROWS};
ghost use Rattle.meaning.specs.History.{History, puts_in};
ghost use Rattle.names.specs.declared.commit.Event.{Event};
ghost use Rattle.rows.specs.Retained.{last_config};

use config::Config;
use names::{Commit, EventKind};
use std::alloc::{AllocError, Global};
use tuple_keys::{KeptCommit, KeptEvents};

pub(crate) fn push_commit(
    commits: &mut Vec<KeptCommit>,
    commit: KeptCommit,
) -> Result<(), AllocError>
    ensures ok { OnOk result (commits.new.items ≡ commits.old.items ++ commit ∷ []) }
    ensures err { OnErr result (commits.new.items ≡ commits.old.items) }
{
    commits.push(commit)?;
    Ok(())
}

/// Takes the newest commit off.
pub(crate) fn drop_newest(commits: &mut Vec<KeptCommit>)
    ensures { commits.new.items ≡ take (length commits.old.items - 1) commits.old.items }
{
    let _ = commits.pop();
}

/// The commits as they are outside.
pub(crate) fn copies(
    alloc: Global,
    commits: &[KeptCommit],
) -> Result<Vec<Commit<Config>>, AllocError>
    ensures { IfOk result (λ v. v.items ≡ commits.now) }
{
    let mut copies = Vec::new(alloc);
    for commit in commits {
        copies.push(commit.commit(alloc)?)?;
    }
    Ok(copies)
}

/// The revision of the last configuration among the commits above `rev`, or else `base`.
pub(crate) fn last_config(base: u64, rev: u64, commits: &[KeptCommit]) -> u64
    requires { rev + length commits.now ≤ MAX_REV }
    ensures { result ≡ last_config base rev commits.now }
{
    let mut last = base;
    let mut at = rev;
    for commit in commits {
        at += 1;
        if commit.events().is_none() {
            last = at;
        }
    }
    last
}

/// How many rows the events make.
pub(crate) fn puts_in(events: &KeptEvents) -> u64
    requires { puts_in events.now ≤ MAX_ROWS }
    ensures puts { result ≡ puts_in events.now }
    ensures in_memory { length events.now < 2 ^ 63 }
{
    let mut puts = 0;
    for i in 0..events.len() {
        match events.event(i).kind() {
            EventKind::Put => puts += 1,
            EventKind::Del => {}
        }
    }
    puts
}

/// Drops the oldest commits.
pub(crate) fn drop_commits(commits: &mut Vec<KeptCommit>, count: usize)
    requires { count ≤ length commits.old.items }
    ensures { commits.new.items ≡ drop count commits.old.items }
{
    let left = commits.as_slice().len() - count;
    commits.rotate_left(count);
    commits.truncate(left);
}
