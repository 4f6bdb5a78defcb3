//! What was compared, and the first difference.

use names::{Node, Object};
use std::alloc::{AllocError, Global};

/// What was asked: of which part, at which revision, and about whom.
#[derive(Clone, Copy)]
pub(crate) struct Asked<'a> {
    pub(crate) part: &'static str,
    pub(crate) rev: u64,
    pub(crate) node: Option<&'a Node>,
    pub(crate) user: Option<&'a Object>,
}

/// How much was compared, also of each node and each user, how many of these are members, the commit after which it was
/// compared last, and where the first difference is.
#[derive(Drop)]
pub(crate) struct Score {
    pub(crate) commits: u64,
    pub(crate) questions: u64,
    pub(crate) checks: u64,
    pub(crate) members: u64,
    pub(crate) commit: u64,
    pub(crate) difference: Option<String>,
}

impl Score {
    pub(crate) fn new() -> Score {
        Score {
            commits: 0,
            questions: 0,
            checks: 0,
            members: 0,
            commit: 0,
            difference: None,
        }
    }

    /// Counts a commit, of a revision.
    pub(crate) fn count_commit(&mut self, rev: u64) {
        self.commits = self.commits.saturating_add(1);
        self.commit = rev;
    }

    /// Counts a check of a node and a user, of which the definition has the answer.
    pub(crate) fn count_check(&mut self, answer: Option<bool>) {
        self.checks = self.checks.saturating_add(1);
        if answer == Some(true) {
            self.members = self.members.saturating_add(1);
        }
    }

    /// Counts a question, and judges its answers.
    pub(crate) fn compare(
        &mut self,
        alloc: Global,
        same: bool,
        asked: Asked<'_>,
    ) -> Result<(), AllocError> {
        self.questions = self.questions.saturating_add(1);
        self.judge(alloc, same, asked)
    }

    /// The first question whose answers are not the same is kept.
    pub(crate) fn judge(
        &mut self,
        alloc: Global,
        same: bool,
        asked: Asked<'_>,
    ) -> Result<(), AllocError> {
        if !same && self.difference.is_none() {
            self.difference = Some(told(alloc, self.commit, asked)?);
        }
        Ok(())
    }
}

fn told(alloc: Global, commit: u64, asked: Asked<'_>) -> Result<String, AllocError> {
    let (part, rev) = (asked.part, asked.rev);
    let mut text = format!(in alloc; "after commit {commit}: {part} at revision {rev}")?;
    if let Some(node) = asked.node {
        text.push_str(format!(in alloc; ", {node}")?.as_str())?;
    }
    if let Some(user) = asked.user {
        text.push_str(format!(in alloc; ", {user}")?.as_str())?;
    }
    Ok(text)
}
