//! Commits, as they are kept.
ghost use Rattle.std.specs.Prelude.{◌≡◌, List, IfOk, IfSome, IfNone};
ghost use Rattle.tuple_keys.specs.Contents.{commit_in};

use crate::kept_events::KeptEvents;
use config::Config;
use names::{Commit, Event, Items};
use std::alloc::{AllocError, Global};
use std::marker::Model;
use std::sync::Arc;

/// A commit, shared by all who keep it.
#[derive(Debug, Drop)]
pub struct KeptCommit {
    content: Arc<Content>,
}

#[derive(Debug, Drop)]
enum Content {
    Events(KeptEvents),
    Config(Config),
}

impl Model for KeptCommit {
    ghost use Rattle.std.specs.Arc.{arc_value};
    ghost use Rattle.names.specs.declared.commit.Commit.{Commit as CommitValue};
    ghost use Rattle.meaning.specs.Config.{Configured};
    ghost use Rattle.meaning.specs.inside.Codes.{coded_commit};
    ghost use Rattle.tuple_keys.specs.Contents.{commit_in};

    ghost Value = { CommitValue Configured };

    ghost coded = { coded_commit };

    ghost view = { λ c. commit_in (arc_value c.content) };
}

impl KeptCommit {
    ghost use Rattle.names.specs.declared.commit.Event.{Event as EventValue};
    ghost use Rattle.meaning.specs.Config.{Configured};

    /// The commit of the events, which are copied.
    pub fn of_events(alloc: Global, events: &[Event]) -> Result<KeptCommit, AllocError>
        ensures { IfOk result (λ c. c ≡ Commit.Tuples events.now) }
    {
        let events = KeptEvents::of(alloc, events)?;
        shared(alloc, Content::Events(events))
    }

    /// The commit of the configuration, which is moved into it.
    pub fn of_config(alloc: Global, config: Config) -> Result<KeptCommit, AllocError>
        ensures { IfOk result (λ c. c ≡ Commit.Config config) }
    {
        shared(alloc, Content::Config(config))
    }

    /// The commit, copied.
    pub fn of(alloc: Global, commit: &Commit<Config>) -> Result<KeptCommit, AllocError>
        ensures { IfOk result (λ c. c ≡ commit.now) }
    {
        match commit {
            Commit::Tuples(events) => KeptCommit::of_events(alloc, events.as_slice()),
            Commit::Config(config) => KeptCommit::of_config(alloc, config.again(alloc)?),
        }
    }

    /// The same commit, shared. Nothing is copied and no memory taken. It is refused only where it is shared
    /// 2^63 times already.
    pub fn again(&self) -> Result<KeptCommit, AllocError>
        ensures { IfOk result (λ c. c ≡ self.now) }
    {
        Ok(KeptCommit {
            content: self.content.clone()?,
        })
    }

    /// The events, unless it is a configuration.
    pub fn events(&self) -> Option<&KeptEvents>
        ensures some { IfSome result (λ es. self.now ≡ Commit.Tuples es.now) }
        ensures none { IfNone result ((config : Configured) × (self.now ≡ Commit.Config config)) }
    {
        match &*self.content {
            Content::Events(events) => Some(events),
            Content::Config(_) => None,
        }
    }

    /// The configuration, unless it is events.
    pub fn config(&self) -> Option<&Config>
        ensures some { IfSome result (λ config. self.now ≡ Commit.Config config.now) }
        ensures none { IfNone result ((events : List EventValue) × (self.now ≡ Commit.Tuples events)) }
    {
        match &*self.content {
            Content::Events(_) => None,
            Content::Config(config) => Some(config),
        }
    }

    /// The commit, with its tuples read from their texts.
    pub fn commit(&self, alloc: Global) -> Result<Commit<Config>, AllocError>
        ensures { IfOk result (λ c. c ≡ self.now) }
    {
        match &*self.content {
            Content::Events(events) => Ok(Commit::Tuples(Items::of(events.events(alloc)?))),
            Content::Config(config) => Ok(Commit::Config(config.again(alloc)?)),
        }
    }
}

fn shared(alloc: Global, content: Content) -> Result<KeptCommit, AllocError>
    ensures { IfOk result (λ c. c ≡ commit_in content) }
{
    match Arc::new(alloc, content) {
        Ok(content) => Ok(KeptCommit { content }),
        Err(_) => Err(AllocError),
    }
}
