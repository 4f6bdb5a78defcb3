//! Many questions at one view.
ghost use Rattle.std.specs.Prelude.{◌≡◌, ◌<◌, ◌^◌, IfOk, IfErr, OnOk, length, true, None};
ghost use Rattle.meaning.specs.Admits.{has_relation};
ghost use Rattle.meaning.specs.Causes.{CheckCause};
ghost use Rattle.meaning.specs.Config.{rel_of};
ghost use Rattle.decide.specs.Answers.{IsAnswer};
ghost use Rattle.decide.specs.inside.Running.{IsRunning};

use crate::deciding::is_member;
use crate::facts::Facts;
use crate::oracle::Oracle;
use crate::reads::Reads;
use crate::search::Search;
use names::{Node, Object, Refusal};
use rows::View;
use std::alloc::{AllocError, Global};
use std::hash::{BuildHasher, Hasher, RandomState};
use std::marker::Model;

/// Checks at one view, which share what they find as long as they are of one user: a node that several of them reach is read
/// and judged once. Each is answered as `check_at` answers it. What they share takes memory for each node that they reach.
/// It is let go once these are 65,536, before a check of another user, before one of a relation of a higher level than
/// those before, and for want of memory. Contracts see the view.
#[derive(Drop)]
pub struct Asker<'a> {
    alloc: Global,
    seed: u64,
    view: &'a View<'a>,
    facts: Facts<'a>,
    reads: Reads<'a>,
    known: Option<Known>,
}

// What is known of a user.
#[derive(Drop)]
struct Known {
    user: Object,
    search: Search,
}

impl<'a> Model for Asker<'a> {
    ghost use Rattle.std.specs.Prelude.{◌≡◌, IfSome, None};
    ghost use Rattle.meaning.specs.Snap.{Snap};
    ghost use Rattle.meaning.specs.inside.Codes.{coded_snap};
    ghost use Rattle.decide.specs.inside.Reading.{AreRead};
    ghost use Rattle.decide.specs.inside.Running.{IsRunning};

    ghost Value = { Snap };

    ghost coded = { coded_snap };

    ghost view = { λ a. a.view.now };

    ghost invariant = { λ a.
        (a.facts ≡ a.view.now) × AreRead a.view.now a.reads × IfSome a.known (λ k. IsRunning a.view.now k.user k.search None) };
}

impl<'a> Asker<'a> {
    /// Nothing was asked yet. Names are hashed under this key.
    pub fn of(alloc: Global, keys: RandomState, view: &'a View<'a>) -> Asker<'a>
        ensures { result ≡ view.now }
    {
        let seed = keys.build_hasher().finish();
        Asker {
            alloc,
            seed,
            view,
            facts: Facts::of(alloc, view),
            reads: Reads::none(alloc, seed),
            known: None,
        }
    }

    /// Whether the user is a member of the node. It is refused where the relation is not there, and where there
    /// is no memory. After an answer the oracle tells of the view still.
    pub fn ask<O: Oracle>(
        &mut self,
        oracle: &mut O,
        node: &Node,
        user: &Object,
    ) -> Result<bool, Refusal>
        requires { O.tells oracle.old self.old }
        ensures ok { IfOk result (IsAnswer self.old user.now node.now) }
        ensures known { OnOk result (has_relation self.old.config (rel_of node.now) ≡ true) }
        ensures err { IfErr result (CheckCause self.old node.now) }
        ensures tells { OnOk result (O.tells oracle.new self.old) }
        ensures same { self.new ≡ self.old }
    {
        let Some(place) = self.facts.place_of(node) else {
            return Err(Refusal::UnknownRelation);
        };
        let level = self.facts.level_at(place);
        let mut known = self.take_known(user, level)?;
        let root = known.search.reach(node, level, place)?;
        let (facts, reads) = (&self.facts, &mut self.reads);
        let answer = is_member(facts, reads, oracle, &mut known.search, user, root)?;
        self.known = Some(known);
        Ok(answer)
    }

    // What is known of the user. That is nothing where it is of another, has no place for the level, or is large.
    fn take_known(&mut self, user: &Object, level: usize) -> Result<Known, AllocError>
        requires { level < 2 ^ 32 }
        ensures same { self.new ≡ self.old }
        ensures of_user { IfOk result (λ k. k.user ≡ user.now) }
        ensures running { IfOk result (λ k. IsRunning self.old user.now k.search None) }
        ensures room { IfOk result (λ k. level < length k.search.stacks.items) }
    {
        match self.known.take() {
            Some(known) if known.user == *user && known.search.has_room_for(level) => Ok(known),
            _ => {
                self.reads = Reads::none(self.alloc, self.seed);
                let search = Search::new(self.alloc, self.seed, level)?;
                let user = user.again();
                Ok(Known { user, search })
            }
        }
    }
}
