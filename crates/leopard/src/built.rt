//! The group index of one revision.

ghost use Rattle.std.specs.Prelude.{◌≡◌, ◌≤◌, IfOk, IfErr, OnErr, ℕ, List};
ghost use Rattle.names.specs.declared.refusal.Refusal.TheVariants.{Memory};
ghost use Rattle.meaning.specs.Snap.{Snap};
ghost use Rattle.leopard.specs.Answers.{AreFirst};
ghost use Rattle.leopard.specs.Causes.{IsAnswerable, AskCause};
ghost use Rattle.leopard.specs.Exprs.{query_of};
ghost use Rattle.leopard.specs.Groups.{Means};
ghost use Rattle.leopard.specs.Index.{IsIndexOf};
ghost use Rattle.leopard.specs.Build.{IsBuiltOf};
ghost use Rattle.leopard.specs.inside.Closing.{AreWalkSets};
ghost use Rattle.leopard.specs.inside.Parts.{AreParts};

use crate::Expr;
use crate::answering::answer_of;
use crate::closing::{closures_in_pieces, closures_of};
use crate::evaluating::found_of;
use crate::input::Input;
use crate::parts::{Parts, parts_of};
use crate::refusing::refusal_of;
use crate::sorted::Sorted;
use config::Config;
use idsets::IdSet;
use names::{Node, Object, Refusal};
use std::alloc::{AllocError, Global};
use std::marker::Model;
use std::thread::Threads;

/// The group index of one revision (Zanzibar, section 3.2.4): of each group the groups to which it leads, of each user
/// the groups that name it by a tuple of their own, flattened, as sets of ids. The ids are in the order of the groups,
/// so the first ids of a set are its first groups. It keeps what it was built from.
#[derive(Drop)]
pub struct Built {
    input: Input,
    rev: u64,
    pub(crate) groups: Sorted<Node>,
    pub(crate) closures: Vec<IdSet>,
    pub(crate) users: Sorted<Object>,
    pub(crate) direct: Vec<IdSet>,
}

impl Model for Built {
    ghost use Rattle.leopard.specs.Index.{Index};
    ghost use Rattle.leopard.specs.Build.{IsBuiltOf};
    ghost use Rattle.leopard.specs.inside.Codes.{coded_index};

    ghost Value = { Index };

    ghost coded = { coded_index };

    ghost view = { λ b. record { config = b.input.config; rev = b.rev; groups = b.groups; closures = b.closures.items; users = b.users; direct = b.direct.items } };

    ghost invariant = { λ b. IsBuiltOf b.input b.rev (record { config = b.input.config; rev = b.rev; groups = b.groups; closures = b.closures.items; users = b.users; direct = b.direct.items }) };
}

impl Built {
    /// Builds the index of the input, whose revision this is. The groups are found in rounds of arcs, and each then has
    /// its place as its id; a walk over ids goes out from each. So cycles of groups end, and each name is looked up once
    /// for each tuple that has it. Beside the index it takes memory for the arcs, and for the names of all users.
    pub fn of(alloc: Global, input: Input, rev: u64) -> Result<Built, Refusal>
        ensures index { IfOk result (λ built. IsIndexOf input built) }
        ensures rev { IfOk result (λ built. built.rev ≡ rev) }
        ensures same { IfOk result (λ built. IsBuiltOf input rev built) }
        ensures err { IfErr result (λ why. why ≡ Memory) }
    {
        Ok(Built::build(alloc, input, rev)?)
    }

    fn build(alloc: Global, input: Input, rev: u64) -> Result<Built, AllocError>
        ensures index { IfOk result (λ built. IsIndexOf input built) }
        ensures rev { IfOk result (λ built. built.rev ≡ rev) }
        ensures same { IfOk result (λ built. IsBuiltOf input rev built) }
    {
        let parts = parts_of(alloc, &input)?;
        let closures = closures_of(alloc, &parts.arcs)?;
        Ok(Built::assembled(input, rev, parts, closures))
    }

    /// The same, where the closures are worked out in so many pieces, each by a thread of its own. However many there
    /// are, it is the same index.
    pub fn of_parallel<R: Threads + Sync>(
        rt: &R,
        alloc: Global,
        input: Input,
        rev: u64,
        workers: u32,
    ) -> Result<Built, Refusal>
        requires some { 1 ≤ workers }
        requires few { workers ≤ 64 }
        ensures index { IfOk result (λ built. IsIndexOf input built) }
        ensures rev { IfOk result (λ built. built.rev ≡ rev) }
        ensures same { IfOk result (λ built. IsBuiltOf input rev built) }
        ensures err { IfErr result (λ why. why ≡ Memory) }
    {
        Ok(Built::build_parallel(rt, alloc, input, rev, workers)?)
    }

    fn build_parallel<R: Threads + Sync>(
        rt: &R,
        alloc: Global,
        input: Input,
        rev: u64,
        workers: u32,
    ) -> Result<Built, AllocError>
        requires { 1 ≤ workers }
        ensures index { IfOk result (λ built. IsIndexOf input built) }
        ensures rev { IfOk result (λ built. built.rev ≡ rev) }
        ensures same { IfOk result (λ built. IsBuiltOf input rev built) }
    {
        let parts = parts_of(alloc, &input)?;
        let piece = parts.arcs.len().div_ceil(workers as usize);
        let closures = closures_in_pieces(rt, alloc, &parts.arcs, piece)?;
        Ok(Built::assembled(input, rev, parts, closures))
    }

    /// The index of its parts and closures.
    fn assembled(input: Input, rev: u64, parts: Parts, closures: Vec<IdSet>) -> Built
        requires parts { AreParts input parts.groups parts.arcs.items parts.users parts.direct.items }
        requires walks { AreWalkSets parts.arcs.items closures.items }
        ensures index { IsIndexOf input result }
        ensures rev { result.rev ≡ rev }
        ensures same { IsBuiltOf input rev result }
    {
        let config = input.config();
        // Each configuration is valid, as this call says, so groups lead to groups alone.
        config.relations();
        Built {
            input,
            rev,
            groups: parts.groups,
            closures,
            users: parts.users,
            direct: parts.direct,
        }
    }

    /// What it was built from.
    pub fn input(&self) -> &Input
        ensures { IsBuiltOf result.now self.now.rev self.now }
    {
        &self.input
    }

    /// The configuration of its revision.
    pub fn config(&self) -> &Config
        ensures { result.now ≡ self.now.config }
    {
        self.input.config()
    }

    /// The revision of which it is.
    pub fn rev(&self) -> u64
        ensures { result ≡ self.now.rev }
    {
        self.rev
    }

    /// The first groups of an expression, in the order of nodes. It answers as `groups_at` does at the index's revision,
    /// and refuses as that does. The sets of the expression are gone over once for each place where they stand, and of
    /// the answer no more names are copied than are asked for.
    pub fn groups(&self, alloc: Global, expr: &Expr, limit: u32) -> Result<Vec<Node>, Refusal>
        ensures ok { IfOk result (λ v. IsAnswerable self.now.config (query_of expr.now) limit) }
        ensures groups { IfOk result (λ v. (S : Snap) → IsIndexOf S self.now → AreFirst limit (Means S (query_of expr.now)) v.items) }
        ensures err { IfErr result (λ why. AskCause self.now.config (query_of expr.now) limit why) }
    {
        // Its groups are in order, as this call says.
        self.groups.as_slice();
        if let Some(why) = refusal_of(self.config(), expr, limit) {
            return Err(why);
        }
        let found = found_of(alloc, self, expr)?;
        Ok(answer_of(alloc, self, found, limit as usize)?)
    }
}
