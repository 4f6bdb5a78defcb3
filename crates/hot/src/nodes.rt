//! The nodes of a snapshot, and who is asked for them.
ghost use Rattle.std.specs.Prelude.{◌≡◌, [], Some, IfOk};
ghost use Rattle.std.specs.List.{slice_get};
ghost use Rattle.region.specs.Rules.{fact_of};
ghost use Rattle.facts.specs.Telling.{IsLater, MayTell};
ghost use Rattle.hot.specs.Nodes.{nodes_asked, snap_asked};

use facts::{Numbers, ViewFacts, each_view_is_valid};
use idsets::Ids;
use names::Node;
use region::{Facts, Told};
use rows::View;
use std::alloc::{AllocError, Global};

/// What tells of the nodes of a snapshot, and counts whom it was asked for.
pub trait CountedNodes {
    ghost use Rattle.std.specs.Prelude.{◌≡◌, ◌++◌, ◌∷◌, [], List, Some, IfOk, OnOk, OnErr};
    ghost use Rattle.std.specs.List.{slice_get};
    ghost use Rattle.names.specs.declared.node.Node.{Node as NodeValue};
    ghost use Rattle.meaning.specs.Snap.{Snap};
    ghost use Rattle.meaning.specs.Reads.{IsValid};
    ghost use Rattle.region.specs.Rules.{fact_of};
    ghost use Rattle.facts.specs.Telling.{IsLater, MayTell};

    /// The snapshot of which it tells.
    ghost snap: { Self → Snap };

    /// The nodes that it was asked for, in order.
    ghost asked: { Self → List NodeValue };

    /// What is told of the node with a number; what it names gets numbers. A number that no node has is refused.
    fn tell_of(&mut self, alloc: Global, numbers: &mut Numbers, id: u64) -> Result<Told, AllocError>
        ensures stays { snap self.new ≡ snap self.old }
        ensures later { IsLater numbers.old.nodes numbers.new.nodes numbers.old.users numbers.new.users }
        ensures node { IfOk result (λ told. told.node ≡ id) }
        ensures told { IfOk result (λ told. MayTell (snap self.old) numbers.new.nodes numbers.new.users id (fact_of told)) }
        ensures counted { OnOk result ((node : NodeValue) × (slice_get numbers.new.nodes id ≡ Some node) × (asked self.new ≡ asked self.old ++ node ∷ [])) }
        ensures refused { OnErr result (asked self.new ≡ asked self.old) };

    /// The snapshot is valid.
    fn tells_what_is_valid(&self)
        ensures { IsValid (snap self.now) };
}

/// A view that is asked, and the nodes that it was asked for.
#[derive(Drop)]
pub struct ViewNodes<'a> {
    view: &'a View<'a>,
    asked: Vec<Node>,
}

impl<'a> ViewNodes<'a> {
    /// Nobody was asked. It takes no memory.
    pub fn of(alloc: Global, view: &'a View<'a>) -> ViewNodes<'a>
        ensures snap { snap_asked result ≡ view.now }
        ensures asked { nodes_asked result ≡ [] }
    {
        ViewNodes {
            view,
            asked: Vec::new(alloc),
        }
    }

    /// The nodes that it was asked for, in order.
    pub fn asked(&self) -> &[Node]
        ensures { result.now ≡ nodes_asked self.now }
    {
        &self.asked
    }
}

impl<'a> CountedNodes for ViewNodes<'a> {
    ghost use Rattle.hot.specs.Nodes.{nodes_asked, snap_asked};

    ghost snap = { snap_asked };

    ghost asked = { nodes_asked };

    fn tell_of(
        &mut self,
        alloc: Global,
        numbers: &mut Numbers,
        id: u64,
    ) -> Result<Told, AllocError> {
        let told = told_through(alloc, self.view, numbers, id)?;
        let node = node_numbered(&numbers.nodes, id)?;
        self.asked.push(node)?;
        Ok(told)
    }

    fn tells_what_is_valid(&self) {
        each_view_is_valid(self.view);
    }
}

// What a view tells of the node with a number.
fn told_through(
    alloc: Global,
    view: &View,
    numbers: &mut Numbers,
    id: u64,
) -> Result<Told, AllocError>
    ensures later { IsLater numbers.old.nodes numbers.new.nodes numbers.old.users numbers.new.users }
    ensures node { IfOk result (λ told. told.node ≡ id) }
    ensures told { IfOk result (λ told. MayTell view.now numbers.new.nodes numbers.new.users id (fact_of told)) }
{
    let mut facts = ViewFacts::of(alloc, numbers.nodes.keys(), view);
    facts.exchange(numbers);
    let told = facts.ask(alloc, id);
    facts.exchange(numbers);
    told
}

// The node with a number. A number that no node has is refused.
fn node_numbered(nodes: &Ids<Node>, id: u64) -> Result<Node, AllocError>
    ensures { IfOk result (λ node. slice_get nodes.now id ≡ Some node) }
{
    match nodes.name(id) {
        Some(node) => node.clone(),
        None => Err(AllocError),
    }
}
