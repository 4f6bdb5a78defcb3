//! A group that is asked for where it leads.
ghost use Rattle.std.specs.Prelude.{◌≡◌, ℕ, ◌++◌, ◌∷◌, [], Contains, Some, IfOk, OnOk};
ghost use Rattle.std.specs.List.{slice_get};
ghost use Rattle.least_sets.specs.World.{Either, Own, AnyOf};
ghost use Rattle.least_sets.specs.Groups.{groups};
ghost use Rattle.region.specs.Rules.{fact_of, shape_of};
ghost use Rattle.facts.specs.Numbers.{AreNumbersOf};
ghost use Rattle.names.specs.declared.node.Node.{Node as NodeValue};
ghost use Rattle.meaning.specs.Snap.{Snap as SnapValue};
ghost use Rattle.delta.specs.Arcs.{AreEndsOf};
ghost use Rattle.delta.specs.Telling.{IsMore, MayTell};

use crate::arcs::CountedArcs;
use crate::has_arcs::HasArcs;
use facts::number_of;
use idsets::{IdSet, Ids, sets_of_the_same_ids_are_one};
use names::Node;
use region::{Facts, Rule, Told};
use std::alloc::{AllocError, Global};

/// What tells the arcs, the numbers of the nodes as far as they were seen, and who was asked for.
#[derive(Drop)]
pub(crate) struct GroupFacts<'a, A: HasArcs> {
    pub(crate) arcs: &'a A,
    pub(crate) nodes: Ids<Node>,
    pub(crate) asked: Vec<u64>,
}

impl<'a, A: HasArcs> Facts for GroupFacts<'a, A> {
    ghost use Rattle.std.proofs.Common.{◌∙◌, refl, sym, subst};
    ghost use Rattle.meaning.specs.Snap.{Snap};
    ghost use Rattle.delta.specs.Telling.{IsMore, MayTell};
    ghost use Rattle.delta.specs.inside.Growing.{may_more, more_none, more_both};

    ghost tells = { λ f n fact. MayTell (A.snap f.arcs.now) f.nodes n fact };

    ghost later = { λ a b. (b.arcs.now ≡ a.arcs.now) × IsMore a.nodes b.nodes };

    ghost asked = { λ f. f.asked.items };

    /// A number that no node has is refused. For want of memory, or where it is refused, some more nodes may have numbers.
    fn ask(&mut self, alloc: Global, node: u64) -> Result<Told, AllocError> {
        let told = tell(alloc, self.arcs, &mut self.nodes, node)?;
        self.asked.push(node)?;
        Ok(told)
    }

    ghost stays = { λ s. (refl, more_none s.nodes) };

    ghost further = { λ a b c one more. (more.0 ∙ one.0, more_both a.nodes b.nodes c.nodes one.1 more.1) };

    ghost grows = { λ a b n fact later tells. may_more (A.snap b.arcs.now) a.nodes b.nodes n fact later.1
        (subst (λ arcs. MayTell (A.snap arcs) a.nodes n fact) (sym later.0) tells) };
}

/// What is told of the group with a number: it holds itself, and what the ends of its arcs hold.
fn tell<A: HasArcs>(
    alloc: Global,
    arcs: &A,
    nodes: &mut Ids<Node>,
    id: u64,
) -> Result<Told, AllocError>
    ensures more { IsMore nodes.old nodes.new }
    ensures node { IfOk result (λ told. told.node ≡ id) }
    ensures told { IfOk result (λ told. MayTell (A.snap arcs.now) nodes.new id (fact_of told)) }
{
    let node = node_with(nodes, id)?;
    let ends = arcs.arc_ends(alloc, &node)?;
    told_with(alloc, nodes, id, &ends)
}

/// The same of what counts whom it is asked for.
pub(crate) fn ask_for<A: CountedArcs>(
    alloc: Global,
    arcs: &mut A,
    nodes: &mut Ids<Node>,
    id: u64,
) -> Result<Told, AllocError>
    ensures snap { A.snap arcs.new ≡ A.snap arcs.old }
    ensures more { IsMore nodes.old nodes.new }
    ensures node { IfOk result (λ told. told.node ≡ id) }
    ensures told { IfOk result (λ told. MayTell (A.snap arcs.old) nodes.new id (fact_of told)) }
    ensures asked { OnOk result ((group : NodeValue) × (slice_get nodes.new id ≡ Some group) × (A.asked arcs.new ≡ A.asked arcs.old ++ group ∷ [])) }
{
    let node = node_with(nodes, id)?;
    let ends = arcs.ends_of(alloc, &node)?;
    told_with(alloc, nodes, id, &ends)
}

/// The node with a number. A number that no node has is refused.
fn node_with(nodes: &Ids<Node>, id: u64) -> Result<Node, AllocError>
    ensures { IfOk result (λ node. slice_get nodes.now id ≡ Some node) }
{
    match nodes.name(id) {
        Some(node) => node.clone(),
        None => Err(AllocError),
    }
}

/// What is told of a group of which these are the ends of its arcs.
fn told_with(
    alloc: Global,
    nodes: &mut Ids<Node>,
    id: u64,
    ends: &[Node],
) -> Result<Told, AllocError>
    ensures more { IsMore nodes.old nodes.new }
    ensures node { IfOk result (λ told. told.node ≡ id) }
    ensures told { IfOk result (λ told. (S : SnapValue) (group : NodeValue) → slice_get nodes.old id ≡ Some group
        → AreEndsOf S group ends.now → MayTell S nodes.new id (fact_of told)) }
{
    let _ = nodes.len();
    let numbers = numbers_of(alloc, nodes, ends)?;
    let own = only(alloc, id)?;
    let rule = own_or(alloc, numbers)?;
    Ok(Told {
        node: id,
        level: 0,
        rule,
        own,
    })
}

/// The same of a group of which the arcs are known.
pub(crate) fn told_again(alloc: Global, id: u64, arcs: &IdSet) -> Result<Told, AllocError>
    ensures node { IfOk result (λ told. told.node ≡ id) }
    ensures fact { IfOk result (λ told. fact_of told ≡ groups (λ _. arcs.now) id) }
{
    let numbers = arcs.as_slice().to_vec(alloc)?;
    let itself = only(alloc, id)?;
    let rule = own_or(alloc, numbers)?;
    Ok(Told {
        node: id,
        level: 0,
        rule,
        own: itself,
    })
}

/// The numbers of some nodes, new ones for those that were not seen before.
pub(crate) fn numbers_of(
    alloc: Global,
    nodes: &mut Ids<Node>,
    names: &[Node],
) -> Result<Vec<u64>, AllocError>
    ensures more { IsMore nodes.old nodes.new }
    ensures numbers { IfOk result (λ ids. AreNumbersOf nodes.new ids.items (Contains names.now)) }
{
    let mut ids = Vec::new(alloc);
    for name in names {
        push_number(nodes, &mut ids, name)?;
    }
    Ok(ids)
}

/// Adds the number of a node.
fn push_number(nodes: &mut Ids<Node>, ids: &mut Vec<u64>, name: &Node) -> Result<(), AllocError>
    ensures more { IsMore nodes.old nodes.new }
    ensures number { OnOk result ((id : ℕ) × (ids.new.items ≡ ids.old.items ++ id ∷ []) × (slice_get nodes.new id ≡ Some name.now)) }
{
    let id = number_of(nodes, name);
    let _ = nodes.len();
    ids.push(id?)?;
    Ok(())
}

/// The set of one id.
pub(crate) fn only(alloc: Global, id: u64) -> Result<IdSet, AllocError>
    ensures { IfOk result (λ ids. ids ≡ id ∷ []) }
{
    sets_of_the_same_ids_are_one();
    let mut ids = IdSet::new(alloc);
    ids.insert(id)?;
    Ok(ids)
}

/// What the node holds by itself, or the members of any of some nodes.
fn own_or(alloc: Global, any: Vec<u64>) -> Result<Rule, AllocError>
    ensures { IfOk result (λ rule. shape_of rule ≡ Either Own (AnyOf any.items)) }
{
    Ok(Rule::Either(
        Box::new(alloc, Rule::Own)?,
        Box::new(alloc, Rule::AnyOf(any))?,
    ))
}
