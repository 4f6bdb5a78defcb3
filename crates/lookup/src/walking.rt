//! The walk up from a user.
ghost use Rattle.std.specs.Prelude.{◌≡◌, ℕ, List, true, Contains, IfOk, IfSome, OnOk};
ghost use Rattle.names.specs.declared.node.Node.{Node as NodeValue};
ghost use Rattle.meaning.specs.Snap.{one};
ghost use Rattle.lookup.specs.Found.{node_of, is_later};
ghost use Rattle.lookup.specs.inside.Walking.{Grew, IsNaming, HasFollowing, HasAbove, HasReached, AreCandidates};

use crate::asked::{Lookup, is_later};
use crate::leading::{add_computed, add_following};
use by_subject::BySubject;
use config::Config;
use idsets::Ids;
use names::{Node, Object, ObjectId};
use std::alloc::{AllocError, Global};
use std::hash::RandomState;

/// The ids of objects that may be asked for, in order: all that are found are among them. Where the walk up from
/// the user reaches more nodes than so many there is no answer.
pub(crate) fn candidates(
    alloc: Global,
    keys: RandomState,
    config: &Config,
    subjects: &BySubject,
    asked: &Lookup,
    most: usize,
) -> Result<Option<Vec<ObjectId>>, AllocError>
    ensures { IfOk result (λ some. IfSome some (λ ids. AreCandidates config.now subjects.now asked.now ids.items)) }
{
    // No configuration has an empty intersection, as this call says.
    config.relations();
    let Some(reached) = walk(alloc, keys, config, subjects, &asked.user, most)? else {
        return Ok(None);
    };
    let mut ids = ids_in(alloc, &reached, asked)?;
    ids.sort_unstable();
    Ok(Some(ids))
}

/// The ids of the reached nodes that are asked for, in the order in which they were reached.
fn ids_in(alloc: Global, reached: &Ids<Node>, asked: &Lookup) -> Result<Vec<ObjectId>, AllocError>
    ensures { IfOk result (λ ids. (id : List ℕ) → Contains reached.now (node_of asked.now.relation id)
        → is_later asked.now.after id ≡ true → Contains ids.items id) }
{
    let mut ids = Vec::new(alloc);
    for place in 0..reached.len() as u64 {
        if let Some(node) = reached.name(place) {
            push_id(asked, node, &mut ids)?;
        }
    }
    Ok(ids)
}

/// Adds the id of the node's object, where the node is asked for.
fn push_id(asked: &Lookup, node: &Node, ids: &mut Vec<ObjectId>) -> Result<(), AllocError>
    ensures kept { OnOk result ((id : List ℕ) → Contains ids.old.items id → Contains ids.new.items id) }
    ensures added { OnOk result ((id : List ℕ) → node.now ≡ node_of asked.now.relation id
        → is_later asked.now.after id ≡ true → Contains ids.new.items id) }
{
    if is_asked_for(asked, node) {
        ids.push(node.object.id.again())?;
    }
    Ok(())
}

/// Whether the node is of the relation and comes later than the object that the others come after.
fn is_asked_for(asked: &Lookup, node: &Node) -> bool
    ensures { (id : List ℕ) → node.now ≡ node_of asked.now.relation id → is_later asked.now.after id ≡ true → result ≡ true }
{
    node.relation == asked.relation.relation
        && node.object.namespace == asked.relation.namespace
        && is_later(&asked.after, &node.object.id)
}

/// The nodes that are reached from the user, each gone on from once. Where they are more than so many there is
/// no answer.
fn walk(
    alloc: Global,
    keys: RandomState,
    config: &Config,
    subjects: &BySubject,
    user: &Object,
    most: usize,
) -> Result<Option<Ids<Node>>, AllocError>
    ensures { IfOk result (λ some. IfSome some (HasReached config.now subjects.now user.now)) }
{
    let Some(mut reached) = begun(alloc, keys, subjects, user, most)? else {
        return Ok(None);
    };
    let mut next = 0;
    'nodes: while let Some(node) = reached.name(next) {
        if reached.len() > most {
            return Ok(None);
        }
        let node = node.again();
        if !step_up(alloc, config, subjects, &node, most, &mut reached)? {
            return Ok(None);
        }
        next += 1;
    }
    Ok(Some(reached))
}

/// The nodes with a tuple that names the user, unless too many do.
fn begun(
    alloc: Global,
    keys: RandomState,
    subjects: &BySubject,
    user: &Object,
    most: usize,
) -> Result<Option<Ids<Node>>, AllocError>
    ensures { IfOk result (λ some. IfSome some
        (λ reached. (n : NodeValue) → IsNaming subjects.now (one user.now) n → Contains reached n)) }
{
    let Some(nodes) = subjects.naming(alloc, user, most)? else {
        return Ok(None);
    };
    let mut reached = Ids::new(alloc, keys);
    add_all(nodes, &mut reached)?;
    Ok(Some(reached))
}

/// Adds the nodes whose rewrites may look up the node: those that compute its relation, those with a tuple that
/// names its members, and those to which a tupleset that names its object leads. Says whether it could: not where more
/// than so many tuples name these.
fn step_up(
    alloc: Global,
    config: &Config,
    subjects: &BySubject,
    node: &Node,
    most: usize,
    reached: &mut Ids<Node>,
) -> Result<bool, AllocError>
    ensures kept { OnOk result (Grew reached.old reached.new) }
    ensures added { IfOk result (λ could. could ≡ true → HasAbove config.now subjects.now node.now reached.new) }
{
    add_computed(config, node, reached)?;
    let Some(nodes) = subjects.naming_members_of(alloc, node, most)? else {
        return Ok(false);
    };
    add_all(nodes, reached)?;
    let Some(tuplesets) = subjects.naming(alloc, &node.object, most)? else {
        return Ok(false);
    };
    add_all_following(config, &tuplesets, node, reached)?;
    Ok(true)
}

/// Adds the nodes to which each of some tuplesets leads from the node.
fn add_all_following(
    config: &Config,
    tuplesets: &[Node],
    node: &Node,
    reached: &mut Ids<Node>,
) -> Result<(), AllocError>
    ensures kept { OnOk result (Grew reached.old reached.new) }
    ensures added { OnOk result ((q : NodeValue) → Contains tuplesets.now q → HasFollowing config.now q node.now.relation reached.new) }
{
    for tupleset in tuplesets {
        add_following(config, tupleset, node, reached)?;
    }
    Ok(())
}

/// Adds nodes.
fn add_all(nodes: Vec<Node>, reached: &mut Ids<Node>) -> Result<(), AllocError>
    ensures kept { OnOk result (Grew reached.old reached.new) }
    ensures added { OnOk result ((n : NodeValue) → Contains nodes.items n → Contains reached.new n) }
{
    for node in nodes {
        reached.see(node)?;
    }
    Ok(())
}
