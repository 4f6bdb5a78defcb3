//! Which groups lead by computed usersets to the nodes of some tuples, and which nodes a commit has events on.
ghost use Rattle.std.specs.Prelude.{◌≡◌, ◌++◌, ◌∷◌, ◌⊎◌, [], List, Contains, IfOk, OnOk, map};
ghost use Rattle.names.specs.declared.node.Node.{Node as NodeValue};
ghost use Rattle.names.specs.declared.tuple.Tuple.{Tuple as TupleValue};
ghost use Rattle.names.specs.declared.commit.Event.{Event as EventValue};
ghost use Rattle.config_text.specs.Forms.{defined_of};
ghost use Rattle.facts.specs.Numbers.{AreNumbersOf};
ghost use Rattle.graphs.specs.Groups.{GroupWalk};
ghost use Rattle.idsets.specs.Naming.{AreDistinct};
ghost use Rattle.leopard.specs.Groups.{IsGroup};
ghost use Rattle.leopard.specs.Index.{bare};
ghost use Rattle.leopard.specs.inside.Asking.{AreAll, Gains};
ghost use Rattle.delta.specs.Layers.{IsAbove};
ghost use Rattle.delta.specs.Telling.{IsMore};
ghost use Rattle.delta.specs.inside.Changing.{AreOfEvents};
ghost use Rattle.delta.specs.inside.Leading.{LeadsTo, IsOneOf};

use crate::closing::computes;
use crate::telling::numbers_of;
use config::Config;
use config_text::Relation;
use idsets::Ids;
use names::{Event, Node, Tuple};
use std::alloc::{AllocError, Global};
use std::hash::RandomState;

/// The groups that by computed usersets alone lead to the node, itself among them where it is one. Each indexed
/// relation of its namespace is tried.
fn leading_to(
    alloc: Global,
    keys: RandomState,
    config: &Config,
    node: &Node,
) -> Result<Vec<Node>, AllocError>
    ensures { IfOk result (λ v. AreAll (LeadsTo config.now node.now) v.items) }
{
    let relations = config.relations();
    let mut groups = Vec::new(alloc);
    for relation in relations {
        push_leading(alloc, keys, config, relation, node, &mut groups)?;
    }
    Ok(groups)
}

/// Adds the group with the relation and the node's object, where it leads to the node.
fn push_leading(
    alloc: Global,
    keys: RandomState,
    config: &Config,
    relation: &Relation,
    node: &Node,
    groups: &mut Vec<Node>,
) -> Result<(), AllocError>
    ensures { OnOk result (Gains (IsOneOf config.now (defined_of relation.now) node.now) groups.old.items groups.new.items) }
{
    if !relation.indexed {
        return Ok(());
    }
    if relation.name.namespace != node.object.namespace {
        return Ok(());
    }
    let group = Node {
        object: node.object.clone()?,
        relation: relation.name.relation.clone()?,
    };
    if !computes(alloc, keys, config, &group, node)? {
        return Ok(());
    }
    groups.push(group)?;
    Ok(())
}

/// The numbers of the groups that by computed usersets alone lead to the node of one of the tuples of usersets.
pub(crate) fn above_tuples(
    alloc: Global,
    config: &Config,
    nodes: &mut Ids<Node>,
    tuples: &[Tuple],
) -> Result<Vec<u64>, AllocError>
    ensures more { IsMore nodes.old nodes.new }
    ensures numbers { IfOk result (λ ids. AreNumbersOf nodes.new ids.items (IsAbove config.now (Contains tuples.now))) }
{
    let mut ids = Vec::new(alloc);
    for tuple in tuples {
        push_above(alloc, config, nodes, &mut ids, tuple)?;
    }
    Ok(ids)
}

/// The same of the tuples of events.
pub(crate) fn above_events(
    alloc: Global,
    config: &Config,
    nodes: &mut Ids<Node>,
    events: &[Event],
) -> Result<Vec<u64>, AllocError>
    ensures more { IsMore nodes.old nodes.new }
    ensures numbers { IfOk result (λ ids. AreNumbersOf nodes.new ids.items (IsAbove config.now (Contains (map (λ e. e.tuple) events.now)))) }
{
    let mut ids = Vec::new(alloc);
    for event in events {
        push_above(alloc, config, nodes, &mut ids, &event.tuple)?;
    }
    Ok(ids)
}

/// Adds the numbers of the groups that lead to the node of the tuple, where it is one of a userset.
fn push_above(
    alloc: Global,
    config: &Config,
    nodes: &mut Ids<Node>,
    ids: &mut Vec<u64>,
    tuple: &Tuple,
) -> Result<(), AllocError>
    ensures more { IsMore nodes.old nodes.new }
    ensures numbers { OnOk result ((ts : List TupleValue) → AreNumbersOf nodes.old ids.old.items (IsAbove config.now (Contains ts))
        → AreNumbersOf nodes.new ids.new.items (IsAbove config.now (Contains (ts ++ tuple.now ∷ [])))) }
{
    let _ = nodes.len();
    match &tuple.subject.relation {
        None => Ok(()),
        Some(_) => {
            let groups = leading_to(alloc, nodes.keys(), config, &tuple.node)?;
            let mut more = numbers_of(alloc, nodes, &groups)?;
            ids.append(&mut more)?;
            Ok(())
        }
    }
}

/// The numbers of the nodes on which there are events of usersets, as far as they have one.
pub(crate) fn changed_by(
    alloc: Global,
    nodes: &Ids<Node>,
    events: &[Event],
) -> Result<Vec<u64>, AllocError>
    ensures { IfOk result (λ ids. AreOfEvents nodes.now events.now ids.items) }
{
    let _ = nodes.len();
    let mut ids = Vec::new(alloc);
    for event in events {
        push_changed(nodes, &mut ids, event)?;
    }
    Ok(ids)
}

/// Adds the number of the event's node, where it has one and the event is of a userset.
fn push_changed(nodes: &Ids<Node>, ids: &mut Vec<u64>, event: &Event) -> Result<(), AllocError>
    requires { AreDistinct nodes.now }
    ensures { OnOk result ((events : List EventValue) → AreOfEvents nodes.now events ids.old.items
        → AreOfEvents nodes.now (events ++ event.now ∷ []) ids.new.items) }
{
    let Some(_) = &event.tuple.subject.relation else {
        return Ok(());
    };
    match nodes.id_of(&event.tuple.node) {
        Some(id) => {
            ids.push(id)?;
            Ok(())
        }
        None => Ok(()),
    }
}
