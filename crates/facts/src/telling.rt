//! What is told of a node.
ghost use Rattle.std.specs.Prelude.{◌≡◌, Some, IfOk};
ghost use Rattle.std.specs.List.{slice_get};
ghost use Rattle.region.specs.Rules.{fact_of};
ghost use Rattle.facts.specs.Numbers.{Grew};
ghost use Rattle.facts.specs.Telling.{MayTell, IsLater};

use crate::numbers::Numbers;
use crate::reading::{sets_in, users_in};
use crate::rules::rule_of;
use idsets::IdSet;
use names::Node;
use region::{Rule, Told};
use rows::View;
use std::alloc::{AllocError, Global};

/// What is told of the node with a number. A number that no node has is refused.
pub(crate) fn tell(
    alloc: Global,
    view: &View,
    numbers: &mut Numbers,
    id: u64,
) -> Result<Told, AllocError>
    ensures later { IsLater numbers.old.nodes numbers.new.nodes numbers.old.users numbers.new.users }
    ensures node { IfOk result (λ told. told.node ≡ id) }
    ensures told { IfOk result (λ told. MayTell view.now numbers.new.nodes numbers.new.users id (fact_of told)) }
{
    let Some(node) = numbers.nodes.name(id) else {
        return Err(AllocError);
    };
    let node = node.clone()?;
    let told = tell_of(alloc, view, numbers, id, &node);
    let _ = (numbers.nodes.len(), numbers.users.len());
    told
}

fn tell_of(
    alloc: Global,
    view: &View,
    numbers: &mut Numbers,
    id: u64,
    node: &Node,
) -> Result<Told, AllocError>
    requires { slice_get numbers.old.nodes id ≡ Some node.now }
    ensures nodes { Grew numbers.old.nodes numbers.new.nodes }
    ensures users { Grew numbers.old.users numbers.new.users }
    ensures node { IfOk result (λ told. told.node ≡ id) }
    ensures told { IfOk result (λ told. MayTell view.now numbers.new.nodes numbers.new.users id (fact_of told)) }
{
    let tuples = view.tuples_of(alloc, node)?;
    let own = users_in(alloc, &mut numbers.users, &tuples)?;
    let _ = numbers.users.len();
    let sets = sets_in(alloc, &mut numbers.nodes, &tuples)?;
    let config = view.config();
    let Some(place) = config.place_of(node) else {
        return Ok(Told {
            node: id,
            level: 0,
            rule: Rule::AnyOf(Vec::new(alloc)),
            own: IdSet::of(own),
        });
    };
    let rewrite = &config.relations()[place].rewrite;
    let rule = rule_of(alloc, view, &mut numbers.nodes, node, &sets, rewrite)?;
    Ok(Told {
        node: id,
        level: config.levels()[place] as u32,
        rule,
        own: IdSet::of(own),
    })
}
