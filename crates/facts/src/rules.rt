//! The rule of a rewrite at a node.
ghost use Rattle.std.specs.Prelude.{◌≡◌, IfOk, map};
ghost use Rattle.meaning.specs.Config.{IsWhole, AreWhole};
ghost use Rattle.meaning.specs.Membership.{HasSet};
ghost use Rattle.config_text.specs.Forms.{form_of, rewrite_forms};
ghost use Rattle.region.specs.Rules.{shape_of};
ghost use Rattle.facts.specs.Numbers.{Grew, AreNumbersOf};
ghost use Rattle.facts.specs.Telling.{IsShapeIn, AreShapesIn};

use crate::joining::{any_of, each_of, own_or, reads_or, without};
use crate::reading::{parents_of, relation_of};
use config_text::Rewrite;
use idsets::Ids;
use names::Node;
use region::Rule;
use rows::View;
use std::alloc::{AllocError, Global};

/// The rule of a rewrite at a node. `sets` are the numbers of the nodes whose members the node's own tuples name.
#[cycle(rules)]
pub(crate) fn rule_of(
    alloc: Global,
    view: &View,
    nodes: &mut Ids<Node>,
    node: &Node,
    sets: &[u64],
    rewrite: &Rewrite,
) -> Result<Rule, AllocError>
    requires sets { AreNumbersOf nodes.old sets.now (HasSet view.now node.now) }
    requires whole { IsWhole (form_of rewrite.now) }
    ensures grew { Grew nodes.old nodes.new }
    ensures rule { IfOk result (λ rule. IsShapeIn view.now nodes.new node.now (form_of rewrite.now) (shape_of rule)) }
{
    match rewrite {
        Rewrite::This => own_or(alloc, sets.to_vec(alloc)?),
        Rewrite::Computed(relation) => {
            let ids = relation_of(alloc, nodes, &node.object, relation)?;
            Ok(Rule::AnyOf(ids))
        }
        Rewrite::TupleTo { tupleset, relation } => {
            let read = relation_of(alloc, nodes, &node.object, tupleset)?;
            let any = parents_of(alloc, view, nodes, node, tupleset, relation)?;
            reads_or(alloc, read, any)
        }
        Rewrite::Union(parts) => {
            let rules = all_rules(alloc, view, nodes, node, sets, parts)?;
            any_of(alloc, rules)
        }
        Rewrite::Intersection(parts) => {
            let rules = all_rules(alloc, view, nodes, node, sets, parts)?;
            each_of(alloc, rules)
        }
        Rewrite::Exclusion(base, less) => {
            let base = rule_of(alloc, view, nodes, node, sets, base)?;
            let less = rule_of(alloc, view, nodes, node, sets, less)?;
            without(alloc, base, less)
        }
    }
}

/// The rules of the parts, one by one.
#[cycle(rules)]
fn all_rules(
    alloc: Global,
    view: &View,
    nodes: &mut Ids<Node>,
    node: &Node,
    sets: &[u64],
    parts: &[Rewrite],
) -> Result<Vec<Rule>, AllocError>
    requires sets { AreNumbersOf nodes.old sets.now (HasSet view.now node.now) }
    requires whole { AreWhole (rewrite_forms parts.now) }
    ensures grew { Grew nodes.old nodes.new }
    ensures rules { IfOk result (λ v. AreShapesIn view.now nodes.new node.now (rewrite_forms parts.now) (map shape_of v.items)) }
{
    let mut rules = Vec::new(alloc);
    for part in parts {
        rules.push(rule_of(alloc, view, nodes, node, sets, part)?)?;
    }
    Ok(rules)
}
