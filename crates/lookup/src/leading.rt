//! Where a walk goes on from a node that it reached.
ghost use Rattle.std.specs.Prelude.{◌≡◌, true, Contains, OnOk};
ghost use Rattle.names.specs.declared.node.Node.{Node};
ghost use Rattle.meaning.specs.Config.{Defined, Defines, rel_of};
ghost use Rattle.config_text.specs.Forms.{form_of, rewrite_forms, defined_of};
ghost use Rattle.lookup.specs.inside.Leading.{computes, some_computes, follows, some_follows};
ghost use Rattle.lookup.specs.inside.Walking.{Grew, HasFollowing};

use config::{Config, Relation, Rewrite};
use idsets::Ids;
use names::{Name, Node, Object};
use std::alloc::AllocError;

/// Adds the nodes of the reached node's object whose relation's rewrite computes the node's relation. It goes over all
/// relations of the configuration. For want of memory some may have been added.
pub(crate) fn add_computed(
    config: &Config,
    node: &Node,
    reached: &mut Ids<Node>,
) -> Result<(), AllocError>
    ensures kept { OnOk result (Grew reached.old reached.new) }
    ensures added { OnOk result ((n : Node) (d : Defined) → Defines config.now (rel_of n) d → n.object ≡ node.now.object
        → computes node.now.relation d.form ≡ true → Contains reached.new n) }
{
    for relation in config.relations() {
        add_if_computed(relation, node, reached)?;
    }
    Ok(())
}

/// Adds, of the tupleset's node (object q, relation t) that names the reached node's object, the nodes of q whose
/// relation's rewrite goes along t to the node's relation. It goes over all relations of the configuration. For want
/// of memory some may have been added.
pub(crate) fn add_following(
    config: &Config,
    tupleset: &Node,
    node: &Node,
    reached: &mut Ids<Node>,
) -> Result<(), AllocError>
    ensures kept { OnOk result (Grew reached.old reached.new) }
    ensures added { OnOk result (HasFollowing config.now tupleset.now node.now.relation reached.new) }
{
    for relation in config.relations() {
        add_if_following(relation, tupleset, node, reached)?;
    }
    Ok(())
}

/// Adds the node of the relation of the reached node's object, where the relation is one of its namespace and computes
/// the node's.
fn add_if_computed(
    relation: &Relation,
    node: &Node,
    reached: &mut Ids<Node>,
) -> Result<(), AllocError>
    ensures kept { OnOk result (Grew reached.old reached.new) }
    ensures added { OnOk result ((n : Node) → (defined_of relation.now).rel ≡ rel_of n → n.object ≡ node.now.object
        → computes node.now.relation (defined_of relation.now).form ≡ true → Contains reached.new n) }
{
    if relation.name.namespace == node.object.namespace
        && computes(&node.relation, &relation.rewrite)
    {
        add(&node.object, &relation.name.relation, reached)?;
    }
    Ok(())
}

/// Adds the node of the relation of the tupleset's object, where the relation is one of its namespace and goes along the
/// tupleset to the reached node's.
fn add_if_following(
    relation: &Relation,
    tupleset: &Node,
    node: &Node,
    reached: &mut Ids<Node>,
) -> Result<(), AllocError>
    ensures kept { OnOk result (Grew reached.old reached.new) }
    ensures added { OnOk result ((n : Node) → (defined_of relation.now).rel ≡ rel_of n → n.object ≡ tupleset.now.object
        → follows tupleset.now.relation node.now.relation (defined_of relation.now).form ≡ true → Contains reached.new n) }
{
    if relation.name.namespace == tupleset.object.namespace
        && follows(&tupleset.relation, &node.relation, &relation.rewrite)
    {
        add(&tupleset.object, &relation.name.relation, reached)?;
    }
    Ok(())
}

/// Adds the object's node of the relation, unless it was reached before.
fn add(object: &Object, relation: &Name, reached: &mut Ids<Node>) -> Result<(), AllocError>
    ensures kept { OnOk result (Grew reached.old reached.new) }
    ensures added { OnOk result (Contains reached.new (record { object = object.now; relation = relation.now })) }
{
    let node = Node {
        object: object.again(),
        relation: relation.again(),
    };
    reached.see(node)?;
    Ok(())
}

/// Whether the rewrite looks up the computed relation outside subtracted parts.
#[cycle(computes)]
fn computes(relation: &Name, rewrite: &Rewrite) -> bool
    ensures { result ≡ computes relation.now (form_of rewrite.now) }
{
    match rewrite {
        Rewrite::This => false,
        Rewrite::Computed(computed) => *relation == *computed,
        Rewrite::TupleTo { .. } => false,
        Rewrite::Union(parts) => some_computes(relation, parts),
        Rewrite::Intersection(parts) => some_computes(relation, parts),
        Rewrite::Exclusion(base, _) => computes(relation, base),
    }
}

#[cycle(computes)]
fn some_computes(relation: &Name, parts: &[Rewrite]) -> bool
    ensures { result ≡ some_computes relation.now (rewrite_forms parts.now) }
{
    for part in parts {
        if computes(relation, part) {
            return true;
        }
    }
    false
}

/// Whether the rewrite goes along the tupleset to the relation outside subtracted parts.
#[cycle(follows)]
fn follows(tupleset: &Name, relation: &Name, rewrite: &Rewrite) -> bool
    ensures { result ≡ follows tupleset.now relation.now (form_of rewrite.now) }
{
    match rewrite {
        Rewrite::This => false,
        Rewrite::Computed(_) => false,
        Rewrite::TupleTo {
            tupleset: along,
            relation: computed,
        } => *tupleset == *along && *relation == *computed,
        Rewrite::Union(parts) => some_follows(tupleset, relation, parts),
        Rewrite::Intersection(parts) => some_follows(tupleset, relation, parts),
        Rewrite::Exclusion(base, _) => follows(tupleset, relation, base),
    }
}

#[cycle(follows)]
fn some_follows(tupleset: &Name, relation: &Name, parts: &[Rewrite]) -> bool
    ensures { result ≡ some_follows tupleset.now relation.now (rewrite_forms parts.now) }
{
    for part in parts {
        if follows(tupleset, relation, part) {
            return true;
        }
    }
    false
}
