//! The computed usersets of a node.
ghost use Rattle.std.specs.Prelude.{OnOk};
ghost use Rattle.config_text.specs.Forms.{form_of, rewrite_forms};
ghost use Rattle.leopard.specs.inside.Asking.{Gains, IsComputed, IsSomeComputed};

use config::Rewrite;
use names::{Node, Object};
use std::alloc::AllocError;

/// Adds the usersets of the object that the rewrite computes.
#[cycle(computing)]
pub(crate) fn push_computed(
    nodes: &mut Vec<Node>,
    object: &Object,
    rewrite: &Rewrite,
) -> Result<(), AllocError>
    ensures { OnOk result (Gains (IsComputed object.now (form_of rewrite.now)) nodes.old.items nodes.new.items) }
{
    match rewrite {
        Rewrite::This => Ok(()),
        Rewrite::Computed(relation) => {
            nodes.push(Node {
                object: object.clone()?,
                relation: relation.clone()?,
            })?;
            Ok(())
        }
        Rewrite::TupleTo { .. } => Ok(()),
        Rewrite::Union(parts) => push_all_computed(nodes, object, parts),
        Rewrite::Intersection(parts) => push_all_computed(nodes, object, parts),
        Rewrite::Exclusion(base, less) => {
            push_computed(nodes, object, base)?;
            push_computed(nodes, object, less)
        }
    }
}

#[cycle(computing)]
fn push_all_computed(
    nodes: &mut Vec<Node>,
    object: &Object,
    parts: &[Rewrite],
) -> Result<(), AllocError>
    ensures { OnOk result (Gains (IsSomeComputed object.now (rewrite_forms parts.now)) nodes.old.items nodes.new.items) }
{
    for part in parts {
        push_computed(nodes, object, part)?;
    }
    Ok(())
}
