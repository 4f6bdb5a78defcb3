//! Userset trees, as JSON.
ghost use Rattle.std.specs.Prelude.{◌≡◌, [], ◌∷◌, IfOk, codes};
ghost use Rattle.serde_json.specs.Data.{array, string, no_items, item};
ghost use Rattle.serde_json.specs.View.{view, items_view};
ghost use Rattle.names.specs.Calls.{told};
ghost use Rattle.names.specs.Spelling.{node_text, object_text};
ghost use Rattle.zookie.specs.Text.{zookie_text};
ghost use Rattle.expand.specs.Viewed.{tree_of, trees_of};
ghost use Rattle.bodies.specs.Replies.{Says, object_of};
ghost use Rattle.bodies.specs.Trees.{tree_data, trees_data, expanded_data};

use crate::replies::say;
use expand::Tree;
use names::{Node, Object, Reply};
use serde_json::{Value, json};
use std::alloc::{AllocError, Global};
use zookie::Zookie;

/// A userset that is opened into what stands below it, as a value.
fn opened_value(alloc: Global, node: &Node, below: Value) -> Result<Value, AllocError>
    ensures { IfOk result (λ v. view v
        ≡ object_of ((codes "of", view below) ∷ (codes "userset", string (node_text node.now)) ∷ [])) }
{
    let text = format!(in alloc; "{node}")?;
    json!(in alloc; {"of": below, "userset": text})
}

fn closed_value(alloc: Global, node: &Node) -> Result<Value, AllocError>
    ensures { IfOk result (λ v. view v ≡ object_of ((codes "userset", string (node_text node.now)) ∷ [])) }
{
    let text = format!(in alloc; "{node}")?;
    json!(in alloc; {"userset": text})
}

fn user_value(alloc: Global, user: &Object) -> Result<Value, AllocError>
    ensures { IfOk result (λ v. view v ≡ object_of ((codes "user", string (object_text user.now)) ∷ [])) }
{
    let text = format!(in alloc; "{user}")?;
    json!(in alloc; {"user": text})
}

/// A list of trees under the name of how they are put together.
fn listed_value(alloc: Global, name: &str, parts: Vec<Value>) -> Result<Value, AllocError>
    ensures { IfOk result (λ v. view v ≡ object_of ((name.now, array (items_view parts.items)) ∷ [])) }
{
    json!(in alloc; {(name): Value::Array(parts)})
}

fn exclusion_value(alloc: Global, base: Value, less: Value) -> Result<Value, AllocError>
    ensures { IfOk result (λ v. view v ≡ object_of ((
      codes "exclusion",
      array (item (view base) (item (view less) no_items)),
    ) ∷ [])) }
{
    json!(in alloc; {"exclusion": [base, less]})
}

/// A tree as a value. Trees are no deeper than their depth and the rewrites let them be.
#[cycle(told)]
fn tree_value(alloc: Global, tree: &Tree) -> Result<Value, AllocError>
    ensures { IfOk result (λ v. view v ≡ tree_data (tree_of tree.now)) }
{
    match tree {
        Tree::Opened(node, below) => opened_value(alloc, node, tree_value(alloc, below)?),
        Tree::One(user) => user_value(alloc, user),
        Tree::Closed(node) => closed_value(alloc, node),
        Tree::Union(parts) => listed_value(alloc, "union", tree_values(alloc, parts)?),
        Tree::Intersection(parts) => listed_value(
            alloc,
            "intersection",
            tree_values(alloc, parts)?,
        ),
        Tree::Exclusion(base, less) => {
            let base = tree_value(alloc, base)?;
            let less = tree_value(alloc, less)?;
            exclusion_value(alloc, base, less)
        }
    }
}

#[cycle(told)]
fn tree_values(alloc: Global, parts: &[Tree]) -> Result<Vec<Value>, AllocError>
    ensures { IfOk result (λ v. items_view v.items ≡ trees_data (trees_of parts.now)) }
{
    let mut values = Vec::new(alloc);
    for part in parts {
        values.push(tree_value(alloc, part)?)?;
    }
    Ok(values)
}

/// A tree and a zookie, as a value.
fn expanded_value(alloc: Global, tree: &Tree, zookie: &Zookie) -> Result<Value, AllocError>
    ensures { IfOk result (λ v. view v
        ≡ expanded_data (tree_of tree.now) (zookie_text zookie.now.store zookie.now.rev)) }
{
    let found = tree_value(alloc, tree)?;
    let text = zookie.to_text(alloc)?;
    json!(in alloc; {"tree": found, "zookie": text.as_str()})
}

/// What an `expand` is answered: the tree, and the zookie of the revision that it is of.
pub fn expanded(alloc: Global, tree: &Tree, zookie: &Zookie) -> Reply
    ensures { Says (told result) 200
        (expanded_data (tree_of tree.now) (zookie_text zookie.now.store zookie.now.rev)) }
{
    say(alloc, 200, expanded_value(alloc, tree, zookie))
}
