//! Trees.
ghost use Rattle.std.specs.Prelude.{◌≡◌, ◌<◌, ◌≤◌, ◌-◌, ◌↔◌, [], ◌∷◌, ◌++◌, take, map, IfOk, IfErr, IfSome, IfNone, OnOk, true};
ghost use Rattle.std.specs.List.{filter_map};
ghost use Rattle.names.specs.declared.object.Object.{Object as User};
ghost use Rattle.meaning.specs.Membership.{IsMember};
ghost use Rattle.meaning.specs.Form.{This, TupleTo};
ghost use Rattle.meaning.specs.Config.{rel_of};
ghost use Rattle.meaning.specs.Admits.{has_relation};
ghost use Rattle.config_text.specs.Forms.{form_of, rewrite_forms};
ghost use Rattle.config_text.specs.Size.{form_nodes};
ghost use Rattle.expand.specs.declared.limits.TheConstants.{MAX_DEPTH, MAX_TREE_NODES};
ghost use Rattle.expand.specs.UsersetTree.{Opened, Closed, tree_nodes};
ghost use Rattle.expand.specs.Tree.{tree, userset, leaf, filled, all_filled, node_with, parents_of, parent};
ghost use Rattle.expand.specs.Viewed.{tree_of};
ghost use Rattle.expand.specs.Meaning.{Means};
ghost use Rattle.expand.specs.Causes.{ExpandCause};
ghost use Rattle.expand.specs.inside.Walking.{IsSource, IsMade, AreMade, IsRefused, AreRefused, all_nodes};

use crate::limits::MAX_DEPTH;
use crate::tree::Tree;
use crate::valid::is_valid;
use crate::walk::{Source, Walk};
use config_text::Rewrite;
use names::{Name, Node, Object, Refusal, Subject, Tuple};
use rows::View;
use std::alloc::{AllocError, Global};

// So many doublings of one tuple are more than a store may have.
const DOUBLINGS: usize = 20;

/// The userset tree of the node, where at most `depth` nodes are open on a path: 1 to 8. It means the node's members, however deep it is. It
/// is refused where the relation is not there, where the tree has over 4,096 nodes, and where there is no memory. As soon as the tree has
/// too many nodes nothing more is read: of a node's tuples, and of a tupleset's, one more than there is room for.
pub fn expand_at(alloc: Global, view: &View, node: &Node, depth: u8) -> Result<Tree, Refusal>
    requires opens { 1 ≤ depth }
    requires bounded { depth ≤ MAX_DEPTH }
    ensures ok { IfOk result (λ t. tree_of t ≡ tree view.now node.now depth) }
    ensures small { OnOk result (tree_nodes (tree view.now node.now depth) ≤ MAX_TREE_NODES) }
    ensures known { OnOk result (has_relation view.now.config (rel_of node.now) ≡ true) }
    ensures means { IfOk result (λ t. (u : User) → Means view.now u (tree_of t) ↔ IsMember view.now u node.now) }
    ensures err { IfErr result (ExpandCause view.now node.now depth) }
{
    let config = view.config();
    let Some(_place) = config.place_of(node) else {
        return Err(Refusal::UnknownRelation);
    };
    // Never taken.
    if !is_valid(view) {
        return Err(Refusal::Memory);
    }
    let source = Source {
        alloc,
        view,
        config,
    };
    let mut walk = Walk::new(alloc);
    let tree = userset(&source, &mut walk, node, depth)?;
    Ok(tree)
}

/// A userset's tree. `left` more nodes may be open.
#[cycle(expanding)]
fn userset(source: &Source, walk: &mut Walk, node: &Node, left: u8) -> Result<Tree, Refusal>
    requires { IsSource source.now }
    ensures ok { IfOk result
        (IsMade walk.old walk.new (userset source.now.view.now left walk.old.path.items node.now)) }
    ensures err { IfErr result
        (IsRefused walk.old (userset source.now.view.now left walk.old.path.items node.now)) }
{
    walk.take()?;
    let Some(rewrite) = to_open(source, walk, node, left) else {
        return Ok(Tree::Closed(node.clone()?));
    };
    walk.enter(node)?;
    let below = filled(source, walk, node, rewrite, left - 1)?;
    walk.leave();
    Ok(Tree::Opened(node.clone()?, Box::new(source.alloc, below)?))
}

/// The rewrite of a userset that is opened.
fn to_open<'a>(source: &Source<'a>, walk: &Walk, node: &Node, left: u8) -> Option<&'a Rewrite>
    requires { IsSource source.now }
    ensures opened { IfSome result (λ w. userset source.now.view.now left walk.now.path.items node.now
        ≡ Opened node.now (filled source.now.view.now (userset source.now.view.now (left - 1) (walk.now.path.items ++ node.now ∷ [])) node.now (form_of w.now))) }
    ensures more { IfSome result (λ _. 0 < left) }
    ensures small { IfSome result (λ w. form_nodes (form_of w.now) ≤ all_nodes source.now.config.now.relations) }
    ensures closed { IfNone result (userset source.now.view.now left walk.now.path.items node.now ≡ Closed node.now) }
{
    if left == 0 {
        return None;
    }
    if walk.is_open(node) {
        return None;
    }
    match source.config.place_of(node) {
        None => None,
        Some(place) => {
            let relation = &source.config.relations()[place];
            Some(&relation.rewrite)
        }
    }
}

/// The tree of a rewrite at an open node.
#[cycle(expanding)]
fn filled(
    source: &Source,
    walk: &mut Walk,
    node: &Node,
    rewrite: &Rewrite,
    left: u8,
) -> Result<Tree, Refusal>
    requires { IsSource source.now }
    ensures ok { IfOk result (IsMade walk.old walk.new
        (filled source.now.view.now (userset source.now.view.now left walk.old.path.items) node.now (form_of rewrite.now))) }
    ensures err { IfErr result (IsRefused walk.old
        (filled source.now.view.now (userset source.now.view.now left walk.old.path.items) node.now (form_of rewrite.now))) }
{
    match rewrite {
        Rewrite::This => this(source, walk, node, left),
        Rewrite::Computed(relation) => {
            let other = node_of(&node.object, relation)?;
            userset(source, walk, &other, left)
        }
        Rewrite::TupleTo { tupleset, relation } => {
            through(source, walk, node, tupleset, relation, left)
        }
        Rewrite::Union(parts) => {
            walk.take()?;
            let parts = all_filled(source, walk, node, parts, left)?;
            Ok(Tree::Union(parts))
        }
        Rewrite::Intersection(parts) => {
            walk.take()?;
            let parts = all_filled(source, walk, node, parts, left)?;
            Ok(Tree::Intersection(parts))
        }
        Rewrite::Exclusion(base, less) => {
            walk.take()?;
            let base = filled(source, walk, node, base, left)?;
            let less = filled(source, walk, node, less, left)?;
            Ok(Tree::Exclusion(Box::new(source.alloc, base)?, Box::new(source.alloc, less)?))
        }
    }
}

/// The trees of the parts of a rewrite.
#[cycle(expanding)]
fn all_filled(
    source: &Source,
    walk: &mut Walk,
    node: &Node,
    parts: &[Rewrite],
    left: u8,
) -> Result<Vec<Tree>, Refusal>
    requires { IsSource source.now }
    ensures ok { IfOk result (λ v. AreMade walk.old walk.new
        (all_filled source.now.view.now (userset source.now.view.now left walk.old.path.items) node.now (rewrite_forms parts.now)) v.items) }
    ensures err { IfErr result (AreRefused walk.old
        (all_filled source.now.view.now (userset source.now.view.now left walk.old.path.items) node.now (rewrite_forms parts.now))) }
{
    let mut trees = Vec::new(source.alloc);
    for part in parts {
        trees.push(filled(source, walk, node, part, left)?)?;
    }
    Ok(trees)
}

/// The subjects of the node's own tuples. One tuple more than there is room for is read, and none after it.
#[cycle(expanding)]
fn this(source: &Source, walk: &mut Walk, node: &Node, left: u8) -> Result<Tree, Refusal>
    requires { IsSource source.now }
    ensures ok { IfOk result (IsMade walk.old walk.new
        (filled source.now.view.now (userset source.now.view.now left walk.old.path.items) node.now This)) }
    ensures err { IfErr result (IsRefused walk.old
        (filled source.now.view.now (userset source.now.view.now left walk.old.path.items) node.now This)) }
{
    let most = walk.room;
    walk.take()?;
    let tuples = source.view.first_of(source.alloc, node, most)?;
    let mut trees = Vec::new(source.alloc);
    for tuple in &tuples {
        trees.push(leaf(source, walk, &tuple.subject, left)?)?;
    }
    Ok(Tree::Union(trees))
}

/// The tree of a subject.
#[cycle(expanding)]
fn leaf(source: &Source, walk: &mut Walk, subject: &Subject, left: u8) -> Result<Tree, Refusal>
    requires { IsSource source.now }
    ensures ok { IfOk result (IsMade walk.old walk.new
        (leaf (userset source.now.view.now left walk.old.path.items) subject.now)) }
    ensures err { IfErr result (IsRefused walk.old
        (leaf (userset source.now.view.now left walk.old.path.items) subject.now)) }
{
    match &subject.relation {
        None => {
            walk.take()?;
            Ok(Tree::One(subject.object.clone()?))
        }
        Some(relation) => {
            let node = node_of(&subject.object, relation)?;
            userset(source, walk, &node, left)
        }
    }
}

/// A relation of the objects that the tupleset's tuples name. No more of them are gathered than show that there is no room.
#[cycle(expanding)]
fn through(
    source: &Source,
    walk: &mut Walk,
    node: &Node,
    tupleset: &Name,
    relation: &Name,
    left: u8,
) -> Result<Tree, Refusal>
    requires { IsSource source.now }
    ensures ok { IfOk result (IsMade walk.old walk.new
        (filled source.now.view.now (userset source.now.view.now left walk.old.path.items) node.now (TupleTo tupleset.now relation.now))) }
    ensures err { IfErr result (IsRefused walk.old
        (filled source.now.view.now (userset source.now.view.now left walk.old.path.items) node.now (TupleTo tupleset.now relation.now))) }
{
    let most = walk.room;
    walk.take()?;
    let parents = first_parents(source, node, tupleset, relation, most)?;
    let mut trees = Vec::new(source.alloc);
    for parent in &parents {
        trees.push(userset(source, walk, parent, left)?)?;
    }
    Ok(Tree::Union(trees))
}

/// The nodes of the relation of the objects that the tupleset's tuples name, as far as their namespaces have it: all of
/// them, or so many of the first at least. The tuples are read from the first on, each time twice as many, until there
/// are enough of such nodes among them.
fn first_parents(
    source: &Source,
    node: &Node,
    tupleset: &Name,
    relation: &Name,
    most: usize,
) -> Result<Vec<Node>, AllocError>
    requires { IsSource source.now }
    ensures { IfOk result (λ v. take most v.items
        ≡ take most (parents_of source.now.view.now node.now tupleset.now relation.now)) }
{
    let from = node_of(&node.object, tupleset)?;
    let mut read = most;
    for _ in 0..DOUBLINGS {
        let tuples = source.view.first_of(source.alloc, &from, read)?;
        let parents = parents_among(source, &tuples, relation)?;
        if tuples.len() < read || parents.len() >= most {
            return Ok(parents);
        }
        read = read.saturating_add(read);
    }
    let tuples = source.view.tuples_of(source.alloc, &from)?;
    parents_among(source, &tuples, relation)
}

/// The nodes of the relation of the objects that are subjects of the tuples, as far as their namespaces have it.
fn parents_among(
    source: &Source,
    tuples: &[Tuple],
    relation: &Name,
) -> Result<Vec<Node>, AllocError>
    requires { IsSource source.now }
    ensures { IfOk result (λ v. v.items
        ≡ filter_map (parent source.now.view.now.config relation.now) (map (λ t. t.subject) tuples.now)) }
{
    let mut parents = Vec::new(source.alloc);
    for tuple in tuples {
        match parent(source, &tuple.subject, relation)? {
            Some(parent) => parents.push(parent)?,
            None => {}
        }
    }
    Ok(parents)
}

/// The node of the relation of the object that is the subject, if its namespace has the relation.
fn parent(source: &Source, subject: &Subject, relation: &Name) -> Result<Option<Node>, AllocError>
    requires { IsSource source.now }
    ensures { IfOk result (λ o. o ≡ parent source.now.view.now.config relation.now subject.now) }
{
    match &subject.relation {
        Some(_) => Ok(None),
        None => {
            let node = node_of(&subject.object, relation)?;
            match source.config.place_of(&node) {
                Some(_) => Ok(Some(node)),
                None => Ok(None),
            }
        }
    }
}

fn node_of(object: &Object, relation: &Name) -> Result<Node, AllocError>
    ensures { IfOk result (λ n. n ≡ node_with relation.now object.now) }
{
    Ok(Node {
        object: object.clone()?,
        relation: relation.clone()?,
    })
}
