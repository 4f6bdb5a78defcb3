//! The marked nodes.
ghost use Rattle.std.specs.Prelude.{◌≡◌, ◌<◌, ◌+◌, ◌++◌, take, drop, length, IfSome, IfNone, OnOk, OnErr};
ghost use Rattle.names.specs.Order.{is_same_node};
ghost use Rattle.shown.specs.Marks.{after_marking, is_marked, with_mark, without_mark};

use names::{Marking, Node};
use std::alloc::AllocError;

/// Marks a node, or takes its mark away. For want of memory nothing changes.
pub(crate) fn remark(marks: &mut Vec<Node>, marking: &Marking) -> Result<(), AllocError>
    ensures ok { OnOk result (marks.new.items ≡ after_marking marks.old.items marking.now) }
    ensures err { OnErr result (marks.new.items ≡ marks.old.items) }
{
    match marking {
        Marking::Mark(node) => mark(marks, node),
        Marking::Unmark(node) => {
            unmark(marks, node);
            Ok(())
        }
    }
}

/// How many nodes are marked, this one among them.
pub(crate) fn count_with(marks: &[Node], node: &Node) -> usize
    ensures { result ≡ length (with_mark marks.now node.now) }
{
    if is_marked(marks, node) {
        marks.len()
    } else {
        marks.len() + 1
    }
}

fn is_marked(marks: &[Node], node: &Node) -> bool
    ensures { result ≡ is_marked marks.now node.now }
{
    marks.iter().any(|marked| is_same(node, marked))
}

fn is_same(node: &Node, other: &Node) -> bool
    ensures { result ≡ is_same_node node.now other.now }
{
    node.cmp(other).is_eq()
}

fn mark(marks: &mut Vec<Node>, node: &Node) -> Result<(), AllocError>
    ensures ok { OnOk result (marks.new.items ≡ with_mark marks.old.items node.now) }
    ensures err { OnErr result (marks.new.items ≡ marks.old.items) }
{
    if !is_marked(marks, node) {
        marks.push(node.clone()?)?;
    }
    Ok(())
}

fn unmark(marks: &mut Vec<Node>, node: &Node)
    ensures { marks.new.items ≡ without_mark marks.old.items node.now }
{
    if let Some(place) = place_of(marks, node) {
        marks.remove(place);
    }
}

/// Where the node stands, if it is marked.
fn place_of(marks: &[Node], node: &Node) -> Option<usize>
    ensures found { IfSome result (λ i. (i < length marks.now)
        × (take i marks.now ++ drop (i + 1) marks.now ≡ without_mark marks.now node.now)) }
    ensures none { IfNone result (marks.now ≡ without_mark marks.now node.now) }
{
    for i in 0..marks.len() {
        if is_same(node, &marks[i]) {
            return Some(i);
        }
    }
    None
}
