//! One level, by rounds.
ghost use Rattle.std.specs.Prelude.{◌≡◌, IfOk, IfSome, IfNone};
ghost use Rattle.meaning.specs.Membership.{RelationGives};
ghost use Rattle.plain.specs.inside.Given.{IsGivenAt, NoneIsGiven};
ghost use Rattle.plain.specs.inside.Source.{snap_of};
ghost use Rattle.plain.specs.inside.Rounds.{IsLeastOver};

use crate::rewrites::relation_gives;
use crate::source::Source;
use names::{Node, Object};
use std::alloc::{AllocError, Global};

/// The first place, not before `from`, of a node that its relation gives the user.
fn next_given(
    source: &Source,
    user: &Object,
    nodes: &[Node],
    from: usize,
    held: &[Node],
    lower: &[Node],
) -> Option<usize>
    ensures found { IfSome result (λ i. IsGivenAt source.now user.now nodes.now i held.now lower.now) }
    ensures none { IfNone result (NoneIsGiven source.now user.now nodes.now from held.now lower.now) }
{
    for i in from..nodes.len() {
        let node = &nodes[i];
        if relation_gives(source, user, node, held, lower) {
            return Some(i);
        }
    }
    None
}

/// The lower nodes, and those of the level's nodes that have the user: the least such list. It goes
/// over those that wait, again and again, until none of them is given.
pub(crate) fn filled(
    alloc: Global,
    source: &Source,
    user: &Object,
    nodes: &[Node],
    lower: &[Node],
) -> Result<Vec<Node>, AllocError>
    ensures { IfOk result (λ v. IsLeastOver (RelationGives (snap_of source.now) user.now) nodes.now lower.now v.items) }
{
    let mut waiting = copy_of(alloc, nodes)?;
    let mut held = copy_of(alloc, lower)?;
    let mut from = 0;
    loop {
        match next_given(source, user, &waiting, from, &held, lower) {
            Some(i) => {
                let node = waiting.remove(i);
                held.push(node)?;
                from = i;
            }
            None if from == 0 => return Ok(held),
            None => from = 0,
        }
    }
}

fn copy_of(alloc: Global, nodes: &[Node]) -> Result<Vec<Node>, AllocError>
    ensures { IfOk result (λ v. v.items ≡ nodes.now) }
{
    nodes.to_vec(alloc)
}
