//! Where relations stand.
ghost use Rattle.std.specs.Prelude.{◌≡◌, ◌<◌, IfSome, IsTrue, length, slice_index_or};
ghost use Rattle.config_text.specs.declared.relation.Relation.{Relation};
ghost use Rattle.meaning.specs.Config.{rel_of};

use config_text::Relation;
use names::Node;

/// So many relations are gone over, one after the other.
const FIRST: usize = 16;

/// Where the node's relation stands, if it is one of the first: most configurations have few others, and most names are
/// told apart by their lengths.
pub(crate) fn first_place(relations: &[Relation], node: &Node) -> Option<usize>
    ensures { IfSome result (λ i. (i < length relations.now)
        × ((r : Relation) → (slice_index_or relations.now i r).name ≡ rel_of node.now)) }
{
    for place in 0..relations.len().min(FIRST) {
        if has_name_of(&relations[place], node) {
            return Some(place);
        }
    }
    None
}

fn has_name_of(relation: &Relation, node: &Node) -> bool
    ensures { IsTrue result → relation.now.name ≡ rel_of node.now }
{
    relation.name.relation == node.relation && relation.name.namespace == node.object.namespace
}
