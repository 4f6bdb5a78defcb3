//! The number of a node.
ghost use Rattle.std.specs.Prelude.{◌≡◌, Some, IfOk};
ghost use Rattle.std.specs.List.{slice_get};
ghost use Rattle.idsets.specs.Naming.{AreDistinct};
ghost use Rattle.facts.specs.Telling.{IsLater};

use facts::{Numbers, number_of};
use names::Node;
use std::alloc::AllocError;

/// The number of a node, a new one if it was not seen before.
pub(crate) fn numbered(numbers: &mut Numbers, node: &Node) -> Result<u64, AllocError>
    ensures later { IsLater numbers.old.nodes numbers.new.nodes numbers.old.users numbers.new.users }
    ensures distinct { AreDistinct numbers.new.nodes }
    ensures id { IfOk result (λ id. slice_get numbers.new.nodes id ≡ Some node.now) }
{
    let number = number_of(&mut numbers.nodes, node);
    let _ = (numbers.nodes.len(), numbers.users.len());
    number
}
