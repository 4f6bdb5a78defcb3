//! Names by their numbers.
ghost use Rattle.std.specs.Prelude.{◌≡◌, ◌≤◌, ◌+◌, ◌++◌, ◌∷◌, [], ℕ, List, Some, length, IfOk, OnOk};
ghost use Rattle.std.specs.List.{slice_get};
ghost use Rattle.facts.specs.Numbers.{Grew};
ghost use Rattle.idsets.specs.Naming.{AreDistinct};
ghost use Rattle.direct.specs.inside.Listing.{AreNamed};

use idsets::{Ids, Named};
use names::Node;
use std::alloc::{AllocError, Global};

/// The number of a name, the next one if it was not seen before.
pub(crate) fn see<N: Named>(table: &mut Ids<N>, name: N) -> Result<u64, AllocError>
    ensures number { IfOk result (λ number. slice_get table.new number ≡ Some name) }
    ensures grew { Grew table.old table.new }
    ensures longer { length table.new ≤ length table.old + 1 }
    ensures apart { AreDistinct table.new }
{
    let number = table.see(name);
    let _ = table.len();
    number
}

/// The nodes with some numbers.
pub(crate) fn named(alloc: Global, nodes: &Ids<Node>, ids: &[u64]) -> Result<Vec<Node>, AllocError>
    ensures { IfOk result (λ v. AreNamed nodes.now ids.now v.items) }
{
    let mut found = Vec::new(alloc);
    for id in ids {
        push_named(nodes, &mut found, *id)?;
    }
    Ok(found)
}

/// Adds the node with a number, where there is one.
fn push_named(nodes: &Ids<Node>, found: &mut Vec<Node>, id: u64) -> Result<(), AllocError>
    ensures { OnOk result ((ids : List ℕ) → AreNamed nodes.now ids found.old.items
        → AreNamed nodes.now (ids ++ id ∷ []) found.new.items) }
{
    match nodes.name(id) {
        Some(node) => {
            let copy = node.clone()?;
            found.push(copy)?;
            Ok(())
        }
        None => Ok(()),
    }
}
