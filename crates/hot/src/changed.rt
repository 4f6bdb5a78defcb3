//! Of which nodes a commit has events.
ghost use Rattle.std.specs.Prelude.{◌++◌, ◌∷◌, [], List, IfOk, OnOk};
ghost use Rattle.names.specs.declared.commit.Event.{Event as EventValue};
ghost use Rattle.idsets.specs.Naming.{AreDistinct};
ghost use Rattle.hot.specs.inside.Events.{AreOfEvents};

use idsets::Ids;
use names::{Event, Node};
use std::alloc::{AllocError, Global};

/// The numbers of the nodes of some events, as far as they have one.
pub(crate) fn changed_by(
    alloc: Global,
    nodes: &Ids<Node>,
    events: &[Event],
) -> Result<Vec<u64>, AllocError>
    ensures { IfOk result (λ ids. AreOfEvents nodes.now events.now ids.items) }
{
    let _ = nodes.len();
    let mut ids = Vec::new(alloc);
    for event in events {
        push_changed(nodes, &mut ids, event)?;
    }
    Ok(ids)
}

/// Adds the number of the event's node, where it has one.
fn push_changed(nodes: &Ids<Node>, ids: &mut Vec<u64>, event: &Event) -> Result<(), AllocError>
    requires { AreDistinct nodes.now }
    ensures { OnOk result ((events : List EventValue) → AreOfEvents nodes.now events ids.old.items
        → AreOfEvents nodes.now (events ++ event.now ∷ []) ids.new.items) }
{
    match nodes.id_of(&event.tuple.node) {
        Some(id) => {
            ids.push(id)?;
            Ok(())
        }
        None => Ok(()),
    }
}
