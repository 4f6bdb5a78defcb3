//! The events of operations.
ghost use Rattle.std.specs.Prelude.{◌≡◌, IfOk, IfErr, map};
ghost use Rattle.names.specs.declared.refusal.Refusal.TheVariants.{Memory};
ghost use Rattle.meaning.specs.Verdict.{event_of, kind_of};
ghost use Rattle.rows.specs.Follows.{AreEventsOf};

use names::{Event, EventKind, Items, Op, OpKind, Refusal};

/// The events of operations on distinct tuples, in the order of the tuples.
pub fn events_of(ops: Items<Op>) -> Result<Items<Event>, Refusal>
    ensures ok { IfOk result (AreEventsOf ops) }
    ensures err { IfErr result (λ e. e ≡ Memory) }
{
    let ops = ops.into_vec();
    let alloc = *ops.allocator();
    let mut events: Vec<Event> = ops.into_iter().map(event_of).collect(alloc)?;
    events.sort_unstable();
    Ok(Items::of(events))
}

fn event_of(op: Op) -> Event
    ensures { result ≡ event_of op }
{
    Event {
        tuple: op.tuple,
        kind: kind_of(op.kind),
    }
}

fn kind_of(kind: OpKind) -> EventKind
    ensures { result ≡ kind_of kind }
{
    match kind {
        OpKind::Insert => EventKind::Put,
        OpKind::Touch => EventKind::Put,
        OpKind::Delete => EventKind::Del,
    }
}
