//! What is known of the tuples that a commit puts.
ghost use Rattle.std.specs.Prelude.{◌≡◌, List, true};
ghost use Rattle.std.specs.List.{list_any};
ghost use Rattle.names.specs.declared.commit.Commit.TheVariants.{Tuples};
ghost use Rattle.names.specs.declared.commit.Event.{Event};
ghost use Rattle.rows.specs.Retained.{Retained, newest_of};
ghost use Rattle.rows.specs.Follows.{AreEventsOf, IsAccepted};
ghost use Rattle.tables.specs.Storing.{PutsAbsent, is_touch};

use names::{Op, OpKind};

/// What is known of the tuples that a commit puts.
#[derive(Clone, Copy, Debug, PartialEq, Eq)]
pub enum Puts {
    /// None of them is there before the commit.
    Absent,
    /// Some may be there.
    Any,
}

/// What is known of the tuples that the commit of accepted operations puts: an insert is accepted only of a
/// tuple that is not there, a touch of any.
pub fn puts_of(ops: &[Op]) -> Puts
    ensures absent { result ≡ Puts.Absent → (r : Retained) (events : List Event)
        → IsAccepted (newest_of r) ops.now → AreEventsOf ops.now events
        → PutsAbsent r (Tuples events) }
    ensures any { result ≡ Puts.Any → list_any is_touch ops.now ≡ true }
{
    if has_touch(ops) {
        Puts::Any
    } else {
        Puts::Absent
    }
}

fn has_touch(ops: &[Op]) -> bool
    ensures { result ≡ list_any is_touch ops.now }
{
    ops.iter().any(|op| is_touch(op))
}

fn is_touch(op: &Op) -> bool
    ensures { result ≡ is_touch op.now }
{
    match op.kind {
        OpKind::Insert => false,
        OpKind::Touch => true,
        OpKind::Delete => false,
    }
}
