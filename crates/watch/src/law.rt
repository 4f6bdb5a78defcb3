//! What a page's events are good for.
ghost use Rattle.std.specs.Prelude.{◌≤◌, ℕ};
ghost use Rattle.rows.specs.Retained.{Retained, newest};
ghost use Rattle.watch.specs.declared.watched.Namespaces.{Namespaces};
ghost use Rattle.watch.specs.Replays.{Replays, ReplaysAll};

/// Done in order on the tuples of a retained revision, the events of all namespaces up to another revision give the
/// tuples of that one.
pub fn replayed_events_give_the_tuples()
    ensures { (r : Retained) (from to : ℕ) → r.floor ≤ from → from ≤ to → to ≤ newest r → ReplaysAll r from to }
{}

/// With some namespaces, they give the tuples of these.
pub fn replayed_events_give_what_is_watched()
    ensures { (r : Retained) (n : Namespaces) (from to : ℕ) → r.floor ≤ from → from ≤ to → to ≤ newest r → Replays r n from to }
{}
