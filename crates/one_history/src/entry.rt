//! Entries, and the names by which proofs tell histories and entries apart.
use std::marker::Brand;

/// An entry of a history: the number of the worker that made it, and what it did. No value of it is made.
pub struct Entry<E> {
    pub by: u64,
    pub what: E,
}

/// Names one history, by the table of its word. The call that makes it picks the name.
pub trait HistoryName {
    ghost use Rattle.atomic_table.specs.Seated.{TableId};

    ghost table: { TableId };
}

impl HistoryName for Brand {
    ghost use Rattle.one_history.specs.History.{no_table};

    ghost table = { no_table };
}

/// Names what is noted, in order, and the worker that notes it. Each call of [`Log::note`](crate::Log::note) picks it.
pub trait Noted<E> {
    ghost use Rattle.std.specs.Prelude.{ℕ, List};

    ghost by: { ℕ };

    ghost what: { List E };
}

impl<E> Noted<E> for Brand {
    ghost use Rattle.std.specs.Prelude.{[]};

    ghost by = { 0 };

    ghost what = { [] };
}
