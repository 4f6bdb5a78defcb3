//! A new history, and its name.
ghost use Rattle.std.specs.Prelude.{◌≡◌, []};

use crate::entry::HistoryName;
use crate::log::Log;
use crate::rule::{Cell, Moves, Place};
use std::alloc::{AllocError, Global};
use std::marker::{Model, PhantomData};

/// The word of the history that `B` names. It stands beside the lock, where each worker can reach it.
#[derive(Drop)]
pub struct History<E, B: HistoryName> {
    pub(crate) cell: Cell<E>,
    of: PhantomData<B>,
    ghost tied: { cell.table.shared.table_id ≡ B.table },
}

/// An empty history that has no name yet. Contracts see it as the table by which it is named.
#[derive(Drop)]
pub struct Opening<E> {
    cell: Cell<E>,
    place: Place<E>,
}

impl<E> Model for Opening<E> {
    ghost use Rattle.std.specs.Prelude.{◌≡◌, []};
    ghost use Rattle.atomic_table.specs.Seated.{TableId};
    ghost use Rattle.crossbeam_utils.specs.Seq.{cell_view};
    ghost use Rattle.one_history.specs.History.{knower};

    ghost Value = { TableId };

    ghost view = { λ o. o.cell.table.shared.table_id };

    ghost invariant = { λ o. (o.place.table_id ≡ o.cell.table.shared.table_id) × (o.place.me.1 ≡ [])
        × (cell_view o.place ≡ knower []) };
}

impl<E> Opening<E> {
    /// A new history with no entries.
    pub fn new(alloc: Global) -> Result<Opening<E>, AllocError> {
        let (cell, mut first) = Cell::ruled(alloc, [0])?;
        let place = cell.split_pass::<Moves>(&mut first);
        Ok(Opening { cell, place })
    }

    /// The history under its name, and the log of it, which has no entries.
    pub fn named<B: HistoryName>(self) -> (History<E, B>, Log<E, B>)
        requires { self ≡ B.table }
        ensures { result.1 ≡ [] }
    {
        let Opening { cell, place } = self;
        let history = History {
            cell,
            of: PhantomData,
        };
        (history, Log::of(place))
    }
}
