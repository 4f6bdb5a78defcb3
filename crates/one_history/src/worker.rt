//! Who makes entries.
ghost use Rattle.std.specs.Prelude.{◌≡◌};
ghost use Rattle.crossbeam_utils.specs.Seq.{cell_view};
ghost use Rattle.one_history.specs.History.{worker};

use crate::entry::HistoryName;
use crate::rule::Place;
use std::marker::{Model, PhantomData};

/// One who may take the lock, for the history that `B` names. Contracts see it as its number, the history that it has seen, and
/// its own entries. It has no bytes.
#[derive(Drop)]
pub struct Worker<E, B: HistoryName> {
    pub(crate) place: Place<E>,
    of: PhantomData<B>,
}

impl<E, B: HistoryName> Model for Worker<E, B> {
    ghost use Rattle.std.specs.Prelude.{◌≡◌};
    ghost use Rattle.crossbeam_utils.specs.Seq.{cell_view};
    ghost use Rattle.one_history.specs.History.{Hand, worker};

    ghost Value = { Hand E };

    ghost view = { λ w. record {
      by = w.place.id;
      seen = (cell_view w.place).seen;
      mine = (cell_view w.place).mine;
    } };

    ghost invariant = { λ w. (w.place.table_id ≡ B.table)
        × (cell_view w.place ≡ worker (cell_view w.place).seen (cell_view w.place).mine) };
}

impl<E, B: HistoryName> Worker<E, B> {
    pub(crate) fn of(place: Place<E>) -> Worker<E, B>
        requires table { place.table_id ≡ B.table }
        requires view { cell_view place ≡ worker (cell_view place).seen (cell_view place).mine }
        ensures by { result.by ≡ place.id }
        ensures seen { result.seen ≡ (cell_view place).seen }
        ensures mine { result.mine ≡ (cell_view place).mine }
    {
        Worker {
            place,
            of: PhantomData,
        }
    }
}
