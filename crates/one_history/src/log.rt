//! What lies under the lock.
ghost use Rattle.std.specs.Prelude.{◌≡◌, ◌++◌, []};
ghost use mathlib.Core.List.{IsPrefix};
ghost use Rattle.crossbeam_utils.specs.Seq.{cell_view, IsSamePass};
ghost use Rattle.one_history.specs.History.{entries_by, holder, knower, signed, worker, Added};

use crate::entry::{HistoryName, Noted};
use crate::opening::History;
use crate::rule::{Adds, Blank, Cell, Joins, Lent, Moves, Place};
use crate::worker::Worker;
use std::marker::{Brand, Model, PhantomData};
use std::sync::Wait;

/// All entries of the history that `B` names. There is one, and it lies under the lock. Contracts see it as the entries. It has no
/// bytes.
#[derive(Drop)]
pub struct Log<E, B: HistoryName> {
    place: Place<E>,
    of: PhantomData<B>,
}

impl<E, B: HistoryName> Model for Log<E, B> {
    ghost use Rattle.std.specs.Prelude.{◌≡◌, [], List};
    ghost use Rattle.crossbeam_utils.specs.Seq.{cell_view};
    ghost use Rattle.one_history.specs.declared.entry.Entry.{Entry};
    ghost use Rattle.one_history.specs.History.{knower};

    ghost Value = { List (Entry E) };

    ghost view = { λ l. (cell_view l.place).all };

    ghost invariant = { λ l. (l.place.table_id ≡ B.table) × (l.place.me.1 ≡ [])
        × (cell_view l.place ≡ knower (cell_view l.place).all) };
}

// Has the log's view beside the worker's own.
fn lend<E>(cell: &Cell<E>, log: &mut Place<E>, me: &mut Place<E>)
    requires cell { (me.old.table_id ≡ cell.now.table.shared.table_id) × (log.old.table_id ≡ cell.now.table.shared.table_id) }
    requires log { (log.old.me.1 ≡ []) × (cell_view log.old ≡ knower (cell_view log.old).all) }
    requires me { cell_view me.old ≡ worker (cell_view me.old).seen (cell_view me.old).mine }
    ensures log { log.new.table_id ≡ log.old.table_id }
    ensures me { IsSamePass me.old me.new }
    ensures view { cell_view me.new ≡ holder (cell_view log.old).all (cell_view me.old).seen (cell_view me.old).mine }
{
    let blank = cell.split_pass::<Blank>(me);
    let all = std::mem::replace(log, blank);
    cell.join_pass::<Lent>(me, all);
}

// Gives the log's view back.
fn give_back<E>(cell: &Cell<E>, me: &mut Place<E>) -> Place<E>
    requires cell { me.old.table_id ≡ cell.now.table.shared.table_id }
    requires view { cell_view me.old ≡ holder (cell_view me.old).all (cell_view me.old).seen (cell_view me.old).mine }
    ensures log { (result.table_id ≡ me.old.table_id) × (result.me.1 ≡ []) × (cell_view result ≡ knower (cell_view me.old).all) }
    ensures me { IsSamePass me.old me.new }
    ensures view { cell_view me.new ≡ worker (cell_view me.old).seen (cell_view me.old).mine }
{
    cell.split_pass::<Lent>(me)
}

// Adds entries of the worker that has the log's view.
fn add<E, N: Noted<E>, R: Wait>(rt: &R, cell: &Cell<E>, me: &mut Place<E>)
    requires cell { me.old.table_id ≡ cell.now.table.shared.table_id }
    requires view { cell_view me.old ≡ holder (cell_view me.old).all (cell_view me.old).seen (cell_view me.old).mine }
    requires by { N.by ≡ me.old.id }
    ensures me { IsSamePass me.old me.new }
    ensures added { Added me.old.id N.what (cell_view me.old) [] [] (cell_view me.new) }
{
    cell.load_as::<Adds<E, N>, R>(rt, me);
}

impl<E, B: HistoryName> Log<E, B> {
    pub(crate) fn of(place: Place<E>) -> Log<E, B>
        requires { (place.table_id ≡ B.table) × (place.me.1 ≡ []) × (cell_view place ≡ knower (cell_view place).all) }
        ensures { result ≡ (cell_view place).all }
    {
        Log {
            place,
            of: PhantomData,
        }
    }

    /// A new worker, which has seen all entries so far and made none.
    pub fn worker(&mut self, history: &History<E, B>) -> Worker<E, B>
        ensures same { self.new ≡ self.old }
        ensures seen { result.seen ≡ self.old }
        ensures mine { result.mine ≡ [] }
    {
        let place = history.cell.split_pass::<Joins>(&mut self.place);
        self.place = history.cell.split_pass::<Moves>(&mut self.place);
        Worker::of(place)
    }

    /// Notes what a worker has done. It has then seen all entries, and its own among them are those that it made.
    pub fn note<N: Noted<E>, R: Wait>(
        &mut self,
        rt: &R,
        history: &History<E, B>,
        worker: &mut Worker<E, B>,
    )
        requires { N.by ≡ worker.old.by }
        ensures noted { self.new ≡ self.old ++ signed worker.old.by N.what }
        ensures begins { IsPrefix worker.old.seen self.old }
        ensures by { worker.new.by ≡ worker.old.by }
        ensures seen { worker.new.seen ≡ self.new }
        ensures mine { worker.new.mine ≡ worker.old.mine ++ signed worker.old.by N.what }
        ensures own { entries_by worker.new.by self.new ≡ worker.new.mine }
    {
        lend(&history.cell, &mut self.place, &mut worker.place);
        add::<E, N, R>(rt, &history.cell, &mut worker.place);
        self.place = give_back(&history.cell, &mut worker.place);
    }

    /// Shows a worker all entries so far. Its own among them are those that it made.
    pub fn look<R: Wait>(&mut self, rt: &R, history: &History<E, B>, worker: &mut Worker<E, B>)
        ensures same { self.new ≡ self.old }
        ensures begins { IsPrefix worker.old.seen self.old }
        ensures by { worker.new.by ≡ worker.old.by }
        ensures seen { worker.new.seen ≡ self.old }
        ensures mine { worker.new.mine ≡ worker.old.mine }
        ensures own { entries_by worker.new.by self.old ≡ worker.new.mine }
    {
        self.note::<Brand, R>(rt, history, worker);
    }
}
