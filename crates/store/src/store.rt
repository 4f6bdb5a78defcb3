//! The tables of a store.
ghost use Rattle.std.specs.Prelude.{◌≡◌, false, None};

use crate::history::{change_history, load_history, make_tables};
use rows::Loaded;
use sqlite::{Alter, Connection};
use sqlite_tables::is_format;
use std::alloc::Global;
use tables::{TableChange, Tables, TablesError};

/// The tables of one store over a connection.
#[derive(Drop)]
pub struct Store<S: Alter> {
    alloc: Global,
    conn: Connection<S>,
    faults: u64,
    ghost idle: { conn.in_transaction ≡ false },
    ghost unlimited: { conn.step_limit ≡ None },
}

impl<S: Alter + Drop> Store<S> {
    ghost use Rattle.std.specs.Prelude.{◌≡◌, ◌≢◌, ◌≤◌, ◌<◌, ◌^◌, false, None, IsErrAnd, IfErr, IfOk};
    ghost use Rattle.tables.specs.Device.{IsOpen};
    ghost use Rattle.sqlite_tables.specs.Leaves.{IsBlank};
    ghost use Rattle.sqlite_tables.specs.Reading.{HasFormat};
    ghost use Rattle.sqlite_tables.specs.Steps.{Undoes};
    ghost use Rattle.store.specs.History.{KeepsHistory, LeavesAtMostNew, IsFaultOfDevice, device_below};
    ghost use Rattle.rows.specs.Retained.{empty_store};
    ghost use Rattle.store.specs.StoreParts.{connection, faults};

    /// Makes the tables of a store that has this number and no commit. Where there is a table, an index or a
    /// view already it is refused as a fault. A refusal hands the connection back.
    pub fn create(
        alloc: Global,
        mut conn: Connection<S>,
        number: u64,
    ) -> Result<Store<S>, (TablesError, Connection<S>)>
        requires idle { conn.in_transaction ≡ false }
        requires unlimited { conn.step_limit ≡ None }
        requires some { 1 ≤ number }
        requires small { number < 2 ^ 63 }
        ensures held { IfOk result (λ s. KeepsHistory S.Store (connection s) (empty_store number)) }
        ensures open { IfOk result (λ s. IsOpen (device_below S.Store (connection s))) }
        ensures made { IfOk result (λ s. LeavesAtMostNew S.Store conn (connection s) number) }
        ensures quiet { IfOk result (λ s. faults s ≡ 0) }
        ensures taken { ¬ (IsBlank S.Store conn) → IsErrAnd result (λ e. (e.0 ≡ TablesError.Fault) × (e.1 ≡ conn)) }
        ensures undone { IfErr result (λ e. IsBlank S.Store conn → Undoes S.Store conn e.1) }
        ensures crash { IfErr result (λ e. LeavesAtMostNew S.Store conn e.1 number) }
        ensures caused { IfErr result (λ e. IsFaultOfDevice S.Store conn e.1 e.0) }
        ensures idle { IfErr result (λ e. e.1.in_transaction ≡ false) }
    {
        if let Err(why) = make_tables(&mut conn, number) {
            return Err((why, conn));
        }
        Ok(Store {
            alloc,
            conn,
            faults: 0,
        })
    }

    /// The tables over a connection, where they are those of the format; whether they hold a history is found
    /// when they are loaded. A refusal hands the connection back.
    pub fn open(
        alloc: Global,
        conn: Connection<S>,
    ) -> Result<Store<S>, (TablesError, Connection<S>)>
        requires idle { conn.in_transaction ≡ false }
        requires unlimited { conn.step_limit ≡ None }
        ensures same { IfOk result (λ s. connection s ≡ conn) }
        ensures format { IfOk result (λ _. HasFormat S.Store conn) }
        ensures quiet { IfOk result (λ s. faults s ≡ 0) }
        ensures refused { IfErr result (λ e. (e.0 ≡ TablesError.Fault) × (e.1 ≡ conn) × (¬ (HasFormat S.Store conn))) }
    {
        if !is_format(&conn) {
            return Err((TablesError::Fault, conn));
        }
        Ok(Store {
            alloc,
            conn,
            faults: 0,
        })
    }

    /// Gives the connection back.
    pub fn into_connection(self) -> Connection<S>
        ensures same { result ≡ connection self }
        ensures idle { result.in_transaction ≡ false }
        ensures unlimited { result.step_limit ≡ None }
    {
        self.conn
    }
}

impl<S: Alter> Tables for Store<S> {
    ghost use Rattle.store.specs.History.{KeepsHistory, LeavesHistory, device_below};
    ghost use Rattle.store.specs.StoreParts.{connection, faults as refusals};
    ghost use Rattle.store.specs.inside.Settling.{leaves_settled, leaves_among};

    ghost holds = { λ s r. KeepsHistory S.Store (connection s) r };

    ghost leaves = { λ s rs. LeavesHistory S.Store (connection s) rs };

    ghost device = { λ s. device_below S.Store (connection s) };

    ghost count = { λ s. refusals s };

    fn load(&mut self, alloc: Global) -> Result<Loaded, TablesError> {
        match load_history(alloc, &mut self.conn) {
            Ok(loaded) => Ok(loaded),
            Err(TablesError::Memory) => Err(TablesError::Memory),
            Err(TablesError::Fault) => {
                self.faults = self.faults.saturating_add(1);
                Err(TablesError::Fault)
            }
        }
    }

    fn change(&mut self, change: &TableChange) -> Result<(), TablesError> {
        match change_history(self.alloc, &mut self.conn, change) {
            Ok(()) => Ok(()),
            Err(TablesError::Memory) => Err(TablesError::Memory),
            Err(TablesError::Fault) => {
                self.faults = self.faults.saturating_add(1);
                Err(TablesError::Fault)
            }
        }
    }

    fn faults(&self) -> u64 {
        self.faults
    }

    ghost settled = { λ s r held whole. leaves_settled s S.Store.settled r held whole };

    ghost weaker = { λ s rs ss among left. leaves_among s rs ss among left };
}
