//! What is stored and read over a connection, as a history.
ghost use Rattle.std.specs.Prelude.{◌≡◌, ◌≢◌, ◌⊎◌, ◌^◌, ◌<◌, ◌≤◌, false, None, IfOk, OnOk, OnErr, IsTrue, Err};
ghost use Rattle.sqlite.specs.Disk.{MoreFaults};
ghost use Rattle.sqlite_tables.specs.Leaves.{IsBlank};
ghost use Rattle.sqlite_tables.specs.Steps.{Undoes};
ghost use Rattle.sqlite.specs.Held.{state};
ghost use Rattle.sqlite.specs.State.{HasCleanDisk, IsLive};
ghost use Rattle.sqlite.specs.declared.error.Error.TheVariants.{SqliteFailure};
ghost use Rattle.sqlite.specs.declared.error.ErrorCode.TheVariants.{OutOfMemory};
ghost use Rattle.names.specs.declared.commit.Commit.TheVariants as kinds;
ghost use Rattle.rows.specs.Loads.{IsWithin, retained_of};
ghost use Rattle.rows.specs.Retained.{empty_store};
ghost use Rattle.tables.specs.Device.{HasFailed, IsClean, IsOpen};
ghost use Rattle.tables.specs.Changing.{CanStore};
ghost use Rattle.store.specs.inside.Asking.{told_as};
ghost use Rattle.store.specs.History.{KeepsHistory, KeepsOn, LeavesAlone, LeavesAtMostNew, LeavesChanged, FindsHistory, KeptBefore, HasNoneOrFailed, HasFailedIf, IsSettled, Changes, device_below};

use crate::reading::read;
use crate::texts::events_of;
use config::Config;
use rows::Loaded;
use sqlite::{Alter, Connection, Error, ErrorCode};
use sqlite_tables::{Probe, ask, configure, create, load, trim, write};
use std::alloc::Global;
use tables::{Puts, TableChange, TablesError};
use tuple_keys::KeptEvents;

fn is_memory(error: &Error) -> bool
    ensures yes { IsTrue result → error.now ≡ SqliteFailure OutOfMemory }
    ensures no { result ≡ false → error.now ≢ SqliteFailure OutOfMemory }
{
    match error {
        Error::SqliteFailure(ErrorCode::OutOfMemory) => true,
        _ => false,
    }
}

// Outside a transaction, what an open connection sees is what it has committed, and both are databases.
fn see_settled<S: Alter>(conn: &Connection<S>)
    requires { conn.now.in_transaction ≡ false }
    ensures settled { IsSettled S.Store conn.now }
    ensures live { IsLive (state S.Store conn.now) }
{
    let _settled = conn.is_autocommit();
    let _live = conn.schema();
}

// What want of memory is told as: a connection that the device has shut is a fault.
fn told(probe: Probe) -> TablesError
    ensures { result ≡ told_as probe }
{
    match probe {
        Probe::Open => TablesError::Memory,
        Probe::NoMemory => TablesError::Memory,
        Probe::Failed => TablesError::Fault,
    }
}

// Why a call was refused: for want of memory, unless the device has shut the connection.
fn why<S: Alter>(conn: &mut Connection<S>, error: &Error) -> TablesError
    requires idle { conn.old.in_transaction ≡ false }
    ensures idle { conn.new.in_transaction ≡ false }
    ensures same { error.now ≢ SqliteFailure OutOfMemory → (result ≡ TablesError.Fault) × (conn.new ≡ conn.old) }
    ensures undone { Undoes S.Store conn.old conn.new }
    ensures quiet { LeavesAlone S.Store conn.old conn.new }
    ensures caused { result ≡ TablesError.Fault → (error.now ≢ SqliteFailure OutOfMemory)
        ⊎ (HasCleanDisk (state S.Store conn.new) → IsTrue (state S.Store conn.old).is_open → MoreFaults (state S.Store conn.old).faults (state S.Store conn.new).faults) }
{
    see_settled(conn);
    if !is_memory(error) {
        return TablesError::Fault;
    }
    told(ask(conn))
}

// Stores a commit's events.
fn write_events<S: Alter>(
    alloc: Global,
    conn: &mut Connection<S>,
    rev: u64,
    events: &KeptEvents,
    puts: Puts,
) -> Result<(), TablesError>
    requires next { CanStore (KeepsHistory S.Store conn.old) (TableChange.Commit rev (kinds.Tuples events.now) puts) }
    requires idle { conn.old.in_transaction ≡ false }
    requires unlimited { conn.old.step_limit ≡ None }
    ensures idle { conn.new.in_transaction ≡ false }
    ensures done { Changes S.Store conn.old conn.new (TableChange.Commit rev (kinds.Tuples events.now) puts) result }
    ensures open { OnOk result (IsOpen (device_below S.Store conn.new)) }
    ensures undone { OnErr result (KeepsOn S.Store conn.old conn.new) }
    ensures crash { LeavesChanged S.Store conn.old conn.new (TableChange.Commit rev (kinds.Tuples events.now) puts) }
    ensures caused { HasFailedIf S.Store conn.old conn.new result }
{
    let Ok(texts) = events_of(alloc, events, puts) else {
        return Err(TablesError::Memory);
    };
    let Err(error) = write(conn, texts.as_slice(), rev) else {
        return Ok(());
    };
    Err(why(conn, &error))
}

// Stores a configuration.
fn write_config<S: Alter>(
    alloc: Global,
    conn: &mut Connection<S>,
    rev: u64,
    config: &Config,
    puts: Puts,
) -> Result<(), TablesError>
    requires next { CanStore (KeepsHistory S.Store conn.old) (TableChange.Commit rev (kinds.Config config.now) puts) }
    requires idle { conn.old.in_transaction ≡ false }
    requires unlimited { conn.old.step_limit ≡ None }
    ensures idle { conn.new.in_transaction ≡ false }
    ensures done { Changes S.Store conn.old conn.new (TableChange.Commit rev (kinds.Config config.now) puts) result }
    ensures open { OnOk result (IsOpen (device_below S.Store conn.new)) }
    ensures undone { OnErr result (KeepsOn S.Store conn.old conn.new) }
    ensures crash { LeavesChanged S.Store conn.old conn.new (TableChange.Commit rev (kinds.Config config.now) puts) }
    ensures caused { HasFailedIf S.Store conn.old conn.new result }
{
    let Ok(text) = config.to_json(alloc) else {
        return Err(TablesError::Memory);
    };
    let Err(error) = configure(conn, text.as_str(), rev) else {
        return Ok(());
    };
    Err(why(conn, &error))
}

// Raises the floor, and takes out what no revision from it on looks at.
fn trim_tables<S: Alter>(
    conn: &mut Connection<S>,
    floor: u64,
    first: u64,
) -> Result<(), TablesError>
    requires can { CanStore (KeepsHistory S.Store conn.old) (TableChange.Trim floor first) }
    requires idle { conn.old.in_transaction ≡ false }
    requires unlimited { conn.old.step_limit ≡ None }
    ensures idle { conn.new.in_transaction ≡ false }
    ensures done { Changes S.Store conn.old conn.new (TableChange.Trim floor first) result }
    ensures open { OnOk result (IsOpen (device_below S.Store conn.new)) }
    ensures undone { OnErr result (KeepsOn S.Store conn.old conn.new) }
    ensures crash { LeavesChanged S.Store conn.old conn.new (TableChange.Trim floor first) }
    ensures caused { HasFailedIf S.Store conn.old conn.new result }
{
    let Err(error) = trim(conn, floor, first) else {
        return Ok(());
    };
    Err(why(conn, &error))
}

/// Stores one change in one transaction.
pub(crate) fn change_history<S: Alter>(
    alloc: Global,
    conn: &mut Connection<S>,
    change: &TableChange,
) -> Result<(), TablesError>
    requires can { CanStore (KeepsHistory S.Store conn.old) change.now }
    requires idle { conn.old.in_transaction ≡ false }
    requires unlimited { conn.old.step_limit ≡ None }
    ensures idle { conn.new.in_transaction ≡ false }
    ensures done { Changes S.Store conn.old conn.new change.now result }
    ensures open { OnOk result (IsOpen (device_below S.Store conn.new)) }
    ensures undone { OnErr result (KeepsOn S.Store conn.old conn.new) }
    ensures crash { LeavesChanged S.Store conn.old conn.new change.now }
    ensures caused { HasFailedIf S.Store conn.old conn.new result }
{
    match change {
        TableChange::Commit { rev, commit, puts } => match commit.events() {
            Some(events) => write_events(alloc, conn, *rev, events, *puts),
            None => match commit.config() {
                Some(config) => write_config(alloc, conn, *rev, config, *puts),
                None => unreachable!(),
            },
        },
        TableChange::Trim { floor, first } => trim_tables(conn, *floor, *first),
    }
}

/// Makes the tables of a store that has this number and no commit, in one transaction. Where there is a table, an
/// index or a view already it is refused as a fault.
pub(crate) fn make_tables<S: Alter>(
    conn: &mut Connection<S>,
    number: u64,
) -> Result<(), TablesError>
    requires idle { conn.old.in_transaction ≡ false }
    requires unlimited { conn.old.step_limit ≡ None }
    requires some { 1 ≤ number }
    requires small { number < 2 ^ 63 }
    ensures idle { conn.new.in_transaction ≡ false }
    ensures done { OnOk result (KeepsHistory S.Store conn.new (empty_store number)) }
    ensures open { OnOk result (IsOpen (device_below S.Store conn.new)) }
    ensures taken { ¬ (IsBlank S.Store conn.old) → (result ≡ Err TablesError.Fault) × (conn.new ≡ conn.old) }
    ensures undone { OnErr result (IsBlank S.Store conn.old → Undoes S.Store conn.old conn.new) }
    ensures crash { LeavesAtMostNew S.Store conn.old conn.new number }
    ensures caused { result ≡ Err TablesError.Fault → IsTrue (state S.Store conn.old).is_open → IsBlank S.Store conn.old
        → HasFailed (device_below S.Store conn.old) (device_below S.Store conn.new) }
{
    let Err(error) = create(conn, number) else {
        return Ok(());
    };
    Err(why(conn, &error))
}

/// The history that the tables hold. They are refused where they are not those of the format, or hold none.
pub(crate) fn load_history<S: Alter>(
    alloc: Global,
    conn: &mut Connection<S>,
) -> Result<Loaded, TablesError>
    requires idle { conn.old.in_transaction ≡ false }
    requires unlimited { conn.old.step_limit ≡ None }
    ensures idle { conn.new.in_transaction ≡ false }
    ensures held { IfOk result (λ l. KeepsHistory S.Store conn.new (retained_of l)) }
    ensures open { OnOk result (IsOpen (device_below S.Store conn.new)) }
    ensures found { IfOk result (λ l. IsClean (device_below S.Store conn.new) → KeepsHistory S.Store conn.old (retained_of l)) }
    ensures same { FindsHistory S.Store conn.old conn.new result }
    ensures within { IfOk result IsWithin }
    ensures kept { KeepsOn S.Store conn.old conn.new }
    ensures only { KeptBefore S.Store conn.old conn.new }
    ensures quiet { LeavesAlone S.Store conn.old conn.new }
    ensures caused { HasNoneOrFailed S.Store conn.old conn.new result }
{
    see_settled(conn);
    let stored = match load(alloc, conn) {
        Ok(stored) => stored,
        Err(error) => return Err(why(conn, &error)),
    };
    see_settled(conn);
    read(alloc, stored)
}
