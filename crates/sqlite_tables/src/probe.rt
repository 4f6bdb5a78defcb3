//! Whether a connection was shut by a failure of the device.
ghost use Rattle.std.specs.Prelude.{◌≡◌, ◌≢◌, false, IsTrue};
ghost use Rattle.sqlite.specs.declared.error.Error.TheVariants.{SqliteFailure};
ghost use Rattle.sqlite.specs.declared.error.ErrorCode.TheVariants.{OutOfMemory};
ghost use Rattle.sqlite.specs.Held.{state};
ghost use Rattle.sqlite_disk.specs.Disk.{MoreFaults};
ghost use Rattle.sqlite_tables.specs.Reading.{IsClean, IsSame, LeavesNothing};
ghost use Rattle.sqlite_tables.specs.Steps.{Stays};

use sqlite::{Alter, Connection, Error, ErrorCode};

/// What is known of a connection.
#[derive(Clone, Copy, Debug, PartialEq, Eq)]
pub enum Probe {
    /// It answers.
    Open,
    /// The device failed, now or before.
    Failed,
    /// There was no memory to ask.
    NoMemory,
}

fn is_memory(error: &Error) -> bool
    ensures yes { IsTrue result → error.now ≡ SqliteFailure OutOfMemory }
    ensures no { result ≡ false → error.now ≢ SqliteFailure OutOfMemory }
{
    match error {
        Error::SqliteFailure(ErrorCode::OutOfMemory) => true,
        _ => false,
    }
}

/// Asks a connection whether it still answers. Where it does, nothing has changed: a call that was refused for want
/// of memory has shut nothing, and its `undone` holds.
pub fn ask<S: Alter>(conn: &mut Connection<S>) -> Probe
    requires idle { conn.old.in_transaction ≡ false }
    ensures idle { conn.new.in_transaction ≡ false }
    ensures same { IsClean S.Store conn.new → result ≡ Probe.Open → IsSame S.Store conn.old conn.new }
    ensures undone { Stays S.Store conn.old conn.new }
    ensures caused { IsClean S.Store conn.new → result ≡ Probe.Failed → IsTrue (state S.Store conn.old).is_open → MoreFaults (state S.Store conn.old).faults (state S.Store conn.new).faults }
    ensures quiet { LeavesNothing S.Store conn.old conn.new }
{
    let Err(error) = conn.prepare("SELECT 1") else {
        return Probe::Open;
    };
    if is_memory(&error) {
        Probe::NoMemory
    } else {
        Probe::Failed
    }
}
