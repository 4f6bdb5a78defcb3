//! Database files, between the runs of a program.
ghost use Rattle.std.specs.Prelude.{◌≡◌, List, [], ◌∷◌, false, None, IfOk, IfErr, IfSome};
ghost use Rattle.sqlite_wal.specs.Recovery.{Image};
ghost use Rattle.sqlite_wal.specs.Files.{image_at, outcomes};
ghost use Rattle.sqlite_wal.specs.Reads.{AreClean};
ghost use Rattle.sqlite_trees.specs.Tree.{Trees};
ghost use Rattle.sqlite_trees.specs.View.{IsClean};
ghost use Rattle.sqlite_store.specs.FileStore.{state as store_state, view, recovers};
ghost use Rattle.sqlite.specs.State.{HasCleanDisk};
ghost use Rattle.sqlite.specs.Files.{file_state, over_files};
ghost use Rattle.rows.specs.Retained.{Retained};
ghost use Rattle.store.specs.History.{KeepsHistory, LeavesHistory};
ghost use Rattle.runs.specs.Files.{FindsHistories, HoldsOneOf, HoldsAmong, IsFoundIn, IsUnopened};

use sqlite::{Connection, Error, FileFrom, FileStore, Leftover, Start};
use sqlite_disk::{Disk, Files};

/// What is left of two files: a connection over them; or, where they could not be opened, what was left of them then;
/// or nothing, where the system did not give them.
pub type Left<P> = Result<Connection<FileStore<FileFrom<P>>>, Option<Leftover<FileFrom<P>>>>;

/// Opens the files at a path, of which `start` says what they hold. An error comes with what is left of them, unless
/// the system did not give them.
pub fn find<P: Start>(
    rt: &HostRuntime,
    path: &str,
    start: P,
) -> Result<Connection<FileStore<FileFrom<P>>>, (Error, Option<Leftover<FileFrom<P>>>)>
    ensures idle { IfOk result (λ c. c.in_transaction ≡ false) }
    ensures unlimited { IfOk result (λ c. c.step_limit ≡ None) }

    // The history that they hold is found.
    ensures found { IfOk result (FindsHistories (image_at P.Start)) }

    // It is open, and its database is theirs and is what a crash leaves.
    ensures sees { IfOk result (λ c. HasCleanDisk (file_state c) → IsFoundIn (image_at P.Start) (file_state c)) }

    // Of files that could not be opened it is said why, and what a crash leaves.
    ensures refused { IfErr result (λ e. IfSome e.1 (λ left. IsUnopened (image_at P.Start) left e.0)) }
{
    Connection::open_from(rt, path, false, start)
}

/// Ends a connection as the end of its process does, also by a crash.
pub fn leave<D: Disk + Drop>(conn: Connection<FileStore<D>>) -> FileStore<D>
    // What is left of the two files then holds what the connection could leave, and so do the trees that it recovers.
    ensures left { IsClean (view result) → (rs : List Retained) → LeavesHistory over_files conn rs
        → (left : Image) → (store_state result).may_leave left → HoldsOneOf left rs }
    ensures trees { IsClean (view result) → (rs : List Retained) → LeavesHistory over_files conn rs
        → (trees : Trees) → recovers result trees → HoldsAmong trees rs }
{
    conn.into_store()
}

/// Copies the log into the database file, and gives the files back.
pub fn close<D: Disk + Drop>(conn: Connection<FileStore<D>>) -> Result<Files<D>, FileStore<D>>
    // The database file holds the history then, with its log or without it.
    ensures closed { IfOk result (λ files. AreClean D.Disk files.log files.db → (r : Retained) → KeepsHistory over_files conn r
        → (left : Image) → outcomes D.Disk files.log files.db left → HoldsOneOf left (r ∷ []) × HoldsOneOf (record left { log = [] }) (r ∷ [])) }

    // Whatever the connection could leave, the two files then hold one of these.
    ensures left { IfOk result (λ files. AreClean D.Disk files.log files.db → (rs : List Retained) → LeavesHistory over_files conn rs
        → (left : Image) → outcomes D.Disk files.log files.db left → HoldsOneOf left rs) }

    // Where that is refused, it leaves what the connection could leave.
    ensures refused { IfErr result (λ store. IsClean (view store) → (rs : List Retained) → LeavesHistory over_files conn rs
        → (trees : Trees) → recovers store trees → HoldsAmong trees rs) }
{
    match conn.close_files() {
        Ok(files) => Ok(files),
        Err((_, store)) => Err(store),
    }
}
