//! The fixed statements, each inside a transaction: what it makes of the contents, that it commits nothing and
//! that a crash leaves nothing of it.
ghost use Rattle.std.specs.Prelude.{◌≡◌, ◌^◌, ◌+◌, ◌<◌, ◌≤◌, length};
ghost use Rattle.sqlite_tables.specs.Tables.{config_at};
ghost use Rattle.sqlite_tables.specs.Stored.{span_between};
ghost use Rattle.sqlite_tables.specs.Steps.{Changes, Makes, RunsOpen, IsQuiet, with_span, with_closed, with_config, with_entry, without_past, without_below, HasNone, HasRow, HasConfig, HasTables, HasNew};
ghost use Rattle.sqlite_tables.specs.Caused.{IsCausedInside, CanBegin, CanClose, CanAdd, CanSet, CanDrop, spans_of};
ghost use Rattle.sqlite_tables.specs.inside.Together.{CanBeginAll, with_spans};

use crate::parameters::fill;
use crate::stored::{StoredEvent, TupleText};
use sqlite::types::ValueRef;
use sqlite::{Alter, Error, Transaction, params};

// Adds an open span of the tuple, under the rowid.
pub(crate) fn insert_span<S: Alter>(
    tx: &mut Transaction<'_, S>,
    tuple: &TupleText,
    rev: u64,
    rowid: u64,
) -> Result<usize, Error>
    requires small { rev < 2 ^ 63 }
    requires fits { rowid < 2 ^ 63 }
    ensures same_reference { tx.new.conn.ghost_name ≡ tx.old.conn.ghost_name }
    ensures done { Changes S.Store tx.old.conn tx.new.conn result (with_span (span_between tuple.now rev 0)) rowid }
    ensures quiet { IsQuiet S.Store tx.old.conn tx.new.conn }
    ensures caused { IsCausedInside S.Store tx.old.conn tx.new.conn result (CanBegin (span_between tuple.now rev 0) rev rowid) }
{
    let namespace = tuple.namespace.as_str();
    let object = tuple.object.as_str();
    let relation = tuple.relation.as_str();
    let subject = tuple.subject.as_str();
    let added = rev as i64;
    let id = rowid as i64;
    tx.execute(
        "INSERT INTO row (rowid, namespace, object, relation, subject, added, removed) VALUES (?1, ?2, ?3, ?4, ?5, ?6, 0)",
        params![id, namespace, object, relation, subject, added],
    )
}

// Adds open spans of the tuples of eight events, under the rowids from this one on.
pub(crate) fn insert_spans<S: Alter>(
    tx: &mut Transaction<'_, S>,
    events: &[StoredEvent],
    rev: u64,
    first: u64,
) -> Result<usize, Error>
    requires small { rev < 2 ^ 63 }
    requires fits { first + 8 ≤ 2 ^ 63 }
    requires eight { length events.now ≡ 8 }
    ensures same_reference { tx.new.conn.ghost_name ≡ tx.old.conn.ghost_name }
    ensures done { Changes S.Store tx.old.conn tx.new.conn result (with_spans (spans_of rev events.now)) (first + 7) }
    ensures quiet { IsQuiet S.Store tx.old.conn tx.new.conn }
    ensures caused { IsCausedInside S.Store tx.old.conn tx.new.conn result (CanBeginAll (spans_of rev events.now) rev first) }
{
    let mut values = [ValueRef::Null; 41];
    fill(&mut values, events, rev, first);
    tx.execute(
        "INSERT INTO row (rowid, namespace, object, relation, subject, added, removed) VALUES (?2, ?3, ?4, ?5, ?6, ?1, 0), (?7, ?8, ?9, ?10, ?11, ?1, 0), (?12, ?13, ?14, ?15, ?16, ?1, 0), (?17, ?18, ?19, ?20, ?21, ?1, 0), (?22, ?23, ?24, ?25, ?26, ?1, 0), (?27, ?28, ?29, ?30, ?31, ?1, 0), (?32, ?33, ?34, ?35, ?36, ?1, 0), (?37, ?38, ?39, ?40, ?41, ?1, 0)",
        &values,
    )
}

// Ends the open span of the tuple, if there is one.
pub(crate) fn close_span<S: Alter>(
    tx: &mut Transaction<'_, S>,
    tuple: &TupleText,
    rev: u64,
) -> Result<usize, Error>
    requires { rev < 2 ^ 63 }
    ensures same_reference { tx.new.conn.ghost_name ≡ tx.old.conn.ghost_name }
    ensures done { Changes S.Store tx.old.conn tx.new.conn result (with_closed (span_between tuple.now rev 0) rev) 0 }
    ensures quiet { IsQuiet S.Store tx.old.conn tx.new.conn }
    ensures caused { IsCausedInside S.Store tx.old.conn tx.new.conn result (CanClose (span_between tuple.now rev 0) rev) }
{
    let namespace = tuple.namespace.as_str();
    let object = tuple.object.as_str();
    let relation = tuple.relation.as_str();
    let subject = tuple.subject.as_str();
    let removed = rev as i64;
    tx.execute(
        "UPDATE row SET removed = ?5 WHERE namespace = ?1 AND object = ?2 AND relation = ?3 AND subject = ?4 AND removed = 0",
        params![namespace, object, relation, subject, removed],
    )
}

// Adds a configuration.
pub(crate) fn insert_config<S: Alter>(
    tx: &mut Transaction<'_, S>,
    rev: u64,
    text: &str,
) -> Result<usize, Error>
    requires { rev < 2 ^ 63 }
    ensures same_reference { tx.new.conn.ghost_name ≡ tx.old.conn.ghost_name }
    ensures done { Changes S.Store tx.old.conn tx.new.conn result (with_config (config_at rev text.now)) 0 }
    ensures quiet { IsQuiet S.Store tx.old.conn tx.new.conn }
    ensures caused { IsCausedInside S.Store tx.old.conn tx.new.conn result (CanAdd (config_at rev text.now)) }
{
    let rev = rev as i64;
    tx.execute("INSERT INTO config VALUES (?1, ?2)", params![rev, text])
}

// Writes a value of the state.
pub(crate) fn set_value<S: Alter>(
    tx: &mut Transaction<'_, S>,
    key: &str,
    value: u64,
) -> Result<usize, Error>
    requires { value < 2 ^ 63 }
    ensures same_reference { tx.new.conn.ghost_name ≡ tx.old.conn.ghost_name }
    ensures done { Changes S.Store tx.old.conn tx.new.conn result (with_entry key.now value) 0 }
    ensures was_open { RunsOpen S.Store tx.old.conn tx.new.conn result }
    ensures quiet { IsQuiet S.Store tx.old.conn tx.new.conn }
    ensures caused { IsCausedInside S.Store tx.old.conn tx.new.conn result (CanSet key.now) }
{
    let value = value as i64;
    tx.execute(
        "UPDATE state SET value = ?2 WHERE key = ?1",
        params![key, value],
    )
}

// Takes out the spans that ended at the floor or below.
pub(crate) fn delete_spans<S: Alter>(
    tx: &mut Transaction<'_, S>,
    floor: u64,
) -> Result<usize, Error>
    requires { floor < 2 ^ 63 }
    ensures same_reference { tx.new.conn.ghost_name ≡ tx.old.conn.ghost_name }
    ensures done { Changes S.Store tx.old.conn tx.new.conn result (without_past floor) 0 }
    ensures quiet { IsQuiet S.Store tx.old.conn tx.new.conn }
    ensures caused { IsCausedInside S.Store tx.old.conn tx.new.conn result CanDrop }
{
    let floor = floor as i64;
    tx.execute(
        "DELETE FROM row WHERE removed > 0 AND removed <= ?1",
        params![floor],
    )
}

// Takes out the configurations below the revision.
pub(crate) fn delete_configs<S: Alter>(
    tx: &mut Transaction<'_, S>,
    rev: u64,
) -> Result<usize, Error>
    requires { rev < 2 ^ 63 }
    ensures same_reference { tx.new.conn.ghost_name ≡ tx.old.conn.ghost_name }
    ensures done { Changes S.Store tx.old.conn tx.new.conn result (without_below rev) 0 }
    ensures quiet { IsQuiet S.Store tx.old.conn tx.new.conn }
    ensures caused { IsCausedInside S.Store tx.old.conn tx.new.conn result CanDrop }
{
    let rev = rev as i64;
    tx.execute("DELETE FROM config WHERE rev < ?1", params![rev])
}

// ---- creation

// Makes the table of spans.
pub(crate) fn make_row<S: Alter>(tx: &mut Transaction<'_, S>) -> Result<usize, Error>
    ensures same_reference { tx.new.conn.ghost_name ≡ tx.old.conn.ghost_name }
    ensures done { Makes S.Store tx.old.conn tx.new.conn result HasNone HasRow }
    ensures quiet { IsQuiet S.Store tx.old.conn tx.new.conn }
    ensures caused { IsCausedInside S.Store tx.old.conn tx.new.conn result HasNone }
{
    tx.execute(
        "CREATE TABLE row (namespace TEXT NOT NULL, object TEXT NOT NULL, relation TEXT NOT NULL, subject TEXT NOT NULL, added INTEGER NOT NULL CHECK (added > 0), removed INTEGER NOT NULL, CHECK (removed = 0 OR removed > added), PRIMARY KEY (namespace, object, relation, subject, added)) STRICT",
        &[],
    )
}

// Makes the table of configurations.
pub(crate) fn make_config<S: Alter>(tx: &mut Transaction<'_, S>) -> Result<usize, Error>
    ensures same_reference { tx.new.conn.ghost_name ≡ tx.old.conn.ghost_name }
    ensures done { Makes S.Store tx.old.conn tx.new.conn result HasRow HasConfig }
    ensures quiet { IsQuiet S.Store tx.old.conn tx.new.conn }
    ensures caused { IsCausedInside S.Store tx.old.conn tx.new.conn result HasRow }
{
    tx.execute(
        "CREATE TABLE config (rev INTEGER PRIMARY KEY NOT NULL, text TEXT NOT NULL) STRICT",
        &[],
    )
}

// Makes the table of the state.
pub(crate) fn make_state<S: Alter>(tx: &mut Transaction<'_, S>) -> Result<usize, Error>
    ensures same_reference { tx.new.conn.ghost_name ≡ tx.old.conn.ghost_name }
    ensures done { Makes S.Store tx.old.conn tx.new.conn result HasConfig HasTables }
    ensures quiet { IsQuiet S.Store tx.old.conn tx.new.conn }
    ensures caused { IsCausedInside S.Store tx.old.conn tx.new.conn result HasConfig }
{
    tx.execute(
        "CREATE TABLE state (key TEXT NOT NULL PRIMARY KEY, value INTEGER NOT NULL) STRICT",
        &[],
    )
}

// Writes the first values of the state.
pub(crate) fn init_state<S: Alter>(tx: &mut Transaction<'_, S>, number: u64) -> Result<usize, Error>
    requires { number < 2 ^ 63 }
    ensures same_reference { tx.new.conn.ghost_name ≡ tx.old.conn.ghost_name }
    ensures done { Makes S.Store tx.old.conn tx.new.conn result HasTables (HasNew number) }
    ensures was_open { RunsOpen S.Store tx.old.conn tx.new.conn result }
    ensures quiet { IsQuiet S.Store tx.old.conn tx.new.conn }
    ensures caused { IsCausedInside S.Store tx.old.conn tx.new.conn result HasTables }
{
    let number = number as i64;
    tx.execute(
        "INSERT INTO state VALUES ('floor', 0), ('format', 1), ('newest', 0), ('store', ?1)",
        params![number],
    )
}
