//! What the tables hold, read whole.
ghost use Rattle.std.specs.Prelude.{◌≡◌, ◌≢◌, ◌<◌, ◌-◌, ◌^◌, ℕ, All, false, length, map, slice_index, IsTrue, IfErr, IfOk, OnOk};
ghost use Rattle.std.specs.List.Sorted.{IsStrictlyIncreasing};
ghost use Rattle.sqlite_tables.specs.Tables.{Contents, HoldsCell, AsksRowids, span_cells, config_cells, entry_cells, id_cells, one, two, six};
ghost use Rattle.sqlite_tables.specs.Stored.{span_in, config_row_in, entry_in, AreSpans, AreConfigs, AreEntries, Loads, IsInOrder};
ghost use Rattle.sqlite_tables.specs.Steps.{Stays};
ghost use Rattle.sqlite_tables.specs.Caused.{IsCaused};
ghost use Rattle.sqlite_tables.specs.Reading.{IsClean, HasFormat, HoldsNow, IsHeld, IsSame, LeavesNothing, LeavesAsRead, OverFormat, Finds, KeyedAsAsked, AllKeyed, GreatestAsAsked, EndsAt, CanLoad, Unread, HasNumber, ShowsSpan, ShowsConfig, ShowsEntry, ShowsId, AreShown, StaysAsRead};

use crate::format::is_format;
use crate::stored::{Stored, StoredConfig, StoredEntry, StoredSpan, TupleText};
use sqlite::{Alter, Connection, Error, ErrorCode, Row};
use std::alloc::Global;

// The number in a column, from 0.
fn read_number(row: &Row, at: usize) -> Result<u64, Error>
    ensures value { IfOk result (HoldsCell row.now at) }
    ensures fits { IfOk result (λ n. n < 2 ^ 63) }
    ensures unread { Unread result (HasNumber row.now at) }
{
    let number: i64 = row.get(at)?;
    match u64::try_from(number) {
        Ok(number) => Ok(number),
        Err(_) => Err(Error::IntegralValueOutOfRange(at)),
    }
}

fn read_span(row: &Row) -> Result<StoredSpan, Error>
    ensures value { IfOk result (λ s. six row.now ≡ span_cells (span_in s)) }
    ensures unread { Unread result (ShowsSpan row.now) }
{
    Ok(StoredSpan {
        tuple: TupleText {
            namespace: row.get(0)?,
            object: row.get(1)?,
            relation: row.get(2)?,
            subject: row.get(3)?,
        },
        added: read_number(row, 4)?,
        removed: read_number(row, 5)?,
    })
}

fn read_config(row: &Row) -> Result<StoredConfig, Error>
    ensures value { IfOk result (λ c. two row.now ≡ config_cells (config_row_in c)) }
    ensures unread { Unread result (ShowsConfig row.now) }
{
    Ok(StoredConfig {
        rev: read_number(row, 0)?,
        text: row.get(1)?,
    })
}

fn read_entry(row: &Row) -> Result<StoredEntry, Error>
    ensures value { IfOk result (λ e. two row.now ≡ entry_cells (entry_in e)) }
    ensures unread { Unread result (ShowsEntry row.now) }
{
    Ok(StoredEntry {
        key: row.get(0)?,
        value: read_number(row, 1)?,
    })
}

fn read_configs(alloc: Global, rows: &[Row]) -> Result<Vec<StoredConfig>, Error>
    ensures value { IfOk result (λ configs. map two rows.now ≡ map config_cells (map config_row_in configs.items)) }
    ensures unread { Unread result (AreShown ShowsConfig rows.now) }
{
    let mut configs = Vec::new(alloc);
    for row in rows {
        configs.push(read_config(row)?)?;
    }
    Ok(configs)
}

fn read_entries(alloc: Global, rows: &[Row]) -> Result<Vec<StoredEntry>, Error>
    ensures value { IfOk result (λ entries. map two rows.now ≡ map entry_cells (map entry_in entries.items)) }
    ensures unread { Unread result (AreShown ShowsEntry rows.now) }
{
    let mut entries = Vec::new(alloc);
    for row in rows {
        entries.push(read_entry(row)?)?;
    }
    Ok(entries)
}

// ---- the rowids

fn read_ids(alloc: Global, rows: &[Row]) -> Result<Vec<u64>, Error>
    ensures value { IfOk result (λ ids. map one rows.now ≡ map id_cells ids.items) }
    ensures fits { IfOk result (λ ids. All (λ n. n < 2 ^ 63) ids.items) }
    ensures unread { Unread result (AreShown ShowsId rows.now) }
{
    let mut ids = Vec::new(alloc);
    for row in rows {
        ids.push(read_number(row, 0)?)?;
    }
    Ok(ids)
}

fn are_rising(ids: &[u64]) -> bool
    ensures yes { IsTrue result → IsStrictlyIncreasing ids.now }
    ensures no { result ≡ false → ¬ IsStrictlyIncreasing ids.now }
{
    for at in 1..ids.len() {
        if ids[at] <= ids[at - 1] {
            return false;
        }
    }
    true
}

fn last_of(ids: &[u64]) -> u64
    ensures { result ≡ slice_index ids.now (length ids.now - 1) }
{
    if ids.is_empty() {
        return 0;
    }
    ids[ids.len() - 1]
}

// The greatest rowid of a table, or 0 where there is none. Refuses a table in which one is below 0 or comes twice.
fn check_rowids<S: Alter>(alloc: Global, conn: &mut Connection<S>, sql: &str) -> Result<u64, Error>
    requires { (tree : ℕ) × AsksRowids sql.now tree }
    ensures mode { conn.old.in_transaction ≡ false → conn.new.in_transaction ≡ false }
    ensures found { OverFormat S.Store conn.old conn.new (OnOk result (KeyedAsAsked S.Store conn.old sql.now)) }
    ensures last { OverFormat S.Store conn.old conn.new (IfOk result (GreatestAsAsked S.Store conn.old sql.now)) }
    ensures same { OverFormat S.Store conn.old conn.new (OnOk result (IsSame S.Store conn.old conn.new)) }
    ensures left { StaysAsRead S.Store conn.old conn.new }
    ensures caused { IsCaused S.Store conn.old conn.new result CanLoad }
    ensures crash { LeavesAsRead S.Store conn.old conn.new }
{
    let rows = conn.query_all(sql, &[])?;
    let ids = read_ids(alloc, rows.as_slice())?;
    if are_rising(ids.as_slice()) {
        Ok(last_of(ids.as_slice()))
    } else {
        Err(Error::SqliteFailure(ErrorCode::DatabaseCorrupt))
    }
}

// The greatest rowid of a span.
fn check_tables<S: Alter>(alloc: Global, conn: &mut Connection<S>) -> Result<u64, Error>
    ensures mode { conn.old.in_transaction ≡ false → conn.new.in_transaction ≡ false }
    ensures found { OverFormat S.Store conn.old conn.new (OnOk result (AllKeyed S.Store conn.old)) }
    ensures last { OverFormat S.Store conn.old conn.new (IfOk result (EndsAt S.Store conn.old)) }
    ensures same { OverFormat S.Store conn.old conn.new (OnOk result (IsSame S.Store conn.old conn.new)) }
    ensures left { StaysAsRead S.Store conn.old conn.new }
    ensures caused { IsCaused S.Store conn.old conn.new result CanLoad }
    ensures crash { LeavesAsRead S.Store conn.old conn.new }
{
    let last = check_rowids(alloc, conn, "SELECT rowid FROM row ORDER BY rowid")?;
    check_rowids(alloc, conn, "SELECT rowid FROM config ORDER BY rowid")?;
    check_rowids(alloc, conn, "SELECT rowid FROM state ORDER BY rowid")?;
    Ok(last)
}

// ---- the rows

// The spans in the order of their keys, read one row at a time.
fn load_spans<S: Alter>(alloc: Global, conn: &mut Connection<S>) -> Result<Vec<StoredSpan>, Error>
    ensures mode { conn.old.in_transaction ≡ false → conn.new.in_transaction ≡ false }
    ensures found { Finds S.Store conn.old conn.new result (λ trees v. AreSpans trees (map span_in v.items)) }
    ensures same { OverFormat S.Store conn.old conn.new (OnOk result (IsSame S.Store conn.old conn.new)) }
    ensures left { StaysAsRead S.Store conn.old conn.new }
    ensures caused { IsCaused S.Store conn.old conn.new result CanLoad }
    ensures crash { LeavesAsRead S.Store conn.old conn.new }
{
    let mut spans = Vec::new(alloc);
    let mut rows = conn.query(
        "SELECT namespace, object, relation, subject, added, removed FROM row ORDER BY namespace, object, relation, subject, added",
        &[],
    )?;
    'rows: for _ in 0..u64::MAX {
        rows.advance()?;
        let Some(row) = rows.get() else {
            return Ok(spans);
        };
        spans.push(read_span(row)?)?;
    }
    // No memory holds so many.
    Err(Error::SqliteFailure(ErrorCode::OutOfMemory))
}

// The configurations by revision.
fn load_configs<S: Alter>(
    alloc: Global,
    conn: &mut Connection<S>,
) -> Result<Vec<StoredConfig>, Error>
    ensures mode { conn.old.in_transaction ≡ false → conn.new.in_transaction ≡ false }
    ensures found { Finds S.Store conn.old conn.new result (λ trees v. AreConfigs trees (map config_row_in v.items)) }
    ensures same { OverFormat S.Store conn.old conn.new (OnOk result (IsSame S.Store conn.old conn.new)) }
    ensures left { StaysAsRead S.Store conn.old conn.new }
    ensures caused { IsCaused S.Store conn.old conn.new result CanLoad }
    ensures crash { LeavesAsRead S.Store conn.old conn.new }
{
    let rows = conn.query_all("SELECT rev, text FROM config ORDER BY rev", &[])?;
    read_configs(alloc, rows.as_slice())
}

// The state by key.
fn load_entries<S: Alter>(
    alloc: Global,
    conn: &mut Connection<S>,
) -> Result<Vec<StoredEntry>, Error>
    ensures mode { conn.old.in_transaction ≡ false → conn.new.in_transaction ≡ false }
    ensures found { Finds S.Store conn.old conn.new result (λ trees v. AreEntries trees (map entry_in v.items)) }
    ensures same { OverFormat S.Store conn.old conn.new (OnOk result (IsSame S.Store conn.old conn.new)) }
    ensures left { StaysAsRead S.Store conn.old conn.new }
    ensures caused { IsCaused S.Store conn.old conn.new result CanLoad }
    ensures crash { LeavesAsRead S.Store conn.old conn.new }
{
    let rows = conn.query_all("SELECT key, value FROM state ORDER BY key", &[])?;
    read_entries(alloc, rows.as_slice())
}

/// All that the tables hold. Where the tables are not those of the format it is refused as
/// [`ErrorCode::NotADatabase`], and where a number is below 0, a text is no UTF-8, or a rowid is below 0 or comes
/// twice as another error.
pub fn load<S: Alter>(alloc: Global, conn: &mut Connection<S>) -> Result<Stored, Error>
    requires idle { conn.old.in_transaction ≡ false }
    ensures idle { conn.new.in_transaction ≡ false }
    ensures held { IsClean S.Store conn.new → (h : Contents) → HoldsNow S.Store conn.old h → IfOk result (Loads h) }
    ensures found { IsClean S.Store conn.new → IfOk result (IsHeld S.Store conn.old) }
    ensures ordered { OverFormat S.Store conn.old conn.new (IfOk result IsInOrder) }
    ensures last { OverFormat S.Store conn.old conn.new (IfOk result (λ s. EndsAt S.Store conn.old s.last_rowid)) }
    ensures same { OverFormat S.Store conn.old conn.new (OnOk result (IsSame S.Store conn.old conn.new)) }
    ensures undone { Stays S.Store conn.old conn.new }
    ensures caused { IsCaused S.Store conn.old conn.new result CanLoad }
    ensures crash { LeavesNothing S.Store conn.old conn.new }
{
    if !is_format(conn) {
        return Err(Error::SqliteFailure(ErrorCode::NotADatabase));
    }
    let last_rowid = check_tables(alloc, conn)?;
    let spans = load_spans(alloc, conn)?;
    let configs = load_configs(alloc, conn)?;
    let entries = load_entries(alloc, conn)?;
    Ok(Stored {
        spans,
        configs,
        entries,
        last_rowid,
    })
}
