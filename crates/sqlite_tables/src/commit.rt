//! The transactions: a store is created, written, configured or trimmed whole or not at all.
ghost use Rattle.std.specs.Prelude.{◌≡◌, ◌^◌, ◌<◌, ◌≤◌, ◌+◌, ◌-◌, ◌*◌, length, take, false, IsTrue, OnOk, OnErr, Err};
ghost use Rattle.sqlite.specs.declared.error.Error.TheVariants.{SqliteFailure};
ghost use Rattle.sqlite.specs.declared.error.ErrorCode.TheVariants.{NameTaken};
ghost use Rattle.sqlite_tables.specs.Numbered.{span_rowid};
ghost use Rattle.sqlite_tables.specs.Steps.{Changes, Makes, RunsOpen, IsQuiet, Stores, Undoes, LeavesAtMost, HasNone, HasNew, after_event, after_events, after_write, after_configure, after_drop, after_trim};
ghost use Rattle.sqlite_tables.specs.Leaves.{HoldsNew, IsBlank, MayLeaveNew, LeavesAtMostNew};
ghost use Rattle.sqlite_tables.specs.Caused.{IsCaused, IsCausedInside, CanApply, CanTake, CanConfigure, CanDrop, spans_of};
ghost use Rattle.sqlite_tables.specs.declared.stored.SpanChange.TheVariants.{Begins};
ghost use Rattle.sqlite_tables.specs.inside.Together.{AllBegin, AreTogether, CanBeginAll};

use crate::format::is_blank;
use crate::statement::{
    close_span, delete_configs, delete_spans, init_state, insert_config, insert_span, insert_spans,
    make_config, make_row, make_state, set_value,
};
use crate::stored::{SpanChange, StoredEvent};
use sqlite::{Alter, Connection, Error, ErrorCode, Transaction};

// Does the event at this place of its commit.
fn apply_event<S: Alter>(
    tx: &mut Transaction<'_, S>,
    event: &StoredEvent,
    rev: u64,
    at: usize,
) -> Result<(), Error>
    requires small { rev ≤ 2 ^ 40 }
    requires positive { 0 < rev }
    requires few { at < 256 }
    ensures same_reference { tx.new.conn.ghost_name ≡ tx.old.conn.ghost_name }
    ensures done { Changes S.Store tx.old.conn tx.new.conn result (after_event rev event.now) (span_rowid rev at) }
    ensures quiet { IsQuiet S.Store tx.old.conn tx.new.conn }
    ensures caused { IsCausedInside S.Store tx.old.conn tx.new.conn result (CanApply event.now rev at) }
{
    let rowid = 256 * (rev - 1) + at as u64 + 1;
    match event.change {
        SpanChange::Begins => {
            insert_span(tx, &event.tuple, rev, rowid)?;
        }
        SpanChange::BeginsAnew => {
            close_span(tx, &event.tuple, rev)?;
            insert_span(tx, &event.tuple, rev, rowid)?;
        }
        SpanChange::Ends => {
            close_span(tx, &event.tuple, rev)?;
        }
    }
    Ok(())
}

fn begins(event: &StoredEvent) -> bool
    ensures { IsTrue result → event.now.change ≡ Begins }
{
    match event.change {
        SpanChange::Begins => true,
        _ => false,
    }
}

fn all_begin(events: &[StoredEvent]) -> bool
    ensures { IsTrue result → AllBegin events.now }
{
    for event in events {
        if !begins(event) {
            return false;
        }
    }
    true
}

// How many of the events go into one statement: the first eight if they only begin spans, or else the first.
fn together(events: &[StoredEvent]) -> usize
    requires { 0 < length events.now }
    ensures some { 0 < result }
    ensures within { result ≤ length events.now }
    ensures together { AreTogether (take result events.now) }
{
    if events.len() < 8 {
        return 1;
    }
    if all_begin(&events[..8]) { 8 } else { 1 }
}

// Does the events, which stand in their commit from this place on.
fn apply_some<S: Alter>(
    tx: &mut Transaction<'_, S>,
    events: &[StoredEvent],
    rev: u64,
    at: usize,
) -> Result<(), Error>
    requires small { rev ≤ 2 ^ 40 }
    requires positive { 0 < rev }
    requires few { at + length events.now ≤ 256 }
    requires together { AreTogether events.now }
    ensures same_reference { tx.new.conn.ghost_name ≡ tx.old.conn.ghost_name }
    ensures done { Changes S.Store tx.old.conn tx.new.conn result (after_events rev events.now) (256 * (rev - 1) + at + length events.now) }
    ensures quiet { IsQuiet S.Store tx.old.conn tx.new.conn }
    ensures caused { IsCausedInside S.Store tx.old.conn tx.new.conn result (CanBeginAll (spans_of rev events.now) rev (span_rowid rev at)) }
{
    if events.len() == 1 {
        apply_event(tx, &events[0], rev, at)?;
    } else {
        let first = 256 * (rev - 1) + at as u64 + 1;
        insert_spans(tx, events, rev, first)?;
    }
    Ok(())
}

// Does the events in turn.
fn apply_all<S: Alter>(
    tx: &mut Transaction<'_, S>,
    events: &[StoredEvent],
    rev: u64,
) -> Result<(), Error>
    requires small { rev ≤ 2 ^ 40 }
    requires positive { 0 < rev }
    requires few { length events.now ≤ 256 }
    ensures same_reference { tx.new.conn.ghost_name ≡ tx.old.conn.ghost_name }
    ensures done { Changes S.Store tx.old.conn tx.new.conn result (after_events rev events.now) (256 * rev) }
    ensures quiet { IsQuiet S.Store tx.old.conn tx.new.conn }
    ensures caused { IsCausedInside S.Store tx.old.conn tx.new.conn result (CanTake events.now rev) }
{
    let mut at = 0;
    while at < events.len() {
        let count = together(&events[at..]);
        apply_some(tx, &events[at..at + count], rev, at)?;
        at += count;
    }
    Ok(())
}

/// Stores the events of one commit at its revision, which is the newest from then on. The span that an event begins
/// is stored under a rowid above those of the revisions before.
pub fn write<S: Alter>(
    conn: &mut Connection<S>,
    events: &[StoredEvent],
    rev: u64,
) -> Result<(), Error>
    requires small { rev ≤ 2 ^ 40 }
    requires positive { 0 < rev }
    requires few { length events.now ≤ 256 }
    requires idle { conn.old.in_transaction ≡ false }
    ensures idle { conn.new.in_transaction ≡ false }
    ensures done { OnOk result (Stores S.Store conn.old conn.new (after_write rev events.now) (256 * rev)) }
    ensures undone { OnErr result (Undoes S.Store conn.old conn.new) }
    ensures crash { LeavesAtMost S.Store conn.old conn.new (after_write rev events.now) (256 * rev) }
    ensures caused { IsCaused S.Store conn.old conn.new result (CanTake events.now rev) }
{
    let mut tx = conn.transaction();
    apply_all(&mut tx, events, rev)?;
    set_value(&mut tx, "newest", rev)?;
    tx.commit()?;
    Ok(())
}

/// Stores a configuration at its revision, which is the newest from then on.
pub fn configure<S: Alter>(conn: &mut Connection<S>, text: &str, rev: u64) -> Result<(), Error>
    requires small { rev ≤ 2 ^ 40 }
    requires positive { 0 < rev }
    requires idle { conn.old.in_transaction ≡ false }
    ensures idle { conn.new.in_transaction ≡ false }
    ensures done { OnOk result (Stores S.Store conn.old conn.new (after_configure rev text.now) 0) }
    ensures undone { OnErr result (Undoes S.Store conn.old conn.new) }
    ensures crash { LeavesAtMost S.Store conn.old conn.new (after_configure rev text.now) 0 }
    ensures caused { IsCaused S.Store conn.old conn.new result (CanConfigure text.now rev) }
{
    let mut tx = conn.transaction();
    insert_config(&mut tx, rev, text)?;
    set_value(&mut tx, "newest", rev)?;
    tx.commit()?;
    Ok(())
}

// Takes out what no revision from the floor on looks at.
fn drop_past<S: Alter>(tx: &mut Transaction<'_, S>, floor: u64, first: u64) -> Result<(), Error>
    requires { (floor < 2 ^ 63) × (first < 2 ^ 63) }
    ensures same_reference { tx.new.conn.ghost_name ≡ tx.old.conn.ghost_name }
    ensures done { Changes S.Store tx.old.conn tx.new.conn result (after_drop floor first) 0 }
    ensures quiet { IsQuiet S.Store tx.old.conn tx.new.conn }
    ensures caused { IsCausedInside S.Store tx.old.conn tx.new.conn result CanDrop }
{
    delete_spans(tx, floor)?;
    delete_configs(tx, first)?;
    Ok(())
}

/// Raises the floor and takes out what no revision from it on looks at. `first` is the revision of the last
/// configuration at or below the floor, or 0 where there is none.
pub fn trim<S: Alter>(conn: &mut Connection<S>, floor: u64, first: u64) -> Result<(), Error>
    requires small { (floor < 2 ^ 63) × (first < 2 ^ 63) }
    requires idle { conn.old.in_transaction ≡ false }
    ensures idle { conn.new.in_transaction ≡ false }
    ensures done { OnOk result (Stores S.Store conn.old conn.new (after_trim floor first) 0) }
    ensures undone { OnErr result (Undoes S.Store conn.old conn.new) }
    ensures crash { LeavesAtMost S.Store conn.old conn.new (after_trim floor first) 0 }
    ensures caused { IsCaused S.Store conn.old conn.new result CanDrop }
{
    let mut tx = conn.transaction();
    drop_past(&mut tx, floor, first)?;
    set_value(&mut tx, "floor", floor)?;
    tx.commit()?;
    Ok(())
}

// Makes the tables and the first values.
fn make_all<S: Alter>(tx: &mut Transaction<'_, S>, number: u64) -> Result<(), Error>
    requires { number < 2 ^ 63 }
    ensures same_reference { tx.new.conn.ghost_name ≡ tx.old.conn.ghost_name }
    ensures done { Makes S.Store tx.old.conn tx.new.conn result HasNone (HasNew number) }
    ensures was_open { RunsOpen S.Store tx.old.conn tx.new.conn result }
    ensures quiet { IsQuiet S.Store tx.old.conn tx.new.conn }
    ensures caused { IsCausedInside S.Store tx.old.conn tx.new.conn result HasNone }
{
    make_row(tx)?;
    make_config(tx)?;
    make_state(tx)?;
    init_state(tx, number)?;
    Ok(())
}

// Makes them in one transaction.
fn make_store<S: Alter>(conn: &mut Connection<S>, number: u64) -> Result<(), Error>
    requires small { number < 2 ^ 63 }
    requires idle { conn.old.in_transaction ≡ false }
    ensures idle { conn.new.in_transaction ≡ false }
    ensures done { OnOk result (IsBlank S.Store conn.old → HoldsNew S.Store conn.new number) }
    ensures undone { OnErr result (Undoes S.Store conn.old conn.new) }
    ensures crash { MayLeaveNew S.Store conn.old conn.new number }
    ensures caused { IsCaused S.Store conn.old conn.new result HasNone }
{
    let mut tx = conn.transaction();
    make_all(&mut tx, number)?;
    tx.commit()?;
    Ok(())
}

/// Makes the tables of a store that has this number and no commit. Where there is a table, an index or a view
/// already it is refused as [`ErrorCode::NameTaken`].
pub fn create<S: Alter>(conn: &mut Connection<S>, number: u64) -> Result<(), Error>
    requires small { number < 2 ^ 63 }
    requires idle { conn.old.in_transaction ≡ false }
    ensures idle { conn.new.in_transaction ≡ false }
    ensures done { OnOk result (IsBlank S.Store conn.old × HoldsNew S.Store conn.new number) }
    ensures refused { ¬ (IsBlank S.Store conn.old) → result ≡ Err (SqliteFailure NameTaken) }
    ensures untouched { ¬ (IsBlank S.Store conn.old) → conn.new ≡ conn.old }
    ensures undone { OnErr result (IsBlank S.Store conn.old → Undoes S.Store conn.old conn.new) }
    ensures crash { LeavesAtMostNew S.Store conn.old conn.new number }
    ensures caused { IsCaused S.Store conn.old conn.new result HasNone }
{
    if !is_blank(conn) {
        return Err(Error::SqliteFailure(ErrorCode::NameTaken));
    }
    make_store(conn, number)
}
