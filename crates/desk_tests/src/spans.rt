//! Spans of tuples that are put again, and a trim: the program does neither yet.
ghost use Rattle.std.specs.Prelude.{◌≡◌, false, IfOk};

use sqlite::{Connection, Error, MemStore};
use sqlite_tables::{
    Probe, SpanChange, Stored, StoredEvent, TupleText, ask, configure, create, load, trim, write,
};
use std::alloc::{AllocError, Global};
use std::test::Fail;

fn event(alloc: Global, change: SpanChange, subject: &str) -> Result<StoredEvent, AllocError> {
    Ok(StoredEvent {
        change,
        tuple: TupleText {
            namespace: String::from_str(alloc, "group")?,
            object: String::from_str(alloc, "eng")?,
            relation: String::from_str(alloc, "member")?,
            subject: String::from_str(alloc, subject)?,
        },
    })
}

fn created(alloc: Global) -> Result<Connection<MemStore>, Error>
    ensures { IfOk result (λ conn. conn.in_transaction ≡ false) }
{
    let mut conn = Connection::open_in_memory(alloc)?;
    create(&mut conn, 7)?;
    Ok(conn)
}

// Ann and bob come at 1; at 2 bob goes and ann is put again; 3 is a configuration.
fn write_three(alloc: Global, conn: &mut Connection<MemStore>) -> Result<(), Error>
    requires { conn.old.in_transaction ≡ false }
    ensures { conn.new.in_transaction ≡ false }
{
    let first = vec![in alloc;
        event(alloc, SpanChange::Begins, "user:bob")?,
        event(alloc, SpanChange::BeginsAnew, "user:ann")?,
    ]?;
    write(conn, first.as_slice(), 1)?;
    let second = vec![in alloc;
        event(alloc, SpanChange::Ends, "user:bob")?,
        event(alloc, SpanChange::BeginsAnew, "user:ann")?,
    ]?;
    write(conn, second.as_slice(), 2)?;
    configure(conn, "{\"namespaces\":[]}", 3)
}

fn written(alloc: Global) -> Result<Stored, Error> {
    let mut conn = created(alloc)?;
    write_three(alloc, &mut conn)?;
    load(alloc, &mut conn)
}

fn trimmed(alloc: Global) -> Result<Stored, Error> {
    let mut conn = created(alloc)?;
    write_three(alloc, &mut conn)?;
    trim(&mut conn, 3, 3)?;
    load(alloc, &mut conn)
}

// Each span, configuration and value, as they are loaded.
fn stored_text(alloc: Global, stored: &Stored) -> Result<String, AllocError> {
    let mut text = String::new(alloc);
    for span in stored.spans.as_slice() {
        let subject = span.tuple.subject.as_str();
        let (added, removed) = (span.added, span.removed);
        text.push_str(format!(in alloc; "{subject} {added} {removed};")?.as_str())?;
    }
    for config in stored.configs.as_slice() {
        let (rev, config) = (config.rev, config.text.as_str());
        text.push_str(format!(in alloc; "{rev} {config};")?.as_str())?;
    }
    for entry in stored.entries.as_slice() {
        let (key, value) = (entry.key.as_str(), entry.value);
        text.push_str(format!(in alloc; "{key} {value};")?.as_str())?;
    }
    Ok(text)
}

fn has(alloc: Global, stored: &Stored, wanted: &str) -> Result<bool, AllocError> {
    Ok(stored_text(alloc, stored)?.as_str() == wanted)
}

#[test]
fn spans_end_where_events_come(rt: HostRuntime) -> Result<(), Fail> {
    let alloc = rt.alloc();
    let wanted =
        "user:ann 1 2;user:ann 2 0;user:bob 1 2;3 {\"namespaces\":[]};floor 0;format 1;newest 3;store 7;";
    assert!(rt; has(alloc, &written(alloc)?, wanted)?);
    Ok(())
}

#[test]
fn a_trim_keeps_what_is_open(rt: HostRuntime) -> Result<(), Fail> {
    let alloc = rt.alloc();
    let wanted = "user:ann 2 0;3 {\"namespaces\":[]};floor 3;format 1;newest 3;store 7;";
    assert!(rt; has(alloc, &trimmed(alloc)?, wanted)?);
    Ok(())
}

#[test]
fn a_connection_in_memory_is_open(rt: HostRuntime) -> Result<(), Fail> {
    let alloc = rt.alloc();
    let mut conn = created(alloc)?;
    assert!(rt; ask(&mut conn) == Probe::Open);
    write_three(alloc, &mut conn)?;
    assert!(rt; ask(&mut conn) == Probe::Open);
    Ok(())
}

// The event at place 1 of revision 2 begins the last span.
#[test]
fn the_last_rowid_is_of_its_revision(rt: HostRuntime) -> Result<(), Fail> {
    let alloc = rt.alloc();
    assert!(rt; written(alloc)?.last_rowid == 258);
    Ok(())
}
