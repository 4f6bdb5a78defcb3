//! The parameters of the statement that adds several spans.
ghost use Rattle.std.specs.Prelude.{◌≡◌, ◌^◌, ◌+◌, ◌*◌, ◌<◌, ◌≤◌, ◌++◌, length, take};
ghost use Rattle.sqlite.specs.Values.{bound};
ghost use Rattle.sqlite_tables.specs.inside.Together.{row_values, all_values};

use crate::stored::{StoredEvent, TupleText};
use sqlite::types::ValueRef;

// Writes the values of a row from the place on.
fn fill_row<'a>(values: &mut [ValueRef<'a>], at: usize, tuple: &'a TupleText, rowid: u64)
    requires fits { rowid < 2 ^ 63 }
    requires room { at + 5 ≤ length values.old }
    ensures front { bound (take (at + 5) values.new) ≡ bound (take at values.old) ++ row_values rowid tuple.now }
{
    values[at] = ValueRef::Int(rowid as i64);
    values[at + 1] = ValueRef::Text(tuple.namespace.as_bytes());
    values[at + 2] = ValueRef::Text(tuple.object.as_bytes());
    values[at + 3] = ValueRef::Text(tuple.relation.as_bytes());
    values[at + 4] = ValueRef::Text(tuple.subject.as_bytes());
}

// Writes the revision and the values of a row for each event, under the rowids from this one on.
pub(crate) fn fill<'a>(values: &mut [ValueRef<'a>], events: &'a [StoredEvent], rev: u64, first: u64)
    requires small { rev < 2 ^ 63 }
    requires fits { first + length events.now ≤ 2 ^ 63 }
    requires room { length values.old ≡ 5 * length events.now + 1 }
    ensures { bound values.new ≡ all_values rev first events.now }
{
    values[0] = ValueRef::Int(rev as i64);
    for at in 0..events.len() {
        fill_row(values, 5 * at + 1, &events[at].tuple, first + at as u64);
    }
}
