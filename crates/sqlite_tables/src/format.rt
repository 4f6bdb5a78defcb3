//! Whether a schema is that of the format.
ghost use Rattle.std.specs.Prelude.{◌≡◌, ◌≢◌, ◌<◌, ◌-◌, pos, [], ◌∷◌, false, true, None, Some, IsTrue, IfSome};
ghost use Rattle.sqlite.specs.declared.types.Value.TheVariants.{Null, Int};
ghost use Rattle.sqlite.specs.Collation.TheVariants.{Binary};
ghost use Rattle.sqlite.specs.Term.{Term, lit, col, op2};
ghost use Rattle.sqlite_schema.specs.Code.{term_to};
ghost use Rattle.sqlite_sql.specs.declared.ops.BinaryOp.TheVariants.{Compare, Or};
ghost use Rattle.sqlite_sql.specs.declared.ops.CompareOp.TheVariants.{Eq, Gt};
ghost use Rattle.sqlite.specs.State.{IsLive};
ghost use Rattle.sqlite.specs.Held.{state};
ghost use Rattle.sqlite_value.specs.Keys.{plain};
ghost use Rattle.sqlite_tables.specs.Format.{IsBare, HasKey, HasRowidKey, index_of, required, schema, row_table, config_table, state_table, row_index, state_index};
ghost use Rattle.sqlite_tables.specs.Leaves.{IsBlank};
ghost use Rattle.sqlite_tables.specs.Reading.{HasFormat};

use sqlite::{Alter, Connection};
use sqlite_schema::code::{Op, Terms};
use sqlite_schema::schema::{Column, Index, Kind, Schema, Table};
use sqlite_sql::ops::{BinaryOp, CompareOp};
use sqlite_value::keys::{Collation, Order};
use sqlite_value::value::Value;

fn is_null(value: &Value) -> bool
    ensures yes { IsTrue result → value.now ≡ Null }
    ensures no { result ≡ false → value.now ≢ Null }
{
    match value {
        Value::Null => true,
        _ => false,
    }
}

fn is_column(column: &Column, name: &[u8], kind: Kind) -> bool
    ensures yes { IsTrue result → column.now ≡ required name.now kind }
    ensures no { result ≡ false → column.now ≢ required name.now kind }
{
    column.name.as_slice() == name
        && column.kind == kind
        && column.is_strict
        && column.not_null
        && is_null(&column.default)
        && column.collation == Collation::Binary
}

// ---- the checks of the spans, each term read to a depth

fn is_operator(found: BinaryOp, how: BinaryOp) -> bool
    ensures yes { IsTrue result → found ≡ how }
    ensures no { result ≡ false → found ≢ how }
{
    found == how
}

// The places of the two operands.
fn operands(nodes: &[Op], depth: usize, at: usize, how: BinaryOp) -> Option<(usize, usize)>
    ensures found { IfSome result (λ it. (0 < depth) × (term_to nodes.now depth at ≡ op2 how (term_to nodes.now (depth - 1) it.0) (term_to nodes.now (depth - 1) it.1))) }
    ensures none { result ≡ None → (a : Term) → (b : Term) → term_to nodes.now depth at ≢ op2 how a b }
{
    if depth == 0 {
        return None;
    }
    match nodes.get(at) {
        Some(Op::Binary(found, a, b)) => {
            if is_operator(*found, how) {
                Some((*a, *b))
            } else {
                None
            }
        }
        _ => None,
    }
}

fn is_place(nodes: &[Op], depth: usize, at: usize, place: usize) -> bool
    ensures yes { IsTrue result → term_to nodes.now depth at ≡ col 1 place }
    ensures no { result ≡ false → term_to nodes.now depth at ≢ col 1 place }
{
    if depth == 0 {
        return false;
    }
    match nodes.get(at) {
        Some(Op::Column(slot, found)) => *slot == 1 && *found == place,
        _ => false,
    }
}

fn is_zero(nodes: &[Op], depth: usize, at: usize) -> bool
    ensures yes { IsTrue result → term_to nodes.now depth at ≡ lit (Int (pos 0)) }
    ensures no { result ≡ false → term_to nodes.now depth at ≢ lit (Int (pos 0)) }
{
    if depth == 0 {
        return false;
    }
    match nodes.get(at) {
        Some(Op::Literal(Value::Int(n))) => *n == 0,
        _ => false,
    }
}

// It compares the column with zero.
fn is_to_zero(nodes: &[Op], depth: usize, at: usize, how: CompareOp, place: usize) -> bool
    ensures yes { IsTrue result → term_to nodes.now depth at ≡ op2 (Compare how Binary) (col 1 place) (lit (Int (pos 0))) }
    ensures no { result ≡ false → term_to nodes.now depth at ≢ op2 (Compare how Binary) (col 1 place) (lit (Int (pos 0))) }
{
    let how = BinaryOp::Compare(how, Collation::Binary);
    match operands(nodes, depth, at, how) {
        Some((a, b)) => is_place(nodes, depth - 1, a, place) && is_zero(nodes, depth - 1, b),
        None => false,
    }
}

// The end is above the beginning.
fn is_rising(nodes: &[Op], depth: usize, at: usize) -> bool
    ensures yes { IsTrue result → term_to nodes.now depth at ≡ op2 (Compare Gt Binary) (col 1 6) (col 1 5) }
    ensures no { result ≡ false → term_to nodes.now depth at ≢ op2 (Compare Gt Binary) (col 1 6) (col 1 5) }
{
    let how = BinaryOp::Compare(CompareOp::Gt, Collation::Binary);
    match operands(nodes, depth, at, how) {
        Some((a, b)) => is_place(nodes, depth - 1, a, 6) && is_place(nodes, depth - 1, b, 5),
        None => false,
    }
}

fn is_open_or_rising(nodes: &[Op], depth: usize, at: usize) -> bool
    ensures yes { IsTrue result → term_to nodes.now depth at ≡ op2 Or (op2 (Compare Eq Binary) (col 1 6) (lit (Int (pos 0)))) (op2 (Compare Gt Binary) (col 1 6) (col 1 5)) }
    ensures no { result ≡ false → term_to nodes.now depth at ≢ op2 Or (op2 (Compare Eq Binary) (col 1 6) (lit (Int (pos 0)))) (op2 (Compare Gt Binary) (col 1 6) (col 1 5)) }
{
    match operands(nodes, depth, at, BinaryOp::Or) {
        Some((a, b)) => {
            is_to_zero(nodes, depth - 1, a, CompareOp::Eq, 6) && is_rising(nodes, depth - 1, b)
        }
        None => false,
    }
}

fn are_row_checks(terms: &Terms) -> bool
    ensures yes { IsTrue result → terms.now ≡ row_table.checks }
    ensures no { result ≡ false → terms.now ≢ row_table.checks }
{
    let nodes = terms.nodes.as_slice();
    match terms.roots.as_slice() {
        [first, second] => {
            is_to_zero(nodes, nodes.len(), *first, CompareOp::Gt, 5)
                && is_open_or_rising(nodes, nodes.len(), *second)
        }
        _ => false,
    }
}

fn are_no_terms(terms: &Terms) -> bool
    ensures yes { IsTrue result → terms.now ≡ [] }
    ensures no { result ≡ false → terms.now ≢ [] }
{
    terms.roots.len() == 0
}

// ---- the tables and the indexes

// It has no foreign key, no computed default and no AUTOINCREMENT.
fn is_plain(table: &Table) -> bool
    ensures yes { IsTrue result → IsBare table.now }
    ensures no { result ≡ false → ¬ (IsBare table.now) }
{
    let stamps = &table.stamps;
    table.references.len() == 0
        && table.computed.len() == 0
        && stamps.places.len() == 0
        && are_no_terms(&stamps.terms)
        && stamps.formats.len() == 0
        && !table.is_counted
}

fn are_places(found: &[usize], places: &[usize]) -> bool
    ensures yes { IsTrue result → found.now ≡ places.now }
    ensures no { result ≡ false → found.now ≢ places.now }
{
    found == places
}

fn is_unique(table: &Table, places: &[usize]) -> bool
    ensures yes { IsTrue result → table.now.uniques ≡ places.now ∷ [] }
    ensures no { result ≡ false → table.now.uniques ≢ places.now ∷ [] }
{
    match table.uniques.as_slice() {
        [unique] => are_places(unique.as_slice(), places),
        _ => false,
    }
}

fn is_ordered(orders: &[Order]) -> bool
    ensures yes { IsTrue result → orders.now ≡ plain ∷ [] }
    ensures no { result ≡ false → orders.now ≢ plain ∷ [] }
{
    match orders {
        [order] => order.digits == 0,
        _ => false,
    }
}

// The key is that of a table whose rows have a rowid of their own.
fn is_keyed(table: &Table, places: &[usize]) -> bool
    ensures yes { IsTrue result → HasKey table.now places.now }
    ensures no { result ≡ false → ¬ (HasKey table.now places.now) }
{
    table.key.is_none()
        && table.primary.as_slice() == places
        && is_unique(table, places)
        && is_ordered(table.orders.as_slice())
}

fn is_first(key: Option<usize>) -> bool
    ensures yes { IsTrue result → key ≡ Some 0 }
    ensures no { result ≡ false → key ≢ Some 0 }
{
    match key {
        Some(place) => place == 0,
        None => false,
    }
}

// The key is the rowid.
fn is_rowid_keyed(table: &Table) -> bool
    ensures yes { IsTrue result → HasRowidKey table.now }
    ensures no { result ≡ false → ¬ (HasRowidKey table.now) }
{
    is_first(table.key)
        && are_places(table.primary.as_slice(), &[0])
        && table.uniques.len() == 0
        && table.orders.len() == 0
}

fn are_row_columns(columns: &[Column]) -> bool
    ensures yes { IsTrue result → columns.now ≡ row_table.columns }
    ensures no { result ≡ false → columns.now ≢ row_table.columns }
{
    match columns {
        [a, b, c, d, e, f] => {
            is_column(a, b"namespace", Kind::Text)
                && is_column(b, b"object", Kind::Text)
                && is_column(c, b"relation", Kind::Text)
                && is_column(d, b"subject", Kind::Text)
                && is_column(e, b"added", Kind::Integer)
                && is_column(f, b"removed", Kind::Integer)
        }
        _ => false,
    }
}

fn is_row_table(table: &Table) -> bool
    ensures yes { IsTrue result → table.now ≡ row_table }
    ensures no { result ≡ false → table.now ≢ row_table }
{
    table.name.as_slice() == b"row".as_slice()
        && table.tree == 0
        && are_row_columns(table.columns.as_slice())
        && is_keyed(table, &[1, 2, 3, 4, 5])
        && are_row_checks(&table.checks)
        && is_plain(table)
}

fn are_config_columns(columns: &[Column]) -> bool
    ensures yes { IsTrue result → columns.now ≡ config_table.columns }
    ensures no { result ≡ false → columns.now ≢ config_table.columns }
{
    match columns {
        [a, b] => is_column(a, b"rev", Kind::Integer) && is_column(b, b"text", Kind::Text),
        _ => false,
    }
}

fn are_state_columns(columns: &[Column]) -> bool
    ensures yes { IsTrue result → columns.now ≡ state_table.columns }
    ensures no { result ≡ false → columns.now ≢ state_table.columns }
{
    match columns {
        [a, b] => is_column(a, b"key", Kind::Text) && is_column(b, b"value", Kind::Integer),
        _ => false,
    }
}

fn is_config_table(table: &Table) -> bool
    ensures yes { IsTrue result → table.now ≡ record config_table { tree = 2 } }
    ensures no { result ≡ false → table.now ≢ record config_table { tree = 2 } }
{
    table.name.as_slice() == b"config".as_slice()
        && table.tree == 2
        && are_config_columns(table.columns.as_slice())
        && is_rowid_keyed(table)
        && are_no_terms(&table.checks)
        && is_plain(table)
}

fn is_state_table(table: &Table) -> bool
    ensures yes { IsTrue result → table.now ≡ record state_table { tree = 3 } }
    ensures no { result ≡ false → table.now ≢ record state_table { tree = 3 } }
{
    table.name.as_slice() == b"state".as_slice()
        && table.tree == 3
        && are_state_columns(table.columns.as_slice())
        && is_keyed(table, &[1])
        && are_no_terms(&table.checks)
        && is_plain(table)
}

fn is_index(index: &Index, name: &[u8], tree: u32, table: u32, places: &[usize]) -> bool
    ensures yes { IsTrue result → index.now ≡ index_of name.now tree table places.now }
    ensures no { result ≡ false → index.now ≢ index_of name.now tree table places.now }
{
    index.name.as_slice() == name
        && index.tree == tree
        && index.table == table
        && index.columns.as_slice() == places
        && index.order.digits == 0
        && index.is_unique
}

fn are_tables(tables: &[Table]) -> bool
    ensures yes { IsTrue result → tables.now ≡ schema.tables }
    ensures no { result ≡ false → tables.now ≢ schema.tables }
{
    match tables {
        [row, config, state] => {
            is_row_table(row) && is_config_table(config) && is_state_table(state)
        }
        _ => false,
    }
}

fn are_indexes(indexes: &[Index]) -> bool
    ensures yes { IsTrue result → indexes.now ≡ row_index ∷ state_index ∷ [] }
    ensures no { result ≡ false → indexes.now ≢ row_index ∷ state_index ∷ [] }
{
    match indexes {
        [row, state] => {
            is_index(row, b"sqlite_autoindex_row_1", 1, 0, &[1, 2, 3, 4, 5])
                && is_index(state, b"sqlite_autoindex_state_1", 4, 3, &[1])
        }
        _ => false,
    }
}

fn is_schema(found: &Schema) -> bool
    ensures yes { IsTrue result → found.now ≡ schema }
    ensures no { result ≡ false → found.now ≢ schema }
{
    if !are_tables(found.tables.as_slice()) {
        return false;
    }
    if !are_indexes(found.indexes.as_slice()) {
        return false;
    }
    found.views.len() == 0
}

/// Whether the connection's tables and indexes are those of the format, in the order in which `create` makes them.
pub fn is_format<S: Alter>(conn: &Connection<S>) -> bool
    ensures yes { IsTrue result → HasFormat S.Store conn.now }
    ensures no { result ≡ false → ¬ (HasFormat S.Store conn.now) }
    ensures live { IsLive (state S.Store conn.now) }
{
    is_schema(conn.schema())
}

/// Whether there is no table, index or view, so that the tables of a store can be made.
pub fn is_blank<S: Alter>(conn: &Connection<S>) -> bool
    ensures yes { IsTrue result → IsBlank S.Store conn.now }
    ensures no { result ≡ false → ¬ (IsBlank S.Store conn.now) }
{
    let found = conn.schema();
    found.tables.len() == 0 && found.indexes.len() == 0 && found.views.len() == 0
}
