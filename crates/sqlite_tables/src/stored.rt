//! What is written to the tables and what is read of them.

/// A tuple by the texts of its four columns.
#[derive(Debug, Drop)]
pub struct TupleText {
    pub namespace: String,
    pub object: String,
    pub relation: String,
    pub subject: String,
}

/// What an event does to the spans of its tuple.
#[derive(Clone, Copy, Debug, PartialEq, Eq)]
pub enum SpanChange {
    /// A span begins; no other is open.
    Begins,
    /// The open span ends, if there is one, and another begins.
    BeginsAnew,
    /// The open span ends.
    Ends,
}

/// One event of a commit.
#[derive(Debug, Drop)]
pub struct StoredEvent {
    pub tuple: TupleText,
    pub change: SpanChange,
}

/// The revisions from which and before which a tuple is there; `removed` is 0 while it still is.
#[derive(Debug, Drop)]
pub struct StoredSpan {
    pub tuple: TupleText,
    pub added: u64,
    pub removed: u64,
}

/// A configuration, and the revision that it has been in force from.
#[derive(Debug, Drop)]
pub struct StoredConfig {
    pub rev: u64,
    pub text: String,
}

/// A value of the state: `floor`, `format`, `newest` or `store`.
#[derive(Debug, Drop)]
pub struct StoredEntry {
    pub key: String,
    pub value: u64,
}

/// All that the tables hold: the spans in the order of their keys, the configurations by revision and the
/// state by key, and the greatest rowid of a span, or 0 where there is none.
#[derive(Debug, Drop)]
pub struct Stored {
    pub spans: Vec<StoredSpan>,
    pub configs: Vec<StoredConfig>,
    pub entries: Vec<StoredEntry>,
    pub last_rowid: u64,
}
