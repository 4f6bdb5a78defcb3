//! The limits of the service, in one place: code and definitions take them from here.

/// The most bytes of a name.
pub const MAX_NAME_LEN: usize = 32;
/// The most bytes of an object's id.
pub const MAX_ID_LEN: usize = 64;

/// The most bytes of a configuration's text.
pub const MAX_CONFIG_LEN: usize = 65_536;
/// The most namespaces of a configuration.
pub const MAX_NAMESPACES: usize = 64;
/// The most relations of a configuration, over all of its namespaces.
pub const MAX_RELATIONS: usize = 256;
/// The most types that a relation declares.
pub const MAX_TYPES: usize = 32;
/// The most nodes of a rewrite.
pub const MAX_REWRITE_NODES: u32 = 64;
/// The greatest depth of a rewrite; a leaf has depth 1.
pub const MAX_REWRITE_DEPTH: u32 = 16;

/// The most bytes of a call's body.
pub const MAX_BODY_LEN: usize = 65_536;
/// The most operations of a write; the least is 1.
pub const MAX_OPS: usize = 256;
/// The most commits that a cursor is asked to take at once.
pub const MAX_CATCH_UP: u64 = 65_536;
/// The most nodes that are marked.
pub const MAX_MARKS: usize = 256;

/// The most current tuples.
pub const MAX_TUPLES: u64 = 1_000_000;
/// The most rows of a history: a row is one retained span of revisions in which a tuple is there.
pub const MAX_ROWS: u64 = 4_000_000;
/// The greatest revision.
pub const MAX_REV: u64 = 1_000_000_000_000;
