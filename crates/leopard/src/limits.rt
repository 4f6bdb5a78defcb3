//! The limits of questions about groups.

/// The most nodes of an expression.
pub const MAX_EXPR_NODES: u32 = 64;
/// The greatest depth of an expression; a leaf has depth 1.
pub const MAX_EXPR_DEPTH: u32 = 16;
/// The most groups that are asked for.
pub const MAX_GROUPS: u32 = 1_000;
