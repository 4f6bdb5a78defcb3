//! The limit of conditions.

/// The most conditions of a write; it may have none.
pub const MAX_CONDITIONS: usize = 64;
