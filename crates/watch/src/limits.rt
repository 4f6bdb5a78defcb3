//! The limits of a page.

/// The most commits of a page; the least is 1.
pub const MAX_COMMITS: u32 = 256;
/// The most namespaces that are named for a page; the least is 1.
pub const MAX_NAMES: usize = 64;
