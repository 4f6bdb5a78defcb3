//! What a connection takes of a request's head; a body has its limit in `names`.

/// The most bytes of a head: the request line, its fields and the empty line behind them.
pub(crate) const MAX_HEAD: usize = 8_192;

/// The most fields of a head.
pub(crate) const MAX_FIELDS: usize = 64;
