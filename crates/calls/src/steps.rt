//! What a desk and a session of it do for each call: one module for those that ask, and one for those that change something.

pub(crate) mod asking;
pub(crate) mod changing;
pub(crate) mod refusing;
