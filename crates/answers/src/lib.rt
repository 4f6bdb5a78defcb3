//! What answers calls, whatever brings them: lines on a pipe, or HTTP over a connection.
//!
//! [`Answers`] is the machine behind a transport, by what it may reply; a transport ends with an [`End`].
#![tactic(auto)]

mod answers;
mod end;

pub use answers::Answers;
pub use end::End;
