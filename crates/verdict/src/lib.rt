//! The verdict on a write: its operations and its conditions, judged on the newest revision of a history. A condition
//! that a tuple is unchanged since a zookie makes an optimistic lock of it (Zanzibar, section 2.4.2).
#![tactic(auto)]

mod conditions;
mod limits;
mod write;

pub use limits::MAX_CONDITIONS;
pub use write::judge;
