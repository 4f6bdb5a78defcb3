//! The loop of the program: it reads calls as lines, has each answered, and writes a line for each.
//!
//! A line is a call's word, a space and a body; a reply's line is its status, a space and its body. What is
//! written is stated as a function of what is read and of what the machine may answer, for any reader, any
//! writer and any machine. The reader and the writer are tracked, so that a fault is told exactly where the
//! flag of one of them is set, and nothing is waited for while an answer is held back.
#![tactic(auto)]

mod feed;
mod pending;
mod put;
mod served;

pub use served::lines;
