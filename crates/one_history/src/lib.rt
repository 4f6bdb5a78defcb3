//! A history beside a lock: what is done under the lock, entry by entry, in the lock's order.
//!
//! The history exists in proofs alone; at run time there is a word, which is read and never written. The holder of the lock has
//! the [`Log`], which knows all entries. Each who may take the lock is a [`Worker`], which knows a beginning of the history, as
//! far as it has seen it, and its own entries. So what a worker is told under the lock can be tied to the value that lies there:
//! put the log beside that value, let the value's own invariant say what it is after all entries, and note each change. Then
//! nobody can make up a change, leave one out or make one twice, and no value but that one has those entries behind it.
//!
//! Nothing is said of time: of entries of workers that told each other nothing, the history has some order.
#![tactic(auto)]

mod entry;
mod log;
mod opening;
mod rule;
mod worker;

pub use entry::{Entry, HistoryName, Noted};
pub use log::Log;
pub use opening::{History, Opening};
pub use worker::Worker;
