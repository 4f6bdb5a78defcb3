//! The bodies of calls and replies as JSON: what a body asks for, or why it is refused, and what a reply says.
#![tactic(auto)]

mod conditions;
mod exprs;
pub mod grouping;
pub mod looking;
pub mod marking;
mod members;
mod ops;
pub mod pages;
pub mod paging;
pub mod refusals;
pub mod replies;
pub mod requests;
pub mod trees;
pub mod trimming;
pub mod watching;
pub mod writing;
