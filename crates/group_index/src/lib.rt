//! The group index of Zanzibar (Pang et al., USENIX ATC 2019, section 3.2.4) at each revision from a base to a cursor:
//! which groups each group leads to, and which groups name each user. It answers questions about groups as their tuples
//! do, and whether a user is a member of a group.
#![tactic(auto)]

mod at;
mod index;
mod meeting;
mod numbered;

pub use at::At;
pub use index::GroupIndex;
