//! The incremental layer of direct groups (Pang et al., Zanzibar, USENIX ATC 2019, section 3.2.4): which groups name each
//! user by a tuple of their own, at each revision from a base to a cursor. A commit costs what it touches, and what was
//! kept before of the users that it names is noted. No tuple is kept.
#![tactic(auto)]

mod direct;
mod indexed;
mod memberships;
mod naming;
mod noted;
mod replacing;

pub use direct::Direct;
pub use noted::EarlierGroups;
