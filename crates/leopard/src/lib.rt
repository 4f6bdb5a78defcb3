//! Questions about groups (Zanzibar, section 3.2.4): set expressions over which groups each group leads to, and
//! over which groups name a user by a tuple of their own.
#![tactic(auto)]

mod answering;
mod asking;
mod building;
mod built;
mod closing;
mod computed;
mod direct;
mod evaluating;
mod expr;
mod found;
mod input;
mod law;
pub mod limits;
mod members;
mod parts;
mod refusing;
mod sets;
mod sorted;
mod source;
mod walk;

pub use answering::first_named;
pub use asking::groups_at;
pub use built::Built;
pub use evaluating::found_of;
pub use expr::Expr;
pub use found::Found;
pub use input::Input;
pub use law::{
    answers_are_one, closures_meet_where_members, indexes_mean_what_their_snapshots_do,
    there_is_one_build,
};
pub use refusing::{is_group, refusal_of};
pub use source::GroupSets;
