//! Ids in place of names, and sets of ids in order.
#![tactic(auto)]

mod algebra;
mod ids;
mod place;
mod seek;
mod set;

pub use algebra::{exclude, first_missing, intersect, sets_of_the_same_ids_are_one, union};
pub use ids::{Ids, Named};
pub use seek::{Galloping, Seek};
pub use set::IdSet;
