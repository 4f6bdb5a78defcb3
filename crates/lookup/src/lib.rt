//! Which objects of a namespace a user has a relation to: ListObjects of OpenFGA, LookupResources of SpiceDB.
#![tactic(auto)]

mod asked;
mod law;
mod leading;
mod looking;
mod walking;

pub use asked::Lookup;
pub use law::{an_object_that_no_tuple_names_has_no_users, lookups_are_one};
pub use looking::lookup_at;
