//! Namespace configurations as text: read to their parts, or refused where the bytes are of no
//! configuration, and written canonically.
#![tactic(auto)]

mod canonical;
mod draft;
mod members;
mod named;
mod parts;
mod reading;
mod relation;
mod rewrite;
mod rewrites;
mod shape;

pub use canonical::text_of;
pub use members::{has_only_members, text_at};
pub use parts::Parts;
pub use reading::read_configuration;
pub use relation::Relation;
pub use rewrite::Rewrite;
