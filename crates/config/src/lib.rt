//! Namespace configurations (Zanzibar, section 2.3, with the type restrictions of OpenFGA): read,
//! refused with the first cause that applies, and written canonically.
#![tactic(auto)]

mod causes;
mod config;
mod finding;
mod graph;
mod levels;
mod rewrites;
mod sizes;
mod steps;

pub use config::Config;
pub use config_text::{Relation, Rewrite};
