//! The incremental layer of the group index (Pang et al., Zanzibar, USENIX ATC 2019, section 3.2.4): which groups each
//! group leads to, at each revision from a base to a cursor. After a commit only what it touches is asked for and solved
//! anew, and what was kept of it before is noted where that changes. No tuple is kept.
#![tactic(auto)]

mod arcs;
mod closing;
mod computed;
mod earlier;
mod has_arcs;
mod layer;
mod leading;
mod recalling;
mod renewing;
mod roots;
mod telling;

pub use arcs::{CountedArcs, ViewArcs};
pub use earlier::Earlier;
pub use layer::Layer;
