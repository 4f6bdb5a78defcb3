//! The words of the domain: names, objects, nodes, subjects and tuples with one spelling each and
//! the orders that go with it; writes and commits; the numbers of a state; refusals; calls and replies.
//!
//! After the tuples of Pang et al., "Zanzibar: Google's Consistent, Global Authorization System",
//! USENIX ATC 2019, section 2.1.
#![tactic(auto)]

mod call;
mod cause;
mod commit;
mod items;
pub mod limits;
mod marking;
mod name;
mod node;
mod object;
mod object_id;
mod part;
mod refusal;
mod relation;
mod state;
mod subject;
mod tuple;
mod write;

pub use call::{Call, Reply};
pub use cause::{Cause, CycleStep};
pub use commit::{Commit, Event, EventKind};
pub use items::Items;
pub use marking::Marking;
pub use name::Name;
pub use node::Node;
pub use object::Object;
pub use object_id::ObjectId;
pub use part::Part;
pub use refusal::Refusal;
pub use relation::{RelationName, SubjectType};
pub use state::State;
pub use subject::Subject;
pub use tuple::Tuple;
pub use write::{Condition, Op, OpKind, Write};
