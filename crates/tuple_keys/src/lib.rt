//! Tuples as texts, which are ordered as the tuples are, and commits as they are kept.
//!
//! The text of a tuple is its parts, in the order by which tuples are compared, with spaces between them. A
//! space is below every byte of a part, so the order of the texts by their bytes is the order of the tuples,
//! and the tuples of an object, or of a node, are those whose texts begin with its text.
#![tactic(auto)]

mod cuts;
mod kept_commit;
mod kept_event;
mod kept_events;
mod law;
mod lens;
mod pushes;
mod scratch;
mod start;
mod subject_ref;
mod tuple_ref;

pub use kept_commit::KeptCommit;
pub use kept_event::KeptEvent;
pub use kept_events::KeptEvents;
pub use law::{
    a_namespaces_texts_begin_with_its_text, a_nodes_texts_begin_with_its_text,
    a_subjects_text_follows_its_nodes, an_objects_texts_begin_with_its_text, each_tuple_has_a_text,
    texts_are_not_below_their_start, texts_are_ordered_as_tuples,
    texts_that_begin_alike_stand_together, the_texts_of_a_namespaces_objects_begin_with_it,
};
pub use scratch::Scratch;
pub use start::Start;
pub use subject_ref::SubjectRef;
pub use tuple_ref::TupleRef;
