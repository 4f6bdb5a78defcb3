//! What a desk does is what the machine of publication does: it stands where the machine does after some events, each of which
//! could come. Here is no code: the public functions carry the laws.
#![tactic(auto)]

mod law;

pub use law::{
    calls_are_events, changes_are_events, events_lead_on, openings_are_events,
    questions_are_entries,
};
