//! Readers and writers that are tracked: a call that fails sets a flag, by which a fault is told, and nothing is
//! waited for while an answer is held back.
//!
//! Whatever is written by these functions is known also where the writer fails: it took a beginning of the text.
//! `specs/Tracking.antt` has what is known of a reader and a writer, `specs/Wrote.antt` what a writer took,
//! `specs/Waiting.antt` what is known of each read.
#![tactic(auto)]

mod read_log;
mod tracked_reader;
mod tracked_writer;
mod write_log;
mod writing;

pub use tracked_reader::TrackedReader;
pub use tracked_writer::TrackedWriter;
pub use writing::{put, put_parts, say};
