//! What a command line asks for, and what is done for it without a desk: a file is read, a configuration is reported.
//! What can go wrong is one fault, with its line and exit status.
#![tactic(auto)]

mod fault;
mod file;
mod report;
mod words;

pub use fault::Fault;
pub use file::read_file;
pub use report::{Report, report_of};
pub use words::{MAX_STORE, MAX_WORKERS, Place, Task, task_of};
