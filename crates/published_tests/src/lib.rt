//! Tests of `publication` and `published` by their public calls: the machine of publication with each of its questions,
//! sessions that run out and what each of their calls answers, receipts, and steps that wait.
#![tactic(auto)]

#[cfg(test)]
mod desk;
#[cfg(test)]
mod machine;
#[cfg(test)]
mod questions;
#[cfg(test)]
mod sessions;
