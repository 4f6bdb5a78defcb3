//! Tests of `server` that the program cannot show: what its gate is told, and when; that a build is made with no lock; that the parts read what is written.
#![tactic(auto)]

#[cfg(test)]
mod building;
#[cfg(test)]
mod gate;
#[cfg(test)]
mod indexer;
