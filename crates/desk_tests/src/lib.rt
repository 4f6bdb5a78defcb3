//! Tests of the tables over `sqlite`, of those in memory and of the desk over any tables, `sqlite_tables`, `tables` and
//! `desk`, by their public calls: what no run of the program shows.
#![tactic(auto)]

#[cfg(test)]
mod changes;
#[cfg(test)]
mod installing;
#[cfg(test)]
mod listed;
#[cfg(test)]
mod spans;
