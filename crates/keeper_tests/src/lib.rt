//! Tests of `keeper` by its public calls: that a worker is answered as one who holds the desk, what two workers see of one
//! another, and workers in threads of their own.
#![tactic(auto)]

#[cfg(test)]
mod histories;
#[cfg(test)]
mod lent;
#[cfg(test)]
mod script;
#[cfg(test)]
mod threads;
#[cfg(test)]
mod workers;
