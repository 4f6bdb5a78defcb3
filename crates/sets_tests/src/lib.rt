//! Tests of sets of texts and of ids, `shelf` and `idsets`, by their public calls: that they succeed where memory is there, through blocks
//! that are parted and at values from outside.
#![tactic(auto)]

#[cfg(test)]
mod filled;
#[cfg(test)]
mod naming;
#[cfg(test)]
mod sets;
