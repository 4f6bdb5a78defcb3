//! Tests of what is kept of members, `region`, `facts` and `hot`, and of the layer of the group index by their public calls:
//! that they succeed where memory is there, whom they ask, and what they keep, at values from outside.
#![tactic(auto)]

#[cfg(test)]
mod closures;
#[cfg(test)]
mod direct_groups;
#[cfg(test)]
mod groups;
#[cfg(test)]
mod history;
#[cfg(test)]
mod index;
#[cfg(test)]
mod kept;
#[cfg(test)]
mod marked;
#[cfg(test)]
mod parts;
// What specs/ says of it is read without the tests too.
mod table;
#[cfg(test)]
mod views;
#[cfg(test)]
mod worked;
