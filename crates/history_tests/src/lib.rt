//! Tests of a history, `rows`, and of what is read off its revisions (`watch`, `expand`, `lookup`, `by_subject`, and of groups `leopard`), of the policies (`config`,
//! `snapshots` and `plain`), and of a session's answers, `answer_cache`, by their public calls: what no run of the program shows.
#![tactic(auto)]

#[cfg(test)]
mod builds;
#[cfg(test)]
mod configurations;
#[cfg(test)]
mod groups;
#[cfg(test)]
mod histories;
#[cfg(test)]
mod history;
#[cfg(test)]
mod kept;
#[cfg(test)]
mod lookups;
#[cfg(test)]
mod memberships;
#[cfg(test)]
mod naming;
#[cfg(test)]
mod pages;
#[cfg(test)]
mod trees;
