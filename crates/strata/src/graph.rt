//! Graphs of signed steps, and what `levels` answers about one.

/// A step from one relation to another, both by number: the rewrite of `from` looks up `to`, below the
/// right side of an exclusion where it is subtracted.
#[derive(Clone, Copy, Debug, PartialEq, Eq, PartialOrd, Ord)]
pub struct Step {
    pub from: usize,
    pub to: usize,
    pub subtracted: bool,
}

/// Relations, as the numbers below `count`, and their steps, in any order and with any repeats.
#[derive(Debug, Drop)]
pub struct Graph {
    pub count: usize,
    pub steps: Vec<Step>,
}

/// The level of each relation, by its number, or a cycle of steps of which the first is subtracted and
/// no two end at the same relation.
#[derive(Debug, PartialEq, Drop)]
pub enum Answer {
    Levels(Vec<usize>),
    Cycle(Vec<Step>),
}
