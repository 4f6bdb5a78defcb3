//! The rule of the word: there is one history, and each view fits it.
use crate::entry::{Entry, Noted};
use atomic_table::{Join, Split};
use crossbeam_utils::atomic::seq_cell::{Pass, RuledSeqCell};
use crossbeam_utils::rule::{Outcome, Protocol};
use std::collections::LinkedList;
use std::marker::PhantomData;

/// What a pass knows: that of the lock's holder all entries; a worker's a beginning of them, and its own. No value of it is made.
pub struct View<E> {
    pub keeps: bool,
    pub all: LinkedList<Entry<E>>,
    pub works: bool,
    pub seen: LinkedList<Entry<E>>,
    pub mine: LinkedList<Entry<E>>,
}

pub struct OneHistory;

impl<E> Protocol<[u64; 1], View<E>> for OneHistory {
    ghost use Rattle.std.specs.Prelude.{[]};
    ghost use Rattle.one_history.specs.History.{knower, Kept};

    ghost holds = { Kept };

    ghost first = { knower [] };
}

/// A worker that holds the lock sees all entries, and adds its own.
pub struct Adds<E, N: Noted<E>> {
    of: PhantomData<(E, N)>,
}

impl<E, N: Noted<E>> Outcome<[u64; 1], View<E>> for Adds<E, N> {
    ghost use Rattle.one_history.specs.History.{Added};

    ghost then = { Added N.by N.what };
}

/// A pass that knows nothing.
pub struct Blank;

impl<E> Split<View<E>> for Blank {
    ghost use Rattle.one_history.specs.History.{nobody};

    ghost left = { λ v. v };

    ghost right = { λ v. nobody };
}

/// A worker takes the view of the lock's holder, and gives it back.
pub struct Lent;

impl<E> Join<View<E>> for Lent {
    ghost use Rattle.one_history.specs.History.{nobody, with_keeper};

    ghost both = { with_keeper };

    ghost spent = { nobody };
}

impl<E> Split<View<E>> for Lent {
    ghost use Rattle.one_history.specs.History.{knower, worker};

    ghost left = { λ v. worker v.seen v.mine };

    ghost right = { λ v. knower v.all };
}

/// A new worker comes.
pub struct Joins;

impl<E> Split<View<E>> for Joins {
    ghost use Rattle.std.specs.Prelude.{[]};
    ghost use Rattle.one_history.specs.History.{worker};

    ghost left = { λ v. v };

    ghost right = { λ v. worker v.all [] };
}

/// The view of the lock's holder goes to a new pass. A pass that was split is not known to hold no slot, and one that was
/// split off is.
pub struct Moves;

impl<E> Split<View<E>> for Moves {
    ghost use Rattle.one_history.specs.History.{knower, nobody};

    ghost left = { λ v. nobody };

    ghost right = { λ v. knower v.all };
}

pub type Cell<E> = RuledSeqCell<[u64; 1], View<E>, OneHistory, 1>;

pub type Place<E> = Pass<[u64; 1], View<E>>;
