//! Snapshots.
ghost use Rattle.std.specs.Prelude.{◌≡◌, IsTrue, OnOk, OnErr, not};
ghost use Rattle.std.specs.List.{find};
ghost use Rattle.std.specs.Option.{option_copied};
ghost use Rattle.meaning.specs.TupleSet as set;
ghost use Rattle.meaning.specs.Snap.{empty_snap};
ghost use Rattle.meaning.specs.Admits.{admits};

use config::Config;
use names::Tuple;
use std::alloc::{AllocError, Global};
use std::collections::BTreeSet;
use std::marker::Model;

/// A configuration and the tuples of one revision (Zanzibar, section 2.2).
#[derive(Drop)]
pub struct Snapshot {
    config: Config,
    tuples: BTreeSet<Tuple>,
}

impl Model for Snapshot {
    ghost use Rattle.std.specs.BTreeSet.{IsOrdered};
    ghost use Rattle.names.specs.Order.{tuple_cmp};
    ghost use Rattle.meaning.specs.TupleSet as set;
    ghost use Rattle.meaning.specs.Snap.{Snap};
    ghost use Rattle.meaning.specs.inside.Codes.{coded_snap};

    ghost Value = { Snap };

    ghost coded = { coded_snap };

    ghost view = { λ s. record { config = s.config; tuples = set.from_list s.tuples.keys } };

    ghost invariant = { λ s. IsOrdered tuple_cmp s.tuples };
}

impl Snapshot {
    /// What revision 0 holds. It takes no memory.
    pub fn empty(alloc: Global) -> Snapshot
        ensures { result ≡ empty_snap }
    {
        Snapshot {
            config: Config::empty(alloc),
            tuples: BTreeSet::new(alloc),
        }
    }

    pub fn config(&self) -> &Config
        ensures { result.now ≡ self.now.config }
    {
        &self.config
    }

    /// The tuples, in order.
    pub fn tuples(&self) -> &BTreeSet<Tuple>
        ensures { result.now.keys ≡ set.items self.now.tuples }
    {
        &self.tuples
    }

    /// How many tuples there are.
    pub fn len(&self) -> usize
        ensures { result ≡ set.len self.now.tuples }
    {
        self.tuples.len()
    }

    pub fn contains(&self, tuple: &Tuple) -> bool
        ensures { result ≡ set.contains self.now.tuples tuple.now }
    {
        self.tuples.contains(tuple)
    }

    /// The first tuple in order that another configuration does not admit.
    pub fn first_not_admitted(&self, config: &Config) -> Option<&Tuple>
        ensures { option_copied result ≡ find (λ t. not (admits config.now t)) (set.items self.now.tuples) }
    {
        let tuples = &self.tuples;
        tuples.iter().find(|tuple| !config.allows(tuple))
    }

    /// Puts the tuple, whether it is there or not.
    pub fn insert(&mut self, tuple: Tuple) -> Result<(), AllocError>
        ensures ok { OnOk result (self.new ≡ record self.old { tuples = set.insert self.old.tuples tuple }) }
        ensures err { OnErr result (self.new ≡ self.old) }
    {
        self.tuples.insert(tuple)?;
        Ok(())
    }

    /// Takes the tuple away, if it is there. It takes no memory.
    pub fn remove(&mut self, tuple: &Tuple)
        ensures { self.new ≡ record self.old { tuples = set.remove self.old.tuples tuple.now } }
    {
        self.tuples.remove(tuple);
    }

    /// Puts the configuration in the place of the other. It takes no memory, and does not look whether
    /// the tuples are admitted.
    pub fn set_config(&mut self, config: Config)
        ensures { self.new ≡ record self.old { config = config } }
    {
        self.config = config;
    }
}
