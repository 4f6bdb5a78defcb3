//! The tuples of a revision, in order.
ghost use Rattle.std.specs.Prelude.{◌≡◌, ◌++◌, ◌∷◌, [], filter, take, IfOk, OnOk};
ghost use Rattle.std.specs.List.{find};
ghost use Rattle.std.specs.List.Sorted.{IsStrictlySortedBy};
ghost use Rattle.names.specs.Order.{tuple_cmp};
ghost use Rattle.tuple_keys.specs.Spelled.{tuple_of, IsSpelling};
ghost use Rattle.versions.specs.Versions.{AreRising, keys, tuples_at, newest_tuples, refuses};
ghost use Rattle.tuple_keys.specs.Named.{is_of};

use crate::version_map::VersionMap;
use config::Config;
use names::{Node, Tuple};
use std::alloc::{AllocError, Global};
use tuple_keys::{Start, TupleRef};

impl VersionMap {
    /// All tuples that stand at a revision.
    pub fn tuples_at(&self, alloc: Global, rev: u64) -> Result<Vec<Tuple>, AllocError>
        requires { AreRising self.now }
        ensures found { IfOk result (λ v. v.items ≡ tuples_at self.now rev) }
        ensures ordered { IsStrictlySortedBy tuple_cmp (keys self.now) }
    {
        let texts = self.texts();
        let mut found = Vec::new(alloc);
        for (text, versions) in texts.iter() {
            if versions.stands_at(rev) {
                push_tuple(&mut found, text)?;
            }
        }
        Ok(found)
    }

    /// The tuples of the node that stand at a revision. Their texts stand together: they begin with the
    /// node's.
    pub fn tuples_of(&self, alloc: Global, rev: u64, node: &Node) -> Result<Vec<Tuple>, AllocError>
        requires { AreRising self.now }
        ensures found { IfOk result (λ v. v.items ≡ filter (is_of node.now) (tuples_at self.now rev)) }
        ensures ordered { IfOk result (λ v. IsStrictlySortedBy tuple_cmp (keys self.now)) }
    {
        let texts = self.texts();
        let least = Start::of_node(node);
        let mut tuples = Vec::new(alloc);
        for (text, versions) in texts.range(least.as_str()) {
            let Some(_) = least.rest_of(text) else {
                return Ok(tuples);
            };
            if versions.stands_at(rev) {
                push_tuple(&mut tuples, text)?;
            }
        }
        Ok(tuples)
    }

    /// The first of the node's tuples that stand at a revision, at most so many. Those after them are not read.
    pub fn first_of(
        &self,
        alloc: Global,
        rev: u64,
        node: &Node,
        most: usize,
    ) -> Result<Vec<Tuple>, AllocError>
        requires { AreRising self.now }
        ensures found { IfOk result (λ v. v.items ≡ take most (filter (is_of node.now) (tuples_at self.now rev))) }
        ensures ordered { IfOk result (λ v. IsStrictlySortedBy tuple_cmp (keys self.now)) }
    {
        let texts = self.texts();
        let least = Start::of_node(node);
        let mut tuples = Vec::new(alloc);
        for (text, versions) in texts.range(least.as_str()) {
            let Some(_) = least.rest_of(text) else {
                return Ok(tuples);
            };
            if tuples.as_slice().len() >= most {
                return Ok(tuples);
            }
            if versions.stands_at(rev) {
                push_tuple(&mut tuples, text)?;
            }
        }
        Ok(tuples)
    }

    /// The first tuple, of those whose last version is a put, that the configuration does not admit.
    pub fn first_refused(&self, config: &Config) -> Option<Tuple>
        ensures found { result ≡ find (refuses config.now) (newest_tuples self.now) }
        ensures ordered { IsStrictlySortedBy tuple_cmp (keys self.now) }
    {
        let texts = self.texts();
        for (text, versions) in texts.iter() {
            if versions.is_there() {
                let tuple = TupleRef::of(text).tuple();
                if !config.allows(&tuple) {
                    return Some(tuple);
                }
            }
        }
        None
    }
}

fn push_tuple(tuples: &mut Vec<Tuple>, text: &str) -> Result<(), AllocError>
    requires { IsSpelling text.now }
    ensures { OnOk result (tuples.new.items ≡ tuples.old.items ++ tuple_of text.now ∷ []) }
{
    tuples.push(TupleRef::of(text).tuple())?;
    Ok(())
}
