//! Views.
ghost use Rattle.std.specs.Prelude.{◌≡◌, ◌<◌, ◌↔◌, true, false, length, filter, take, IfOk, IfSome, IsTrue, Contains};
ghost use Rattle.meaning.specs.Config.{Has, rel_of};
ghost use Rattle.meaning.specs.Membership.{HasOne, HasSet};
ghost use Rattle.meaning.specs.TupleSet as set;
ghost use Rattle.tuple_keys.specs.Named.{is_at, is_of};
ghost use Rattle.rows.specs.Lookups.{DeclaresNodes, IsRepeated};
ghost use Rattle.rows.specs.Retained.{IsRetained, snap_at, AreAdmitted};
ghost use Rattle.rows.specs.Tuplesets.{page};

use crate::rows::Rows;
use crate::tupleset::Tupleset;
use config::Config;
use names::{Name, Node, Object, SubjectType, Tuple};
use std::alloc::{AllocError, Global};
use std::marker::Model;
use tuple_keys::TupleRef;

/// What one retained revision holds: a snapshot (Zanzibar, section 2.2).
#[derive(Drop)]
pub struct View<'a> {
    rows: &'a Rows,
    rev: u64,
}

impl<'a> Model for View<'a> {
    ghost use Rattle.meaning.specs.Snap.{Snap};
    ghost use Rattle.meaning.specs.inside.Codes.{coded_snap};
    ghost use Rattle.rows.specs.Retained.{IsRetained, snap_at};

    ghost Value = { Snap };

    ghost coded = { coded_snap };

    ghost view = { λ v. snap_at v.rows.now v.rev };

    ghost invariant = { λ v. IsRetained v.rows.now v.rev };
}

impl<'a> View<'a> {
    pub(crate) fn of(rows: &'a Rows, rev: u64) -> View<'a>
        requires { IsRetained rows.now rev }
        ensures { result ≡ snap_at rows.now rev }
    {
        View { rows, rev }
    }

    pub fn config(&self) -> &Config
        ensures config { result.now ≡ self.now.config }
        ensures admitted { AreAdmitted self.now }
    {
        self.rows.config_at(self.rev)
    }

    pub fn contains(&self, tuple: &Tuple) -> bool
        ensures { result ≡ set.contains self.now.tuples tuple.now }
    {
        self.rows.has(self.rev, tuple)
    }

    /// All tuples, in order.
    pub fn tuples(&self, alloc: Global) -> Result<Vec<Tuple>, AllocError>
        ensures { IfOk result (λ v. v.items ≡ set.items self.now.tuples) }
    {
        self.rows.tuples_at(alloc, self.rev)
    }

    /// The tuples of the node, in order.
    pub fn tuples_of(&self, alloc: Global, node: &Node) -> Result<Vec<Tuple>, AllocError>
        ensures { IfOk result (λ v. v.items ≡ filter (is_of node.now) (set.items self.now.tuples)) }
    {
        self.rows.tuples_of(alloc, self.rev, node)
    }

    /// The first of the node's tuples, in order, at most so many. Those after them are not read.
    pub fn first_of(
        &self,
        alloc: Global,
        node: &Node,
        most: usize,
    ) -> Result<Vec<Tuple>, AllocError>
        ensures { IfOk result (λ v. v.items ≡ take most (filter (is_of node.now) (set.items self.now.tuples))) }
    {
        self.rows.first_of(alloc, self.rev, node, most)
    }

    /// The tuples of the tupleset, in order: those that come later than the one that it names, and at most as
    /// many as it asks for. Tuples are gone over from there on, of the namespace's objects, of the one object, or
    /// of its node, and no further than the last that is given.
    pub fn read(&self, alloc: Global, asked: &Tupleset) -> Result<Vec<Tuple>, AllocError>
        ensures { IfOk result (λ v. v.items ≡ page asked.now self.now.tuples) }
    {
        self.rows.read(alloc, self.rev, asked)
    }

    /// The object's tuples, in order, where it has few: no more than `most` are gone over, those that were
    /// deleted among them. Otherwise `None`. They are borrowed, and not read.
    pub fn few_of(
        &self,
        alloc: Global,
        object: &Object,
        most: usize,
    ) -> Result<Option<Vec<TupleRef<'a>>>, AllocError>
        ensures { IfOk result (λ o. IfSome o (λ v. v.items ≡ filter (is_at object.now) (set.items self.now.tuples))) }
    {
        self.rows.tuples_at_object(alloc, self.rev, object, most)
    }

    /// Whether the user has the node by a tuple of its own. It takes no memory.
    pub fn has(&self, node: &Node, user: &Object) -> bool
        ensures { IsTrue result ↔ HasOne self.now node.now user.now }
    {
        self.rows.has_user(self.rev, node, user)
    }

    /// The nodes whose members the node's tuples name, as far as the configuration has their relations. No
    /// order is promised.
    pub fn usersets_of(&self, alloc: Global, node: &Node) -> Result<Vec<Node>, AllocError>
        ensures only { IfOk result (λ v. (m : Node) → Contains v.items m → HasSet self.now node.now m) }
        ensures all { IfOk result
            (λ v. (m : Node) → HasSet self.now node.now m → Has self.now.config (rel_of m) → Contains v.items m) }
    {
        let mut nodes = Vec::new(alloc);
        let config = self.config();
        let Some(place) = config.place_of(node) else {
            return Ok(nodes);
        };
        let types = config.relations()[place].types.as_slice();
        for i in 0..types.len() {
            if is_first(types, i) {
                let namespace = &types[i].namespace;
                self.rows
                    .usersets_in(alloc, self.rev, node, namespace, &mut nodes)?;
            }
        }
        Ok(nodes)
    }

    /// The objects that the node's tuples name. No order is promised.
    pub fn objects_of(&self, alloc: Global, node: &Node) -> Result<Vec<Object>, AllocError>
        ensures { IfOk result (λ v. (p : Object) → Contains v.items p ↔ HasOne self.now node.now p) }
    {
        self.rows.objects_of(alloc, self.rev, node)
    }
}

/// Whether the type is of nodes, and none before it of nodes of its namespace.
fn is_first(types: &[SubjectType], i: usize) -> bool
    requires { i < length types.now }
    ensures { result ≡ false → IsRepeated types.now i }
{
    types[i].relation.is_some() && !are_of_nodes(&types[..i], &types[i].namespace)
}

/// Whether one of the types is of nodes of the namespace.
fn are_of_nodes(types: &[SubjectType], namespace: &Name) -> bool
    ensures { result ≡ true → DeclaresNodes types.now namespace.now }
{
    for declared in types {
        if declared.relation.is_some() && declared.namespace == *namespace {
            return true;
        }
    }
    false
}
