//! Reads of the tuples that name one subject.
ghost use Rattle.std.specs.Prelude.{◌≡◌, ◌↔◌, true, Some, Contains, IfOk, IfSome, filter, map};
ghost use Rattle.names.specs.declared.node.Node.{Node};
ghost use Rattle.meaning.specs.TupleSet as set;
ghost use Rattle.rows.specs.Tuplesets.{has_text, is_after, page};
ghost use Rattle.by_subject.specs.Turned.{turned};
ghost use Rattle.by_subject.specs.Complete.{Covers};
ghost use Rattle.by_subject.specs.inside.Standing.{tuple_with, is_asked, stands};

use crate::by_subject::BySubject;
use names::{Name, Node, Object, ObjectId, Subject, Tuple};
use rows::{Tupleset, View};
use std::alloc::{AllocError, Global};

impl BySubject {
    /// The page of a tupleset that names a subject: what the view's own read of it gives; or `None` where more than
    /// `most` tuples name it, at whatever revision they stood. No others are gone over, and all of these are, also
    /// for a page that comes after one. It takes memory for the node of each, and for those that the pages hold from
    /// this one on.
    pub fn read(
        &self,
        alloc: Global,
        view: &View,
        asked: &Tupleset,
        subject: &Subject,
        most: usize,
    ) -> Result<Option<Vec<Tuple>>, AllocError>
        requires covers { Covers self.now view.now.tuples }
        requires subject { asked.now.subject ≡ Some subject.now }
        ensures { IfOk result (λ o. IfSome o (λ v. v.items ≡ page asked.now view.now.tuples)) }
    {
        let Some(nodes) = self.nodes_naming(alloc, subject, most)? else {
            return Ok(None);
        };
        let mut page = standing(alloc, view, asked, subject, nodes)?;
        page.sort_unstable();
        page.dedup();
        page.truncate(asked.limit as usize);
        Ok(Some(page))
    }

    /// The nodes with a tuple that names the subject.
    fn nodes_naming(
        &self,
        alloc: Global,
        subject: &Subject,
        most: usize,
    ) -> Result<Option<Vec<Node>>, AllocError>
        ensures { IfOk result (λ o. IfSome o (λ v. (n : Node) → Contains v.items n
            ↔ (set.contains self.now (turned (tuple_with subject.now n)) ≡ true))) }
    {
        let object = subject.object.again();
        match &subject.relation {
            None => self.naming(alloc, &object, most),
            Some(relation) => {
                let relation = relation.again();
                self.naming_members_of(alloc, &Node { object, relation }, most)
            }
        }
    }
}

/// Of each node the tuple with the subject, where it is asked for and stands in the view.
fn standing(
    alloc: Global,
    view: &View,
    asked: &Tupleset,
    subject: &Subject,
    nodes: Vec<Node>,
) -> Result<Vec<Tuple>, AllocError>
    ensures { IfOk result (λ v. v.items ≡ filter (stands asked.now view.now.tuples) (map (tuple_with subject.now) nodes.items)) }
{
    let mut tuples = Vec::new(alloc);
    for node in nodes {
        let tuple = tuple_with(subject, node);
        if stands(view, asked, &tuple) {
            tuples.push(tuple)?;
        }
    }
    Ok(tuples)
}

fn tuple_with(subject: &Subject, node: Node) -> Tuple
    ensures { result ≡ tuple_with subject.now node }
{
    let object = subject.object.again();
    let relation = match &subject.relation {
        Some(relation) => Some(relation.again()),
        None => None,
    };
    let subject = Subject { object, relation };
    Tuple { node, subject }
}

fn stands(view: &View, asked: &Tupleset, tuple: &Tuple) -> bool
    ensures { result ≡ stands asked.now view.now.tuples tuple.now }
{
    is_asked(asked, tuple) && view.contains(tuple)
}

/// Whether it is asked for, but for its subject.
fn is_asked(asked: &Tupleset, tuple: &Tuple) -> bool
    ensures { result ≡ is_asked asked.now tuple.now }
{
    let object = &tuple.node.object;
    is_in(object, &asked.namespace)
        && has_id(&asked.object, &object.id)
        && has_relation(&asked.relation, &tuple.node.relation)
        && is_later(&asked.after, tuple)
}

fn is_in(object: &Object, namespace: &Name) -> bool
    ensures { result ≡ has_text (Some namespace.now) object.now.namespace }
{
    object.namespace == *namespace
}

fn has_id(asked: &Option<ObjectId>, id: &ObjectId) -> bool
    ensures { result ≡ has_text asked.now id.now }
{
    match asked {
        Some(asked) => *id == *asked,
        None => true,
    }
}

fn has_relation(asked: &Option<Name>, relation: &Name) -> bool
    ensures { result ≡ has_text asked.now relation.now }
{
    match asked {
        Some(asked) => *relation == *asked,
        None => true,
    }
}

fn is_later(after: &Option<Tuple>, tuple: &Tuple) -> bool
    ensures { result ≡ is_after after.now tuple.now }
{
    match after {
        Some(after) => after.cmp(tuple).is_lt(),
        None => true,
    }
}
