//! Relations.
ghost use Rattle.std.specs.Prelude.{◌≡◌, IfOk};
ghost use Rattle.config_text.specs.Forms.{defined_of};

use crate::rewrite::{Rewrite, copied};
use names::{Node, RelationName, Subject, SubjectType};
use std::alloc::{AllocError, Global};
use std::cmp::Ordering;

/// A relation of a namespace.
#[derive(Debug, Drop)]
pub struct Relation {
    pub name: RelationName,
    /// The types that its tuples' subjects may have.
    pub types: Vec<SubjectType>,
    pub rewrite: Rewrite,
    /// Whether it is kept in the group index.
    pub indexed: bool,
}

impl Relation {
    ghost use Rattle.config_text.specs.Forms.{defined_of};
    ghost use Rattle.meaning.specs.Admits.{is_relation, declares};
    ghost use Rattle.meaning.specs.Config.{rel_of};
    ghost use Rattle.config_text.specs.Order.{relation_cmp};

    /// How it stands to the node's relation: by namespace, then by name.
    pub fn compare(&self, node: &Node) -> Ordering
        ensures { result ≡ relation_cmp (defined_of self.now).rel (rel_of node.now) }
    {
        match self.name.namespace.cmp(&node.object.namespace) {
            Ordering::Equal => self.name.relation.cmp(&node.relation),
            other => other,
        }
    }

    /// Whether it is the node's relation.
    pub fn is_of(&self, node: &Node) -> bool
        ensures { result ≡ is_relation (rel_of node.now) (defined_of self.now) }
    {
        self.name.namespace == node.object.namespace && self.name.relation == node.relation
    }

    /// Whether it declares the type of the subject.
    pub fn declares(&self, subject: &Subject) -> bool
        ensures { result ≡ declares subject.now (defined_of self.now) }
    {
        for declared in &self.types {
            if subject.object.namespace == declared.namespace
                && subject.relation == declared.relation
            {
                return true;
            }
        }
        false
    }

    /// A copy of the relation.
    pub fn again(&self, alloc: Global) -> Result<Relation, AllocError>
        ensures { IfOk result (λ r. defined_of r ≡ defined_of self.now) }
    {
        let name = self.name.clone()?;
        let types = self.types.as_slice().to_vec(alloc)?;
        let rewrite = copied(alloc, &self.rewrite)?;
        Ok(Relation {
            name,
            types,
            rewrite,
            indexed: self.indexed,
        })
    }
}
