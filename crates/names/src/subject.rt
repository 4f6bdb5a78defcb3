//! Subjects.
ghost use Rattle.std.specs.Prelude.{◌≡◌, Some, None, IfOk, IfErr};
ghost use Rattle.names.specs.Refusals.{IsMalformed};

use crate::{Name, Node, Object, Refusal};
use std::fmt;

/// Whom a tuple names: an object, or with a relation the members of a node (a userset). It is spelled
/// as that object or node. Subjects are ordered by namespace, then by id, an object before its nodes,
/// and these by relation.
#[derive(Clone, Debug, PartialEq, Eq, PartialOrd, Ord, Hash, Drop)]
pub struct Subject {
    pub object: Object,
    pub relation: Option<Name>,
}

impl Subject {
    ghost use Rattle.names.specs.declared.subject.Subject.{Subject};
    ghost use Rattle.names.specs.Spelling.{SpellsSubject};

    /// The one object.
    pub fn one(object: Object) -> Subject
        ensures { result ≡ record { object = object; relation = None } }
    {
        Subject {
            object,
            relation: None,
        }
    }

    /// The members of the node.
    pub fn set(node: Node) -> Subject
        ensures { result ≡ record { object = node.object; relation = Some node.relation } }
    {
        Subject {
            object: node.object,
            relation: Some(node.relation),
        }
    }

    /// Reads a subject's spelling.
    pub fn parse(text: &str) -> Result<Subject, Refusal>
        ensures ok { IfOk result (λ s. SpellsSubject text.now s) }
        ensures err { IfErr result (λ e. IsMalformed ((s : Subject) → ¬ (SpellsSubject text.now s)) e) }
    {
        let Some((object, relation)) = text.split_once('#') else {
            let object = Object::parse(text)?;
            return Ok(Subject::one(object));
        };
        let object = Object::parse(object)?;
        let relation = Name::parse(relation)?;
        Ok(Subject {
            object,
            relation: Some(relation),
        })
    }
}

impl fmt::Display for Subject {
    ghost use Rattle.names.specs.Spelling.{subject_text};

    ghost output = { λ s. Some (subject_text s) };

    fn fmt<W: fmt::Write>(&self, f: &mut fmt::Formatter<W>) -> fmt::Result {
        let object = &self.object;
        match &self.relation {
            None => write!(f, "{object}"),
            Some(relation) => write!(f, "{object}#{relation}"),
        }
    }
}
