//! Relations of namespaces, and the types that they declare.
ghost use Rattle.std.specs.Prelude.{◌≡◌, Some, IfOk, IfErr};
ghost use Rattle.names.specs.Refusals.{IsMalformed};

use crate::{Name, Refusal};
use std::fmt;

/// A relation of a namespace, spelled `namespace#relation`.
#[derive(Clone, Debug, PartialEq, Eq, PartialOrd, Ord, Drop)]
pub struct RelationName {
    pub namespace: Name,
    pub relation: Name,
}

impl fmt::Display for RelationName {
    ghost use Rattle.names.specs.Spelling.{relation_text};

    ghost output = { λ r. Some (relation_text r) };

    fn fmt<W: fmt::Write>(&self, f: &mut fmt::Formatter<W>) -> fmt::Result {
        let namespace = self.namespace.as_str();
        let relation = self.relation.as_str();
        write!(f, "{namespace}#{relation}")
    }
}

/// A declared type of subjects, as in OpenFGA's type restrictions: the objects of a namespace, spelled
/// `namespace`, or the nodes of one of its relations, spelled `namespace#relation`.
#[derive(Clone, Debug, PartialEq, Eq, PartialOrd, Ord, Drop)]
pub struct SubjectType {
    pub namespace: Name,
    pub relation: Option<Name>,
}

impl SubjectType {
    ghost use Rattle.names.specs.declared.relation.SubjectType.{SubjectType};
    ghost use Rattle.names.specs.Spelling.{SpellsType};

    /// Reads a type's spelling.
    pub fn parse(text: &str) -> Result<SubjectType, Refusal>
        ensures ok { IfOk result (λ t. SpellsType text.now t) }
        ensures err { IfErr result (λ e. IsMalformed ((t : SubjectType) → ¬ (SpellsType text.now t)) e) }
    {
        let Some((namespace, relation)) = text.split_once('#') else {
            let namespace = Name::parse(text)?;
            return Ok(SubjectType {
                namespace,
                relation: None,
            });
        };
        let namespace = Name::parse(namespace)?;
        let relation = Name::parse(relation)?;
        Ok(SubjectType {
            namespace,
            relation: Some(relation),
        })
    }
}

impl fmt::Display for SubjectType {
    ghost use Rattle.names.specs.Spelling.{type_text};

    ghost output = { λ t. Some (type_text t) };

    fn fmt<W: fmt::Write>(&self, f: &mut fmt::Formatter<W>) -> fmt::Result {
        let namespace = self.namespace.as_str();
        match &self.relation {
            None => f.write_str(namespace),
            Some(relation) => write!(f, "{namespace}#{relation}"),
        }
    }
}
