//! Tuples.
ghost use Rattle.std.specs.Prelude.{◌≡◌, Some, IfOk, IfErr};
ghost use Rattle.names.specs.Refusals.{IsMalformed};

use crate::{Node, Refusal, Subject};
use std::fmt;

/// That a subject has a relation to an object, spelled `node@subject`. Tuples are ordered by node, then
/// by subject.
#[derive(Clone, Debug, PartialEq, Eq, PartialOrd, Ord, Drop)]
pub struct Tuple {
    pub node: Node,
    pub subject: Subject,
}

impl Tuple {
    ghost use Rattle.names.specs.declared.tuple.Tuple.{Tuple};
    ghost use Rattle.names.specs.Spelling.{SpellsTuple};

    /// Reads a tuple's spelling.
    pub fn parse(text: &str) -> Result<Tuple, Refusal>
        ensures ok { IfOk result (λ t. SpellsTuple text.now t) }
        ensures err { IfErr result (λ e. IsMalformed ((t : Tuple) → ¬ (SpellsTuple text.now t)) e) }
    {
        let Some((node, subject)) = text.split_once('@') else {
            return Err(Refusal::Malformed);
        };
        let node = Node::parse(node)?;
        let subject = Subject::parse(subject)?;
        Ok(Tuple { node, subject })
    }
}

impl fmt::Display for Tuple {
    ghost use Rattle.names.specs.Spelling.{tuple_text};

    ghost output = { λ t. Some (tuple_text t) };

    fn fmt<W: fmt::Write>(&self, f: &mut fmt::Formatter<W>) -> fmt::Result {
        let node = &self.node;
        let subject = &self.subject;
        write!(f, "{node}@{subject}")
    }
}
