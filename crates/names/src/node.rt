//! Nodes.
ghost use Rattle.std.specs.Prelude.{◌≡◌, Some, IfOk, IfErr};
ghost use Rattle.names.specs.Refusals.{IsMalformed};

use crate::{Name, Object, Refusal};
use std::fmt;

/// A relation of an object, spelled `namespace:id#relation`. Nodes are ordered by object, then by
/// relation.
#[derive(Clone, Debug, PartialEq, Eq, PartialOrd, Ord, Hash, Drop)]
pub struct Node {
    pub object: Object,
    pub relation: Name,
}

impl Node {
    ghost use Rattle.names.specs.declared.node.Node.{Node};
    ghost use Rattle.names.specs.Spelling.{SpellsNode};

    /// Reads a node's spelling.
    pub fn parse(text: &str) -> Result<Node, Refusal>
        ensures ok { IfOk result (λ n. SpellsNode text.now n) }
        ensures err { IfErr result (λ e. IsMalformed ((n : Node) → ¬ (SpellsNode text.now n)) e) }
    {
        let Some((object, relation)) = text.split_once('#') else {
            return Err(Refusal::Malformed);
        };
        let object = Object::parse(object)?;
        let relation = Name::parse(relation)?;
        Ok(Node { object, relation })
    }

    /// The same node. A copy takes no memory, so nothing refuses it.
    pub fn again(&self) -> Node
        ensures { result ≡ self.now }
    {
        Node {
            object: self.object.again(),
            relation: self.relation.again(),
        }
    }
}

impl fmt::Display for Node {
    ghost use Rattle.names.specs.Spelling.{node_text};

    ghost output = { λ n. Some (node_text n) };

    fn fmt<W: fmt::Write>(&self, f: &mut fmt::Formatter<W>) -> fmt::Result {
        let object = &self.object;
        let relation = self.relation.as_str();
        write!(f, "{object}#{relation}")
    }
}
