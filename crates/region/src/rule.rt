//! What is told of a node.
ghost use Rattle.std.specs.Prelude.{◌≡◌, IfOk};
ghost use Rattle.region.specs.Rules.{shape_of, fact_of};

use idsets::IdSet;
use std::alloc::{AllocError, Global};

/// A rule over nodes.
#[derive(Drop)]
pub enum Rule {
    /// What the node holds by itself.
    Own,
    /// The members of any of some nodes.
    AnyOf(Vec<u64>),
    /// Nodes that the rule was made from, and that give nobody: the objects and relation of a tupleset.
    Reads(Vec<u64>),
    Either(Box<Rule>, Box<Rule>),
    Both(Box<Rule>, Box<Rule>),
    /// The first without the second.
    Except(Box<Rule>, Box<Rule>),
}

/// What is told of a node.
#[derive(Drop)]
pub struct Told {
    pub node: u64,
    pub level: u32,
    pub rule: Rule,
    pub own: IdSet,
}

impl Rule {
    /// A copy.
    pub fn again(&self, alloc: Global) -> Result<Rule, AllocError>
        ensures { IfOk result (λ copy. shape_of copy ≡ shape_of self.now) }
    {
        match self {
            Rule::Own => Ok(Rule::Own),
            Rule::AnyOf(nodes) => Ok(Rule::AnyOf(nodes.clone()?)),
            Rule::Reads(nodes) => Ok(Rule::Reads(nodes.clone()?)),
            Rule::Either(a, b) => {
                let first = a.again(alloc)?;
                let second = b.again(alloc)?;
                Ok(Rule::Either(Box::new(alloc, first)?, Box::new(alloc, second)?))
            }
            Rule::Both(a, b) => {
                let first = a.again(alloc)?;
                let second = b.again(alloc)?;
                Ok(Rule::Both(Box::new(alloc, first)?, Box::new(alloc, second)?))
            }
            Rule::Except(a, b) => {
                let first = a.again(alloc)?;
                let second = b.again(alloc)?;
                Ok(Rule::Except(Box::new(alloc, first)?, Box::new(alloc, second)?))
            }
        }
    }
}

impl Told {
    /// A copy.
    pub fn again(&self, alloc: Global) -> Result<Told, AllocError>
        ensures node { IfOk result (λ copy. copy.node ≡ self.now.node) }
        ensures fact { IfOk result (λ copy. fact_of copy ≡ fact_of self.now) }
    {
        Ok(Told {
            node: self.node,
            level: self.level,
            rule: self.rule.again(alloc)?,
            own: self.own.again()?,
        })
    }
}
