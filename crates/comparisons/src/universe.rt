//! The nodes and the objects that are asked about.

use crate::policies::Policy;
use names::{Node, Object, Refusal};
use std::alloc::Global;

/// How many users there are, and how many groups.
const MANY: u64 = 4;

/// How many objects another namespace has.
const FEW: u64 = 3;

/// All nodes and all users of a policy.
#[derive(Drop)]
pub(crate) struct Universe {
    pub(crate) policy: Policy,
    pub(crate) nodes: Vec<Node>,
    pub(crate) users: Vec<Object>,
}

impl Universe {
    pub(crate) fn new(alloc: Global, policy: Policy) -> Result<Universe, Refusal> {
        let nodes = nodes_of(alloc, policy.asked)?;
        let mut users = Vec::new(alloc);
        for number in 0..MANY {
            let text = format!(in alloc; "user:{number}")?;
            users.push(Object::parse(text.as_str())?)?;
        }
        Ok(Universe {
            policy,
            nodes,
            users,
        })
    }
}

/// How many objects the kind's namespace has.
pub(crate) fn count_of(kind: &str) -> u64 {
    if kind.starts_with("group") || kind.starts_with("user") {
        MANY
    } else {
        FEW
    }
}

fn nodes_of(alloc: Global, asked: &str) -> Result<Vec<Node>, Refusal> {
    let mut nodes = Vec::new(alloc);
    for kind in asked.split_ascii_whitespace() {
        if let Some((namespace, relation)) = kind.split_once('#') {
            for number in 0..count_of(kind) {
                let text = format!(in alloc; "{namespace}:{number}#{relation}")?;
                nodes.push(Node::parse(text.as_str())?)?;
            }
        }
    }
    Ok(nodes)
}
