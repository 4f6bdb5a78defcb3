//! What is asked of what is shown, and what is told.
ghost use Rattle.std.specs.Prelude.{◌≤◌};
ghost use Rattle.expand.specs.declared.limits.TheConstants.{MAX_DEPTH};

use crate::answer::Answer;
use expand::Tree;
use leopard::Expr;
use lookup::Lookup;
use names::{Items, Name, Node, Object, ObjectId, State, Tuple};
use rows::Tupleset;
use watch::{Namespaces, Page};
use zookie::{Consistency, Zookie};

/// How many nodes of a userset tree are open on a path of it at most, 1 to 8.
#[derive(Clone, Copy)]
pub struct Depth {
    pub nodes: u8,
    pub ghost opens: { 1 ≤ nodes },
    pub ghost bounded: { nodes ≤ MAX_DEPTH },
}

/// Objects of one namespace.
#[derive(Drop)]
pub struct Objects {
    pub namespace: Name,
    pub ids: Items<ObjectId>,
}

/// One question, and how fresh its answer must be.
#[derive(Drop)]
pub enum Question {
    /// Whether the user is a member of the node (Zanzibar, section 2.4.4).
    Check(Consistency, Node, Object),
    /// The userset tree of the node (section 2.4.5).
    Expand(Consistency, Node, Depth),
    /// The page of a tupleset (section 2.4.1).
    Read(Consistency, Tupleset),
    /// Which objects of a namespace a user has a relation to (ListObjects of OpenFGA).
    Lookup(Consistency, Lookup),
    /// The first so many groups that the expression means (section 3.2.4).
    Groups(Consistency, Expr, u32),
    /// The events of so many commits above the cursor on tuples of the namespaces (section 2.4.3).
    Watch(Zookie, Namespaces, u32),
    /// Revisions, and how large the history is.
    State,
}

/// What a question is told, in the order of questions.
#[derive(Drop)]
pub enum Told {
    Checked(Answer<bool>),
    Expanded(Answer<Tree>),
    Found(Answer<Items<Tuple>>),
    Looked(Answer<Objects>),
    Grouped(Answer<Items<Node>>),
    Watched(Page),
    Numbers(State),
}
