//! Who asks, and what is found.
ghost use Rattle.std.specs.Prelude.{◌≡◌, ◌+◌, ◌<◌, ◌^◌, false, true, None};
ghost use Rattle.decide.specs.inside.Asked.{high};

use crate::reads::Read;
use names::{Node, Object};

/// The node that is looked at, with its number and level, the user who is sought, whether the part of its
/// rewrite is not subtracted, and what was read of its object, if anything was.
#[derive(Clone, Copy)]
pub(crate) struct Asking<'a> {
    pub(crate) number: usize,
    pub(crate) node: &'a Node,
    pub(crate) level: usize,
    pub(crate) user: &'a Object,
    pub(crate) plain: bool,
    pub(crate) read: Option<&'a Read<'a>>,
}

impl<'a> Asking<'a> {
    /// A node of which nothing was read.
    pub(crate) fn of(number: usize, node: &'a Node, level: usize, user: &'a Object) -> Asking<'a>
        ensures { result ≡ record { number = number; node = node.entry; level = level; user = user.entry; plain = true; read = None } }
    {
        Asking {
            number,
            node,
            level,
            user,
            plain: true,
            read: None,
        }
    }

    /// Nodes below this level count.
    pub(crate) fn high(&self) -> usize
        requires { self.now.level + 1 < 2 ^ 64 }
        ensures { result ≡ high self.now }
    {
        if self.plain {
            self.level + 1
        } else {
            self.level
        }
    }

    /// The same for a subtracted part.
    pub(crate) fn subtracted(&self) -> Asking<'a>
        ensures { result ≡ record self.now { plain = false } }
    {
        Asking {
            plain: false,
            ..*self
        }
    }
}

/// What is found of a part of a rewrite.
#[derive(Clone, Copy)]
pub(crate) enum Found {
    /// It gives the user.
    Yes,
    /// It does not, unless a node that the asker waits for has the user.
    No,
    /// Lower levels are to be finished first.
    Later,
}
