//! What is known to a search.
use crate::hot::Hot;
use decide::Oracle;
use names::{Node, Object};

/// What is kept of marked nodes, for a search at the revision of which it is.
#[derive(Drop)]
pub struct Known<'a> {
    pub hot: &'a Hot,
}

impl Oracle for Known<'_> {
    ghost use Rattle.hot.specs.Kept.{IsHot};

    ghost tells = { λ known S. IsHot known.hot.now S };

    fn knows(&mut self, node: &Node, user: &Object) -> Option<bool> {
        self.hot.has(node, user)
    }
}
