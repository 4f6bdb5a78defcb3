//! What is known to a search.
ghost use Rattle.std.specs.Prelude.{IfSome};

use decide::Oracle;
use group_index::At;
use hot::Hot;
use names::{Node, Object};

/// What is kept at the revision of a search: of marked nodes, which are asked first, and of groups.
#[derive(Drop)]
pub(crate) struct Known<'a> {
    pub(crate) hot: Option<&'a Hot>,
    pub(crate) groups: Option<At<'a>>,
}

impl Oracle for Known<'_> {
    ghost use Rattle.std.specs.Prelude.{IfSome};
    ghost use Rattle.meaning.specs.Reads.{IsValid};
    ghost use Rattle.hot.specs.Kept.{IsHot};
    ghost use Rattle.group_index.specs.Indices.{TellsOf};

    ghost tells = { λ known S. IfSome known.hot (λ hot. IsHot hot.now S) × IfSome known.groups (λ at. TellsOf at S) × IsValid S };

    fn knows(&mut self, node: &Node, user: &Object) -> Option<bool> {
        if let Some(hot) = self.hot {
            if let Some(has) = hot.has(node, user) {
                return Some(has);
            }
        }
        match &self.groups {
            Some(at) => at.has(node, user),
            None => None,
        }
    }
}
