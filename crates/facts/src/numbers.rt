//! The numbers of nodes and of users.
ghost use Rattle.std.specs.Prelude.{◌≡◌, []};

use idsets::Ids;
use names::{Node, Object};
use std::alloc::Global;
use std::hash::RandomState;

/// The nodes and the users that were seen, with a number each.
#[derive(Drop)]
pub struct Numbers {
    pub nodes: Ids<Node>,
    pub users: Ids<Object>,
}

impl Numbers {
    /// None was seen. Names are hashed under this key. It takes no memory.
    pub fn new(alloc: Global, keys: RandomState) -> Numbers
        ensures nodes { result.nodes ≡ [] }
        ensures users { result.users ≡ [] }
    {
        Numbers {
            nodes: Ids::new(alloc, keys),
            users: Ids::new(alloc, keys),
        }
    }
}
