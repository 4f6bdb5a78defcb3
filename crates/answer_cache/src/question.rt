//! Questions of checks.
ghost use Rattle.std.specs.Prelude.{◌≡◌};
ghost use Rattle.std.specs.Cmp.Rules.{hashing};
ghost use Rattle.std.proofs.Common.{rules};

use names::{Name, Node, Object, ObjectId};
use std::hash::{Hash, Hasher};

/// Whether a user is a member of a node at a revision.
///
/// A cache is asked by a whole question, so what is asked is copied first. It is copied in place: a name and
/// an id hold their text themselves, and no memory is taken.
#[derive(Debug, PartialEq, Eq, Drop)]
pub struct Question {
    pub revision: u64,
    pub node: Node,
    pub user: Object,
}

impl Question {
    ghost use Rattle.answer_cache.specs.Questions.{question};

    pub(crate) fn of(revision: u64, node: &Node, user: &Object) -> Question
        ensures { result ≡ question revision node.now user.now }
    {
        Question {
            revision,
            node: Node {
                object: copy_of_object(&node.object),
                relation: copy_of_name(&node.relation),
            },
            user: copy_of_object(user),
        }
    }
}

impl Hash for Question {
    ghost use Rattle.answer_cache.specs.Questions.{question_bytes};

    ghost hash_input = { question_bytes };

    ghost respects_eq = { Prim.search (hashing, rules) };

    fn hash<H: Hasher>(&self, state: &mut H) {
        state.write_u64(self.revision);
        self.node.hash(state);
        self.user.hash(state);
    }
}

fn copy_of_object(object: &Object) -> Object
    ensures { result ≡ object.now }
{
    Object {
        namespace: copy_of_name(&object.namespace),
        id: copy_of_id(&object.id),
    }
}

// A copy of a name takes no memory, which the type of `clone` does not say: were there none, it would be
// read again.
fn copy_of_name(name: &Name) -> Name
    ensures { result ≡ name.now }
{
    if let Ok(copy) = name.clone() {
        return copy;
    }
    match Name::parse(name.as_str()) {
        Ok(copy) => copy,
        Err(_) => unreachable!(),
    }
}

fn copy_of_id(id: &ObjectId) -> ObjectId
    ensures { result ≡ id.now }
{
    if let Ok(copy) = id.clone() {
        return copy;
    }
    match ObjectId::parse(id.as_str()) {
        Ok(copy) => copy,
        Err(_) => unreachable!(),
    }
}
