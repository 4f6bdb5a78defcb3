//! Tuples turned round.
ghost use Rattle.std.specs.Prelude.{◌≡◌};
ghost use Rattle.by_subject.specs.Turned.{turned};

use names::{Node, Subject, Tuple};

/// The tuple, turned round.
pub(crate) fn turned(tuple: &Tuple) -> Tuple
    ensures { result ≡ turned tuple.now }
{
    let named = tuple.subject.object.again();
    match &tuple.subject.relation {
        None => Tuple {
            node: Node {
                object: named,
                relation: tuple.node.relation.again(),
            },
            subject: Subject::one(tuple.node.object.again()),
        },
        Some(relation) => Tuple {
            node: Node {
                object: named,
                relation: relation.again(),
            },
            subject: Subject::set(tuple.node.again()),
        },
    }
}
