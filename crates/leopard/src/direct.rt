//! The groups that name a user by a tuple of their own.
ghost use Rattle.std.specs.Prelude.{◌≡◌, Any, IfOk, OnOk, None};
ghost use Rattle.leopard.specs.Groups.{MemberToGroup};
ghost use Rattle.leopard.specs.inside.Asking.{AreAll, Gains};
ghost use Rattle.leopard.specs.inside.Direct.{Names, sought};

use crate::sets::put;
use by_subject::ViewBySubject;
use names::{Node, Object, RelationName, Subject, Tuple};
use rows::{MAX_PAGE, Tupleset};
use std::alloc::{AllocError, Global};
use std::collections::BTreeSet;

/// The groups that name the user by a tuple of their own. The tuples that name the user are read once for each relation that
/// is indexed, a page at a time: memory is taken for one page and for the groups that are found.
pub(crate) fn direct(
    alloc: Global,
    view: &ViewBySubject,
    user: &Object,
) -> Result<BTreeSet<Node>, AllocError>
    ensures { IfOk result (λ groups. AreAll (MemberToGroup view.now user.now) groups.keys) }
{
    let relations = view.view().config().relations();
    let mut groups = BTreeSet::new(alloc);
    for relation in relations {
        if relation.indexed {
            put_named(alloc, view, &relation.name, user, &mut groups)?;
        }
    }
    Ok(groups)
}

/// Puts in the relation's nodes that name the user by a tuple of their own.
fn put_named(
    alloc: Global,
    view: &ViewBySubject,
    relation: &RelationName,
    user: &Object,
    groups: &mut BTreeSet<Node>,
) -> Result<(), AllocError>
    ensures { OnOk result (Gains (Names view.now relation.now user.now) groups.old.keys groups.new.keys) }
{
    let mut asked = tupleset_of(relation, user)?;
    'pages: loop {
        let mut page = view.read(alloc, &asked)?;
        put_nodes(groups, &page)?;
        if page.len() < MAX_PAGE as usize {
            return Ok(());
        }
        asked.after = page.pop();
    }
}

/// The first page of the relation's tuples that name the user itself.
fn tupleset_of(relation: &RelationName, user: &Object) -> Result<Tupleset, AllocError>
    ensures { IfOk result (λ asked. asked ≡ sought relation.now user.now None) }
{
    let namespace = relation.namespace.clone()?;
    let name = relation.relation.clone()?;
    let subject = Subject::one(user.clone()?);
    Ok(Tupleset {
        namespace,
        object: None,
        relation: Some(name),
        subject: Some(subject),
        after: None,
        limit: MAX_PAGE,
    })
}

/// Puts in the tuples' nodes.
fn put_nodes(groups: &mut BTreeSet<Node>, tuples: &[Tuple]) -> Result<(), AllocError>
    ensures { OnOk result (Gains (λ n. Any (λ t. n ≡ t.node) tuples.now) groups.old.keys groups.new.keys) }
{
    for tuple in tuples {
        put(groups, tuple.node.clone()?)?;
    }
    Ok(())
}
