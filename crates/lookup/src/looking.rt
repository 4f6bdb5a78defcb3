//! The lookup.
ghost use Rattle.std.specs.Prelude.{◌≡◌, ◌+◌, ◌++◌, ◌≤◌, ◌∷◌, [], ℕ, List, Contains, IfSome, IfOk, IfErr, OnOk, Some, true, false, length, if◌then◌else◌};
ghost use Rattle.meaning.specs.Admits.{has_relation};
ghost use Rattle.by_subject.specs.Complete.{Covers};
ghost use Rattle.lookup.specs.Found.{node_of, IsFound, IsLookup};
ghost use Rattle.lookup.specs.Causes.{LookupCause};
ghost use Rattle.lookup.specs.inside.Pages.{tuples_in, start_of, ids_of};
ghost use Rattle.lookup.specs.inside.Underway.{IsRising, IsUnderway};

use crate::asked::{Lookup, is_later};
use crate::walking::candidates;
use by_subject::{BySubject, ViewBySubject, most_for};
use config::Config;
use decide::{Asker, Oracle};
use names::{Node, Object, ObjectId, Refusal, Subject, Tuple};
use rows::{MAX_PAGE, Tupleset, View};
use std::alloc::{AllocError, Global};
use std::hash::RandomState;

/// What was found up to the last object that was asked for.
#[derive(Drop)]
struct Found {
    ids: Vec<ObjectId>,
    last: Option<ObjectId>,
}

/// The objects that are asked for, in the order of their ids. It is refused where the namespace lacks the
/// relation, and where there is no memory. After an answer the oracle tells of the view still.
///
/// Where tuples are kept by their subjects it walks up from the user, and asks for the objects that it meets until
/// as many are found as are asked for: it costs what is reached from the user, and what the checks cost. Without
/// them, or where more nodes are reached than [`most_for`] the limit, it goes over the namespace's tuples: it costs
/// what the namespace holds, and is slow on a large store. It takes memory for the reached nodes or a page of tuples,
/// for what the asker keeps and for the ids. Names are hashed under this key.
pub fn lookup_at<O: Oracle>(
    alloc: Global,
    keys: RandomState,
    view: &ViewBySubject,
    oracle: &mut O,
    asked: &Lookup,
) -> Result<Vec<ObjectId>, Refusal>
    requires { O.tells oracle.old view.now }
    ensures ok { IfOk result (λ ids. IsLookup view.now asked.now ids.items) }
    ensures known { OnOk result (has_relation view.now.config asked.now.relation ≡ true) }
    ensures err { IfErr result (LookupCause view.now asked.now) }
    ensures tells { OnOk result (O.tells oracle.new view.now) }
{
    look_up(alloc, keys, view.view(), oracle, view.found(), asked)
}

/// The same, of a view and its tuples by their subjects.
fn look_up<O: Oracle>(
    alloc: Global,
    keys: RandomState,
    view: &View,
    oracle: &mut O,
    subjects: Option<&BySubject>,
    asked: &Lookup,
) -> Result<Vec<ObjectId>, Refusal>
    requires tells { O.tells oracle.old view.now }
    requires covers { IfSome subjects (λ found. Covers found.now view.now.tuples) }
    ensures ok { IfOk result (λ ids. IsLookup view.now asked.now ids.items) }
    ensures known { OnOk result (has_relation view.now.config asked.now.relation ≡ true) }
    ensures err { IfErr result (LookupCause view.now asked.now) }
    ensures tells { OnOk result (O.tells oracle.new view.now) }
{
    if !has_relation(view.config(), asked)? {
        return Err(Refusal::UnknownRelation);
    }
    if let Some(subjects) = subjects {
        let most = most_for(asked.limit);
        if let Some(ids) = candidates(alloc, keys, view.config(), subjects, asked, most)? {
            return look_among(alloc, keys, view, oracle, asked, &ids);
        }
    }
    look_over(alloc, keys, view, oracle, asked)
}

/// The objects that are asked for, where all that are found are among some candidates.
fn look_among<O: Oracle>(
    alloc: Global,
    keys: RandomState,
    view: &View,
    oracle: &mut O,
    asked: &Lookup,
    ids: &[ObjectId],
) -> Result<Vec<ObjectId>, Refusal>
    requires tells { O.tells oracle.old view.now }
    requires rising { IsRising ids.now }
    requires there { (id : List ℕ) → IsFound view.now asked.now id → Contains ids.now id }
    ensures ok { IfOk result (λ found. IsLookup view.now asked.now found.items) }
    ensures err { IfErr result (LookupCause view.now asked.now) }
    ensures tells { OnOk result (O.tells oracle.new view.now) }
{
    let mut asker = Asker::of(alloc, keys, view);
    let mut found = begin(alloc, asked)?;
    ask_each(&mut asker, oracle, asked, ids, &mut found)?;
    Ok(found.ids)
}

/// Asks for each object, as long as fewer are found than are asked for.
fn ask_each<O: Oracle>(
    asker: &mut Asker,
    oracle: &mut O,
    asked: &Lookup,
    ids: &[ObjectId],
    found: &mut Found,
) -> Result<(), Refusal>
    requires { O.tells oracle.old asker.old }
    ensures underway { OnOk result ((left : List (List ℕ))
        → IsUnderway asker.old asked.now found.old (ids.now ++ left)
        → IsUnderway asker.old asked.now found.new left) }
    ensures tells { OnOk result (O.tells oracle.new asker.old) }
    ensures err { IfErr result (LookupCause asker.old asked.now) }
    ensures same { asker.new ≡ asker.old }
{
    for id in ids {
        if is_full(asked, found) {
            return Ok(());
        }
        look_at(asker, oracle, asked, id, found)?;
    }
    Ok(())
}

/// The objects that are asked for, by going over the tuples of the namespace's objects from the object on that the
/// others come after, a page at a time. One asker is asked of each object once.
fn look_over<O: Oracle>(
    alloc: Global,
    keys: RandomState,
    view: &View,
    oracle: &mut O,
    asked: &Lookup,
) -> Result<Vec<ObjectId>, Refusal>
    requires { O.tells oracle.old view.now }
    ensures ok { IfOk result (λ ids. IsLookup view.now asked.now ids.items) }
    ensures err { IfErr result (LookupCause view.now asked.now) }
    ensures tells { OnOk result (O.tells oracle.new view.now) }
{
    let config = view.config();
    // No configuration has an empty intersection, as this call says.
    config.relations();
    let mut asker = Asker::of(alloc, keys, view);
    let mut found = begin(alloc, asked)?;
    let mut tupleset = first_page(asked)?;
    'pages: loop {
        let mut page = view.read(alloc, &tupleset)?;
        look_through(&mut asker, oracle, asked, &page, &mut found)?;
        if is_full(asked, &found) || page.len() < MAX_PAGE as usize {
            return Ok(found.ids);
        }
        tupleset.after = page.pop();
    }
}

/// Nothing was found yet, and all up to the object that the others come after was asked for.
fn begin(alloc: Global, asked: &Lookup) -> Result<Found, AllocError>
    ensures ids { IfOk result (λ f. f.ids.items ≡ []) }
    ensures last { IfOk result (λ f. f.last ≡ asked.now.after) }
{
    let ids = Vec::new(alloc);
    let Some(id) = &asked.after else {
        return Ok(Found { ids, last: None });
    };
    let last = Some(id.clone()?);
    Ok(Found { ids, last })
}

/// Asks for each object of the tuples, as long as fewer are found than are asked for.
fn look_through<O: Oracle>(
    asker: &mut Asker,
    oracle: &mut O,
    asked: &Lookup,
    tuples: &[Tuple],
    found: &mut Found,
) -> Result<(), Refusal>
    requires { O.tells oracle.old asker.old }
    ensures underway { OnOk result ((left : List (List ℕ))
        → IsUnderway asker.old asked.now found.old (ids_of tuples.now ++ left)
        → IsUnderway asker.old asked.now found.new left) }
    ensures tells { OnOk result (O.tells oracle.new asker.old) }
    ensures err { IfErr result (LookupCause asker.old asked.now) }
    ensures same { asker.new ≡ asker.old }
{
    for tuple in tuples {
        look_at(asker, oracle, asked, &tuple.node.object.id, found)?;
    }
    Ok(())
}

/// Asks for the object with the id, unless that was done, or as many are found as are asked for.
fn look_at<O: Oracle>(
    asker: &mut Asker,
    oracle: &mut O,
    asked: &Lookup,
    id: &ObjectId,
    found: &mut Found,
) -> Result<(), Refusal>
    requires { O.tells oracle.old asker.old }
    ensures underway { OnOk result ((left : List (List ℕ))
        → IsUnderway asker.old asked.now found.old (id.now ∷ left)
        → IsUnderway asker.old asked.now found.new left) }
    ensures tells { OnOk result (O.tells oracle.new asker.old) }
    ensures err { IfErr result (LookupCause asker.old asked.now) }
    ensures same { asker.new ≡ asker.old }
{
    if is_full(asked, found) || !is_later(&found.last, id) {
        return Ok(());
    }
    let node = node_of(asked, id)?;
    let has = asker.ask(oracle, &node, &asked.user)?;
    note(found, id, has)?;
    Ok(())
}

/// Notes whether the user has the relation to the object with the id.
fn note(found: &mut Found, id: &ObjectId, has: bool) -> Result<(), AllocError>
    ensures ids { OnOk result
        (found.new.ids.items ≡ (if has then found.old.ids.items ++ id.now ∷ [] else found.old.ids.items)) }
    ensures last { OnOk result (found.new.last ≡ Some id.now) }
{
    if has {
        found.ids.push(id.clone()?)?;
    }
    found.last = Some(id.clone()?);
    Ok(())
}

/// Whether as many are found as are asked for.
fn is_full(asked: &Lookup, found: &Found) -> bool
    ensures full { result ≡ true → asked.now.limit ≤ length found.now.ids.items }
    ensures room { result ≡ false → length found.now.ids.items + 1 ≤ asked.now.limit }
{
    found.ids.len() >= asked.limit as usize
}

/// Whether the namespace has the relation.
fn has_relation(config: &Config, asked: &Lookup) -> Result<bool, AllocError>
    ensures { IfOk result (λ has. has ≡ has_relation config.now asked.now.relation) }
{
    // It is all one of which object.
    let node = node_of(asked, &asked.user.id)?;
    match config.place_of(&node) {
        Some(_place) => Ok(true),
        None => Ok(false),
    }
}

/// The relation of the namespace's object with the id.
fn node_of(asked: &Lookup, id: &ObjectId) -> Result<Node, AllocError>
    ensures { IfOk result (λ n. n ≡ node_of asked.now.relation id.now) }
{
    let object = Object {
        namespace: asked.relation.namespace.clone()?,
        id: id.clone()?,
    };
    let relation = asked.relation.relation.clone()?;
    Ok(Node { object, relation })
}

/// The first page of tuples. It may begin with some of the object that the others come after.
fn first_page(asked: &Lookup) -> Result<Tupleset, AllocError>
    ensures { IfOk result (λ t. t ≡ tuples_in asked.now.relation.namespace (start_of asked.now)) }
{
    let namespace = asked.relation.namespace.clone()?;
    let after = start_of(asked)?;
    Ok(Tupleset {
        namespace,
        object: None,
        relation: None,
        subject: None,
        after,
        limit: MAX_PAGE,
    })
}

/// A tuple of the object that the others come after, if one is given: it need not be there.
fn start_of(asked: &Lookup) -> Result<Option<Tuple>, AllocError>
    ensures { IfOk result (λ t. t ≡ start_of asked.now) }
{
    let Some(id) = &asked.after else {
        return Ok(None);
    };
    let node = node_of(asked, id)?;
    let subject = Subject::one(asked.user.clone()?);
    Ok(Some(Tuple { node, subject }))
}
