//! What a rewrite gives the node that asks.
ghost use Rattle.std.specs.Prelude.{◌≡◌, ℕ, Contains, Option, IfOk, IfSome, IfNone, OnOk, map};
ghost use Rattle.meaning.specs.Config.{Has, rel_of};
ghost use Rattle.meaning.specs.Membership.{HasOne};
ghost use Rattle.meaning.specs.Form.{This, Computed, TupleTo, Union, Intersection};
ghost use Rattle.names.specs.declared.object.Object.{Object as ObjectValue};
ghost use Rattle.config.specs.Places.{StandsAt};
ghost use Rattle.config_text.specs.Forms.{form_of, rewrite_forms};
ghost use Rattle.decide.specs.inside.Asked.{IsAsking, IsCounted, IsLeft, GoesOn};
ghost use Rattle.decide.specs.inside.Running.{IsRunning};
ghost use Rattle.decide.specs.inside.Reads.{AreOwn, AreNodesOf, node_with};
ghost use Rattle.decide.specs.inside.Reading.{AreRead};
ghost use Rattle.decide.specs.inside.Given.{Gave, BaseGives, HasNode, HasSome, RelationGave, opposite, no_or_later};

use crate::asking::{Asking, Found};
use crate::facts::{Facts, node_of};
use crate::reads::{Reads, named_in};
use crate::search::{Parents, Search};
use config_text::Rewrite;
use names::{Name, Node, Object};
use std::alloc::AllocError;

/// Where the node's relation stands, if it is there.
fn place_of(facts: &Facts, search: &Search, node: &Node) -> Option<usize>
    ensures some { IfSome result (λ p. (u : ObjectValue) (but : Option ℕ) → IsRunning facts.now u search.now but
        → StandsAt facts.now.config (rel_of node.now) p) }
    ensures none { IfNone result (Has facts.now.config (rel_of node.now) → ⊥) }
{
    match search.likely_place(node) {
        Some(place) => Some(place),
        None => facts.place_of(node),
    }
}

/// The number of the object's node of the relation, where it counts. It is opened if it was not.
fn number_of(
    facts: &Facts,
    search: &mut Search,
    asking: &Asking,
    object: &Object,
    relation: &Name,
) -> Result<Option<usize>, AllocError>
    requires asking { IsAsking facts.now search.old asking.now }
    ensures goes_on { OnOk result (GoesOn facts.now search.old search.new asking.now) }
    ensures some { IfOk result (λ o. IfSome o
        (IsCounted facts.now search.new asking.now (node_with relation.now object.now))) }
    ensures none { IfOk result (λ o. IfNone o
        (IsLeft facts.now search.new asking.now (node_with relation.now object.now) → ⊥)) }
{
    let key = match search.seen(object, relation) {
        Ok(number) => {
            if search.level_of(number) >= asking.high() {
                return Ok(None);
            }
            return Ok(Some(number));
        }
        Err(key) => key,
    };
    let node = node_of(object, relation);
    let Some(place) = place_of(facts, search, &node) else {
        return Ok(None);
    };
    let level = facts.level_at(place);
    if level >= asking.high() {
        return Ok(None);
    }
    let number = search.open(node, level, place, key)?;
    Ok(Some(number))
}

/// Whether the object's node of the relation counts and has the user. Where that is not known, the asker waits for it.
fn asked(
    facts: &Facts,
    search: &mut Search,
    asking: &Asking,
    object: &Object,
    relation: &Name,
) -> Result<Found, AllocError>
    requires asking { IsAsking facts.now search.old asking.now }
    ensures goes_on { OnOk result (GoesOn facts.now search.old search.new asking.now) }
    ensures found { IfOk result (HasNode facts.now search.new asking.now (node_with relation.now object.now)) }
{
    let Some(number) = number_of(facts, search, asking, object, relation)? else {
        return Ok(Found::No);
    };
    if search.is_sure(number) {
        return Ok(Found::Yes);
    }
    if asking.plain {
        search.wait(number, asking.number)?;
        return Ok(Found::No);
    }
    let level = search.level_of(number);
    if search.is_settled(level) {
        return Ok(Found::No);
    }
    search.wait(number, asking.number)?;
    Ok(Found::Later)
}

/// Whether one of the nodes counts and has the user.
fn some_asked(
    facts: &Facts,
    search: &mut Search,
    asking: &Asking,
    nodes: &[Node],
) -> Result<Found, AllocError>
    requires asking { IsAsking facts.now search.old asking.now }
    ensures goes_on { OnOk result (GoesOn facts.now search.old search.new asking.now) }
    ensures found { IfOk result (HasSome facts.now search.new asking.now nodes.now) }
{
    let mut later = false;
    for node in nodes {
        match asked(facts, search, asking, &node.object, &node.relation)? {
            Found::Yes => return Ok(Found::Yes),
            Found::No => {}
            Found::Later => later = true,
        }
    }
    Ok(no_or_later(later))
}

/// What is found where nothing gave the user.
fn no_or_later(later: bool) -> Found
    ensures { result ≡ no_or_later later }
{
    if later { Found::Later } else { Found::No }
}

/// The usersets of the node's own tuples, unless one of these names the user. They are read once.
fn own_of(
    facts: &Facts,
    search: &mut Search,
    asking: &Asking,
) -> Result<Option<Vec<Node>>, AllocError>
    requires asking { IsAsking facts.now search.old asking.now }
    ensures goes_on { OnOk result (GoesOn facts.now search.old search.new asking.now) }
    ensures some { IfOk result (λ o. IfSome o (λ v.
        AreOwn facts.now asking.now.user.now asking.now.node.now v.items)) }
    ensures none { IfOk result (λ o. IfNone o (HasOne facts.now asking.now.node.now asking.now.user.now)) }
{
    if let Some(sets) = search.take_own(asking.number) {
        return Ok(Some(sets));
    }
    let sets = facts.own_of(asking.read, asking.node, asking.user)?;
    Ok(sets)
}

/// The node's own tuples.
fn this(facts: &Facts, search: &mut Search, asking: &Asking) -> Result<Found, AllocError>
    requires asking { IsAsking facts.now search.old asking.now }
    ensures goes_on { OnOk result (GoesOn facts.now search.old search.new asking.now) }
    ensures found { IfOk result (Gave facts.now search.new asking.now This) }
{
    let Some(sets) = own_of(facts, search, asking)? else {
        return Ok(Found::Yes);
    };
    let found = some_asked(facts, search, asking, &sets)?;
    search.keep_own(asking.number, sets);
    Ok(found)
}

/// Another relation of the same object.
fn computed(
    facts: &Facts,
    search: &mut Search,
    asking: &Asking,
    relation: &Name,
) -> Result<Found, AllocError>
    requires asking { IsAsking facts.now search.old asking.now }
    ensures goes_on { OnOk result (GoesOn facts.now search.old search.new asking.now) }
    ensures found { IfOk result
        (Gave facts.now search.new asking.now (Computed relation.now)) }
{
    let found = asked(facts, search, asking, &asking.node.object, relation)?;
    Ok(found)
}

/// The nodes of the relation, of the objects that the tupleset's tuples name. They are read once, where the
/// node has no other tupleset.
fn parents_of(
    facts: &Facts,
    search: &mut Search,
    asking: &Asking,
    tupleset: &Name,
    relation: &Name,
) -> Result<Vec<Node>, AllocError>
    requires asking { IsAsking facts.now search.old asking.now }
    ensures goes_on { OnOk result (GoesOn facts.now search.old search.new asking.now) }
    ensures are { IfOk result (λ v.
        AreNodesOf facts.now asking.now.node.now tupleset.now relation.now v.items) }
{
    if let Some(kept) = search.take_parents(asking.number) {
        if kept.tupleset == *tupleset && kept.relation == *relation {
            return Ok(kept.nodes);
        }
    }
    let nodes = facts.parents_of(asking.read, asking.node, tupleset, relation)?;
    Ok(nodes)
}

/// Whether one of the objects' nodes of the relation counts and has the user.
fn some_of(
    facts: &Facts,
    search: &mut Search,
    asking: &Asking,
    objects: &[Object],
    relation: &Name,
) -> Result<Found, AllocError>
    requires asking { IsAsking facts.now search.old asking.now }
    ensures goes_on { OnOk result (GoesOn facts.now search.old search.new asking.now) }
    ensures found { IfOk result
        (HasSome facts.now search.new asking.now (map (node_with relation.now) objects.now)) }
{
    let mut later = false;
    for object in objects {
        match asked(facts, search, asking, object, relation)? {
            Found::Yes => return Ok(Found::Yes),
            Found::No => {}
            Found::Later => later = true,
        }
    }
    Ok(no_or_later(later))
}

/// A relation of the objects that the tupleset's tuples name.
fn through(
    facts: &Facts,
    search: &mut Search,
    asking: &Asking,
    tupleset: &Name,
    relation: &Name,
) -> Result<Found, AllocError>
    requires asking { IsAsking facts.now search.old asking.now }
    ensures goes_on { OnOk result (GoesOn facts.now search.old search.new asking.now) }
    ensures found { IfOk result (Gave facts.now search.new asking.now
        (TupleTo tupleset.now relation.now)) }
{
    if let Some(objects) = named_in(asking.read, tupleset) {
        let found = some_of(facts, search, asking, objects, relation)?;
        return Ok(found);
    }
    through_list(facts, search, asking, tupleset, relation)
}

/// The same, where the objects were not read with the asker's.
fn through_list(
    facts: &Facts,
    search: &mut Search,
    asking: &Asking,
    tupleset: &Name,
    relation: &Name,
) -> Result<Found, AllocError>
    requires asking { IsAsking facts.now search.old asking.now }
    ensures goes_on { OnOk result (GoesOn facts.now search.old search.new asking.now) }
    ensures found { IfOk result (Gave facts.now search.new asking.now
        (TupleTo tupleset.now relation.now)) }
{
    let nodes = parents_of(facts, search, asking, tupleset, relation)?;
    let found = some_asked(facts, search, asking, &nodes)?;
    let parents = Parents {
        tupleset: tupleset.again(),
        relation: relation.again(),
        nodes,
    };
    search.keep_parents(asking.number, parents);
    Ok(found)
}

/// Whether the rewrite gives the user to the node that asks.
#[cycle(gives)]
fn gives(
    facts: &Facts,
    search: &mut Search,
    asking: &Asking,
    rewrite: &Rewrite,
) -> Result<Found, AllocError>
    requires asking { IsAsking facts.now search.old asking.now }
    ensures goes_on { OnOk result (GoesOn facts.now search.old search.new asking.now) }
    ensures found { IfOk result
        (Gave facts.now search.new asking.now (form_of rewrite.now)) }
{
    match rewrite {
        Rewrite::This => this(facts, search, asking),
        Rewrite::Computed(relation) => computed(facts, search, asking, relation),
        Rewrite::TupleTo { tupleset, relation } => {
            through(facts, search, asking, tupleset, relation)
        }
        Rewrite::Union(parts) => some_gives(facts, search, asking, parts),
        Rewrite::Intersection(parts) => each_gives(facts, search, asking, parts),
        Rewrite::Exclusion(base, _) => match gives(facts, search, asking, base)? {
            Found::Yes => {
                let found = without(facts, search, asking, rewrite)?;
                Ok(found)
            }
            Found::No => Ok(Found::No),
            Found::Later => Ok(Found::Later),
        },
    }
}

/// Whether an exclusion gives the user, where its first part does: its second part is asked now.
#[cycle(gives)]
fn without(
    facts: &Facts,
    search: &mut Search,
    asking: &Asking,
    rewrite: &Rewrite,
) -> Result<Found, AllocError>
    requires asking { IsAsking facts.now search.old asking.now }
    requires base { BaseGives facts.now asking.now (form_of rewrite.now) }
    ensures goes_on { OnOk result (GoesOn facts.now search.old search.new asking.now) }
    ensures found { IfOk result
        (Gave facts.now search.new asking.now (form_of rewrite.now)) }
{
    match rewrite {
        Rewrite::Exclusion(_, less) => {
            let subtracted = asking.subtracted();
            let found = gives(facts, search, &subtracted, less)?;
            Ok(opposite(found))
        }
        _ => Ok(Found::No),
    }
}

fn opposite(found: Found) -> Found
    ensures { result ≡ opposite found }
{
    match found {
        Found::Yes => Found::No,
        Found::No => Found::Yes,
        Found::Later => Found::Later,
    }
}

/// Whether some part gives the user.
#[cycle(gives)]
fn some_gives(
    facts: &Facts,
    search: &mut Search,
    asking: &Asking,
    parts: &[Rewrite],
) -> Result<Found, AllocError>
    requires asking { IsAsking facts.now search.old asking.now }
    ensures goes_on { OnOk result (GoesOn facts.now search.old search.new asking.now) }
    ensures found { IfOk result
        (Gave facts.now search.new asking.now (Union (rewrite_forms parts.now))) }
{
    let mut later = false;
    for part in parts {
        match gives(facts, search, asking, part)? {
            Found::Yes => return Ok(Found::Yes),
            Found::No => {}
            Found::Later => later = true,
        }
    }
    Ok(no_or_later(later))
}

/// Whether each part gives the user. The first that does not ends it.
#[cycle(gives)]
fn each_gives(
    facts: &Facts,
    search: &mut Search,
    asking: &Asking,
    parts: &[Rewrite],
) -> Result<Found, AllocError>
    requires asking { IsAsking facts.now search.old asking.now }
    ensures goes_on { OnOk result (GoesOn facts.now search.old search.new asking.now) }
    ensures found { IfOk result
        (Gave facts.now search.new asking.now (Intersection (rewrite_forms parts.now))) }
{
    for part in parts {
        match gives(facts, search, asking, part)? {
            Found::Yes => {}
            Found::No => return Ok(Found::No),
            Found::Later => return Ok(Found::Later),
        }
    }
    Ok(Found::Yes)
}

/// Whether the rewrite of the node's own relation gives it the user.
pub(crate) fn relation_gives<'a>(
    facts: &Facts<'a>,
    reads: &mut Reads<'a>,
    search: &mut Search,
    asking: &Asking,
) -> Result<Found, AllocError>
    requires read { AreRead facts.now reads.old }
    requires asking { IsAsking facts.now search.old asking.now }
    ensures read { AreRead facts.now reads.new }
    ensures goes_on { OnOk result (GoesOn facts.now search.old search.new asking.now) }
    ensures found { IfOk result (RelationGave facts.now search.new asking.now) }
{
    let place = search.place_of(asking.number);
    let relation = &facts.config().relations()[place];
    let at = reads.read_for(facts, &relation.rewrite, &asking.node.object)?;
    let reading = Asking {
        number: asking.number,
        node: asking.node,
        level: asking.level,
        user: asking.user,
        plain: asking.plain,
        read: reads.at(at),
    };
    let found = gives(facts, search, &reading, &relation.rewrite)?;
    Ok(found)
}
