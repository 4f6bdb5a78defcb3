//! The pure machine of publication, which no program runs.

use config::Config;
use leopard::Expr;
use lookup::Lookup;
use names::limits::MAX_MARKS;
use names::{
    Commit, Items, Marking, Name, Node, Object, Op, OpKind, Part, Refusal, RelationName, Tuple,
};
use publication::{Event, Outcome, Posting, World};
use rows::{Loaded, Tupleset, events_of};
use shown::{Depth, Question, Told};
use std::alloc::Global;
use std::hash::RandomState;
use tuple_keys::KeptCommit;
use watch::Namespaces;
use zookie::{Consistency, Zookie};

const CONFIG: &str =
    r#"{"namespaces":{"group":{"member":{"types":["user"],"indexed":true}},"user":{}}}"#;

const ANN: &str = "group:a#member@user:ann";

// A store with the configuration at 1.
fn opening(alloc: Global) -> Result<Posting, Refusal> {
    let config = Config::from_json(alloc, CONFIG.as_bytes())?;
    let mut commits = Vec::new(alloc);
    commits.push(KeptCommit::of_config(alloc, config)?)?;
    Ok(Posting::Opening(Loaded {
        number: 1,
        floor: 0,
        config: Config::empty(alloc),
        tuples: Items::of(Vec::new(alloc)),
        commits: Items::of(commits),
    }))
}

fn comes(world: &mut World, event: Event) -> Result<bool, Refusal> {
    match world.event(event)? {
        Outcome::Done => Ok(true),
        _ => Ok(false),
    }
}

fn opens(alloc: Global, world: &mut World) -> Result<bool, Refusal> {
    let posted = comes(world, Event::Posted(opening(alloc)?))?;
    Ok(posted && comes(world, Event::Published(1))?)
}

// A commit that puts ann.
fn put_of_ann(alloc: Global) -> Result<Commit<Config>, Refusal> {
    let tuple = Tuple::parse(ANN)?;
    let mut ops = Vec::new(alloc);
    ops.push(Op {
        kind: OpKind::Touch,
        tuple,
    })?;
    Ok(Commit::Tuples(events_of(Items::of(ops))?))
}

// Whether ann can be put, and the commit be posted.
fn puts_ann(alloc: Global, world: &mut World) -> Result<bool, Refusal> {
    let commit = put_of_ann(alloc)?;
    Ok(comes(world, Event::Stored(commit))? && comes(world, Event::Posted(Posting::NextCommit))?)
}

// By how many steps it is answered whether ann is a member at any revision, at which one, and what.
fn asked(alloc: Global, world: &mut World) -> Result<Option<(u64, u64, bool)>, Refusal> {
    let node = Node::parse("group:a#member")?;
    let user = Object::parse("user:ann")?;
    let any = Consistency::AtLeast(Zookie { store: 1, rev: 0 });
    match world.event(Event::Entered(7, Question::Check(any, node, user)))? {
        Outcome::Answered(steps, Ok(Told::Checked(answer))) => {
            Ok(Some((steps, answer.rev, answer.value)))
        }
        _ => Ok(None),
    }
}

fn is_put_alone(alloc: Global, world: &mut World) -> Result<bool, Refusal> {
    let came = opens(alloc, world)? && puts_ann(alloc, world)?;
    let published = came && comes(world, Event::Published(1))?;
    Ok(published && asked(alloc, world)? == Some((2, 1, false)))
}

fn is_not_seen(alloc: Global, keys: RandomState) -> bool {
    let mut world = World::new(alloc, keys);
    is_put_alone(alloc, &mut world).unwrap_or(false)
}

#[test]
fn a_write_is_not_seen_before_the_index_takes_it(rt: HostRuntime) {
    let keys = RandomState::new(&rt).expect(&rt, "a key");
    assert!(rt; is_not_seen(rt.alloc(), keys));
}

fn is_put_and_taken(alloc: Global, world: &mut World) -> Result<bool, Refusal> {
    let came = opens(alloc, world)? && puts_ann(alloc, world)?;
    let taken = came && takes(world, Part::Index)?;
    let published = taken && comes(world, Event::Published(2))?;
    Ok(published && asked(alloc, world)? == Some((3, 2, true)))
}

fn is_seen(alloc: Global, keys: RandomState) -> bool {
    let mut world = World::new(alloc, keys);
    is_put_and_taken(alloc, &mut world).unwrap_or(false)
}

#[test]
fn a_write_is_seen_once_the_index_takes_it(rt: HostRuntime) {
    let keys = RandomState::new(&rt).expect(&rt, "a key");
    assert!(rt; is_seen(rt.alloc(), keys));
}

fn trims(world: &mut World, floor: u64) -> Result<bool, Refusal> {
    comes(world, Event::Posted(Posting::Trimming(floor)))
}

fn takes(world: &mut World, part: Part) -> Result<bool, Refusal> {
    comes(world, Event::Posted(Posting::Taking(part, 1)))
}

fn is_in_use(alloc: Global, world: &mut World) -> Result<bool, Refusal> {
    let once = opens(alloc, world)? && trims(world, 1)? && !trims(world, 1)?;
    Ok(once && puts_ann(alloc, world)? && !trims(world, 2)?)
}

fn is_free_then(world: &mut World) -> Result<bool, Refusal> {
    let half = takes(world, Part::Index)? && !trims(world, 2)?;
    Ok(half && takes(world, Part::Hot)? && trims(world, 2)?)
}

fn is_seen_above(alloc: Global, world: &mut World) -> Result<bool, Refusal> {
    let published = comes(world, Event::Published(5))?;
    Ok(published && asked(alloc, world)? == Some((6, 2, true)))
}

fn is_raised(alloc: Global, keys: RandomState) -> bool {
    let mut world = World::new(alloc, keys);
    let held = is_in_use(alloc, &mut world).unwrap_or(false);
    let raised = held && is_free_then(&mut world).unwrap_or(false);
    raised && is_seen_above(alloc, &mut world).unwrap_or(false)
}

#[test]
fn the_floor_is_raised_to_where_no_cursor_is_below(rt: HostRuntime) {
    let keys = RandomState::new(&rt).expect(&rt, "a key");
    assert!(rt; is_raised(rt.alloc(), keys));
}

fn marks(world: &mut World, node: &str) -> Result<bool, Refusal> {
    let marking = Marking::Mark(Node::parse(node)?);
    comes(world, Event::Posted(Posting::Marking(marking)))
}

fn unmarks(world: &mut World, node: &str) -> Result<bool, Refusal> {
    let marking = Marking::Unmark(Node::parse(node)?);
    comes(world, Event::Posted(Posting::Marking(marking)))
}

fn marks_numbered(alloc: Global, world: &mut World, number: usize) -> Result<bool, Refusal> {
    let node = format!(in alloc; "group:{number}#member")?;
    marks(world, &node)
}

fn marks_as_many_as_may_be(alloc: Global, world: &mut World) -> Result<bool, Refusal> {
    for number in 0..MAX_MARKS {
        if !marks_numbered(alloc, world, number)? {
            return Ok(false);
        }
    }
    Ok(true)
}

// A node is marked once, however often, and only if its relation is there.
fn is_marked_and_not(alloc: Global, world: &mut World) -> Result<bool, Refusal> {
    let early = marks(world, "group:a#member")?;
    let opened = !early && opens(alloc, world)?;
    let marked = opened && marks(world, "group:a#member")? && marks(world, "group:a#member")?;
    Ok(marked && !marks(world, "group:a#owner")? && unmarks(world, "group:a#member")?)
}

// Where as many nodes are marked as may be, another is marked only in the place of one.
fn is_full_then(alloc: Global, world: &mut World) -> Result<bool, Refusal> {
    let full = marks_as_many_as_may_be(alloc, world)? && !marks(world, "group:a#member")?;
    let again = full && marks(world, "group:0#member")? && unmarks(world, "group:0#member")?;
    Ok(again && marks(world, "group:a#member")? && !marks(world, "group:0#member")?)
}

fn keeps_marks(alloc: Global, keys: RandomState) -> bool {
    let mut world = World::new(alloc, keys);
    let one = is_marked_and_not(alloc, &mut world).unwrap_or(false);
    one && is_full_then(alloc, &mut world).unwrap_or(false)
}

#[test]
fn no_more_nodes_are_marked_than_may_be(rt: HostRuntime) {
    let keys = RandomState::new(&rt).expect(&rt, "a key");
    assert!(rt; keeps_marks(rt.alloc(), keys));
}

fn rebases(world: &mut World, rev: u64) -> Result<bool, Refusal> {
    comes(world, Event::Posted(Posting::Rebasing(rev)))
}

fn is_rebased(alloc: Global, world: &mut World) -> Result<bool, Refusal> {
    let opened = opens(alloc, world)? && !rebases(world, 0)? && rebases(world, 1)?;
    let ahead = opened && !rebases(world, 2)? && puts_ann(alloc, world)?;
    Ok(ahead && rebases(world, 2)? && !rebases(world, 1)?)
}

// The index has read as far as its base.
fn is_seen_at_the_base(alloc: Global, keys: RandomState) -> bool {
    let mut world = World::new(alloc, keys);
    let rebased = is_rebased(alloc, &mut world).unwrap_or(false);
    let published = rebased && comes(&mut world, Event::Published(3)).unwrap_or(false);
    published && matches!(asked(alloc, &mut world), Ok(Some((4, 2, true))))
}

#[test]
fn no_base_is_below_the_last(rt: HostRuntime) {
    let keys = RandomState::new(&rt).expect(&rt, "a key");
    assert!(rt; is_seen_at_the_base(rt.alloc(), keys));
}

fn told(world: &mut World, question: Question) -> Result<Option<Told>, Refusal> {
    match world.event(Event::Entered(7, question))? {
        Outcome::Answered(3, Ok(told)) => Ok(Some(told)),
        _ => Ok(None),
    }
}

// The tree of ann's group is opened, and its answer is of the newest revision.
fn has_tree(world: &mut World) -> Result<bool, Refusal> {
    let node = Node::parse("group:a#member")?;
    let question = Question::Expand(Consistency::Latest, node, Depth { nodes: 1 });
    Ok(match &told(world, question)? {
        Some(Told::Expanded(tree)) => tree.rev == 2,
        _ => false,
    })
}

fn has_page(world: &mut World) -> Result<bool, Refusal> {
    let asked = Tupleset {
        namespace: Name::parse("group")?,
        object: None,
        relation: None,
        subject: None,
        after: None,
        limit: 9,
    };
    let told = told(world, Question::Read(Consistency::Latest, asked))?;
    Ok(match &told {
        Some(Told::Found(page)) => page.rev == 2 && page.value.as_slice().len() == 1,
        _ => false,
    })
}

fn has_objects(world: &mut World) -> Result<bool, Refusal> {
    let relation = RelationName {
        namespace: Name::parse("group")?,
        relation: Name::parse("member")?,
    };
    let asked = Lookup {
        relation,
        user: Object::parse("user:ann")?,
        after: None,
        limit: 9,
    };
    let told = told(world, Question::Lookup(Consistency::Latest, asked))?;
    Ok(match &told {
        Some(Told::Looked(found)) => found.rev == 2 && found.value.ids.as_slice().len() == 1,
        _ => false,
    })
}

fn has_groups(world: &mut World) -> Result<bool, Refusal> {
    let expr = Expr::Member2Group(Object::parse("user:ann")?);
    let told = told(world, Question::Groups(Consistency::Latest, expr, 9))?;
    Ok(match &told {
        Some(Told::Grouped(groups)) => groups.rev == 2 && groups.value.as_slice().len() == 1,
        _ => false,
    })
}

fn has_events(world: &mut World) -> Result<bool, Refusal> {
    let cursor = Zookie { store: 1, rev: 1 };
    let told = told(world, Question::Watch(cursor, Namespaces::All, 9))?;
    Ok(match &told {
        Some(Told::Watched(page)) => page.heartbeat == 2 && page.events.as_slice().len() == 1,
        _ => false,
    })
}

fn has_numbers(world: &mut World) -> Result<bool, Refusal> {
    Ok(match &told(world, Question::State)? {
        Some(Told::Numbers(state)) => state.newest == 2 && state.tuples == 1,
        _ => false,
    })
}

fn answers_each(alloc: Global, world: &mut World) -> Result<bool, Refusal> {
    let seen = is_put_and_taken(alloc, world)? && has_numbers(world)?;
    let listed = seen && has_tree(world)? && has_page(world)?;
    let found = listed && has_objects(world)? && has_groups(world)?;
    Ok(found && has_events(world)?)
}

fn is_answered(alloc: Global, keys: RandomState) -> bool {
    let mut world = World::new(alloc, keys);
    answers_each(alloc, &mut world).unwrap_or(false)
}

#[test]
fn each_question_is_answered(rt: HostRuntime) {
    let keys = RandomState::new(&rt).expect(&rt, "a key");
    assert!(rt; is_answered(rt.alloc(), keys));
}
