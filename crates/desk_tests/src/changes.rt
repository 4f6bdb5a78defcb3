//! A desk over tables that fail, and calls of a desk that the program does not make yet.
ghost use Rattle.std.specs.Prelude.{◌≡◌, true};

use config::Config;
use desk::{Desk, Posted};
use names::{Items, Marking, Node, Object, Op, OpKind, Part, Refusal, State, Tuple, Write};
use published::{Naming, Opened, Receipt, Session, StepPrefix};
use rows::Loaded;
use shown::{Question, Told};
use std::alloc::Global;
use std::hash::RandomState;
use std::marker::Brand;
use std::process::Abort;
use std::sync::Wait;
use std::test::*;
use tables::{Listed, TableChange, Tables, TablesError};
use zookie::{Consistency, Zookie};

const GROUPS: &str = r#"{"namespaces":{"group":{"member":{"types":["user"]}},"user":{}}}"#;

/// Tables that store nothing: each change is a fault.
#[derive(Drop)]
struct Broken {
    inner: Listed,
    faults: u64,
}

impl Tables for Broken {
    ghost use Rattle.tables.specs.Leaving.{IsOneOf, only_one};

    ghost holds = { λ t r. t.inner ≡ r };

    ghost leaves = { λ t rs. IsOneOf rs t.inner };

    ghost device = { λ t. record { faults = t.faults; doubt = 0; is_open = true } };

    ghost count = { λ t. t.faults };

    fn load(&mut self, alloc: Global) -> Result<Loaded, TablesError> {
        match self.inner.load(alloc) {
            Ok(loaded) => Ok(loaded),
            Err(_) => Err(TablesError::Memory),
        }
    }

    fn change(&mut self, _change: &TableChange) -> Result<(), TablesError> {
        self.faults = self.faults.saturating_add(1);
        Err(TablesError::Fault)
    }

    fn faults(&self) -> u64 {
        self.faults
    }

    ghost settled = { λ t r held whole. only_one t.inner r held };

    ghost weaker = { λ t rs ss among left. among t.inner left };
}

// A desk over the tables.
pub(crate) fn open<A: Abort, T: Tables + Drop, J: Naming, H: Wait + Drop>(
    rt: &A,
    alloc: Global,
    handle: H,
    opened: Opened,
    tables: T,
) -> Desk<T, J, H>
    requires { opened.book ≡ J.book }
{
    let Ok(desk) = Desk::open(alloc, handle, opened, tables) else {
        panic!(rt; "no desk");
    };
    desk
}

fn configure<T: Tables + Drop, J: Naming, H: Wait + Drop>(
    alloc: Global,
    desk: &mut Desk<T, J, H>,
) -> Result<Receipt, Refusal>
    ensures { desk.new.book ≡ desk.old.book }
{
    let config = Config::from_json(alloc, GROUPS.as_bytes())?;
    desk.configure(config)
}

// The number of the refusal, or 0.
pub(crate) fn number_of<A: Drop>(answer: Result<A, Refusal>) -> u8 {
    match answer {
        Ok(_) => 0,
        Err(why) => why.number(),
    }
}

// A floor of another store.
const OTHER: Zookie = Zookie { store: 9, rev: 0 };

// Before the fault a catch-up of too many commits is malformed, and a floor of another store is foreign; after it every
// change is refused with 23.
fn is_closed_by_fault<T: Tables + Drop, J: Naming, H: Wait + Drop>(
    alloc: Global,
    desk: &mut Desk<T, J, H>,
) -> bool {
    let many = number_of(desk.catch_up(Part::Hot, 65_537));
    let foreign = number_of(desk.trim(OTHER));
    let worked = !desk.has_failed() && foreign == 12;
    let fault = number_of(configure(alloc, desk));
    let next = number_of(configure(alloc, desk));
    let closed = number_of(desk.catch_up(Part::Hot, 65_537));
    let kept = number_of(desk.trim(OTHER)) == 23 && closed == 23;
    worked && desk.has_failed() && many == 1 && fault == 22 && next == 23 && kept
}

fn is_at_zero<J: Naming>(session: &mut Session<J>) -> bool {
    match session.state() {
        Ok(state) => state.newest == 0,
        Err(_) => false,
    }
}

// Sessions go on: of the one that was given before the fault, and of one that is given after it, the newest
// revision is 0.
fn faults_close<A: Abort, T: Tables + Drop, J: Naming, H: Wait + Drop>(
    rt: &A,
    alloc: Global,
    desk: &mut Desk<T, J, H>,
) {
    let mut session = desk.session().expect(rt, "a session");
    assert!(rt; is_closed_by_fault(alloc, desk));
    let mut other = desk.session().expect(rt, "a session");
    assert!(rt; is_at_zero(&mut session) && is_at_zero(&mut other));
}

fn closes_once<A: Abort, J: Naming, H: Wait + Drop>(
    rt: &A,
    alloc: Global,
    handle: H,
    opened: Opened,
)
    requires { opened.book ≡ J.book }
{
    let inner = Listed::new(alloc, 7);
    let tables = Broken { inner, faults: 0 };
    let mut desk = open::<A, Broken, J, H>(rt, alloc, handle, opened, tables);
    faults_close(rt, alloc, &mut desk);
    assert!(rt; desk.close().faults() == 1);
}

#[test]
fn after_a_fault_changes_are_refused(rt: HostRuntime) {
    let keys = RandomState::new(&rt).expect(&rt, "a key");
    closes_once::<_, Brand, _>(&rt, rt.alloc(), &rt, Opened::new(keys));
}

pub(crate) fn insert_of(alloc: Global, text: &str) -> Result<Write<Zookie>, Refusal> {
    let tuple = Tuple::parse(text)?;
    let mut ops = Vec::new(alloc);
    ops.push(Op {
        kind: OpKind::Insert,
        tuple,
    })?;
    Ok(Write {
        conditions: Items::of(Vec::new(alloc)),
        ops: Items::of(ops),
    })
}

fn has_steps(prefix: &StepPrefix, steps: u64) -> bool {
    prefix.len() == steps && prefix.begins(prefix) && prefix.longer(prefix).len() == steps
}

// Whether ann is a member of group a at revision 2, as the session is answered at the zookie.
fn finds_ann<J: Naming>(session: &mut Session<J>, zookie: Zookie) -> Result<bool, Refusal> {
    let node = Node::parse("group:a#member")?;
    let user = Object::parse("user:ann")?;
    match session.check(Consistency::AtLeast(zookie), node, user) {
        Ok(found) => Ok(found.value && found.rev == 2),
        Err(refused) => Err(refused.why),
    }
}

// The opening, a configuration and a write are three steps.
fn publishes<A: Abort, T: Tables + Drop, J: Naming, H: Wait + Drop>(
    rt: &A,
    alloc: Global,
    desk: &mut Desk<T, J, H>,
) {
    let write = insert_of(alloc, "group:a#member@user:ann").expect(rt, "a write");
    let first = configure(alloc, desk).expect(rt, "a configuration");
    let second = desk.write(write).expect(rt, "a receipt");
    let told = has_steps(first.published_steps(), 2) && has_steps(second.published_steps(), 3);
    assert!(rt; told && second.zookie() == Zookie { store: 7, rev: 2 } && desk.publish());
}

fn begins_empty<A: Abort, T: Tables + Drop, J: Naming, H: Wait + Drop>(
    rt: &A,
    alloc: Global,
    handle: H,
    opened: Opened,
    tables: T,
)
    requires { opened.book ≡ J.book }
{
    let mut desk = open::<A, T, J, H>(rt, alloc, handle, opened, tables);
    publishes(rt, alloc, &mut desk);
}

#[test]
fn receipts_have_the_list_of_shown_steps(rt: HostRuntime) {
    let tables = Listed::new(rt.alloc(), 7);
    let keys = RandomState::new(&rt).expect(&rt, "a key");
    begins_empty::<_, _, Brand, _>(&rt, rt.alloc(), &rt, Opened::new(keys), tables);
}

// A session that learns the receipt of a write finds what was written.
fn learns<A: Abort, T: Tables + Drop, J: Naming, H: Wait + Drop>(
    rt: &A,
    alloc: Global,
    desk: &mut Desk<T, J, H>,
) {
    let write = insert_of(alloc, "group:a#member@user:ann").expect(rt, "a write");
    let mut session = desk.session().expect(rt, "a session");
    configure(alloc, desk).expect(rt, "a configuration");
    let receipt = desk.write(write).expect(rt, "a receipt");
    session.learn(&receipt);
    assert!(rt; finds_ann(&mut session, receipt.zookie()).expect(rt, "an answer"));
}

fn took_one(taken: &Posted) -> bool {
    taken.value == 1 && taken.receipt.zookie().rev == 2
}

fn is_told(receipt: &Receipt) -> bool {
    receipt.is_shown() && receipt.zookie() == Zookie { store: 7, rev: 2 }
}

fn knows_it(state: &State) -> bool {
    state.index == 1 && state.newest == 2
}

// A session that was there before is refreshed once the index has taken one commit.
fn refreshes<A: Abort, T: Tables + Drop, J: Naming, H: Wait + Drop>(
    rt: &A,
    desk: &mut Desk<T, J, H>,
) {
    let mut session = desk.session().expect(rt, "a session");
    let taken = desk.catch_up(Part::Index, 1).expect(rt, "a cursor");
    let refreshed = desk.refresh(&mut session);
    let state = session.state().expect(rt, "a state");
    assert!(rt; took_one(&taken) && is_told(&refreshed) && knows_it(&state));
}

fn is_at_two<T: Tables + Drop, J: Naming, H: Wait + Drop>(desk: &Desk<T, J, H>) -> bool {
    desk.newest() == 2 && desk.number() == 7
}

fn sessions_learn<A: Abort, T: Tables + Drop, J: Naming, H: Wait + Drop>(
    rt: &A,
    alloc: Global,
    handle: H,
    opened: Opened,
    tables: T,
)
    requires { opened.book ≡ J.book }
{
    let mut desk = open::<A, T, J, H>(rt, alloc, handle, opened, tables);
    learns(rt, alloc, &mut desk);
    refreshes(rt, &mut desk);
    assert!(rt; is_at_two(&desk));
}

#[test]
fn sessions_know_what_they_are_told(rt: HostRuntime) {
    let tables = Listed::new(rt.alloc(), 7);
    let keys = RandomState::new(&rt).expect(&rt, "a key");
    sessions_learn::<_, _, Brand, _>(&rt, rt.alloc(), &rt, Opened::new(keys), tables);
}

// A node is marked once however often it is asked for, one whose relation is not there is refused with 2, and a mark is taken
// away.
fn marks<A: Abort, T: Tables + Drop, J: Naming, H: Wait + Drop>(
    rt: &A,
    alloc: Global,
    desk: &mut Desk<T, J, H>,
) {
    configure(alloc, desk).expect(rt, "a configuration");
    assert!(rt; marked(rt, desk, "group:a#member") == 1);
    assert!(rt; marked(rt, desk, "group:a#member") == 1);
    let owner = Node::parse("group:a#owner").expect(rt, "a node");
    assert!(rt; number_of(desk.mark(Marking::Mark(owner))) == 2);
    let member = Node::parse("group:a#member").expect(rt, "a node");
    let last = desk.mark(Marking::Unmark(member)).expect(rt, "no mark");
    assert!(rt; last.value == 0);
}

// How many nodes are marked once this one is.
fn marked<A: Abort, T: Tables + Drop, J: Naming, H: Wait + Drop>(
    rt: &A,
    desk: &mut Desk<T, J, H>,
    node: &str,
) -> u64 {
    let node = Node::parse(node).expect(rt, "a node");
    desk.mark(Marking::Mark(node)).expect(rt, "a mark").value
}

fn is_rebuilt(rebuilt: &Posted, told: &Told) -> bool {
    match told {
        Told::Numbers(state) => {
            rebuilt.value == 1 && state.base == 1 && state.index == 1 && state.hot == 0
        }
        _ => false,
    }
}

// The base comes to the newest revision, and the index with it.
fn rebuilds<A: Abort, T: Tables + Drop, J: Naming, H: Wait + Drop>(
    rt: &A,
    desk: &mut Desk<T, J, H>,
) {
    let rebuilt = desk.rebuild().expect(rt, "a base");
    let Ok(told) = desk.ask(&Question::State) else {
        panic!(rt; "no state");
    };
    assert!(rt; is_rebuilt(&rebuilt, &told));
}

fn steps_without_tables<A: Abort, T: Tables + Drop, J: Naming, H: Wait + Drop>(
    rt: &A,
    alloc: Global,
    handle: H,
    opened: Opened,
    tables: T,
)
    requires { opened.book ≡ J.book }
{
    let mut desk = open::<A, T, J, H>(rt, alloc, handle, opened, tables);
    marks(rt, alloc, &mut desk);
    rebuilds(rt, &mut desk);
}

#[test]
fn nodes_are_marked_and_the_base_is_made_anew(rt: HostRuntime) {
    let tables = Listed::new(rt.alloc(), 7);
    let keys = RandomState::new(&rt).expect(&rt, "a key");
    steps_without_tables::<_, _, Brand, _>(&rt, rt.alloc(), &rt, Opened::new(keys), tables);
}
