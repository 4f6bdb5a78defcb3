//! What sessions answer.
ghost use Rattle.std.specs.Prelude.{◌≡◌};

use crate::desk::{Desk, configure, insert, open};
use names::{Node, Object, Refusal, Tuple};
use published::{MAX_SESSIONS, Naming, Opened, Receipt, Session};
use std::alloc::Global;
use std::hash::RandomState;
use std::marker::Brand;
use std::process::Abort;
use std::sync::Wait;
use std::test::*;
use zookie::{Consistency, Zookie};

const GROUPS: &str = r#"{"namespaces":{"group":{"member":{"types":["user"]}},"user":{}}}"#;

const ANN: &str = "group:a#member@user:ann";

// Whether Ann is a member of the group at the session's newest revision: 0 for no, 1 for yes, or 100 and the
// number of the refusal.
fn asked<J: Naming>(session: &mut Session<J>) -> u8
    ensures { session.new.book ≡ session.old.book }
{
    let Ok(node) = Node::parse("group:a#member") else {
        return 255;
    };
    let Ok(user) = Object::parse("user:ann") else {
        return 255;
    };
    match session.check(Consistency::Latest, node, user) {
        Ok(answer) => u8::from(answer.value),
        Err(refused) => refused.why.number().saturating_add(100),
    }
}

// The newest revision that the session knows, or the number of the refusal and 1,000.
fn newest_of<J: Naming>(session: &mut Session<J>) -> u64
    ensures { session.new.book ≡ session.old.book }
{
    match session.state() {
        Ok(state) => state.newest,
        Err(why) => 1_000 + u64::from(why.number()),
    }
}

// The number of the refusal, or 0.
fn number_of<T: Drop>(answer: Result<T, Refusal>) -> u8 {
    match answer {
        Ok(_) => 0,
        Err(why) => why.number(),
    }
}

fn runs_out<A: Abort, J: Naming, R: Wait + Drop>(rt: &A, handle: R, alloc: Global, opened: Opened)
    requires { opened.book ≡ J.book }
{
    let mut desk = open::<A, J, R>(rt, handle, alloc, opened);
    for _ in 0..MAX_SESSIONS {
        assert!(rt; number_of(desk.publication.session()) == 0);
    }
    assert!(rt; number_of(desk.publication.session()) == 20);
}

#[test]
fn there_are_32_sessions(rt: HostRuntime) {
    assert!(rt; MAX_SESSIONS == 32);
    let keys = RandomState::new(&rt).expect(&rt, "a key");
    runs_out::<_, Brand, _>(&rt, &rt, rt.alloc(), Opened::new(keys));
}

// The relation is there to the session no earlier than it is shown.
fn waits_for_configuration<A: Abort, J: Naming, R: Wait + Drop>(
    rt: &A,
    alloc: Global,
    desk: &mut Desk<J, R>,
    session: &mut Session<J>,
) {
    assert!(rt; asked(session) == 102);
    configure(alloc, desk, GROUPS).expect(rt, "a configuration");
    assert!(rt; asked(session) == 102);
    assert!(rt; desk.publication.publish());
    assert!(rt; asked(session) == 0);
}

// Ann is a member to the session no earlier than her tuple is shown.
fn waits_for_tuples<A: Abort, J: Naming, R: Wait + Drop>(
    rt: &A,
    alloc: Global,
    desk: &mut Desk<J, R>,
    session: &mut Session<J>,
) {
    insert(alloc, desk, ANN).expect(rt, "a tuple");
    insert(alloc, desk, "group:a#member@user:bob").expect(rt, "a tuple");
    assert!(rt; asked(session) == 0);
    assert!(rt; desk.publication.publish());
    assert!(rt; desk.publication.newest() == 3);
    assert!(rt; newest_of(session) == 3);
    assert!(rt; asked(session) == 1);
}

fn waits<A: Abort, J: Naming, R: Wait + Drop>(rt: &A, handle: R, alloc: Global, opened: Opened)
    requires { opened.book ≡ J.book }
{
    let mut desk = open::<A, J, R>(rt, handle, alloc, opened);
    let mut session = desk.publication.session().expect(rt, "a session");
    waits_for_configuration(rt, alloc, &mut desk, &mut session);
    waits_for_tuples(rt, alloc, &mut desk, &mut session);
}

#[test]
fn posted_steps_wait_until_they_are_published(rt: HostRuntime) {
    let keys = RandomState::new(&rt).expect(&rt, "a key");
    waits::<_, Brand, _>(&rt, &rt, rt.alloc(), Opened::new(keys));
}

/// Two sessions of one publication.
struct Pair<J: Naming> {
    one: Session<J>,
    two: Session<J>,
}

// The receipt of Ann's tuple.
fn receipt_of<A: Abort, J: Naming, R: Wait + Drop>(
    rt: &A,
    alloc: Global,
    desk: &mut Desk<J, R>,
) -> Receipt
    ensures { result.published.book ≡ desk.old.publication.book }
{
    configure(alloc, desk, GROUPS).expect(rt, "a configuration");
    insert(alloc, desk, ANN).expect(rt, "a tuple");
    let shown = desk.publication.publish();
    let zookie = Zookie { store: 7, rev: 2 };
    Receipt::new(zookie, shown, desk.publication.shown_steps())
}

// Both learn one receipt, and answer by it.
fn both_learn<A: Abort, J: Naming>(
    rt: &A,
    receipt: &Receipt,
    one: &mut Session<J>,
    two: &mut Session<J>,
)
    requires one { one.old.book ≡ receipt.now.published.book }
    requires two { two.old.book ≡ receipt.now.published.book }
{
    assert!(rt; receipt.is_shown());
    assert!(rt; receipt.zookie() == Zookie { store: 7, rev: 2 });
    assert!(rt; receipt.published_steps().len() == 3);
    one.learn(receipt);
    two.learn(receipt);
    assert!(rt; asked(one) == 1);
    assert!(rt; asked(two) == 1);
}

fn learns<A: Abort, J: Naming, R: Wait + Drop>(
    rt: &A,
    alloc: Global,
    desk: &mut Desk<J, R>,
) -> Pair<J> {
    let mut one = desk.publication.session().expect(rt, "a session");
    let mut two = desk.publication.session().expect(rt, "a session");
    let receipt = receipt_of(rt, alloc, desk);
    both_learn(rt, &receipt, &mut one, &mut two);
    Pair { one, two }
}

// Neither answers, since the publication is gone.
fn answers_no_more<A: Abort, J: Naming>(rt: &A, one: &mut Session<J>, two: &mut Session<J>) {
    assert!(rt; asked(one) == 123);
    assert!(rt; newest_of(two) == 1_023);
}

// They learn it, and answer nothing once the desk is gone.
fn outlives<A: Abort, J: Naming, R: Wait + Drop>(rt: &A, handle: R, alloc: Global, opened: Opened)
    requires { opened.book ≡ J.book }
{
    let mut desk = open::<A, J, R>(rt, handle, alloc, opened);
    let Pair { mut one, mut two } = learns(rt, alloc, &mut desk);
    drop(desk);
    answers_no_more(rt, &mut one, &mut two);
}

#[test]
fn a_receipt_is_learnt_by_two(rt: HostRuntime) {
    let keys = RandomState::new(&rt).expect(&rt, "a key");
    outlives::<_, Brand, _>(&rt, &rt, rt.alloc(), Opened::new(keys));
}

// What the session answers of Ann, and at which revision.
fn answered<J: Naming>(session: &mut Session<J>, at: Consistency) -> Result<(u64, bool), Refusal> {
    let node = Node::parse("group:a#member")?;
    let user = Object::parse("user:ann")?;
    match session.check(at, node, user) {
        Ok(answer) => Ok((answer.rev, answer.value)),
        Err(refused) => Err(refused.why),
    }
}

// The session answers so, asked twice.
fn answers<A: Abort, J: Naming>(
    rt: &A,
    session: &mut Session<J>,
    at: Consistency,
    rev: u64,
    value: bool,
) {
    assert!(rt; answered(session, at).expect(rt, "an answer") == (rev, value));
    assert!(rt; answered(session, at).expect(rt, "an answer") == (rev, value));
}

// The session is asked before a commit that changes the answer, after it, and then at the revision before.
fn asks_again<A: Abort, J: Naming, R: Wait + Drop>(
    rt: &A,
    alloc: Global,
    desk: &mut Desk<J, R>,
    session: &mut Session<J>,
) {
    answers(rt, session, Consistency::Latest, 1, false);
    insert(alloc, desk, ANN).expect(rt, "a tuple");
    desk.publication.publish();
    answers(rt, session, Consistency::Latest, 2, true);
    let before = Consistency::Exactly(Zookie { store: 7, rev: 1 });
    answers(rt, session, before, 1, false);
}

fn repeats<A: Abort, J: Naming, R: Wait + Drop>(rt: &A, handle: R, alloc: Global, opened: Opened)
    requires { opened.book ≡ J.book }
{
    let mut desk = open::<A, J, R>(rt, handle, alloc, opened);
    configure(alloc, &mut desk, GROUPS).expect(rt, "a configuration");
    desk.publication.publish();
    let mut session = desk.publication.session().expect(rt, "a session");
    asks_again(rt, alloc, &mut desk, &mut session);
}

#[test]
fn a_repeated_check_is_answered_at_its_revision(rt: HostRuntime) {
    let keys = RandomState::new(&rt).expect(&rt, "a key");
    repeats::<_, Brand, _>(&rt, &rt, rt.alloc(), Opened::new(keys));
}

// A session copies what is shown: the revision, the configuration and the tuples.
fn copies<A: Abort, J: Naming, R: Wait + Drop>(rt: &A, handle: R, alloc: Global, opened: Opened)
    requires { opened.book ≡ J.book }
{
    let mut desk = open::<A, J, R>(rt, handle, alloc, opened);
    configure(alloc, &mut desk, GROUPS).expect(rt, "a configuration");
    insert(alloc, &mut desk, ANN).expect(rt, "a tuple");
    desk.publication.publish();
    let mut session = desk.publication.session().expect(rt, "a session");
    let copied = session.copy_snapshot(&Consistency::Latest);
    let copied = copied.ok().expect(rt, "a copy");
    assert!(rt; copied.rev() == 2);
    let input = copied.input();
    let ann = Tuple::parse(ANN).expect(rt, "a tuple");
    assert!(rt; input.tuples().len() == 1 && input.tuples()[0] == ann);
    assert!(rt; input.config().place_of(&ann.node).is_some());
}

#[test]
fn a_session_copies_what_is_shown(rt: HostRuntime) {
    let keys = RandomState::new(&rt).expect(&rt, "a key");
    copies::<_, Brand, _>(&rt, &rt, rt.alloc(), Opened::new(keys));
}
