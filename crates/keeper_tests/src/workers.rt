//! Two workers of one keeper, and a session whose keeper is gone.
ghost use Rattle.std.specs.Prelude.{◌≡◌};
ghost use Rattle.desk.specs.Posts.{Posts};

use desk::{Change, Made};
use keeper::{Asked, Front, Keeper, KeeperName, Opening, ask_again, ask_from};
use names::{Call, Marking, Node, Part, Reply};
use shown::Question;
use std::alloc::Global;
use std::hash::RandomState;
use std::marker::Brand;
use std::process::Abort;
use std::sync::Wait;
use std::test::*;
use std::thread::Threads;
use tables::{Listed, Tables};

const GROUPS: &[u8] = br#"{"namespaces":{"group":{"member":{"types":["user"]}},"user":{}}}"#;

const INSERT: &[u8] = br#"{"ops":[{"op":"insert","tuple":"group:a#member@user:ann"}]}"#;

const NEXT: &[u8] =
    br#"{"at":{"at_least":"AgAAAAAAAAABAAAAAAAAAAI"},"node":"group:a#member","user":"user:ann"}"#;

// The status of a reply, or 0.
pub(crate) fn status_of(reply: &Reply) -> u16 {
    match reply {
        Reply::Said { status, .. } => *status,
        Reply::NoMemory => 0,
    }
}

pub(crate) fn keeper_of<J: KeeperName<T>, H: Wait + Drop, A: Abort, T: Tables + Drop>(
    rt: &A,
    handle: H,
    alloc: Global,
    opening: Opening,
    tables: T,
) -> Keeper<T, J, H>
    requires book { opening.opened.book ≡ J.book }
    requires history { opening.history ≡ J.table }
    requires starts { (desk : Posts T) → J.starts desk }
{
    let Ok(keeper) = Keeper::open(alloc, handle, opening, tables) else {
        panic!(rt; "no keeper");
    };
    keeper
}

fn comes_back(asked: &Asked) -> bool {
    matches!(asked, Asked::NotYet(_))
}

// A question of a revision that is not there yet comes back from the session, and is refused after a refresh; once the
// other worker has written, it is answered.
fn sees_the_other<J: KeeperName<T>, H: Wait + Drop, W: Abort + Wait + Threads, T: Tables + Drop>(
    rt: &W,
    alloc: Global,
    keeper: &Keeper<T, J, H>,
) {
    let mut one = Front::new(alloc, rt, keeper).expect(rt, "a front");
    let mut two = Front::new(alloc, rt, keeper).expect(rt, "a front");
    let taken = status_of(&one.answer_change(rt, &(), Call::Config, GROUPS));
    let early = comes_back(&two.ask(Call::Check, NEXT));
    let refused = status_of(&two.answer_question(rt, Call::Check, NEXT));
    let written = status_of(&one.answer_change(rt, &(), Call::Write, INSERT));
    let late = comes_back(&two.ask(Call::Check, NEXT));
    let answered = status_of(&two.answer(rt, &(), Call::Check, NEXT));
    assert!(rt;
        taken == 200 && early && refused == 409 && written == 200 && !late && answered == 200
    );
}

fn beside<J: KeeperName<T>, H: Wait + Drop, W: Abort + Wait + Threads, T: Tables + Drop>(
    rt: &W,
    handle: H,
    alloc: Global,
    opening: Opening,
    tables: T,
)
    requires book { opening.opened.book ≡ J.book }
    requires history { opening.history ≡ J.table }
    requires starts { (desk : Posts T) → J.starts desk }
{
    let keeper = keeper_of::<J, H, W, T>(rt, handle, alloc, opening, tables);
    sees_the_other(rt, alloc, &keeper);
}

#[test]
fn what_one_worker_writes_the_other_sees(rt: HostRuntime) {
    let keys = RandomState::new(&rt).expect(&rt, "a key");
    let tables = Listed::new(rt.alloc(), 1);
    beside::<Brand, _, _, _>(
        &rt,
        &rt,
        rt.alloc(),
        Opening::new(rt.alloc(), keys).expect(&rt, "memory"),
        tables,
    );
}

// A question of a revision that is not there yet comes back, and is answered once that is written and the session refreshed.
fn is_answered_later<J: KeeperName<T>, H: Wait + Drop, W: Abort + Wait + Threads, T: Tables + Drop>(
    rt: &W,
    alloc: Global,
    keeper: &Keeper<T, J, H>,
) {
    let mut front = Front::new(alloc, rt, keeper).expect(rt, "a front");
    let (mut session, mut place) = keeper.session(rt).expect(rt, "a session");
    let taken = status_of(&front.answer_change(rt, &(), Call::Config, GROUPS));
    let Asked::NotYet(question) = ask_from(alloc, &mut session, Call::Check, NEXT) else {
        panic!(rt; "an answer");
    };
    let written = status_of(&front.answer_change(rt, &(), Call::Write, INSERT));
    keeper.hold(rt).refresh(rt, &mut place, &mut session);
    let answered = status_of(&ask_again(alloc, &mut session, &question));
    assert!(rt; taken == 200 && written == 200 && answered == 200);
}

fn later<J: KeeperName<T>, H: Wait + Drop, W: Abort + Wait + Threads, T: Tables + Drop>(
    rt: &W,
    handle: H,
    alloc: Global,
    opening: Opening,
    tables: T,
)
    requires book { opening.opened.book ≡ J.book }
    requires history { opening.history ≡ J.table }
    requires starts { (desk : Posts T) → J.starts desk }
{
    let keeper = keeper_of::<J, H, W, T>(rt, handle, alloc, opening, tables);
    is_answered_later(rt, alloc, &keeper);
}

#[test]
fn a_question_that_came_back_is_answered_after_a_refresh(rt: HostRuntime) {
    let keys = RandomState::new(&rt).expect(&rt, "a key");
    let tables = Listed::new(rt.alloc(), 1);
    later::<Brand, _, _, _>(
        &rt,
        &rt,
        rt.alloc(),
        Opening::new(rt.alloc(), keys).expect(&rt, "memory"),
        tables,
    );
}

// Where the keeper is gone, a session is answered 23, and the tables hold what was written.
fn outlives<J: KeeperName<T>, H: Wait + Drop, W: Abort + Wait + Threads, T: Tables + Drop>(
    rt: &W,
    handle: H,
    alloc: Global,
    opening: Opening,
    tables: T,
)
    requires book { opening.opened.book ≡ J.book }
    requires history { opening.history ≡ J.table }
    requires starts { (desk : Posts T) → J.starts desk }
{
    let keeper = keeper_of::<J, H, W, T>(rt, handle, alloc, opening, tables);
    let (mut session, _) = keeper.session(rt).expect(rt, "a session");
    let before = status_of(&ask_again(alloc, &mut session, &Question::State));
    drop(keeper.close());
    let after = status_of(&ask_again(alloc, &mut session, &Question::State));
    assert!(rt; before == 200 && after == 503);
}

#[test]
fn a_session_outlives_its_keeper(rt: HostRuntime) {
    let keys = RandomState::new(&rt).expect(&rt, "a key");
    let tables = Listed::new(rt.alloc(), 1);
    outlives::<Brand, _, _, _>(
        &rt,
        &rt,
        rt.alloc(),
        Opening::new(rt.alloc(), keys).expect(&rt, "memory"),
        tables,
    );
}

// The configuration is revision 1: a part takes it, a node of it is marked, and it is the base of the index.
fn changes_by_hand<J: KeeperName<T>, H: Wait + Drop, W: Abort + Wait + Threads, T: Tables + Drop>(
    rt: &W,
    alloc: Global,
    keeper: &Keeper<T, J, H>,
) {
    let node = Node::parse("group:a#member").expect(rt, "a node");
    let mut front = Front::new(alloc, rt, keeper).expect(rt, "a front");
    let (_, mut place) = keeper.session(rt).expect(rt, "a session");
    let taken = status_of(&front.answer_change(rt, &(), Call::Config, GROUPS));
    let moved = keeper
        .hold(rt)
        .catch_up(rt, &mut place, Part::Hot, 9)
        .expect(rt, "a cursor");
    let marked = keeper
        .hold(rt)
        .change(rt, &mut place, Change::Mark(Marking::Mark(node)))
        .expect(rt, "a mark");
    let rebuilt = keeper
        .hold(rt)
        .change(rt, &mut place, Change::Rebuild)
        .expect(rt, "a base");
    assert!(rt; taken == 200 && moved.value == 1);
    assert!(rt; matches!(marked.made, Made::Marked(1)) && matches!(rebuilt.made, Made::Base(1)));
}

fn under_the_lock<J: KeeperName<T>, H: Wait + Drop, W: Abort + Wait + Threads, T: Tables + Drop>(
    rt: &W,
    handle: H,
    alloc: Global,
    opening: Opening,
    tables: T,
)
    requires book { opening.opened.book ≡ J.book }
    requires history { opening.history ≡ J.table }
    requires starts { (desk : Posts T) → J.starts desk }
{
    let keeper = keeper_of::<J, H, W, T>(rt, handle, alloc, opening, tables);
    changes_by_hand(rt, alloc, &keeper);
}

#[test]
fn who_holds_the_lock_changes_what_it_guards(rt: HostRuntime) {
    let keys = RandomState::new(&rt).expect(&rt, "a key");
    let tables = Listed::new(rt.alloc(), 1);
    under_the_lock::<Brand, _, _, _>(
        &rt,
        &rt,
        rt.alloc(),
        Opening::new(rt.alloc(), keys).expect(&rt, "memory"),
        tables,
    );
}
