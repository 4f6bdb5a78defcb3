//! Sessions in threads of their own, while a worker writes, and while the keeper is closed.
ghost use Rattle.std.specs.Prelude.{◌≡◌};
ghost use Rattle.desk.specs.Posts.{Posts};

use crate::workers::{keeper_of, status_of};
use keeper::{Front, Keeper, KeeperName, Opening, Place};
use names::{Call, Node, Object};
use published::{Naming, Receipt, Session};
use std::alloc::{AllocError, Global};
use std::hash::RandomState;
use std::marker::{Brand, Model, PhantomData};
use std::process::Abort;
use std::sync::{Mutex, Wait};
use std::test::*;
use std::thread::{Threads, join, map_vec};
use tables::{Listed, Tables};
use zookie::Consistency;

const GROUPS: &[u8] = br#"{"namespaces":{"group":{"member":{"types":["user"]}},"user":{}}}"#;

const INSERT: &[u8] = br#"{"ops":[{"op":"insert","tuple":"group:a#member@user:ann"}]}"#;

const DELETE: &[u8] = br#"{"ops":[{"op":"delete","tuple":"group:a#member@user:ann"}]}"#;

/// After the configuration, which is revision 1, Ann is inserted at each even revision, and deleted at each odd one.
const WRITES: u64 = 4_000;

const QUESTIONS: u64 = 10_000;

/// A session of the book that `J` names. Contracts see what it knows.
#[derive(Drop)]
struct Reader<J: Naming> {
    session: Session<J>,
}

impl<J: Naming> Model for Reader<J> {
    ghost use Rattle.std.specs.Prelude.{◌≡◌};
    ghost use Rattle.published.specs.Known.{Known};
    ghost use Rattle.published.specs.inside.Codes.{coded_known};

    ghost Value = { Known };

    ghost coded = { coded_known };

    ghost view = { λ r. r.session };

    ghost invariant = { λ r. r.session.book ≡ J.book };
}

/// A receipt that a worker hands on to a reader of the same book.
#[derive(Drop)]
struct Handed<J: Naming> {
    receipt: Receipt,
    of: PhantomData<J>,
    ghost of_book: { receipt.published.book ≡ J.book },
}

/// Where a receipt lies until a reader takes it, or the next one comes.
type Desktop<J> = Mutex<Option<Handed<J>>>;

impl<J: Naming> Reader<J> {
    // The revision that is answered at, where Ann is a member exactly if it is even.
    fn ask(&mut self, at: Consistency) -> Option<u64> {
        let node = Node::parse("group:a#member").ok()?;
        let user = Object::parse("user:ann").ok()?;
        let answer = self.session.check(at, node, user).ok()?;
        if answer.value == (answer.rev % 2 == 0) {
            Some(answer.rev)
        } else {
            None
        }
    }

    // What is shown now, to hand on to other readers.
    fn refresh<H: Wait + Drop, W: Wait, T: Tables + Drop>(
        &mut self,
        rt: &W,
        keeper: &Keeper<T, J, H>,
        place: &mut Place<'_, J>,
    ) -> Handed<J>
    where
        J: KeeperName<T>,
    {
        refreshed(rt, keeper, place, &mut self.session)
    }

    // How fresh an answer must be that reflects all that the receipt tells of.
    fn learn(&mut self, handed: &Handed<J>) -> Consistency {
        self.session.learn(&handed.receipt);
        Consistency::AtLeast(handed.receipt.zookie())
    }
}

// What lies on the desktop, at one question in sixteen. For the others no lock is taken.
fn taken<J: Naming, W: Wait>(rt: &W, desktop: &Desktop<J>, number: u64) -> Option<Handed<J>> {
    if number % 16 == 0 {
        desktop.lock(rt).take()
    } else {
        None
    }
}

// Whether each answer is right, none is older than the one before it, and none than a receipt that was handed on.
fn reads<J: Naming, W: Wait>(rt: &W, reader: Reader<J>, desktop: &Desktop<J>) -> bool {
    let mut reader = reader;
    let mut least = 1;
    for number in 0..QUESTIONS {
        let at = match taken(rt, desktop, number) {
            Some(handed) => {
                least = least.max(handed.receipt.zookie().rev);
                reader.learn(&handed)
            }
            None => Consistency::Latest,
        };
        match reader.ask(at) {
            Some(rev) if rev >= least => least = rev,
            _ => return false,
        }
    }
    true
}

fn all_read<J: Naming + Send + Sync, W: Threads + Wait + Sync>(
    rt: &W,
    readers: Vec<Reader<J>>,
    desktop: &Desktop<J>,
) -> Result<bool, AllocError> {
    let right = map_vec(rt, readers, &|reader| reads(rt, reader, desktop))?;
    Ok(right.iter().all(|right| *right))
}

// Whether every write was answered with 200. The receipt of each is handed on.
fn writes<J: KeeperName<T>, H: Wait + Drop, W: Wait + Threads, T: Tables + Drop>(
    rt: &W,
    front: &mut Front<'_, T, J, H>,
    keeper: &Keeper<T, J, H>,
    own: &mut Reader<J>,
    place: &mut Place<'_, J>,
    desktop: &Desktop<J>,
) -> bool {
    for number in 0..WRITES {
        let body = if number % 2 == 0 { INSERT } else { DELETE };
        if status_of(&front.answer_change(rt, &(), Call::Write, body)) != 200 {
            return false;
        }
        let handed = own.refresh(rt, keeper, place);
        *desktop.lock(rt) = Some(handed);
    }
    true
}

fn refreshed<J: KeeperName<T>, H: Wait + Drop, W: Wait, T: Tables + Drop>(
    rt: &W,
    keeper: &Keeper<T, J, H>,
    place: &mut Place<'_, J>,
    session: &mut Session<J>,
) -> Handed<J>
    requires { session.old.book ≡ J.book }
    ensures { session.new.book ≡ J.book }
{
    let receipt = keeper.hold(rt).refresh(rt, place, session);
    handed_of(receipt)
}

fn handed_of<J: Naming>(receipt: Receipt) -> Handed<J>
    requires { receipt.published.book ≡ J.book }
{
    Handed {
        receipt,
        of: PhantomData,
    }
}

fn readers_of<J: KeeperName<T>, H: Wait + Drop, W: Abort + Wait, T: Tables + Drop>(
    rt: &W,
    alloc: Global,
    keeper: &Keeper<T, J, H>,
) -> Vec<Reader<J>> {
    let mut readers = Vec::new(alloc);
    for _ in 0..3 {
        let (session, _) = keeper.session(rt).expect(rt, "a session");
        readers.push(reader_of(session)).expect(rt, "memory");
    }
    readers
}

fn reader_of<J: Naming>(session: Session<J>) -> Reader<J>
    requires { session.book ≡ J.book }
{
    Reader { session }
}

fn read_beside<
    J: KeeperName<T> + Send + Sync,
    H: Wait + Drop,
    W: Abort + Threads + Wait + Sync,
    T: Tables + Drop,
>(rt: &W, alloc: Global, keeper: &Keeper<T, J, H>) {
    let mut front = Front::new(alloc, rt, keeper).expect(rt, "a front");
    let taken = status_of(&front.answer_change(rt, &(), Call::Config, GROUPS));
    let readers = readers_of(rt, alloc, keeper);
    let (session, mut place) = keeper.session(rt).expect(rt, "a session");
    let mut own = reader_of(session);
    let desktop = Mutex::new(None);
    let (right, written) = join(
        rt,
        || all_read(rt, readers, &desktop),
        || writes(rt, &mut front, keeper, &mut own, &mut place, &desktop),
    );
    assert!(rt; taken == 200 && right.expect(rt, "memory") && written);
}

fn beside<
    J: KeeperName<T> + Send + Sync,
    H: Wait + Drop,
    W: Abort + Threads + Wait + Sync,
    T: Tables + Drop,
>(rt: &W, handle: H, alloc: Global, opening: Opening, tables: T)
    requires book { opening.opened.book ≡ J.book }
    requires history { opening.history ≡ J.table }
    requires starts { (desk : Posts T) → J.starts desk }
{
    let keeper = keeper_of::<J, H, W, T>(rt, handle, alloc, opening, tables);
    read_beside(rt, alloc, &keeper);
}

#[test]
fn sessions_beside_a_worker_that_writes(rt: HostRuntime) {
    let keys = RandomState::new(&rt).expect(&rt, "a key");
    let tables = Listed::new(rt.alloc(), 1);
    beside::<Brand, _, _, _>(
        &rt,
        &rt,
        rt.alloc(),
        Opening::new(rt.alloc(), keys).expect(&rt, "memory"),
        tables,
    );
}

// Whether a session that was refused once is refused ever after.
fn stays_shut<J: Naming>(session: &mut Session<J>) -> bool {
    let mut shut = false;
    for _ in 0..QUESTIONS {
        match session.state() {
            Ok(_) if shut => return false,
            Ok(_) => {}
            Err(why) => {
                if why.number() != 23 {
                    return false;
                }
                shut = true;
            }
        }
    }
    true
}

fn closed<
    J: KeeperName<T> + Send + Sync,
    H: Wait + Drop,
    W: Abort + Threads + Wait,
    T: Tables + Drop,
>(rt: &W, handle: H, alloc: Global, opening: Opening, tables: T)
    requires book { opening.opened.book ≡ J.book }
    requires history { opening.history ≡ J.table }
    requires starts { (desk : Posts T) → J.starts desk }
{
    let keeper = keeper_of::<J, H, W, T>(rt, handle, alloc, opening, tables);
    let (mut session, _) = keeper.session(rt).expect(rt, "a session");
    let (stays, tables) = join(rt, || stays_shut(&mut session), || keeper.close());
    drop(tables);
    assert!(rt; stays && session.state().is_err());
}

#[test]
fn a_session_beside_a_keeper_that_is_closed(rt: HostRuntime) {
    let keys = RandomState::new(&rt).expect(&rt, "a key");
    let tables = Listed::new(rt.alloc(), 1);
    closed::<Brand, _, _, _>(
        &rt,
        &rt,
        rt.alloc(),
        Opening::new(rt.alloc(), keys).expect(&rt, "memory"),
        tables,
    );
}
