//! Sessions in threads, beside a writer.
ghost use Rattle.std.specs.Prelude.{◌≡◌};
ghost use Rattle.desk.specs.Posts.{Posts};

use calls::question_of;
use keeper::{Front, Keeper, KeeperName, Opening};
use names::{Call, Refusal, Reply};
use published::{Naming, Session};
use shown::{Question, Told};
use std::alloc::{AllocError, Global};
use std::sync::Wait;
use std::sync::atomic::{AtomicBool, Ordering};
use std::thread::{Threads, join, map_vec};
use std::time::{Clock, CpuClock, Duration, Instant};
use tables::Tables;

/// The most writes beside the sessions.
const WRITES: u32 = 1_000_000;

/// How many sessions ask how many questions each, and whether a writer commits all the while.
#[derive(Clone, Copy)]
pub(crate) struct Trial {
    pub sessions: u32,
    pub questions: u32,
    pub beside_a_writer: bool,
}

/// What a session was told, or all of them together, the processor time that it took, and the time by the clock, of all that
/// of the slowest.
#[derive(Drop)]
pub(crate) struct Count {
    pub yes: u64,
    pub no: u64,
    pub refused: u64,
    pub went_back: bool,
    pub processor: Duration,
    pub clock: Duration,
}

/// How many writes were accepted, whether one was not, and the processor time that they took.
#[derive(Drop)]
pub(crate) struct Writes {
    pub accepted: u32,
    pub refused: bool,
    pub processor: Duration,
}

/// What came of it all.
#[derive(Drop)]
pub(crate) struct Report {
    pub tuples: u64,
    pub count: Count,
    pub writes: Writes,
}

/// A session, and the place of its first question in the list that it goes through again and again.
#[derive(Drop)]
struct Client<J: Naming> {
    alloc: Global,
    session: Session<J>,
    first: usize,
}

impl Count {
    fn none() -> Count {
        Count {
            yes: 0,
            no: 0,
            refused: 0,
            went_back: false,
            processor: Duration::ZERO,
            clock: Duration::ZERO,
        }
    }
}

fn processor_of<W: CpuClock>(rt: &W) -> Duration {
    rt.thread_cpu_time().unwrap_or(Duration::ZERO)
}

// The questions among the lines.
fn questions_of(alloc: Global, lines: &str) -> Result<Vec<Question>, Refusal> {
    let mut questions = Vec::new(alloc);
    for line in lines.lines() {
        let (call, body) = line.split_once(' ').unwrap_or((line, ""));
        if call == "check" {
            questions.push(question_of(alloc, Call::Check, body.as_bytes())?)?;
        }
    }
    Ok(questions)
}

// Goes through the list, so many questions long.
fn ask<J: Naming>(
    session: &mut Session<J>,
    list: &[Question],
    first: usize,
    questions: u32,
) -> Count {
    let mut count = Count::none();
    let mut last = 0;
    let asked = list.iter().cycle().skip(first).take(questions as usize);
    for question in asked {
        match session.ask(question) {
            Some((_, Ok(Told::Checked(answer)))) => {
                count.went_back |= answer.rev < last;
                last = answer.rev;
                count.yes = count.yes.saturating_add(u64::from(answer.value));
                count.no = count.no.saturating_add(u64::from(!answer.value));
            }
            _ => count.refused = count.refused.saturating_add(1),
        }
    }
    count
}

// A session has its own questions: they are read before it is timed.
fn ask_timed<J: Naming, W: Clock + CpuClock>(
    rt: &W,
    asker: Client<J>,
    lines: &str,
    questions: u32,
) -> Count {
    let Client {
        alloc,
        mut session,
        first,
    } = asker;
    let Ok(list) = questions_of(alloc, lines) else {
        let mut none = Count::none();
        none.refused = 1;
        return none;
    };
    let (began, processor) = (Instant::now(rt), processor_of(rt));
    let mut count = ask(&mut session, list.as_slice(), first, questions);
    count.processor = processor_of(rt).saturating_sub(processor);
    if let Ok(began) = began {
        count.clock = began.elapsed(rt).unwrap_or(Duration::ZERO);
    }
    count
}

fn sum_of(counts: &[Count]) -> Count {
    let mut all = Count::none();
    for count in counts {
        all.yes = all.yes.saturating_add(count.yes);
        all.no = all.no.saturating_add(count.no);
        all.refused = all.refused.saturating_add(count.refused);
        all.went_back |= count.went_back;
        all.processor = all.processor.saturating_add(count.processor);
        all.clock = all.clock.max(count.clock);
    }
    all
}

// Each session asks in a thread of its own.
fn ask_all<J: Naming + Send + Sync, W: Threads + Clock + CpuClock + Sync>(
    rt: &W,
    askers: Vec<Client<J>>,
    lines: &str,
    questions: u32,
    done: &AtomicBool,
) -> Result<Vec<Count>, AllocError> {
    let counts = map_vec(rt, askers, &|asker| ask_timed(rt, asker, lines, questions));
    done.store(true, Ordering::SeqCst);
    counts
}

fn is_accepted(reply: &Reply) -> bool {
    matches!(reply, Reply::Said { status: 200, .. })
}

// A visitor comes, whom nobody asks about, and is taken away by the next write.
fn visit(alloc: Global, number: u32) -> Result<String, AllocError> {
    let visitor = number / 2;
    let op = if number % 2 == 0 { "insert" } else { "delete" };
    format!(in alloc;
        "{{\"ops\":[{{\"op\":\"{op}\",\"tuple\":\"group:visitors#member@user:v{visitor}\"}}]}}"
    )
}

// Writes one tuple a commit until the sessions are done.
fn write_until<T: Tables + Drop, J: KeeperName<T>, H: Wait + Drop, W: Threads + Wait + CpuClock>(
    rt: &W,
    alloc: Global,
    front: &mut Front<'_, T, J, H>,
    done: &AtomicBool,
) -> Result<Writes, AllocError> {
    let began = processor_of(rt);
    let (mut accepted, mut refused) = (0u32, false);
    for number in 0..WRITES {
        if refused || done.load(Ordering::SeqCst) {
            break;
        }
        let body = visit(alloc, number)?;
        if is_accepted(&front.answer(rt, &(), Call::Write, body.as_bytes())) {
            accepted = accepted.saturating_add(1);
        } else {
            refused = true;
        }
    }
    Ok(Writes {
        accepted,
        refused,
        processor: processor_of(rt).saturating_sub(began),
    })
}

// Has the changes among the lines made.
fn take<T: Tables + Drop, J: KeeperName<T>, H: Wait + Drop, W: Threads + Wait>(
    rt: &W,
    front: &mut Front<'_, T, J, H>,
    lines: &str,
) -> Result<(), Refusal> {
    for line in lines.lines() {
        let (call, body) = line.split_once(' ').unwrap_or((line, ""));
        let body = body.as_bytes();
        let accepted = match call {
            "config" => is_accepted(&front.answer(rt, &(), Call::Config, body)),
            "write" => is_accepted(&front.answer(rt, &(), Call::Write, body)),
            "check" => true,
            _ => false,
        };
        if !accepted {
            return Err(Refusal::Malformed);
        }
    }
    Ok(())
}

fn askers_of<T: Tables + Drop, J: KeeperName<T>, H: Wait + Drop, W: Wait>(
    rt: &W,
    alloc: Global,
    keeper: &Keeper<T, J, H>,
    sessions: u32,
) -> Result<Vec<Client<J>>, Refusal> {
    let mut askers = Vec::new(alloc);
    for number in 0..sessions {
        let (session, _) = keeper.session(rt)?;
        let first = number as usize * 1_000;
        askers.push(Client {
            alloc,
            session,
            first,
        })?;
    }
    Ok(askers)
}

fn ask_beside<
    T: Tables + Drop,
    J: KeeperName<T> + Send + Sync,
    H: Wait + Drop,
    W: Threads + Wait + Clock + CpuClock + Sync,
>(
    rt: &W,
    alloc: Global,
    keeper: &Keeper<T, J, H>,
    lines: &str,
    asked: Trial,
) -> Result<Report, Refusal> {
    let mut front = Front::new(alloc, rt, keeper)?;
    take(rt, &mut front, lines)?;
    let (mut session, _) = keeper.session(rt)?;
    let tuples = session.state()?.tuples;
    let askers = askers_of(rt, alloc, keeper, asked.sessions)?;
    let questions = asked.questions;
    let done = AtomicBool::new(!asked.beside_a_writer);
    let (counts, writes) = join(
        rt,
        || ask_all(rt, askers, lines, questions, &done),
        || write_until(rt, alloc, &mut front, &done),
    );
    Ok(Report {
        tuples,
        count: sum_of(counts?.as_slice()),
        writes: writes?,
    })
}

/// Fills a store by the lines that are changes, and asks it the others. It owns the lines, since a call that picks the name of a
/// book is passed no `&str`.
pub(crate) fn run<
    T: Tables + Drop,
    J: KeeperName<T> + Send + Sync,
    H: Wait + Drop,
    W: Threads + Wait + Clock + CpuClock + Sync,
>(
    rt: &W,
    handle: H,
    alloc: Global,
    opening: Opening,
    tables: T,
    lines: String,
    asked: Trial,
) -> Result<Report, Refusal>
    requires book { opening.opened.book ≡ J.book }
    requires history { opening.history ≡ J.table }
    requires starts { (desk : Posts T) → J.starts desk }
{
    let Ok(keeper) = Keeper::<T, J, H>::open(alloc, handle, opening, tables) else {
        return Err(Refusal::Memory);
    };
    ask_beside(rt, alloc, &keeper, lines.as_str(), asked)
}
