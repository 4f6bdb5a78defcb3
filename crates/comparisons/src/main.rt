//! `comparisons [HISTORIES [SEED]]` compares what is kept of a store with the definition of membership, executed, after
//! each commit of so many random histories: members of marked nodes, the group index at each revision from its base to
//! its cursor, and checks that ask these or ask nothing. It prints how much was compared. At the first difference it ends
//! with status 1, and says of which seed it is, after which commit, and what differs.
#![tactic(auto)]

mod changes;
mod comparing;
mod configurations;
mod dice;
mod followed;
mod groups;
mod history;
mod known;
mod leading;
mod policies;
mod rewriting;
mod score;
mod table;
mod universe;

use names::Refusal;
use policies::{CYCLES, DRAWN, GROUPS, NESTED, Policy};
use score::Score;
use std::hash::RandomState;
use std::process::ExitCode;
use universe::Universe;

/// So many histories under random configurations, where no word says how many.
const MANY: u64 = 3_000;

/// Of so many of them one is asked about each node and user, and as many of each configuration of `policies`.
const SHARE: u64 = 30;

fn main(rt: HostRuntime) -> ExitCode {
    let status = match told(&rt) {
        Ok(true) => 0,
        Ok(false) => 1,
        Err(_) => 2,
    };
    ExitCode::from(status)
}

// Whether nothing differs.
fn told(rt: &HostRuntime) -> Result<bool, Refusal> {
    let numbers = numbers_asked(rt)?;
    let count = numbers.first().copied().unwrap_or(MANY);
    let first = numbers.get(1).copied().unwrap_or(1);
    let few = count / SHARE;
    let Ok(keys) = RandomState::new(rt) else {
        return Err(Refusal::Memory);
    };
    for (policy, count) in [(DRAWN, count), (GROUPS, few), (CYCLES, few), (NESTED, few)] {
        if !is_alike(rt, keys, policy, first, count)? {
            return Ok(false);
        }
    }
    Ok(true)
}

// Whether nothing differs in so many histories of the policy, from that of a seed on.
fn is_alike(
    rt: &HostRuntime,
    keys: RandomState,
    policy: Policy,
    first: u64,
    count: u64,
) -> Result<bool, Refusal> {
    let universe = Universe::new(rt.alloc(), policy)?;
    let name = policy.name;
    let mut score = Score::new();
    for number in 0..count {
        let seed = first.wrapping_add(number);
        let whole = policy.config.is_some() || number % SHARE == 0;
        history::compare(rt.alloc(), keys, &universe, seed, whole, &mut score)?;
        if let Some(difference) = &score.difference {
            let text = format!(in rt.alloc(); "{name}: a difference at seed {seed}, {difference}")?;
            print(rt, text.as_str())?;
            return Ok(false);
        }
    }
    let Score {
        commits,
        questions,
        checks,
        members,
        ..
    } = score;
    let text = format!(in rt.alloc();
        "{name}: {count} histories, {commits} commits, {questions} questions; {checks} checks, {members} of members: no difference"
    )?;
    print(rt, text.as_str())?;
    Ok(true)
}

fn print(rt: &HostRuntime, text: &str) -> Result<(), Refusal> {
    match println!(rt; "{text}") {
        Ok(()) => Ok(()),
        Err(_) => Err(Refusal::Memory),
    }
}

/// The numbers among the words of the command line.
fn numbers_asked(rt: &HostRuntime) -> Result<Vec<u64>, Refusal> {
    let Ok(words) = std::env::args(rt) else {
        return Err(Refusal::Memory);
    };
    let words: Vec<String> = words.collect(rt.alloc())?;
    let mut numbers = Vec::new(rt.alloc());
    for word in &words {
        if let Ok(number) = word.as_str().parse::<u64>() {
            numbers.push(number)?;
        }
    }
    Ok(numbers)
}
