//! `histories COMMITS STEP` fills three histories of one store with the same commits, which they share and a list
//! keeps, and prints how many tuples they have. What memory it takes is measured by bench/histories.
#![tactic(auto)]

mod filling;
mod making;

use filling::filled;
use names::Refusal;
use std::process::ExitCode;

/// So many commits, where no word says how many.
const FEW: u32 = 4;

/// A prime: tuples that come one after another stand so far apart in their order. By steps of 1 they come in order.
const STEP: u32 = 618_041;

/// As many commits as there are at most.
const MOST: u32 = 65_535;

fn main(rt: HostRuntime) -> ExitCode {
    let status = match told(&rt) {
        Ok(()) => 0,
        Err(_) => 1,
    };
    ExitCode::from(status)
}

fn told(rt: &HostRuntime) -> Result<(), Refusal> {
    let numbers = numbers_asked(rt)?;
    let count = numbers.first().copied().unwrap_or(FEW);
    let step = numbers.get(1).copied().unwrap_or(STEP);
    let histories = filled(rt.alloc(), count.min(MOST), step)?;
    let tuples = histories.tuples();
    let commits = histories.commits();
    match println!(rt; "{tuples} tuples in each of three histories, by {commits} commits") {
        Ok(()) => Ok(()),
        Err(_) => Err(Refusal::Memory),
    }
}

/// The numbers among the words of the command line.
fn numbers_asked(rt: &HostRuntime) -> Result<Vec<u32>, Refusal> {
    let Ok(words) = std::env::args(rt) else {
        return Err(Refusal::Memory);
    };
    let words: Vec<String> = words.collect(rt.alloc())?;
    let mut numbers = Vec::new(rt.alloc());
    for word in &words {
        if let Ok(number) = word.as_str().parse::<u32>() {
            numbers.push(number)?;
        }
    }
    Ok(numbers)
}
