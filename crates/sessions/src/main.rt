//! `sessions [SESSIONS [QUESTIONS]] [writer] [time]` fills a store in memory by the lines of its input that are changes,
//! as `zanz run` takes them, and asks it the others: so many questions in each of so many threads, a session each, alone or
//! beside a writer that commits all the while. It prints what they were told; with `time`, what it took too.
//! bench/sessions measures it.
#![tactic(auto)]

mod asking;

use asking::{Count, Report, Trial, run};
use keeper::Opening;
use names::Refusal;
use std::hash::RandomState;
use std::io;
use std::marker::Brand;
use std::process::ExitCode;
use std::sync::Wait;
use std::thread::Threads;
use std::time::{Clock, CpuClock};
use tables::Listed;

fn main(rt: HostRuntime) -> ExitCode {
    let status = match start(&rt, &rt, &rt) {
        Ok(true) => 0,
        _ => 1,
    };
    ExitCode::from(status)
}

// Whether nothing was refused, and no session went back.
fn start<H: Wait + Drop, W: Threads + Wait + Clock + CpuClock + Sync>(
    rt: &HostRuntime,
    wait: H,
    threads: &W,
) -> Result<bool, Refusal> {
    let words = words_of(rt)?;
    let mut numbers = Vec::new(rt.alloc());
    let (mut beside_a_writer, mut time) = (false, false);
    for word in &words {
        beside_a_writer |= word.as_str() == "writer";
        time |= word.as_str() == "time";
        if let Ok(number) = word.as_str().parse::<u32>() {
            numbers.push(number)?;
        }
    }
    let asked = Trial {
        sessions: numbers.first().copied().unwrap_or(2).min(16),
        questions: numbers.get(1).copied().unwrap_or(1_000),
        beside_a_writer,
    };
    let (Ok(lines), Ok(keys)) = (
        io::read_to_string(rt.alloc(), rt.reader()),
        RandomState::new(rt),
    ) else {
        return Err(Refusal::Memory);
    };
    let told = run::<_, Brand, _, _>(
        threads,
        wait,
        rt.alloc(),
        Opening::new(rt.alloc(), keys)?,
        Listed::new(rt.alloc(), 1),
        lines,
        asked,
    )?;
    let printed = tell(rt, asked, &told, time).is_ok();
    Ok(printed && told.count.refused == 0 && !told.count.went_back && !told.writes.refused)
}

fn words_of(rt: &HostRuntime) -> Result<Vec<String>, Refusal> {
    match std::env::args(rt) {
        Ok(words) => Ok(words.collect(rt.alloc())?),
        Err(_) => Err(Refusal::Memory),
    }
}

fn tell(rt: &HostRuntime, asked: Trial, told: &Report, time: bool) -> io::Result<()> {
    let Trial {
        sessions,
        questions,
        ..
    } = asked;
    let tuples = told.tuples;
    let Count {
        yes,
        no,
        refused,
        went_back,
        ..
    } = &told.count;
    println!(rt; "{tuples} tuples, {sessions} sessions with {questions} questions each")?;
    println!(rt; "{yes} yes, {no} no, {refused} refused, went back: {went_back}")?;
    if time {
        let clock = told.count.clock.as_micros();
        let processor = told.count.processor.as_micros();
        let writes = told.writes.accepted;
        let of_writes = told.writes.processor.as_micros();
        println!(rt;
            "{clock} microseconds, {processor} of processors for the questions, {of_writes} for {writes} writes"
        )?;
    }
    Ok(())
}
