//! The command line.
ghost use Rattle.std.specs.Prelude.{◌≡◌, IsTrue, IfOk, IfErr, IfSome, map, string_bytes};
ghost use Rattle.command_line.specs.Faults.{IsLineFault};
ghost use Rattle.command_line.specs.Words.{asks_to_serve, AreWorkers, HasWorkers, IsStore, IsPlace, NamesStore, OnServe};

use crate::fault::Fault;
use clap::error::ErrorKind;
use clap::{Arg, ArgAction, ArgMatches, Command};
use names::Refusal;
use std::alloc::{AllocError, Global};

/// The most workers that connections are served by. Beside their sessions a desk has two left.
pub const MAX_WORKERS: u64 = 30;

/// How many workers connections are served by where none are named.
const SOME_WORKERS: u64 = 4;

/// The greatest number of a store; the least is 1.
pub const MAX_STORE: u64 = i64::MAX as u64;

/// What a command line asks for.
#[derive(Debug, Drop)]
pub enum Task {
    /// Lines are answered from the store there.
    Run {
        place: Place,
    },
    /// Connections are served from the store there, on this port; with 0 on one that is free.
    Serve {
        place: Place,
        port: u16,
        workers: u64,
    },
    /// The configuration of a file is reported.
    Config {
        file: String,
    },
}

/// Where a store's tables are.
#[derive(Debug, Drop)]
pub enum Place {
    /// In memory, made for this run, with this number.
    Memory { store: u64 },
    /// In a file, in which they are made, with this number.
    New { file: String, store: u64 },
    /// In a file that has them.
    There { file: String },
}

/// What the words of a command line ask for, of which the first is the program's.
pub fn task_of(alloc: Global, words: &[String]) -> Result<Task, Fault>
    ensures serves { IfOk result (λ task. OnServe task (IsTrue (asks_to_serve (map string_bytes words.now)))) }
    ensures workers { IfOk result HasWorkers }
    ensures store { IfOk result NamesStore }
    ensures err { IfErr result IsLineFault }
{
    match parse(alloc, words) {
        Ok(matches) => task_in(alloc, words, &matches),
        Err(e) => Err(if e.kind() == ErrorKind::OutOfMemory {
            Fault::Refused(Refusal::Memory)
        } else {
            Fault::CommandLine
        }),
    }
}

// Where a store's tables are, by two options of a command.
fn with_place<'a>(alloc: Global, command: Command<'a>) -> Result<Command<'a>, AllocError> {
    let store = Arg::new(alloc, "store")
        .long("store")
        .action(ArgAction::Set)
        .value_parser(clap::value_parser!(u64).range(1..=MAX_STORE as i64));
    let db = Arg::new(alloc, "db").long("db").action(ArgAction::Set);
    command.disable_help_flag(true).arg(store)?.arg(db)
}

fn parse(alloc: Global, words: &[String]) -> Result<ArgMatches, clap::Error> {
    let run = with_place(alloc, Command::new(alloc, "run"))?;
    let port = Arg::new(alloc, "port")
        .long("port")
        .required(true)
        .action(ArgAction::Set)
        .value_parser(clap::value_parser!(u16));
    let workers = Arg::new(alloc, "workers")
        .long("workers")
        .action(ArgAction::Set)
        .value_parser(clap::value_parser!(u64).range(1..=MAX_WORKERS as i64));
    let serve = with_place(alloc, Command::new(alloc, "serve"))?
        .arg(port)?
        .arg(workers)?;
    let file = Arg::new(alloc, "file")
        .required(true)
        .action(ArgAction::Set);
    let config = Command::new(alloc, "config")
        .disable_help_flag(true)
        .arg(file)?;
    let command = Command::new(alloc, "zanz")
        .disable_help_flag(true)
        .disable_help_subcommand(true)
        .subcommand_required(true)
        .subcommand(run)?
        .subcommand(serve)?
        .subcommand(config)?;
    command.try_get_matches_from(words)
}

// Whether the word after the program's own is `serve`.
fn asks_to_serve(words: &[String]) -> bool
    ensures { result ≡ asks_to_serve (map string_bytes words.now) }
{
    match words {
        [_, word, ..] => word.as_str() == "serve",
        _ => false,
    }
}

fn task_in(alloc: Global, words: &[String], matches: &ArgMatches) -> Result<Task, Fault>
    ensures serves { IfOk result (λ task. OnServe task (IsTrue (asks_to_serve (map string_bytes words.now)))) }
    ensures workers { IfOk result HasWorkers }
    ensures store { IfOk result NamesStore }
    ensures err { IfErr result IsLineFault }
{
    match matches.subcommand() {
        Some(("run", inner)) => Ok(Task::Run {
            place: place_of(alloc, inner)?,
        }),
        Some(("serve", inner)) if asks_to_serve(words) => Ok(Task::Serve {
            place: place_of(alloc, inner)?,
            port: port_of(inner)?,
            workers: workers_of(inner)?,
        }),
        Some(("config", inner)) => Ok(Task::Config {
            file: file_of(alloc, inner, "file")?,
        }),
        _ => Err(Fault::CommandLine),
    }
}

fn port_of(matches: &ArgMatches) -> Result<u16, Fault>
    ensures { IfErr result IsLineFault }
{
    match matches.get_one::<u16>("port") {
        Some(port) => Ok(port),
        None => Err(Fault::CommandLine),
    }
}

// How many workers are named, or else as many as are taken then.
fn workers_of(matches: &ArgMatches) -> Result<u64, Fault>
    ensures workers { IfOk result AreWorkers }
    ensures err { IfErr result IsLineFault }
{
    if !matches.contains_id("workers") {
        return Ok(SOME_WORKERS);
    }
    match matches.get_one::<u64>("workers") {
        Some(workers) if 1 <= workers && workers <= MAX_WORKERS => Ok(workers),
        _ => Err(Fault::CommandLine),
    }
}

fn place_of(alloc: Global, matches: &ArgMatches) -> Result<Place, Fault>
    ensures store { IfOk result IsPlace }
    ensures err { IfErr result IsLineFault }
{
    let store = store_of(matches)?;
    if !matches.contains_id("db") {
        return Ok(Place::Memory {
            store: store.unwrap_or(1),
        });
    }
    let file = file_of(alloc, matches, "db")?;
    Ok(match store {
        Some(store) => Place::New { file, store },
        None => Place::There { file },
    })
}

// The number that is named for a store.
fn store_of(matches: &ArgMatches) -> Result<Option<u64>, Fault>
    ensures named { IfOk result (λ store. IfSome store IsStore) }
    ensures err { IfErr result IsLineFault }
{
    if !matches.contains_id("store") {
        return Ok(None);
    }
    match matches.get_one::<u64>("store") {
        Some(store) if 1 <= store && store <= MAX_STORE => Ok(Some(store)),
        _ => Err(Fault::CommandLine),
    }
}

fn file_of(alloc: Global, matches: &ArgMatches, name: &str) -> Result<String, Fault>
    ensures { IfErr result IsLineFault }
{
    let Some(file) = matches.get_str(name) else {
        return Err(Fault::CommandLine);
    };
    Ok(String::from_str(alloc, file)?)
}
