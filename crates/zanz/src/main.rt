//! The program: `zanz run [--db FILE] [--store N]` answers the lines of its input, each by a line, from a store in
//! memory or in a file; `zanz serve [--db FILE] [--store N] --port P [--workers W]` serves it over HTTP on 127.0.0.1
//! until it is stopped; `zanz config FILE` prints the level of each relation of a configuration, or why it is refused.
#![tactic(auto)]

use program::{Host, program};
use sqlite::Unknown;
use std::io::BufWriter;
use std::process::ExitCode;
use std::{env, io};
use tracked_io::{TrackedReader, TrackedWriter};

fn main(rt: HostRuntime) -> ExitCode {
    let ended = program(
        Host::new(&rt, &rt, &rt),
        env::args(&rt),
        Unknown,
        &mut TrackedReader::new(rt.reader()),
        BufWriter::new(rt.alloc(), io::writer(&rt)),
        &mut TrackedWriter::new(rt.stderr()),
    );
    ExitCode::from(ended.0)
}
