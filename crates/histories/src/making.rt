//! The commits.
ghost use Rattle.std.specs.Prelude.{◌<◌, ◌^◌};

use config::Config;
use names::{Commit, Items, Op, OpKind, Refusal, Tuple};
use rows::events_of;
use std::alloc::Global;

const CONFIG: &str = r#"{"namespaces":{"group":{"member":{"types":["user"]}},"user":{}}}"#;

/// The tuples of a commit.
const SIZE: u64 = 250;

/// The configuration.
pub(crate) fn configuration(alloc: Global) -> Result<Commit<Config>, Refusal> {
    Ok(Commit::Config(Config::from_json(alloc, CONFIG.as_bytes())?))
}

/// The commit with the number, of so many. Its tuples stand so many places apart.
pub(crate) fn commit_of(
    alloc: Global,
    number: u64,
    count: u64,
    step: u32,
) -> Result<Commit<Config>, Refusal>
    requires below { number < count }
    requires small { count < 2 ^ 16 }
{
    let mut ops = Vec::new(alloc);
    for i in 0..SIZE {
        let place = place_of(number * SIZE + i, step) % (count * SIZE);
        ops.push(Op {
            kind: OpKind::Insert,
            tuple: tuple_of(alloc, place)?,
        })?;
    }
    Ok(Commit::Tuples(events_of(Items::of(ops))?))
}

fn place_of(i: u64, step: u32) -> u64
    requires { i < 2 ^ 24 }
{
    i * u64::from(step)
}

/// A tuple whose text has 38 bytes.
fn tuple_of(alloc: Global, place: u64) -> Result<Tuple, Refusal>
    requires { place < 2 ^ 24 }
{
    let group = 100_000_000 + place;
    let user = 10_000_000 + place;
    let text = format!(in alloc; "group:g{group}#member@user:u{user}")?;
    Tuple::parse(text.as_str())
}
