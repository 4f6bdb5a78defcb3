//! What the body of a call changes, and what a change is answered.
ghost use Rattle.std.specs.Prelude.{◌≡◌, IfOk, IfErr};
ghost use Rattle.names.specs.Calls.{told};
ghost use Rattle.calls.specs.Changes.{is_change, AsksChange, AsksNoChange, SaysMade};

use bodies::marking::{hot_body, rebuild_body};
use bodies::replies::{base, cursor, floor, marked, receipt};
use bodies::requests::catch_up_body;
use bodies::trimming::trim_body;
use bodies::writing::write_body;
use config::Config;
use desk::{Change, Changed, Made};
use names::{Call, Refusal, Reply};
use std::alloc::Global;
use zookie::Zookie;

/// Whether a call changes something. Every other asks.
pub fn is_change(call: Call) -> bool
    ensures { result ≡ is_change call }
{
    match call {
        Call::Write | Call::Config | Call::Trim | Call::CatchUp | Call::Hot | Call::Rebuild => true,
        _ => false,
    }
}

/// What the body of a call changes. `BadZookie` comes only where all else is of the form; a call that asks changes nothing, and
/// is `Malformed`.
pub fn change_of(alloc: Global, call: Call, body: &[u8]) -> Result<Change, Refusal>
    ensures ok { IfOk result (AsksChange call body.now) }
    ensures err { IfErr result (AsksNoChange call body.now) }
{
    match call {
        Call::Write => Ok(Change::Write(write_body(alloc, body)?)),
        Call::Config => Ok(Change::Config(Config::from_json(alloc, body)?)),
        Call::Trim => Ok(Change::Trim(trim_body(alloc, body)?)),
        Call::CatchUp => {
            let (part, commits) = catch_up_body(alloc, body)?;
            Ok(Change::CatchUp(part, commits))
        }
        Call::Hot => Ok(Change::Mark(hot_body(alloc, body)?)),
        Call::Rebuild => {
            rebuild_body(alloc, body)?;
            Ok(Change::Rebuild)
        }
        _ => Err(Refusal::Malformed),
    }
}

/// What a change that was made is answered.
pub fn made_reply(alloc: Global, done: &Changed) -> Reply
    ensures { SaysMade done.now.made done.now.receipt (told result) }
{
    let shown = done.receipt.is_shown();
    let zookie = done.receipt.zookie();
    let store = zookie.store;
    match &done.made {
        Made::Commit => receipt(alloc, shown, &zookie),
        Made::Floor(rev) => floor(alloc, &Zookie { store, rev: *rev }, shown),
        Made::Cursor(rev) => cursor(alloc, &Zookie { store, rev: *rev }, shown),
        Made::Marked(count) => marked(alloc, *count, shown),
        Made::Base(rev) => base(alloc, &Zookie { store, rev: *rev }, shown),
    }
}
