//! Replies to calls that are served, and to those that are not.
ghost use Rattle.std.specs.Prelude.{◌≡◌, [], ◌∷◌, None, IfOk, MatchResult, codes, false};
ghost use Rattle.names.specs.Calls.{told};
ghost use Rattle.serde_json.specs.Data.{string, boolean};
ghost use Rattle.serde_json.specs.View.{view};
ghost use Rattle.serde_json.specs.Written.{compact_text, has_float};
ghost use Rattle.zookie.specs.Text.{zookie_text};
ghost use Rattle.bodies.specs.Replies.{Says, object_of, receipt_data, answer_data, base_data, cursor_data, floor_data, marked_data, rev_data, state_data};
ghost use Rattle.bodies.specs.inside.Parts.{SaysText};

use crate::members::{closed, opened, put_flag, put_number, put_rev, put_zookie};
use names::{Reply, State};
use serde_json::Value;
use std::alloc::{AllocError, Global};
use zookie::Zookie;

/// A reply with this text.
pub(crate) fn say_text(alloc: Global, status: u16, text: &str) -> Reply
    ensures { SaysText (told result) status text.now }
{
    match String::from_str(alloc, text) {
        Ok(text) => Reply::Said {
            status,
            body: text.into_bytes(),
        },
        Err(_) => Reply::NoMemory,
    }
}

/// A reply with this text, or the one for want of memory.
fn said(status: u16, text: Result<Vec<u8>, AllocError>) -> Reply
    ensures { MatchResult text
        (λ b. SaysText (told result) status b.items) (λ _. told result ≡ None) }
{
    match text {
        Ok(body) => Reply::Said { status, body },
        Err(_) => Reply::NoMemory,
    }
}

/// A reply with a value's text, or the one for want of memory.
pub(crate) fn say(alloc: Global, status: u16, value: Result<Value, AllocError>) -> Reply
    requires { IfOk value (λ v. has_float (view v) ≡ false) }
    ensures { MatchResult value
        (λ v. Says (told result) status (view v)) (λ _. told result ≡ None) }
{
    let Ok(value) = value else {
        return Reply::NoMemory;
    };
    match value.to_string(alloc) {
        Ok(text) => Reply::Said {
            status,
            body: text.into_bytes(),
        },
        Err(_) => Reply::NoMemory,
    }
}

/// What an accepted change is answered: whether it is shown, and its zookie.
pub fn receipt(alloc: Global, shown: bool, zookie: &Zookie) -> Reply
    ensures { Says (told result) 200
        (receipt_data shown (zookie_text zookie.now.store zookie.now.rev)) }
{
    said(200, flag_text(alloc, "shown", shown, zookie))
}

/// What a check is answered, and the zookie of the revision that it was asked at.
pub fn answer(alloc: Global, allowed: bool, zookie: &Zookie) -> Reply
    ensures { Says (told result) 200
        (answer_data allowed (zookie_text zookie.now.store zookie.now.rev)) }
{
    said(200, flag_text(alloc, "allowed", allowed, zookie))
}

/// A truth value under a name that comes before `zookie`, and a zookie.
fn flag_text(alloc: Global, name: &str, flag: bool, zookie: &Zookie) -> Result<Vec<u8>, AllocError>
    ensures { IfOk result (λ b. b.items ≡ compact_text (object_of (
        (name.now, boolean flag) ∷ (codes "zookie", string (zookie_text zookie.now.store zookie.now.rev)) ∷ []))) }
{
    let mut out = opened(alloc)?;
    put_flag(&mut out, name, flag)?;
    put_zookie(alloc, &mut out, "zookie", zookie)?;
    closed(out)
}

/// What an accepted `catchup` is answered: the cursor after it, and whether it is shown.
pub fn cursor(alloc: Global, cursor: &Zookie, shown: bool) -> Reply
    ensures { Says (told result) 200
        (cursor_data (zookie_text cursor.now.store cursor.now.rev) shown) }
{
    said(200, shown_text(alloc, "cursor", cursor, shown))
}

/// What an accepted `trim` is answered: the floor after it, and whether all that is posted is shown.
pub fn floor(alloc: Global, floor: &Zookie, shown: bool) -> Reply
    ensures { Says (told result) 200
        (floor_data (zookie_text floor.now.store floor.now.rev) shown) }
{
    said(200, shown_text(alloc, "floor", floor, shown))
}

/// What an accepted `rebuild` is answered: the base of the index after it, and whether all that is posted is shown.
pub fn base(alloc: Global, base: &Zookie, shown: bool) -> Reply
    ensures { Says (told result) 200
        (base_data (zookie_text base.now.store base.now.rev) shown) }
{
    said(200, shown_text(alloc, "base", base, shown))
}

/// A revision under a name that comes before `shown`, and whether all that is posted is shown.
fn shown_text(alloc: Global, name: &str, rev: &Zookie, shown: bool) -> Result<Vec<u8>, AllocError>
    ensures { IfOk result (λ b. b.items ≡ compact_text (object_of (
        (name.now, string (zookie_text rev.now.store rev.now.rev)) ∷ (codes "shown", boolean shown) ∷ []))) }
{
    let mut out = opened(alloc)?;
    put_zookie(alloc, &mut out, name, rev)?;
    put_flag(&mut out, "shown", shown)?;
    closed(out)
}

/// What an accepted `hot` is answered: how many nodes are marked after it, and whether all that is posted is shown.
pub fn marked(alloc: Global, marked: u64, shown: bool) -> Reply
    ensures { Says (told result) 200 (marked_data marked shown) }
{
    said(200, marked_text(alloc, marked, shown))
}

fn marked_text(alloc: Global, marked: u64, shown: bool) -> Result<Vec<u8>, AllocError>
    ensures { IfOk result (λ b. b.items ≡ compact_text (marked_data marked shown)) }
{
    let mut out = opened(alloc)?;
    put_number(&mut out, "marked", marked)?;
    put_flag(&mut out, "shown", shown)?;
    closed(out)
}

/// The zookie of a revision of a store, as a value.
pub(crate) fn rev_value(alloc: Global, store: u64, rev: u64) -> Result<Value, AllocError>
    ensures { IfOk result (λ v. view v ≡ rev_data store rev) }
{
    let text = Zookie { store, rev }.to_text(alloc)?;
    Ok(Value::String(text))
}

/// What a `state` is answered: revisions as zookies of the store, and how many rows and tuples there are.
pub fn state(alloc: Global, store: u64, state: &State) -> Reply
    ensures { Says (told result) 200 (state_data store state.now) }
{
    said(200, state_text(alloc, store, state))
}

fn state_text(alloc: Global, store: u64, state: &State) -> Result<Vec<u8>, AllocError>
    ensures { IfOk result (λ b. b.items ≡ compact_text (state_data store state.now)) }
{
    let mut out = opened(alloc)?;
    put_rev(alloc, &mut out, "base", store, state.base)?;
    put_rev(alloc, &mut out, "floor", store, state.floor)?;
    put_rev(alloc, &mut out, "hot", store, state.hot)?;
    put_rev(alloc, &mut out, "index", store, state.index)?;
    put_number(&mut out, "marked", state.marked)?;
    put_rev(alloc, &mut out, "newest", store, state.newest)?;
    put_number(&mut out, "rows", state.rows)?;
    put_number(&mut out, "tuples", state.tuples)?;
    closed(out)
}
