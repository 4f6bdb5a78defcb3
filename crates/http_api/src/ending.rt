//! Whether a head that is cut short can still be ended in time.
ghost use Rattle.std.specs.Prelude.{ℕ, ◌≡◌, ◌≢◌, ◌≤◌, ◌<◌, ◌+◌, ◌++◌, List, length, cond, true, false};
ghost use Rattle.httparse.specs.Grammar.{HasNoRequest, MayBecomeRequest};
ghost use Rattle.http_api.specs.Heads.{IsHopeless, max_head};
ghost use Rattle.http_api.specs.inside.Finding.{MayGoOn};
ghost use Rattle.http_api.specs.inside.Endings.{IsEnding, HasHead, HasNoHead, is_space, spaces};

use crate::limits::{MAX_FIELDS, MAX_HEAD};
use httparse::Status;
use httparse::spans::{HeaderSpan, parse_request};

// A line end that is half there, and then the shortest head.
const SHORTEST: &[u8] = b"\nA B HTTP/1.0\n\n";

// Whether the bytes with these behind them begin with a head.
fn is_ended_by(bytes: &[u8], end: &[u8], fields: &mut [HeaderSpan; MAX_FIELDS]) -> bool
    requires room { length bytes.now + length end.now ≤ max_head }
    ensures yes { result ≡ true → HasHead (bytes.now ++ end.now) }
    ensures no { result ≡ false → HasNoHead (bytes.now ++ end.now) }
{
    let mut whole = [0u8; MAX_HEAD];
    let most = bytes.len() + end.len();
    whole[..bytes.len()].copy_from_slice(bytes);
    whole[bytes.len()..most].copy_from_slice(end);
    match parse_request(&whole[..most], fields) {
        Ok(Status::Complete(_)) => true,
        Ok(Status::Partial) => false,
        Err(_) => false,
    }
}

// Whether some bytes that end a head fit behind these.
fn can_be_ended(bytes: &[u8], fields: &mut [HeaderSpan; MAX_FIELDS]) -> bool
    requires short { length bytes.now < max_head }
    ensures yes { result ≡ true → (end : List ℕ) × (length bytes.now + length end ≤ max_head) × HasHead (bytes.now ++ end) }
    ensures no { result ≡ false → (end : List ℕ) → IsEnding end → length bytes.now + length end ≤ max_head → HasNoHead (bytes.now ++ end) }
{
    let room = MAX_HEAD - bytes.len();
    for at in SHORTEST.len().saturating_sub(room)..SHORTEST.len() {
        if is_ended_by(bytes, &SHORTEST[at..], fields) {
            return true;
        }
    }
    room >= 3 && is_ended_by(bytes, b":\n\n", fields)
}

// One for a space, and nothing for another byte.
fn one_space(b: u8) -> usize
    ensures is { result ≡ cond (is_space b) 1 0 }
    ensures small { result ≤ 1 }
{
    if b == b' ' { 1 } else { 0 }
}

fn spaces(bytes: &[u8]) -> usize
    ensures { result ≡ spaces bytes.now }
{
    let mut count = 0;
    for b in bytes {
        count += one_space(*b);
    }
    count
}

/// Whether bytes that hold no head yet, and may become one, still may within the limit of its length. A target is read
/// to that limit: whether it is text is seen at its end alone.
pub fn may_go_on(bytes: &[u8], fields: &mut [HeaderSpan; MAX_FIELDS]) -> bool
    requires short { length bytes.now < max_head }
    requires none { HasNoRequest bytes.now }
    requires may { MayBecomeRequest bytes.now }
    ensures yes { result ≡ true → MayGoOn bytes.now }
    ensures no { result ≡ false → IsHopeless bytes.now }
{
    let room = MAX_HEAD - bytes.len();
    if room >= 15 {
        return true;
    }
    let count = spaces(bytes);
    if count == 1 {
        return true;
    }
    can_be_ended(bytes, fields)
}
