//! The head of a request at the front of some bytes.
ghost use Rattle.std.specs.Prelude.{◌≡◌, ◌<◌, length, drop, take};
ghost use Rattle.httparse.specs.Grammar.{RequestHead, HasNoRequest};
ghost use Rattle.httparse.specs.Spans.{IsRequestAt, IsRequestWithin};
ghost use Rattle.http_api.specs.Heads.{Begins, IsHopeless, max_head};
ghost use Rattle.http_api.specs.inside.Finding.{IfHead, OnHopeless, OnUnfinished, MayGoOn};

use crate::ending::may_go_on;
use crate::limits::{MAX_FIELDS, MAX_HEAD};
use httparse::Status;
use httparse::spans::{HeaderSpan, RequestSpans, parse_request};

/// What stands at the front of the bytes.
pub enum HeadRead {
    /// A head, whose parts lie so.
    Head(RequestSpans),
    /// The beginning of a head.
    Unfinished,
    /// What no bytes can make a head.
    Hopeless,
}

/// Looks for a head at the front of the bytes.
pub fn find_head(bytes: &[u8], fields: &mut [HeaderSpan; MAX_FIELDS]) -> HeadRead
    ensures head { IfHead result (λ spans. (h : RequestHead) × Begins bytes.now h (drop spans.len bytes.now) × IsRequestAt (take max_head bytes.now) fields.new spans h
        × IsRequestWithin (take max_head bytes.now) fields.new spans) }
    ensures unfinished { OnUnfinished result ((length bytes.now < max_head) × HasNoRequest bytes.now × MayGoOn bytes.now) }
    ensures hopeless { OnHopeless result (IsHopeless bytes.now) }
{
    let short = bytes.len() < MAX_HEAD;
    match parse_request(first_bytes(bytes), fields) {
        Ok(Status::Complete(head)) => HeadRead::Head(head),
        Ok(Status::Partial) => {
            if short {
                if may_go_on(bytes, fields) {
                    HeadRead::Unfinished
                } else {
                    HeadRead::Hopeless
                }
            } else {
                HeadRead::Hopeless
            }
        }
        Err(_) => HeadRead::Hopeless,
    }
}

/// As many as a head may have.
pub fn first_bytes(bytes: &[u8]) -> &[u8]
    ensures { result.now ≡ take max_head bytes.now }
{
    if bytes.len() < MAX_HEAD {
        bytes
    } else {
        &bytes[..MAX_HEAD]
    }
}
