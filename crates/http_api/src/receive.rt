//! Receiving a request: its head, then its body.
ghost use Rattle.std.specs.Prelude.{◌≡◌, ◌<◌, ◌≤◌, ◌^◌, ◌+◌, length, [], IfOk, IfErr, OnOk, true, false};
ghost use Rattle.httparse.specs.Grammar.{RequestHead};
ghost use Rattle.http_api.specs.Heads.{max_head};
ghost use Rattle.http_api.specs.Routes.{table};
ghost use Rattle.http_api.specs.Connection.{NoRequest, IsFew};
ghost use Rattle.http_api.specs.inside.Held.{held};
ghost use Rattle.http_api.specs.inside.Looking.{HasHeading, refusal_text};
ghost use Rattle.http_api.specs.inside.Receiving.{IsPause, ReadOn, Ended, EndsAfter, IsFewFor};
ghost use Rattle.tracked_io.specs.Tracking.{FailsWith, Writes};

use crate::inbox::Inbox;
use crate::limits::MAX_HEAD;
use crate::looking::{Heading, Looked, Refused, look};
use crate::reply::put_reply;
use answers::End;
use matchit::Router;
use names::Call;
use std::io;
use std::io::{Read, Write};
use tracked_io::{TrackedReader, TrackedWriter};

const MALFORMED: &[u8] = b"{\"error\":{\"code\":1,\"name\":\"Malformed\"}}";

const LENGTH_REQUIRED: &[u8] = b"{\"error\":{\"code\":0,\"name\":\"LengthRequired\"}}";

const BODY_TOO_LARGE: &[u8] = b"{\"error\":{\"code\":0,\"name\":\"BodyTooLarge\"}}";

// Writes the reply of a refusal, after which the connection is closed.
fn put_refusal<W: Write>(writer: &mut TrackedWriter<W>, why: Refused) -> io::Result<()>
    ensures wrote { Writes result writer.old writer.new (refusal_text why) }
    ensures failed { FailsWith result writer.old.failed writer.new.failed }
{
    match why {
        Refused::Malformed => put_reply(writer, 400, MALFORMED, true),
        Refused::NoLength => put_reply(writer, 411, LENGTH_REQUIRED, true),
        Refused::TooLarge => put_reply(writer, 413, BODY_TOO_LARGE, true),
    }
}

// Refuses what was asked, and hands on what was written.
fn say_refusal<W: Write>(writer: &mut TrackedWriter<W>, why: Refused) -> io::Result<()>
    ensures wrote { Writes result writer.old writer.new (refusal_text why) }
    ensures failed { FailsWith result writer.old.failed writer.new.failed }
    ensures flushed { OnOk result (writer.new.flushed ≡ true) }
{
    put_refusal(writer, why)?;
    writer.flush()
}

// Refuses what was asked, after which the connection is closed.
fn refuse<W: Write>(writer: &mut TrackedWriter<W>, why: Refused) -> End
    requires writes { writer.old.failed ≡ false }
    ensures { EndsAfter (refusal_text why) writer.old writer.new result }
{
    match say_refusal(writer, why) {
        Ok(()) => End::Asked,
        Err(_) => End::WriteFault,
    }
}

// Hands on what was written, and reads once more, so that so many bytes wait at most. Where none come, the connection
// ends so.
fn read_more<R: Read, W: Write>(
    reader: &mut TrackedReader<R>,
    writer: &mut TrackedWriter<W>,
    inbox: &mut Inbox,
    most: usize,
    end: End,
) -> Result<(), End>
    requires reads { reader.old.failed ≡ false }
    requires writes { writer.old.failed ≡ false }
    requires pause { IsPause end }
    requires waits { NoRequest (held inbox.old) [] end }
    requires few { IsFew (held inbox.old) }
    requires more { length (held inbox.old) < most }
    requires room { most ≤ 73728 }
    ensures ok { OnOk result (ReadOn R.remaining (held inbox.old, reader.old, writer.old) (held inbox.new, reader.new, writer.new)) }
    ensures most { length (held inbox.new) ≤ most }
    ensures turns { OnOk result (reader.old.turns < reader.new.turns) }
    ensures tried { OnOk result (reader.new.turns < 2 ^ 64) }
    ensures err { IfErr result (λ e. Ended R.remaining (held inbox.old, reader.old, writer.old) reader.new writer.new e) }
{
    if writer.flush().is_err() {
        return Err(End::WriteFault);
    }
    match inbox.read_to(reader, writer, most) {
        Ok(0) => Err(end),
        Ok(_) => Ok(()),
        Err(_) => Err(End::ReadFault),
    }
}

// Reads until a head has come.
fn receive_head<R: Read, W: Write>(
    routes: &Router<Call>,
    reader: &mut TrackedReader<R>,
    writer: &mut TrackedWriter<W>,
    inbox: &mut Inbox,
) -> Result<Heading, End>
    requires routes { routes.now ≡ table }
    requires few { length (held inbox.old) ≤ max_head }
    requires reads { reader.old.failed ≡ false }
    requires writes { writer.old.failed ≡ false }
    ensures ok { OnOk result (ReadOn R.remaining (held inbox.old, reader.old, writer.old) (held inbox.new, reader.new, writer.new)) }
    ensures head { IfOk result (λ heading. (h : RequestHead) × HasHeading (held inbox.new) h heading) }
    ensures few { length (held inbox.new) ≤ max_head }
    ensures err { IfErr result (λ e. Ended R.remaining (held inbox.old, reader.old, writer.old) reader.new writer.new e) }
{
    loop {
        match look(routes, inbox.bytes()) {
            Looked::Request(heading) => return Ok(heading),
            Looked::Refused(why) => return Err(refuse(writer, why)),
            Looked::Partial => {}
        }
        let end = if inbox.bytes().is_empty() {
            End::Closed
        } else {
            End::Broken
        };
        read_more(reader, writer, inbox, MAX_HEAD, end)?;
    }
}

// Reads until the body has come.
fn receive_body<R: Read, W: Write>(
    reader: &mut TrackedReader<R>,
    writer: &mut TrackedWriter<W>,
    inbox: &mut Inbox,
    heading: Heading,
) -> Result<(), End>
    requires head { (h : RequestHead) × HasHeading (held inbox.old) h heading }
    requires few { length (held inbox.old) ≤ max_head }
    requires reads { reader.old.failed ≡ false }
    requires writes { writer.old.failed ≡ false }
    ensures ok { OnOk result (ReadOn R.remaining (held inbox.old, reader.old, writer.old) (held inbox.new, reader.new, writer.new)) }
    ensures whole { OnOk result (heading.head + heading.body ≤ length (held inbox.new)) }
    ensures few { OnOk result (IsFewFor heading (held inbox.new)) }
    ensures err { IfErr result (λ e. Ended R.remaining (held inbox.old, reader.old, writer.old) reader.new writer.new e) }
{
    let most = heading.head + heading.body;
    while inbox.bytes().len() < most {
        read_more(reader, writer, inbox, most, End::Broken)?;
    }
    Ok(())
}

/// Reads until a whole request waits. It reads no body that is refused, and nothing behind the request's end but what
/// came with its head.
pub fn receive<R: Read, W: Write>(
    routes: &Router<Call>,
    reader: &mut TrackedReader<R>,
    writer: &mut TrackedWriter<W>,
    inbox: &mut Inbox,
) -> Result<Heading, End>
    requires routes { routes.now ≡ table }
    requires few { length (held inbox.old) ≤ max_head }
    requires reads { reader.old.failed ≡ false }
    requires writes { writer.old.failed ≡ false }
    ensures ok { OnOk result (ReadOn R.remaining (held inbox.old, reader.old, writer.old) (held inbox.new, reader.new, writer.new)) }
    ensures head { IfOk result (λ heading. (h : RequestHead) × HasHeading (held inbox.new) h heading) }
    ensures whole { IfOk result (λ heading. heading.head + heading.body ≤ length (held inbox.new)) }
    ensures few { IfOk result (λ heading. IsFewFor heading (held inbox.new)) }
    ensures err { IfErr result (λ e. Ended R.remaining (held inbox.old, reader.old, writer.old) reader.new writer.new e) }
{
    let heading = receive_head(routes, reader, writer, inbox)?;
    receive_body(reader, writer, inbox, heading)?;
    Ok(heading)
}
