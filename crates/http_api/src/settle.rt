//! Answering a request that has come whole.
ghost use Rattle.std.specs.Prelude.{◌≡◌, ◌<◌, IfErr, OnOk, true, false};
ghost use Rattle.tracked_io.specs.Tracking.{FailsWith, Writes};
ghost use Rattle.http_api.specs.Replies.{reply_text, memory_text};
ghost use Rattle.http_api.specs.inside.Receiving.{HandedOn};
ghost use Rattle.http_api.specs.inside.Settling.{IsSent, IsGivenUp, Settles};

use crate::looking::Heading;
use crate::reply::{put_no_memory, put_reply};
use answers::{Answers, End};
use names::Reply;
use std::io;
use std::io::Write;
use tracked_io::TrackedWriter;

const NO_ROUTE: &[u8] = b"{\"error\":{\"code\":0,\"name\":\"NoRoute\"}}";

// Writes a reply, and hands it on.
fn say_reply<W: Write>(
    writer: &mut TrackedWriter<W>,
    status: u16,
    body: &[u8],
    closed: bool,
) -> io::Result<()>
    ensures wrote { Writes result writer.old writer.new (reply_text status body.now closed) }
    ensures failed { FailsWith result writer.old.failed writer.new.failed }
    ensures flushed { OnOk result (writer.new.flushed ≡ true) }
{
    put_reply(writer, status, body, closed)?;
    writer.flush()
}

// Writes a reply, and ends where the connection is closed after it.
fn send<W: Write>(
    writer: &mut TrackedWriter<W>,
    status: u16,
    body: &[u8],
    closed: bool,
) -> Result<(), End>
    requires writes { writer.old.failed ≡ false }
    ensures sent { IsSent closed (reply_text status body.now closed) writer.old writer.new result }
    ensures ok { OnOk result (writer.new.failed ≡ false) }
    ensures err { IfErr result (λ end. HandedOn writer.new end) }
{
    if closed {
        return match say_reply(writer, status, body, closed) {
            Ok(()) => Err(End::Asked),
            Err(_) => Err(End::WriteFault),
        };
    }
    match put_reply(writer, status, body, closed) {
        Ok(()) => Ok(()),
        Err(_) => Err(End::WriteFault),
    }
}

// Writes what stands for a reply for which there is no memory, and hands it on.
fn say_no_memory<W: Write>(writer: &mut TrackedWriter<W>) -> io::Result<()>
    ensures wrote { Writes result writer.old writer.new memory_text }
    ensures failed { FailsWith result writer.old.failed writer.new.failed }
    ensures flushed { OnOk result (writer.new.flushed ≡ true) }
{
    put_no_memory(writer)?;
    writer.flush()
}

// Ends where there is no memory for a reply.
fn give_up<W: Write>(writer: &mut TrackedWriter<W>) -> End
    requires writes { writer.old.failed ≡ false }
    ensures given_up { IsGivenUp writer.old writer.new result }
    ensures handed_on { HandedOn writer.new result }
{
    match say_no_memory(writer) {
        Ok(()) => End::Memory,
        Err(_) => End::WriteFault,
    }
}

/// Answers request `number`, whose body has come. The connection goes on after `Ok`.
pub fn settle<W: Write, A: Answers>(
    writer: &mut TrackedWriter<W>,
    answers: &mut A,
    heading: Heading,
    body: &[u8],
    number: u64,
) -> Result<(), End>
    requires writes { writer.old.failed ≡ false }
    ensures settles { Settles A.step heading body.now number (answers.old, writer.old) (answers.new, writer.new) result }
    ensures ok { OnOk result (writer.new.failed ≡ false) }
    ensures room { OnOk result (number < 18446744073709551615) }
    ensures err { IfErr result (λ end. HandedOn writer.new end) }
{
    let closed = heading.closes || number == u64::MAX;
    let call = match heading.call {
        Some(call) => call,
        None => return send(writer, 404, NO_ROUTE, closed),
    };
    match answers.answer(call, body) {
        Reply::Said { status, body } => send(writer, status, body.as_slice(), closed),
        Reply::NoMemory => Err(give_up(writer)),
    }
}
