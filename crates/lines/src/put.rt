//! The line of a reply, as it is written.
ghost use Rattle.std.specs.Prelude.{Some};
ghost use Rattle.names.specs.Calls.{told};
ghost use Rattle.lines.specs.Text.{reply_line};
ghost use Rattle.tracked_io.specs.Tracking.{FailsWith, Writes};

use itoa::Buffer;
use names::Reply;
use std::io;
use std::io::Write;
use tracked_io::{TrackedWriter, put, put_parts};

const NO_MEMORY: &[u8] = b"503 {\"error\":{\"code\":21,\"name\":\"Memory\"}}\n";

/// Writes the line of a reply.
pub fn put_reply<W: Write>(writer: &mut TrackedWriter<W>, reply: &Reply) -> io::Result<()>
    ensures wrote { Writes result writer.old writer.new (reply_line (told reply.now)) }
    ensures failed { FailsWith result writer.old.failed writer.new.failed }
{
    match reply {
        Reply::Said { status, body } => put_said(writer, *status, body.as_slice()),
        Reply::NoMemory => put(writer, NO_MEMORY),
    }
}

fn put_said<W: Write>(writer: &mut TrackedWriter<W>, status: u16, body: &[u8]) -> io::Result<()>
    ensures wrote { Writes result writer.old writer.new (reply_line (Some (status, body.now))) }
    ensures failed { FailsWith result writer.old.failed writer.new.failed }
{
    let mut buffer = Buffer::new();
    let parts = [
        buffer.format(status).as_bytes(),
        b" ".as_slice(),
        body,
        b"\n".as_slice(),
    ];
    put_parts(writer, parts.as_slice())
}
