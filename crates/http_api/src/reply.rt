//! Replies, as they are written over HTTP.
ghost use Rattle.std.specs.Prelude.{◌≡◌};
ghost use Rattle.tracked_io.specs.Tracking.{FailsWith, Writes};
ghost use Rattle.http_api.specs.Replies.{reason, close_line, start_text, middle_text, reply_text, memory_text};

use itoa::Buffer;
use std::io;
use std::io::Write;
use tracked_io::{TrackedWriter, put, put_parts};

const MEMORY: &[u8] = b"{\"error\":{\"code\":21,\"name\":\"Memory\"}}";

fn reason<'a>(status: u16) -> &'a [u8]
    ensures { result.now ≡ reason status }
{
    match status {
        200 => b"OK",
        400 => b"Bad Request",
        404 => b"Not Found",
        409 => b"Conflict",
        410 => b"Gone",
        411 => b"Length Required",
        413 => b"Content Too Large",
        503 => b"Service Unavailable",
        _ => b"",
    }
}

fn close_line<'a>(closed: bool) -> &'a [u8]
    ensures { result.now ≡ close_line closed }
{
    if closed {
        b"Connection: close\r\n"
    } else {
        b""
    }
}

/// Writes a reply, and that the connection is closed after it where it is. It takes no memory.
pub fn put_reply<W: Write>(
    writer: &mut TrackedWriter<W>,
    status: u16,
    body: &[u8],
    closed: bool,
) -> io::Result<()>
    ensures wrote { Writes result writer.old writer.new (reply_text status body.now closed) }
    ensures failed { FailsWith result writer.old.failed writer.new.failed }
{
    put_start(writer, status)?;
    put_middle(writer, body.len(), closed)?;
    put(writer, body)
}

// Writes the lines of a reply that do not depend on its body.
fn put_start<W: Write>(writer: &mut TrackedWriter<W>, status: u16) -> io::Result<()>
    ensures wrote { Writes result writer.old writer.new (start_text status) }
    ensures failed { FailsWith result writer.old.failed writer.new.failed }
{
    let mut number = Buffer::new();
    let parts = [
        b"HTTP/1.1 ".as_slice(),
        number.format(status).as_bytes(),
        b" ".as_slice(),
        reason(status),
        b"\r\nContent-Type: application/json\r\n".as_slice(),
    ];
    put_parts(writer, parts.as_slice())
}

// Writes the lines that do, and the empty line.
fn put_middle<W: Write>(writer: &mut TrackedWriter<W>, size: usize, closed: bool) -> io::Result<()>
    ensures wrote { Writes result writer.old writer.new (middle_text size closed) }
    ensures failed { FailsWith result writer.old.failed writer.new.failed }
{
    let mut length = Buffer::new();
    let parts = [
        b"Content-Length: ".as_slice(),
        length.format(size).as_bytes(),
        b"\r\n".as_slice(),
        close_line(closed),
        b"\r\n".as_slice(),
    ];
    put_parts(writer, parts.as_slice())
}

/// Writes what stands for a reply for which there is no memory. It takes none.
pub fn put_no_memory<W: Write>(writer: &mut TrackedWriter<W>) -> io::Result<()>
    ensures wrote { Writes result writer.old writer.new memory_text }
    ensures failed { FailsWith result writer.old.failed writer.new.failed }
{
    put_reply(writer, 503, MEMORY, true)
}
