//! Writing, so that it is known how much was written where the writer fails.
ghost use Rattle.std.specs.Prelude.{◌≡◌, true, OnOk};
ghost use Rattle.std.specs.List.{flat_map};
ghost use Rattle.tracked_io.specs.Tracking.{FailsWith, Writes};

use crate::tracked_writer::TrackedWriter;
use std::io;
use std::io::Write;

/// Writes the bytes. Where the writer fails, it took a beginning of them.
pub fn put<W: Write>(writer: &mut TrackedWriter<W>, bytes: &[u8]) -> io::Result<()>
    ensures wrote { Writes result writer.old writer.new bytes.now }
    ensures failed { FailsWith result writer.old.failed writer.new.failed }
{
    let mut rest = bytes;
    while !rest.is_empty() {
        let n = writer.write(rest)?;
        rest = &rest[n..];
    }
    Ok(())
}

/// Writes the bytes and hands them on. Where the writer fails, it took a beginning of them.
pub fn say<W: Write>(writer: &mut TrackedWriter<W>, bytes: &[u8]) -> io::Result<()>
    ensures wrote { Writes result writer.old writer.new bytes.now }
    ensures failed { FailsWith result writer.old.failed writer.new.failed }
    ensures flushed { OnOk result (writer.new.flushed ≡ true) }
{
    put(writer, bytes)?;
    writer.flush()
}

/// Writes the parts, one after another. Where the writer fails, it took a beginning of them.
pub fn put_parts<W: Write>(writer: &mut TrackedWriter<W>, parts: &[&[u8]]) -> io::Result<()>
    ensures wrote { Writes result writer.old writer.new (flat_map (λ part. part.now) parts.now) }
    ensures failed { FailsWith result writer.old.failed writer.new.failed }
{
    for part in parts {
        put(writer, *part)?;
    }
    Ok(())
}
