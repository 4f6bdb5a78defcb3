//! What standard error is told of a fault.
ghost use Rattle.std.specs.Prelude.{◌≡◌, true, false, OnOk};
ghost use Rattle.tracked_io.specs.Tracking.{FailsWith, Writes};
ghost use Rattle.program.specs.Telling.{Tells, fault_line, refusal_line, cause_text};

use command_line::Fault;
use itoa::Buffer;
use std::io;
use std::io::Write;
use tracked_io::{TrackedWriter, put, put_parts};

/// Tells of a fault by a line.
pub fn tell<E: Write>(errors: &mut TrackedWriter<E>, fault: &Fault)
    requires unbroken { errors.old.failed ≡ false }
    ensures { Tells errors.old errors.new fault.now }
{
    let _ = say_fault(errors, fault);
}

// Says the line of a fault, and hands it on.
fn say_fault<E: Write>(errors: &mut TrackedWriter<E>, fault: &Fault) -> io::Result<()>
    ensures wrote { Writes result errors.old errors.new (fault_line fault.now) }
    ensures failed { FailsWith result errors.old.failed errors.new.failed }
    ensures flushed { OnOk result (errors.new.flushed ≡ true) }
{
    put_fault(errors, fault)?;
    errors.flush()
}

fn put_fault<E: Write>(errors: &mut TrackedWriter<E>, fault: &Fault) -> io::Result<()>
    ensures wrote { Writes result errors.old errors.new (fault_line fault.now) }
    ensures failed { FailsWith result errors.old.failed errors.new.failed }
{
    match fault {
        Fault::CommandLine => put(errors, b"zanz: bad command line\n"),
        Fault::Refused(why) => put_refusal(errors, why.number(), why.name().as_bytes()),
        Fault::CannotRead => put(errors, b"zanz: cannot read\n"),
        Fault::CannotWrite => put(errors, b"zanz: cannot write\n"),
        Fault::CannotListen => put(errors, b"zanz: cannot listen\n"),
    }
}

fn put_refusal<E: Write>(errors: &mut TrackedWriter<E>, number: u8, name: &[u8]) -> io::Result<()>
    ensures wrote { Writes result errors.old errors.new (refusal_line number name.now) }
    ensures failed { FailsWith result errors.old.failed errors.new.failed }
{
    match put(errors, b"zanz: refused ") {
        Ok(()) => put_cause(errors, number, name),
        Err(e) => Err(e),
    }
}

fn put_cause<E: Write>(errors: &mut TrackedWriter<E>, number: u8, name: &[u8]) -> io::Result<()>
    ensures wrote { Writes result errors.old errors.new (cause_text number name.now) }
    ensures failed { FailsWith result errors.old.failed errors.new.failed }
{
    let mut buffer = Buffer::new();
    let parts = [
        buffer.format(number).as_bytes(),
        b" ".as_slice(),
        name,
        b"\n".as_slice(),
    ];
    put_parts(errors, parts.as_slice())
}
