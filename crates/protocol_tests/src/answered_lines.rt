//! Lines over readers and writers that are slow, are interrupted, or fail.

use answers::{Answers, End};
use lines::lines;
use names::{Call, Reply};
use std::alloc::{AllocError, Global};
use std::io;
use std::io::{ErrorKind, Read, Write};
use tracked_io::{TrackedReader, TrackedWriter};

/// Answers each call with its body.
#[derive(Drop)]
struct Echo(Global);

impl Answers for Echo {
    ghost use Rattle.std.specs.Prelude.{⊤};

    ghost step = { λ s call body told t. ⊤ };

    fn answer(&mut self, _call: Call, body: &[u8]) -> Reply {
        match Vec::from_slice(self.0, body) {
            Ok(body) => Reply::Said { status: 200, body },
            Err(_) => Reply::NoMemory,
        }
    }
}

/// A reader that gives few bytes at a time, is interrupted, and fails at one of its reads.
#[derive(Drop)]
struct Slow<'a> {
    bytes: &'a [u8],
    most: usize,
    reads: u64,
    interrupted_each: u64,
    fails_at: u64,
}

impl<'a> Slow<'a> {
    fn new(bytes: &'a [u8]) -> Slow<'a> {
        Slow {
            bytes,
            most: 1,
            reads: 0,
            interrupted_each: 0,
            fails_at: 0,
        }
    }
}

impl<'a> Read for Slow<'a> {
    fn read(&mut self, buf: &mut [u8]) -> io::Result<usize> {
        self.reads = self.reads.wrapping_add(1);
        if self.reads == self.fails_at {
            return Err(io::Error::from(ErrorKind::BrokenPipe));
        }
        if self.interrupted_each != 0 && self.reads % self.interrupted_each == 0 {
            return Err(io::Error::from(ErrorKind::Interrupted));
        }
        let most = buf.len().min(self.most);
        self.bytes.read(&mut buf[..most])
    }
}

/// A writer that takes few bytes at a time, is interrupted, and fails at one of its writes or flushes.
#[derive(Drop)]
struct Narrow {
    bytes: Vec<u8>,
    most: usize,
    writes: u64,
    flushes: u64,
    interrupted_each: u64,
    fails_at: u64,
    flush_fails_at: u64,
}

impl Narrow {
    fn new(alloc: Global) -> Narrow {
        Narrow {
            bytes: Vec::new(alloc),
            most: 1,
            writes: 0,
            flushes: 0,
            interrupted_each: 0,
            fails_at: 0,
            flush_fails_at: 0,
        }
    }
}

impl Write for Narrow {
    fn write(&mut self, buf: &[u8]) -> io::Result<usize> {
        self.writes = self.writes.wrapping_add(1);
        if self.writes == self.fails_at {
            return Err(io::Error::from(ErrorKind::BrokenPipe));
        }
        if self.interrupted_each != 0 && self.writes % self.interrupted_each == 0 {
            return Err(io::Error::from(ErrorKind::Interrupted));
        }
        let most = buf.len().min(self.most);
        self.bytes.extend_from_slice(&buf[..most])?;
        Ok(most)
    }

    fn flush(&mut self) -> io::Result<()> {
        self.flushes = self.flushes.wrapping_add(1);
        if self.flushes == self.flush_fails_at {
            return Err(io::Error::from(ErrorKind::BrokenPipe));
        }
        if self.interrupted_each != 0 && self.flushes % self.interrupted_each == 0 {
            return Err(io::Error::from(ErrorKind::Interrupted));
        }
        Ok(())
    }
}

/// Whether lines between these two end so, with this written, and whether the one that failed knows it.
fn ends_so(alloc: Global, slow: Slow<'_>, narrow: Narrow, wanted: End, text: &[u8]) -> bool {
    let mut reader = TrackedReader::new(slow);
    let mut writer = TrackedWriter::new(narrow);
    let end = lines(alloc, &mut reader, &mut writer, &mut Echo(alloc));
    let known = reader.has_failed() == (wanted == End::ReadFault)
        && writer.has_failed() == (wanted == End::WriteFault);
    known && end == wanted && writer.inner().bytes.as_slice() == text
}

const INPUT: &[u8] = b"state {\"a\":1}\nnope {}\n\nstate\nstate\r\nwrite \r\ncheck a b\nstate x";

const OUTPUT: &str = "200 {\"a\":1}
404 {\"error\":{\"code\":0,\"name\":\"NoRoute\"}}
404 {\"error\":{\"code\":0,\"name\":\"NoRoute\"}}
200 
404 {\"error\":{\"code\":0,\"name\":\"NoRoute\"}}
200 \r
200 a b
200 x
";

fn is_the_same(alloc: Global, interrupted_each: u64) -> bool {
    let mut slow = Slow::new(INPUT);
    slow.interrupted_each = interrupted_each;
    let mut narrow = Narrow::new(alloc);
    narrow.interrupted_each = interrupted_each;
    ends_so(alloc, slow, narrow, End::Closed, OUTPUT.as_bytes())
}

#[test]
fn slow_and_interrupted_ends_change_nothing(rt: HostRuntime) {
    for interrupted_each in [0u64, 2, 3] {
        assert!(rt;
            is_the_same(rt.alloc(), interrupted_each),
            "at {interrupted_each}"
        );
    }
}

// A line with a body of so many bytes, and its answer.
fn add_line(input: &mut Vec<u8>, output: &mut Vec<u8>, len: usize) -> Result<(), AllocError> {
    input.extend_from_slice(b"state ")?;
    output.extend_from_slice(b"200 ")?;
    for _ in 0..len {
        input.push(b'x')?;
        output.push(b'x')?;
    }
    input.push(b'\n')?;
    output.push(b'\n')?;
    Ok(())
}

// Two thousand lines, with bodies of 0 to 199 bytes and one of 65,536, by ends that take so many bytes and never fail.
fn healthy_ends_go_on(alloc: Global, most: usize) -> Result<bool, AllocError> {
    let mut input = Vec::new(alloc);
    let mut output = Vec::new(alloc);
    for i in 0..2000usize {
        add_line(&mut input, &mut output, i % 200)?;
    }
    add_line(&mut input, &mut output, 65_536)?;
    let mut slow = Slow::new(input.as_slice());
    slow.most = most;
    let mut narrow = Narrow::new(alloc);
    narrow.most = most;
    Ok(ends_so(alloc, slow, narrow, End::Closed, output.as_slice()))
}

#[test]
fn ends_that_never_fail_are_never_told_as_failing(rt: HostRuntime) {
    for most in [1usize, 99, 8_192, 1_000_000] {
        assert!(rt;
            healthy_ends_go_on(rt.alloc(), most).unwrap_or(false),
            "by {most}"
        );
    }
}

fn reader_fails(alloc: Global, fails_at: u64, text: &str) -> bool {
    let mut slow = Slow::new(b"state a\nstate b\n");
    slow.fails_at = fails_at;
    ends_so(
        alloc,
        slow,
        Narrow::new(alloc),
        End::ReadFault,
        text.as_bytes(),
    )
}

#[test]
fn a_reader_fails(rt: HostRuntime) {
    for (fails_at, text) in [
        (1u64, ""),
        (8, ""),
        (9, "200 a\n"),
        (16, "200 a\n"),
        (17, "200 a\n200 b\n"),
    ] {
        assert!(rt; reader_fails(rt.alloc(), fails_at, text), "at {fails_at}");
    }
}

// At the writer's failure all before it was written.
fn writer_fails(alloc: Global, fails_at: u64, text: &str) -> bool {
    let mut narrow = Narrow::new(alloc);
    narrow.fails_at = fails_at;
    let slow = Slow::new(b"state a\nstate b\n");
    ends_so(alloc, slow, narrow, End::WriteFault, text.as_bytes())
}

#[test]
fn a_writer_fails(rt: HostRuntime) {
    for (fails_at, text) in [
        (1u64, ""),
        (2, "2"),
        (5, "200 "),
        (6, "200 a"),
        (7, "200 a\n"),
        (11, "200 a\n200 "),
        (12, "200 a\n200 b"),
    ] {
        assert!(rt; writer_fails(rt.alloc(), fails_at, text), "at {fails_at}");
    }
}

// A writer that takes no more at its ninth byte.
fn full_writer_fails(alloc: Global) -> bool {
    let mut room = [0u8; 9];
    let mut reader = TrackedReader::new(b"state a\nstate b\n".as_slice());
    let mut writer = TrackedWriter::new(room.as_mut_slice());
    let end = lines(alloc, &mut reader, &mut writer, &mut Echo(alloc));
    end == End::WriteFault && writer.has_failed()
}

#[test]
fn a_full_writer_fails(rt: HostRuntime) {
    assert!(rt; full_writer_fails(rt.alloc()));
}

fn flush_fails(alloc: Global, flush_fails_at: u64, end: End, text: &str) -> bool {
    let mut narrow = Narrow::new(alloc);
    narrow.flush_fails_at = flush_fails_at;
    let slow = Slow::new(b"state a\nstate b");
    ends_so(alloc, slow, narrow, end, text.as_bytes())
}

#[test]
fn a_flush_fails(rt: HostRuntime) {
    // One flush before each of the reads, and one at the end.
    for (flush_fails_at, end, text) in [
        (0u64, End::Closed, "200 a\n200 b\n"),
        (1, End::WriteFault, ""),
        (9, End::WriteFault, "200 a\n"),
        (16, End::WriteFault, "200 a\n"),
        (17, End::WriteFault, "200 a\n200 b\n"),
    ] {
        assert!(rt;
            flush_fails(rt.alloc(), flush_fails_at, end, text),
            "at {flush_fails_at}"
        );
    }
}
