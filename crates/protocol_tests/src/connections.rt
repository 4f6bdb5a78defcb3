//! Connections over HTTP, whose input comes in pieces of any size.

use answers::{Answers, End};
use http_api::serve;
use names::{Call, Reply};
use std::alloc::{AllocError, Global};
use std::io;
use std::io::{ErrorKind, Read, Write};
use std::process::Abort;
use std::test::Fail;
use tracked_io::{TrackedReader, TrackedWriter};

/// Answers each call with its body, and `write` with nothing.
#[derive(Drop)]
struct Echo(Global);

impl Answers for Echo {
    ghost use Rattle.std.specs.Prelude.{⊤};

    ghost step = { λ s call body told t. ⊤ };

    fn answer(&mut self, call: Call, body: &[u8]) -> Reply {
        if call == Call::Write {
            return Reply::NoMemory;
        }
        match Vec::from_slice(self.0, body) {
            Ok(body) => Reply::Said { status: 200, body },
            Err(_) => Reply::NoMemory,
        }
    }
}

/// A reader that gives few bytes at a time, and fails in the place of its end where it is to.
#[derive(Drop)]
struct Slow<'a> {
    bytes: &'a [u8],
    most: usize,
    fails: bool,
}

impl<'a> Read for Slow<'a> {
    fn read(&mut self, buf: &mut [u8]) -> io::Result<usize> {
        if self.fails && self.bytes.is_empty() {
            return Err(io::Error::from(ErrorKind::BrokenPipe));
        }
        let most = buf.len().min(self.most);
        self.bytes.read(&mut buf[..most])
    }
}

/// A writer that takes few bytes at a time, and fails at one of its writes.
#[derive(Drop)]
struct Narrow {
    bytes: Vec<u8>,
    most: usize,
    writes: u64,
    fails_at: u64,
}

impl Write for Narrow {
    fn write(&mut self, buf: &[u8]) -> io::Result<usize> {
        self.writes = self.writes.wrapping_add(1);
        if self.writes == self.fails_at {
            return Err(io::Error::from(ErrorKind::BrokenPipe));
        }
        let most = buf.len().min(self.most);
        self.bytes.extend_from_slice(&buf[..most])?;
        Ok(most)
    }

    fn flush(&mut self) -> io::Result<()> {
        Ok(())
    }
}

fn check<R: Abort>(rt: &R, alloc: Global, input: &str, want_end: End, want: &str) {
    for most in [1usize, 2, 7, 100_000] {
        let bytes = input.as_bytes();
        let mut reader = TrackedReader::new(Slow {
            bytes,
            most,
            fails: false,
        });
        let mut writer = TrackedWriter::new(Vec::new(alloc));
        let end = serve(alloc, &mut reader, &mut writer, &mut Echo(alloc));
        assert_eq!(rt;
            writer.inner().as_slice(),
            want.as_bytes(),
            "{input} by {most}"
        );
        assert_eq!(rt; end, want_end, "{input} by {most}");
    }
}

// Each of the inputs.
fn check_each<R: Abort>(rt: &R, alloc: Global, inputs: &[&str], want_end: End, want: &str) {
    for input in inputs {
        check(rt, alloc, input, want_end, want);
    }
}

const OK3: &str =
    "HTTP/1.1 200 OK\r\nContent-Type: application/json\r\nContent-Length: 3\r\n\r\nabc";

const OK3_CLOSED: &str =
    "HTTP/1.1 200 OK\r\nContent-Type: application/json\r\nContent-Length: 3\r\nConnection: close\r\n\r\nabc";

const BAD: &str =
    "HTTP/1.1 400 Bad Request\r\nContent-Type: application/json\r\nContent-Length: 39\r\nConnection: close\r\n\r\n{\"error\":{\"code\":1,\"name\":\"Malformed\"}}";

const LARGE: &str =
    "HTTP/1.1 413 Content Too Large\r\nContent-Type: application/json\r\nContent-Length: 42\r\nConnection: close\r\n\r\n{\"error\":{\"code\":0,\"name\":\"BodyTooLarge\"}}";

const NO_LENGTH: &str =
    "HTTP/1.1 411 Length Required\r\nContent-Type: application/json\r\nContent-Length: 44\r\nConnection: close\r\n\r\n{\"error\":{\"code\":0,\"name\":\"LengthRequired\"}}";

const NONE: &str =
    "HTTP/1.1 404 Not Found\r\nContent-Type: application/json\r\nContent-Length: 37\r\n\r\n{\"error\":{\"code\":0,\"name\":\"NoRoute\"}}";

const MEMORY: &str =
    "HTTP/1.1 503 Service Unavailable\r\nContent-Type: application/json\r\nContent-Length: 37\r\nConnection: close\r\n\r\n{\"error\":{\"code\":21,\"name\":\"Memory\"}}";

#[test]
fn one_request(rt: HostRuntime) {
    let alloc = rt.alloc();
    check(&rt, alloc, "", End::Closed, "");
    check_each(
        &rt,
        alloc,
        &[
            "POST /v1/check HTTP/1.1\r\nContent-Length: 3\r\n\r\nabc",
            "\r\n\nPOST /v1/check HTTP/1.1\ncontent-LENGTH:\t003 \n\nabc",
            "POST /v1/check HTTP/1.1\r\nConnection: close, te\r\nContent-Length: 3\r\n\r\nabc",
        ],
        End::Closed,
        OK3,
    );
    check_each(
        &rt,
        alloc,
        &[
            "POST /v1/check HTTP/1.0\r\nContent-Length: 3\r\n\r\nabcPOST",
            "POST /v1/check HTTP/1.1\r\nConnection: Close\r\nContent-Length: 3\r\n\r\nabc",
        ],
        End::Asked,
        OK3_CLOSED,
    );
}

#[test]
fn a_request_that_is_cut(rt: HostRuntime) {
    let cut = [
        "POST /v1/check HTTP/1.1\r\nContent-Length: 3\r\n\r\nab",
        "POST /v1/check HTTP/1.1\r\nContent-Length: 3\r\n",
        "POST /v1/che",
    ];
    check_each(&rt, rt.alloc(), &cut, End::Broken, "");
}

#[test]
fn malformed_heads(rt: HostRuntime) {
    for length in ["", "41,41", "00000000000000000041", "+3", "3 3", "-1"] {
        let alloc = rt.alloc();
        let input = format!(in alloc;
            "POST /v1/check HTTP/1.1\r\nContent-Length: {length}\r\n\r\nabc"
        ).unwrap_or(String::new(alloc));
        check(&rt, rt.alloc(), input.as_str(), End::Asked, BAD);
    }
    let malformed = [
        "POST /v1/check HTTP/1.1\r\nContent-Length: 3\r\nContent-Length: 3\r\n\r\nabc",
        "POST /v1/check HTTP/1.1\r\nTransfer-Encoding: chunked\r\nContent-Length: 3\r\n\r\nabc",
        "P@ST /v1/check HTTP/1.1\r\n",
    ];
    check_each(&rt, rt.alloc(), &malformed, End::Asked, BAD);
}

#[test]
fn bodies_that_are_not_read(rt: HostRuntime) {
    let too_large = "POST /v1/check HTTP/1.1\r\nContent-Length: 9999999999999999999\r\n\r\nabc";
    check(&rt, rt.alloc(), too_large, End::Asked, LARGE);
    let no_length = "POST /v1/check HTTP/1.1\r\nHost: x\r\n\r\nabc";
    check(&rt, rt.alloc(), no_length, End::Asked, NO_LENGTH);
}

#[test]
fn targets_without_a_route(rt: HostRuntime) {
    let targets = [
        "GET /v1/check HTTP/1.1\r\n\r\n",
        "POST /v1/check/ HTTP/1.1\r\nContent-Length: 3\r\n\r\nabc",
        "POST /v1/check?x=1 HTTP/1.1\r\nContent-Length: 3\r\n\r\nabc",
    ];
    check_each(&rt, rt.alloc(), &targets, End::Closed, NONE);
}

#[test]
fn a_call_without_memory_ends_the_connection(rt: HostRuntime) {
    let write = "POST /v1/write HTTP/1.1\r\nContent-Length: 3\r\n\r\nabcPOST";
    check(&rt, rt.alloc(), write, End::Memory, MEMORY);
}

#[test]
fn two_requests(rt: HostRuntime) -> Result<(), Fail> {
    let alloc = rt.alloc();
    let want = format!(in alloc; "{OK3}{NONE}")?;
    check(
        &rt,
        alloc,
        "POST /v1/check HTTP/1.1\r\nContent-Length: 3\r\n\r\nabcPOST /v1/x HTTP/1.1\r\nContent-Length: 2\r\n\r\nab",
        End::Closed,
        want.as_str(),
    );
    Ok(())
}

fn long_head(alloc: Global, len: usize) -> String {
    let mut input = String::new(alloc);
    let _ = input.push_str("POST /v1/check HTTP/1.1\r\nContent-Length: 3\r\nX: ");
    for _ in input.len()..len.saturating_sub(4) {
        let _ = input.push('x');
    }
    let _ = input.push_str("\r\n\r\nabc");
    input
}

#[test]
fn long_heads(rt: HostRuntime) {
    let alloc = rt.alloc();
    check(
        &rt,
        rt.alloc(),
        long_head(alloc, 8192).as_str(),
        End::Closed,
        OK3,
    );
    check(
        &rt,
        rt.alloc(),
        long_head(alloc, 8193).as_str(),
        End::Asked,
        BAD,
    );
}

fn many_fields(alloc: Global, count: usize) -> String {
    let mut input = String::new(alloc);
    let _ = input.push_str("POST /v1/check HTTP/1.1\r\n");
    for _ in 1..count {
        let _ = input.push_str("X: y\r\n");
    }
    let _ = input.push_str("Content-Length: 3\r\n\r\nabc");
    input
}

#[test]
fn fields(rt: HostRuntime) {
    let alloc = rt.alloc();
    check(
        &rt,
        rt.alloc(),
        many_fields(alloc, 64).as_str(),
        End::Closed,
        OK3,
    );
    check(
        &rt,
        rt.alloc(),
        many_fields(alloc, 65).as_str(),
        End::Asked,
        BAD,
    );
}

#[test]
fn targets_that_are_no_text(rt: HostRuntime) {
    let alloc = rt.alloc();
    for (bytes, want) in [
        (b"POST /\xff".as_slice(), End::Broken),
        (b"POST /\xff HTTP/1.1\r\n".as_slice(), End::Asked),
    ] {
        for most in [1usize, 100] {
            let mut reader = TrackedReader::new(Slow {
                bytes,
                most,
                fails: false,
            });
            let mut writer = TrackedWriter::new(Vec::new(alloc));
            let end = serve(alloc, &mut reader, &mut writer, &mut Echo(alloc));
            assert_eq!(rt; end, want);
        }
    }
}

#[test]
fn a_reader_that_fails_is_told_after_whole_requests(rt: HostRuntime) {
    let alloc = rt.alloc();
    let bytes = b"POST /v1/check HTTP/1.1\r\nContent-Length: 3\r\n\r\nabcPOST /v1".as_slice();
    for most in [1usize, 7, 100] {
        let mut reader = TrackedReader::new(Slow {
            bytes,
            most,
            fails: true,
        });
        let mut writer = TrackedWriter::new(Vec::new(alloc));
        let end = serve(alloc, &mut reader, &mut writer, &mut Echo(alloc));
        assert_eq!(rt; end, End::ReadFault);
        assert_eq!(rt; writer.inner().as_slice(), OK3.as_bytes());
        assert_eq!(rt; reader.has_failed(), true);
    }
}

const CHECK3: &[u8] = b"POST /v1/check HTTP/1.1\r\nContent-Length: 3\r\n\r\nabc";

// Requests one behind the other, by ends that take so many bytes; the writer fails at one of its writes, or at 0 at none.
fn ends_so(
    alloc: Global,
    requests: usize,
    most: usize,
    fails_at: u64,
    wanted: End,
    text: &[u8],
) -> Result<bool, AllocError> {
    let mut input = Vec::new(alloc);
    for _ in 0..requests {
        input.extend_from_slice(CHECK3)?;
    }
    let bytes = input.as_slice();
    let fails = false;
    let mut reader = TrackedReader::new(Slow { bytes, most, fails });
    let narrow = Narrow {
        bytes: Vec::new(alloc),
        most,
        writes: 0,
        fails_at,
    };
    let mut writer = TrackedWriter::new(narrow);
    let end = serve(alloc, &mut reader, &mut writer, &mut Echo(alloc));
    let known = !reader.has_failed() && writer.has_failed() == (wanted == End::WriteFault);
    Ok(known && end == wanted && writer.inner().bytes.as_slice() == text)
}

fn many_are_answered(alloc: Global, most: usize) -> Result<bool, AllocError> {
    let mut wanted = Vec::new(alloc);
    for _ in 0..2000usize {
        wanted.extend_from_slice(OK3.as_bytes())?;
    }
    ends_so(alloc, 2000, most, 0, End::Closed, wanted.as_slice())
}

#[test]
fn ends_that_never_fail_are_never_told_as_failing(rt: HostRuntime) {
    for most in [1usize, 99, 8_192, 1_000_000] {
        assert!(rt;
            many_are_answered(rt.alloc(), most).unwrap_or(false),
            "by {most}"
        );
    }
}

// After so many bytes, of which the writer takes one at a time.
fn writer_fails(alloc: Global, taken: usize) -> Result<bool, AllocError> {
    if taken > OK3.len() {
        return Ok(false);
    }
    let text = &OK3.as_bytes()[..taken];
    ends_so(alloc, 1, 1, taken as u64 + 1, End::WriteFault, text)
}

#[test]
fn a_writer_that_fails_has_taken_a_beginning(rt: HostRuntime) {
    for taken in [0usize, 1, 39, 72] {
        assert!(rt;
            writer_fails(rt.alloc(), taken).unwrap_or(false),
            "after {taken}"
        );
    }
}

// Two requests, cut after so many bytes, which come by so many; the reader then ends, or fails.
fn cut_at(alloc: Global, len: usize, most: usize, fails: bool) -> Result<bool, AllocError> {
    let mut input = Vec::from_slice(alloc, CHECK3)?;
    input.extend_from_slice(CHECK3)?;
    let mut text = Vec::new(alloc);
    if len >= CHECK3.len() {
        text.extend_from_slice(OK3.as_bytes())?;
    }
    if len >= input.len() {
        text.extend_from_slice(OK3.as_bytes())?;
    }
    let whole = len == 0 || len == CHECK3.len() || len == input.len();
    let wanted = match (fails, whole) {
        (true, _) => End::ReadFault,
        (false, true) => End::Closed,
        (false, false) => End::Broken,
    };
    let bytes = &input[..len.min(input.len())];
    let mut reader = TrackedReader::new(Slow { bytes, most, fails });
    let mut writer = TrackedWriter::new(Vec::new(alloc));
    let end = serve(alloc, &mut reader, &mut writer, &mut Echo(alloc));
    let known = reader.has_failed() == fails && !writer.has_failed();
    Ok(known && end == wanted && writer.inner().as_slice() == text.as_slice())
}

// The same at each byte.
fn is_cut_anywhere(alloc: Global, most: usize, fails: bool) -> bool {
    for len in 0..=CHECK3.len() + CHECK3.len() {
        if !cut_at(alloc, len, most, fails).unwrap_or(false) {
            return false;
        }
    }
    true
}

#[test]
fn an_input_may_end_at_any_byte(rt: HostRuntime) {
    assert!(rt; is_cut_anywhere(rt.alloc(), 100_000, false));
}

#[test]
fn an_input_that_comes_by_bytes_may_end_at_any(rt: HostRuntime) {
    assert!(rt; is_cut_anywhere(rt.alloc(), 1, false));
}

// By one byte at a time the reader fails at each of its reads in turn.
#[test]
fn a_reader_may_fail_at_any_read(rt: HostRuntime) {
    assert!(rt; is_cut_anywhere(rt.alloc(), 1, true));
}

fn fails_anywhere(alloc: Global) -> bool {
    for taken in 0..OK3.len() {
        if !writer_fails(alloc, taken).unwrap_or(false) {
            return false;
        }
    }
    true
}

// By one byte at a time the writer fails at each of its writes in turn.
#[test]
fn a_writer_may_fail_at_any_write(rt: HostRuntime) {
    assert!(rt; fails_anywhere(rt.alloc()));
}

// A head whose beginning is this long, and which then ends.
fn cut_head(
    alloc: Global,
    begins: &[u8],
    fill: u8,
    len: usize,
    wanted: End,
) -> Result<bool, AllocError> {
    let mut input = Vec::from_slice(alloc, begins)?;
    for _ in input.len()..len {
        input.push(fill)?;
    }
    let bytes = input.as_slice();
    let mut reader = TrackedReader::new(Slow {
        bytes,
        most: 4096,
        fails: false,
    });
    let mut writer = TrackedWriter::new(Vec::new(alloc));
    let end = serve(alloc, &mut reader, &mut writer, &mut Echo(alloc));
    let text = if wanted == End::Asked { BAD } else { "" };
    Ok(end == wanted && writer.inner().as_slice() == text.as_bytes())
}

// With so many bytes the head can still be ended within 8,192, and with one more it cannot.
fn ends_in_time(alloc: Global, begins: &[u8], fill: u8, len: usize) -> bool {
    cut_head(alloc, begins, fill, len, End::Broken).unwrap_or(false)
        && cut_head(alloc, begins, fill, len.saturating_add(1), End::Asked).unwrap_or(false)
}

#[test]
fn a_head_that_cannot_be_ended_in_time_is_refused(rt: HostRuntime) {
    for (begins, fill, len) in [
        (b"".as_slice(), b'\n', 8178usize),
        (b"".as_slice(), b'G', 8179),
        (b"GET / HTTP/1.1\r\n".as_slice(), b'a', 8189),
        (b"GET / HTTP/1.1\r\na:".as_slice(), b'b', 8190),
    ] {
        assert!(rt; ends_in_time(rt.alloc(), begins, fill, len), "{len}");
    }
}

#[test]
fn a_target_is_read_to_the_limit(rt: HostRuntime) {
    for fill in [b'a', 0xffu8] {
        let cut = cut_head(rt.alloc(), b"GET /", fill, 8191, End::Broken);
        assert!(rt; cut.unwrap_or(false), "{fill}");
    }
}

// A check of this length, of which so many bytes come; then the reader fails.
fn of_length(
    alloc: Global,
    length: &str,
    body: usize,
    wanted: End,
    text: &str,
) -> Result<bool, AllocError> {
    let mut input = Vec::from_slice(alloc, b"POST /v1/check HTTP/1.1\r\nContent-Length: ")?;
    input.extend_from_slice(length.as_bytes())?;
    input.extend_from_slice(b"\r\n\r\n")?;
    for _ in 0..body {
        input.push(b'a')?;
    }
    let bytes = input.as_slice();
    let mut reader = TrackedReader::new(Slow {
        bytes,
        most: 100_000,
        fails: true,
    });
    let mut writer = TrackedWriter::new(Vec::new(alloc));
    let end = serve(alloc, &mut reader, &mut writer, &mut Echo(alloc));
    Ok(end == wanted && writer.inner().as_slice() == text.as_bytes())
}

// What answers a check with as many bytes.
fn echoed(alloc: Global, length: &str, body: usize) -> Result<bool, AllocError> {
    let mut text = String::new(alloc);
    text.push_str("HTTP/1.1 200 OK\r\nContent-Type: application/json\r\nContent-Length: ")?;
    text.push_str(length.trim_start_matches('0'))?;
    text.push_str("\r\n\r\n")?;
    for _ in 0..body {
        text.push('a')?;
    }
    of_length(alloc, length, body, End::ReadFault, text.as_str())
}

#[test]
fn a_length_may_begin_with_zeros(rt: HostRuntime) {
    for (length, body) in [("41", 41usize), ("0041", 41), ("0000000000000000041", 41)] {
        assert!(rt;
            echoed(rt.alloc(), length, body).unwrap_or(false),
            "{length}"
        );
    }
}

#[test]
fn a_body_has_65536_bytes_at_most(rt: HostRuntime) {
    assert!(rt; echoed(rt.alloc(), "65536", 65_536).unwrap_or(false));
    let refused = of_length(rt.alloc(), "65537", 0, End::Asked, LARGE);
    assert!(rt; refused.unwrap_or(false));
}

// The reader would fail at the next read.
#[test]
fn nothing_is_read_behind_what_is_refused(rt: HostRuntime) {
    for (length, text) in [
        ("65537", LARGE),
        ("9999999999999999999", LARGE),
        ("00000000000000000041", BAD),
        ("", BAD),
    ] {
        let refused = of_length(rt.alloc(), length, 0, End::Asked, text);
        assert!(rt; refused.unwrap_or(false), "{length}");
    }
}
