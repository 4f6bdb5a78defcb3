//! Bytes that are fed to a line, and lines that are answered.
ghost use Rattle.std.specs.Prelude.{ℕ, ◌≡◌, List, [], ◌∷◌, true, OnOk};
ghost use Rattle.lines.specs.Going.{AnswersPending, GoesOn, ServesRest};
ghost use Rattle.tracked_io.specs.Tracking.{FailsWith, Writes};

use crate::pending::Pending;
use crate::put::put_reply;
use answers::Answers;
use std::io;
use std::io::Write;
use tracked_io::{TrackedWriter, put};

const TOO_LARGE: &[u8] = b"413 {\"error\":{\"code\":0,\"name\":\"BodyTooLarge\"}}\n";

const NO_ROUTE: &[u8] = b"404 {\"error\":{\"code\":0,\"name\":\"NoRoute\"}}\n";

// Answers a line.
fn answer_line<W: Write, A: Answers>(
    writer: &mut TrackedWriter<W>,
    answers: &mut A,
    line: &Pending,
) -> io::Result<()>
    ensures answered { (text : List ℕ)
        × AnswersPending A.step answers.old line.now text answers.new
        × Writes result writer.old writer.new text }
    ensures failed { FailsWith result writer.old.failed writer.new.failed }
{
    if !line.fits() {
        return put(writer, TOO_LARGE);
    }
    let Some(call) = line.call() else {
        return put(writer, NO_ROUTE);
    };
    let reply = answers.answer(call, line.body());
    put_reply(writer, &reply)
}

// Takes the next byte, and answers the line that it ends.
fn feed<W: Write, A: Answers>(
    writer: &mut TrackedWriter<W>,
    answers: &mut A,
    line: &mut Pending,
    b: u8,
) -> io::Result<()>
    ensures goes_on { GoesOn A.step result
        (line.old, answers.old, writer.old) (b ∷ []) (line.new, answers.new, writer.new) }
    ensures failed { FailsWith result writer.old.failed writer.new.failed }
{
    if b == b'\n' {
        let written = answer_line(writer, answers, line);
        line.clear();
        return written;
    }
    line.push(b);
    Ok(())
}

/// Takes the next bytes, and answers the lines that they end.
pub fn feed_all<W: Write, A: Answers>(
    writer: &mut TrackedWriter<W>,
    answers: &mut A,
    line: &mut Pending,
    bytes: &[u8],
) -> io::Result<()>
    ensures goes_on { GoesOn A.step result
        (line.old, answers.old, writer.old) bytes.now (line.new, answers.new, writer.new) }
    ensures failed { FailsWith result writer.old.failed writer.new.failed }
{
    for b in bytes {
        feed(writer, answers, line, *b)?;
    }
    Ok(())
}

// Answers the last line, where the input ends inside it.
fn answer_rest<W: Write, A: Answers>(
    writer: &mut TrackedWriter<W>,
    answers: &mut A,
    line: &Pending,
) -> io::Result<()>
    ensures served { ServesRest A.step result (line.now, answers.old, writer.old) (answers.new, writer.new) }
    ensures failed { FailsWith result writer.old.failed writer.new.failed }
{
    if line.is_empty() {
        return Ok(());
    }
    answer_line(writer, answers, line)
}

/// Answers the last line, where the input ends inside it, and hands on what was written.
pub fn finish<W: Write, A: Answers>(
    writer: &mut TrackedWriter<W>,
    answers: &mut A,
    line: &Pending,
) -> io::Result<()>
    ensures served { ServesRest A.step result (line.now, answers.old, writer.old) (answers.new, writer.new) }
    ensures failed { FailsWith result writer.old.failed writer.new.failed }
    ensures flushed { OnOk result (writer.new.flushed ≡ true) }
{
    answer_rest(writer, answers, line)?;
    writer.flush()
}
