//! The bytes that were read and not used yet.
ghost use Rattle.std.specs.Prelude.{ℕ, ◌≡◌, ◌≤◌, ◌<◌, ◌^◌, List, [], ◌++◌, length, drop, true, IfOk, OnOk, OnErr};
ghost use Rattle.std.specs.Io.KnownBytes.{Consumes, IsAtEnd, Keeps};
ghost use Rattle.tracked_io.specs.Tracking.{FailsWith};
ghost use Rattle.tracked_io.specs.Waiting.{with_read};

use std::alloc::{AllocError, Global};
use std::io;
use std::io::{Read, Write};
use tracked_io::{TrackedReader, TrackedWriter};

// A head and a body.
const ROOM: usize = 73_728;

/// Bytes that wait to be used, in the order in which they came. They have their room from the start.
#[derive(Drop)]
pub struct Inbox {
    bytes: Vec<u8>,
    start: usize,
    end: usize,
    ghost ordered: { start ≤ end },
    ghost within: { end ≤ 73728 },
    ghost room: { length bytes.items ≡ 73728 },
}

impl Inbox {
    ghost use Rattle.http_api.specs.inside.Held.{held};

    /// No bytes, and the room.
    pub fn new(alloc: Global) -> Result<Inbox, AllocError>
        ensures { IfOk result (λ inbox. held inbox ≡ []) }
    {
        Ok(Inbox {
            bytes: vec![in alloc; 0u8; ROOM]?,
            start: 0,
            end: 0,
        })
    }

    /// The bytes that wait.
    pub fn bytes(&self) -> &[u8]
        ensures { result.now ≡ held self.now }
    {
        &self.bytes[self.start..self.end]
    }

    /// Uses the first bytes.
    pub fn use_up(&mut self, count: usize)
        requires { count ≤ length (held self.old) }
        ensures { held self.new ≡ drop count (held self.old) }
    {
        self.start += count;
    }

    // Moves the bytes to the front of the room.
    fn pack(&mut self)
        ensures bytes { held self.new ≡ held self.old }
        ensures front { self.new.start ≡ 0 }
    {
        let (start, end) = (self.start, self.end);
        self.bytes.copy_within(start..end, 0);
        self.start = 0;
        self.end = end - start;
    }

    /// One read, so that so many bytes wait then at most, while no reply is held back.
    pub fn read_to<R: Read, W: Write>(
        &mut self,
        reader: &mut TrackedReader<R>,
        answered: &TrackedWriter<W>,
        most: usize,
    ) -> io::Result<usize>
        requires flushed { answered.now.flushed ≡ true }
        requires more { length (held self.old) < most }
        requires room { most ≤ 73728 }
        ensures ok { IfOk result (λ n. (more : List ℕ) × (length more ≡ n) × (held self.new ≡ held self.old ++ more)
            × Consumes (R.remaining reader.old.inner) (R.remaining reader.new.inner) more
            × (reader.new.reads ≡ with_read reader.old.reads answered.now.taken more)) }
        ensures end { IfOk result (λ n. n ≡ 0 → IsAtEnd (R.remaining reader.new.inner)) }
        ensures err { OnErr result ((held self.new ≡ held self.old)
            × Keeps (R.remaining reader.old.inner) (R.remaining reader.new.inner)
            × (reader.new.reads ≡ with_read reader.old.reads answered.now.taken [])) }
        ensures most { length (held self.new) ≤ most }
        ensures failed { FailsWith result reader.old.failed reader.new.failed }
        ensures turns { OnOk result (reader.old.turns < reader.new.turns) }
        ensures tried { OnOk result (reader.new.turns < 2 ^ 64) }
    {
        if ROOM - self.start < most {
            self.pack();
        }
        let (from, to) = (self.end, self.start + most);
        let count = reader.read(answered, &mut self.bytes[from..to])?;
        self.end = from + count;
        Ok(count)
    }
}
