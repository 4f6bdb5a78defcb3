//! The line that is being read.
ghost use Rattle.std.specs.Prelude.{◌≡◌, [], IfOk, nat_le, length, ◌==◌, ◌&&◌, not};
ghost use Rattle.names.specs.Calls.{call_of};
ghost use Rattle.lines.specs.PendingLine.{pending_of, with_byte};

use names::Call;
use names::limits::MAX_BODY_LEN;
use std::alloc::{AllocError, Global};
use std::marker::Model;

// More than the longest word of a call has.
const WORD: usize = 16;

// One more than a body may have.
const BODY: usize = MAX_BODY_LEN + 1;

/// What is kept of a line while it is read: no more than decides its answer. It has its room from the start.
#[derive(Drop)]
pub struct Pending {
    word: Vec<u8>,
    spaced: bool,
    body: Vec<u8>,
}

impl Model for Pending {
    ghost use Rattle.std.specs.Prelude.{◌≤◌, vec_capacity};
    ghost use Rattle.lines.specs.PendingLine.{PendingLine, word_room, body_room};

    ghost Value = { PendingLine };

    ghost view = { λ p. record { word = p.word.items; spaced = p.spaced; body = p.body.items } };

    ghost invariant = { λ p. (word_room ≤ vec_capacity p.word) × (body_room ≤ vec_capacity p.body) };
}

impl Pending {
    /// An empty line.
    pub fn new(alloc: Global) -> Result<Pending, AllocError>
        ensures { IfOk result (λ p. p ≡ pending_of []) }
    {
        let word = Vec::with_capacity(alloc, WORD)?;
        let body = Vec::with_capacity(alloc, BODY)?;
        Ok(Pending {
            word,
            spaced: false,
            body,
        })
    }

    /// Takes the next byte of the line.
    pub fn push(&mut self, b: u8)
        ensures { self.new ≡ with_byte self.old b }
    {
        if self.spaced {
            if self.body.len() < BODY {
                let _ = self.body.push(b);
            }
        } else if b == b' ' {
            self.spaced = true;
        } else if self.word.len() < WORD {
            let _ = self.word.push(b);
        }
    }

    /// Begins the next line.
    pub fn clear(&mut self)
        ensures { self.new ≡ pending_of [] }
    {
        self.word.clear();
        self.spaced = false;
        self.body.clear();
    }

    /// Whether the line has no byte so far.
    pub fn is_empty(&self) -> bool
        ensures { result ≡ (not self.now.spaced && length self.now.word == 0) }
    {
        !self.spaced && self.word.is_empty()
    }

    /// Whether its body is not too long.
    pub fn fits(&self) -> bool
        ensures { result ≡ nat_le (length self.now.body) MAX_BODY_LEN }
    {
        self.body.len() <= MAX_BODY_LEN
    }

    /// The call that its word names.
    pub fn call(&self) -> Option<Call>
        ensures { result ≡ call_of self.now.word }
    {
        Call::of(self.word.as_slice())
    }

    pub fn body(&self) -> &[u8]
        ensures { result.now ≡ self.now.body }
    {
        self.body.as_slice()
    }
}
