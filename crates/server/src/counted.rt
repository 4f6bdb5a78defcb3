//! Answers, each under a number.
ghost use Rattle.names.specs.Calls.{told};

use crate::gate::Gate;
use answers::Answers;
use names::{Call, Reply};
use std::sync::atomic::{AtomicU64, Ordering};

/// Answers as another machine does, and tells a gate of each call by its number: 1, 2, .. in the order in which those that
/// share `calls` draw them. After 2^64 - 1 comes 0.
#[derive(Drop)]
pub struct Counted<'a, A, G> {
    pub answers: A,
    pub calls: &'a AtomicU64,
    pub gate: &'a G,
}

impl<'a, A: Answers, G: Gate> Answers for Counted<'a, A, G> {
    ghost step = { λ s call body told t. A.step s.answers call body told t.answers };

    fn answer(&mut self, call: Call, body: &[u8]) -> Reply
        ensures { A.step self.old.answers call body.now (told result) self.new.answers }
    {
        let number = self.calls.fetch_add(1, Ordering::SeqCst).wrapping_add(1);
        self.gate.enter(number);
        let reply = self.answers.answer(call, body);
        self.gate.leave(number);
        reply
    }
}
