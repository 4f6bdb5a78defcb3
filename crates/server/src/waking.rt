//! Answers that wake whoever follows what they change.
ghost use Rattle.std.specs.Prelude.{◌≡◌};
ghost use Rattle.names.specs.Calls.{told};

use answers::Answers;
use calls::is_change;
use crossbeam_channel::Sender;
use names::{Call, Reply};
use std::sync::Wait;

/// Answers as another machine does, and after each call that is a change sends a word. Where one is on its way already, or
/// nobody is there any more to take it, it is dropped.
#[derive(Drop)]
pub struct Waking<'a, A, R> {
    answers: A,
    rt: &'a R,
    wakes: Sender<()>,
}

impl<'a, A, R> Waking<'a, A, R> {
    /// Answers that wake through this channel.
    pub fn new(answers: A, rt: &'a R, wakes: Sender<()>) -> Waking<'a, A, R>
        ensures { result.answers ≡ answers }
    {
        Waking { answers, rt, wakes }
    }

    /// Gives back what answers, and wakes nobody more.
    pub fn into_inner(self) -> A
        ensures { result ≡ self.entry.answers }
    {
        let Waking { answers, .. } = self;
        answers
    }
}

impl<'a, A: Answers, R: Wait> Answers for Waking<'a, A, R> {
    ghost step = { λ s call body told t. A.step s.answers call body told t.answers };

    fn answer(&mut self, call: Call, body: &[u8]) -> Reply
        ensures { A.step self.old.answers call body.now (told result) self.new.answers }
    {
        let reply = self.answers.answer(call, body);
        if is_change(call) {
            let _ = self.wakes.try_send(self.rt, ());
        }
        reply
    }
}
