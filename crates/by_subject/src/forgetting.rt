//! Tuples that no retained revision has any more.
ghost use Rattle.std.specs.Prelude.{◌≡◌, true, false};
ghost use Rattle.names.specs.Order.{is_same_tuple};
ghost use Rattle.names.specs.declared.tuple.Tuple.{Tuple};
ghost use Rattle.meaning.specs.TupleSet as set;
ghost use Rattle.rows.specs.Retained.{IsRetained, after_trim};
ghost use Rattle.by_subject.specs.Turned.{turned};
ghost use Rattle.by_subject.specs.Complete.{IsCompleteFor};
ghost use Rattle.by_subject.specs.inside.Putting.{KeepsOf};

use crate::by_subject::BySubject;
use crate::turning::turned;
use names::{EventKind, Tuple};
use rows::Rows;
use tuple_keys::{KeptCommit, KeptEvent, Scratch};

impl BySubject {
    /// Forgets what no revision from one on has, before that becomes the floor of the history. It takes no memory.
    pub fn forget_below(&mut self, rows: &Rows, floor: u64)
        requires { IsRetained rows.now floor }
        ensures { IsCompleteFor rows.now self.old → IsCompleteFor (after_trim rows.now floor) self.new }
    {
        let commits = rows.commits(rows.floor(), floor);
        for i in 0..commits.len() {
            self.forget_commit(rows, floor, &commits[i]);
        }
    }

    fn forget_commit(&mut self, rows: &Rows, floor: u64, commit: &KeptCommit)
        requires { IsRetained rows.now floor }
        ensures { KeepsOf (after_trim rows.now floor) self.old self.new }
    {
        if let Some(events) = commit.events() {
            for i in 0..events.len() {
                self.forget_event(rows, floor, &events.event(i));
            }
        }
    }

    /// Forgets the event's tuple, where it deletes that, and no revision from one on has it.
    fn forget_event(&mut self, rows: &Rows, floor: u64, event: &KeptEvent<'_>)
        requires { IsRetained rows.now floor }
        ensures { KeepsOf (after_trim rows.now floor) self.old self.new }
    {
        if let EventKind::Del = event.kind() {
            let tuple = event.tuple_ref().tuple();
            if rows.is_unchanged(&tuple, floor) && !rows.at(floor).contains(&tuple) {
                self.forget(&tuple);
            }
        }
    }

    fn forget(&mut self, tuple: &Tuple)
        ensures { (t : Tuple) → is_same_tuple t tuple.now ≡ false → set.contains self.old (turned t) ≡ true → set.contains self.new (turned t) ≡ true }
    {
        let scratch = Scratch::of(&turned(tuple));
        self.take_out(&scratch.tuple_ref());
    }
}
