//! A desk that answers calls, whatever brings them.
ghost use Rattle.std.specs.Prelude.{◌≡◌, IfOk, IfErr};
ghost use Rattle.published.specs.declared.publication.TheConstants.{MAX_SESSIONS};
ghost use Rattle.names.specs.declared.refusal.Refusal.TheVariants.{StoreFault};
ghost use Rattle.tables.specs.Device.{IsOpen};
ghost use Rattle.tables.specs.Opening.{CannotOpen};
ghost use Rattle.desk.specs.Posts.{Agrees, ComesBack, FailsToLoad, SameTables, ShowsMore};
ghost use Rattle.calls.specs.Beginning.{Began, kept_by};

use crate::answer::answer_on;
use answers::Answers;
use desk::Desk;
use names::{Call, Refusal, Reply};
use published::{Naming, Opened, Session};
use std::alloc::Global;
use std::marker::Model;
use std::sync::Wait;
use tables::Tables;

/// A desk and a session of it, which knows all that is shown, with what they allocate by. It answers the calls of
/// lines, and those of connections one after another. Contracts see it as the desk.
#[derive(Drop)]
pub struct Answering<T: Tables + Drop, J: Naming, H: Wait + Drop> {
    alloc: Global,
    desk: Desk<T, J, H>,
    session: Session<J>,
}

impl<T: Tables + Drop, J: Naming, H: Wait + Drop> Model for Answering<T, J, H> {
    ghost use Rattle.published.specs.Known.{Begins};
    ghost use Rattle.desk.specs.Posts.{Posts, shown_by};
    ghost use Rattle.desk.specs.inside.DeskCodes.{coded_posts};

    ghost Value = { Posts T };

    ghost coded = { coded_posts T.code };

    ghost view = { λ a. a.desk };

    ghost invariant = { λ a. Begins (shown_by a.desk) a.session };
}

impl<T: Tables + Drop, J: Naming, H: Wait + Drop> Answering<T, J, H> {
    /// A desk on the store that these tables keep, with its first session. Where it cannot be opened it gives the
    /// tables back: for want of memory, or where they failed or hold no history.
    pub fn open(
        alloc: Global,
        rt: H,
        opened: Opened,
        tables: T,
    ) -> Result<Answering<T, J, H>, (Refusal, T)>
        requires { opened.book ≡ J.book }
        ensures ok { IfOk result (λ answering. Began T.Tables tables answering) }
        ensures err { IfErr result (λ refused. CannotOpen refused.0) }
        ensures kept { IfErr result (λ refused. ComesBack T.Tables tables refused.1) }
        ensures caused { IfErr result (λ refused. refused.0 ≡ StoreFault
            → IsOpen (T.device tables) → FailsToLoad T.Tables tables refused.1) }
    {
        match Desk::open(alloc, rt, opened, tables) {
            Ok(desk) => Ok(Answering::of_desk(alloc, desk)),
            Err(refused) => Err(refused),
        }
    }

    // A desk of which no session was given out, with the first.
    fn of_desk(alloc: Global, desk: Desk<T, J, H>) -> Answering<T, J, H>
        requires { desk.seats ≡ MAX_SESSIONS }
        ensures more { ShowsMore desk result }
        ensures same { SameTables desk result }
    {
        let mut desk = desk;
        match desk.session() {
            Ok(session) => Answering {
                alloc,
                desk,
                session,
            },
            Err(_) => unreachable!(),
        }
    }

    /// Gives the tables back.
    pub fn close(self) -> T
        ensures same { result ≡ self.tables }
        ensures agrees { Agrees T.Tables self.failed result (kept_by self) }
    {
        self.desk.close()
    }
}

impl<T: Tables + Drop, J: Naming, H: Wait + Drop> Answers for Answering<T, J, H> {
    ghost use Rattle.calls.specs.Rules.{DeskStep};

    ghost step = { λ s call body told t. DeskStep T.Tables s call body told t };

    fn answer(&mut self, call: Call, body: &[u8]) -> Reply {
        answer_on(self.alloc, &mut self.desk, &mut self.session, call, body)
    }
}
