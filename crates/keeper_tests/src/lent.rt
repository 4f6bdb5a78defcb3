//! A desk that its one caller holds.
ghost use Rattle.std.specs.Prelude.{◌≡◌, IfOk};
ghost use Rattle.published.specs.Known.{Begins};
ghost use Rattle.desk.specs.Posts.{shown_by};

use answers::Answers;
use calls::answer_on;
use desk::Desk;
use names::{Call, Reply};
use published::{Naming, Opened, Session};
use std::alloc::Global;
use std::marker::Model;
use std::process::Abort;
use std::sync::Wait;
use tables::Tables;

/// A desk, and a session of it.
#[derive(Drop)]
pub struct Lent<T: Tables + Drop, J: Naming, H: Wait + Drop> {
    alloc: Global,
    desk: Desk<T, J, H>,
    session: Session<J>,
}

impl<T: Tables + Drop, J: Naming, H: Wait + Drop> Model for Lent<T, J, H> {
    ghost use Rattle.published.specs.Known.{Begins, Known};
    ghost use Rattle.published.specs.inside.Codes.{coded_known};
    ghost use Rattle.desk.specs.Posts.{shown_by};

    ghost Value = { Known };

    ghost coded = { coded_known };

    ghost view = { λ l. l.session };

    ghost invariant = { λ l. Begins (shown_by l.desk) l.session };
}

impl<T: Tables + Drop, J: Naming, H: Wait + Drop> Answers for Lent<T, J, H> {
    ghost use Rattle.std.specs.Prelude.{⊤};

    ghost step = { λ s call body told t. ⊤ };

    fn answer(&mut self, call: Call, body: &[u8]) -> Reply {
        answer_on(self.alloc, &mut self.desk, &mut self.session, call, body)
    }
}

/// A desk over a new store, with a session.
pub(crate) fn open<A: Abort, T: Tables + Drop, J: Naming, H: Wait + Drop>(
    rt: &A,
    handle: H,
    alloc: Global,
    opened: Opened,
    tables: T,
) -> Lent<T, J, H>
    requires { opened.book ≡ J.book }
{
    let Ok(mut desk) = Desk::open(alloc, handle, opened, tables) else {
        panic!(rt; "no desk");
    };
    let session = desk.session().expect(rt, "a session");
    Lent {
        alloc,
        desk,
        session,
    }
}
