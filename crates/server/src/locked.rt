//! A front that answers calls, whatever brings them.
ghost use Rattle.std.specs.Prelude.{◌≡◌};

use answers::Answers;
use keeper::{Front, KeeperName, Place, ToldOfBuilds};
use names::{Call, Reply};
use std::marker::Model;
use std::sync::Wait;
use std::thread::Threads;
use tables::Tables;

/// A front, with the handle that it waits by, and who is told of its builds. Contracts see it as the front.
#[derive(Drop)]
pub struct Locked<'k, T: Tables + Drop, J: KeeperName<T>, R: Wait + Drop, W: Wait, B> {
    rt: &'k W,
    builds: &'k B,
    front: Front<'k, T, J, R>,
}

impl<'k, T: Tables + Drop, J: KeeperName<T>, R: Wait + Drop, W: Wait, B> Model
    for Locked<'k, T, J, R, W, B> {
    ghost use Rattle.keeper.specs.Fronts.{FrontState};
    ghost use Rattle.keeper.specs.Coded.{coded_front};

    ghost Value = { FrontState };

    ghost coded = { coded_front };

    ghost view = { λ l. l.front };
}

impl<'k, T: Tables + Drop, J: KeeperName<T>, R: Wait + Drop, W: Wait, B> Locked<'k, T, J, R, W, B> {
    /// A front that waits by this handle.
    pub fn new(rt: &'k W, builds: &'k B, front: Front<'k, T, J, R>) -> Locked<'k, T, J, R, W, B>
        ensures { result ≡ front.entry }
    {
        Locked { rt, builds, front }
    }

    /// Gives the front's place back.
    pub fn leave(self) -> Place<'k, J>
        ensures { result ≡ self.entry.hand }
    {
        let Locked { front, .. } = self;
        front.leave()
    }
}

impl<
    'k,
    T: Tables + Drop,
    J: KeeperName<T>,
    R: Wait + Drop,
    W: Wait + Threads,
    B: ToldOfBuilds,
> Answers for Locked<'k, T, J, R, W, B> {
    ghost use Rattle.keeper.specs.Fronts.{FrontStep};

    ghost step = { λ s call body told t. FrontStep T.Tables J.book J.starts s call body told t };

    fn answer(&mut self, call: Call, body: &[u8]) -> Reply {
        self.front.answer(self.rt, self.builds, call, body)
    }
}
