//! A worker: a machine that answers calls, and the routes by which they are told apart.
ghost use Rattle.std.specs.Prelude.{◌≡◌};
ghost use Rattle.http_api.specs.Routes.{table};

use crate::counted::Counted;
use crate::locked::Locked;
use crate::pool::{Leaves, Serves};
use crate::stream::serve_stream;
use crate::waiting::Patience;
use crate::waking::Waking;
use answers::{Answers, End};
use keeper::{KeeperName, Place};
use matchit::Router;
use names::Call;
use std::alloc::Global;
use std::net::TcpStream;
use std::sync::Wait;
use tables::Tables;

/// A machine that answers calls, with the routes.
#[derive(Drop)]
pub(crate) struct Worker<'a, A> {
    answers: A,
    routes: &'a Router<Call>,
    ghost routed: { routes.now ≡ table },
}

impl<'a, A> Worker<'a, A> {
    pub(crate) fn new(answers: A, routes: &'a Router<Call>) -> Worker<'a, A>
        requires { routes.now ≡ table }
        ensures { result.answers ≡ answers }
    {
        Worker { answers, routes }
    }
}

impl<'a, A: Answers> Serves for Worker<'a, A> {
    ghost use Rattle.server.specs.Attending.{Attended};

    ghost served = { λ s end t. Attended A.step s.answers end t.answers };

    fn serve<P: Patience>(&mut self, alloc: Global, stream: &TcpStream, patience: &P) -> End {
        serve_stream(alloc, self.routes, stream, patience, &mut self.answers)
    }
}

/// A worker's machine: its front, which is counted, and wakes the indexer.
pub(crate) type Machine<'a, T, J, H, R, G> = Counted<
    'a,
    Waking<'a, Locked<'a, T, J, H, R, G>, R>,
    G,
>;

impl<'a, T: Tables + Drop, J: KeeperName<T>, H: Wait + Drop, R: Wait, G> Leaves<Place<'a, J>>
    for Worker<'a, Machine<'a, T, J, H, R, G>> {
    ghost use Rattle.std.specs.Prelude.{◌≡◌};

    ghost left = { λ w place. place ≡ w.answers.answers.answers.hand };

    fn leave(self) -> Place<'a, J> {
        let Worker { answers, .. } = self;
        let Counted { answers, .. } = answers;
        answers.into_inner().leave()
    }
}
