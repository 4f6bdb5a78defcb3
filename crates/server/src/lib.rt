//! Connections over TCP, served by many workers: an acceptor puts them into a queue, and each worker takes one after
//! another and answers its calls by a machine of its own. Beside them the indexer follows what they change.
//!
//! What a connection says is `http_api`'s, what a call is answered is `keeper`'s. No proof says of threads that they get on.
#![tactic(auto)]

mod counted;
mod gate;
mod indexer;
mod law;
mod locked;
mod peer;
mod pool;
mod serving;
mod stream;
mod turn;
mod waited;
mod waiting;
mod waking;
mod worker;

pub use gate::Gate;
pub use law::connections_never_go_back;
pub use peer::Peer;
pub use serving::run;
pub use stream::{Sides, serve_sides, serve_stream, sides_of, take_leave};
pub use turn::{TURN_COMMITS, Turn, take_turn};
pub use waiting::{Arrivals, Patience};
