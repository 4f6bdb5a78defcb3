//! HTTP/1.1 over one connection: requests are read, each call is answered by a machine, and the replies are written.
//!
//! `specs/Connection.antt` has the text of a connection, case by case, and `specs/Talks.antt` how far that came.
#![tactic(auto)]

mod connection;
mod ending;
mod framing;
mod head;
mod inbox;
mod law;
mod length;
mod limits;
mod looking;
mod receive;
mod reply;
mod routing;
mod settle;

pub use connection::{serve, serve_by};
pub use law::{no_refused_body_is_read, the_input_decides_the_text};
pub use routing::routes;
