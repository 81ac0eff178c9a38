//! The connections of the broker: pieces of bytes come in, at most one request is answered for each.
#![tactic(auto)]

mod buffer;
mod connection;
mod entry;
mod event;
mod front;
mod hub;
mod laws;
mod link;
mod running;
mod serve;
mod table;
mod turn;

pub use event::Event;
pub use hub::Hub;
pub use laws::{asking_laws, run_laws};
pub use link::Link;
pub use running::run;
pub use serve::{Clock, ConnectionFault, WordSource, serve_connection};
pub use turn::{Turn, take_turn};
