//! Connections of sockets: many that are served at once in one thread, with the moments of the system's clock and
//! random words. Over which store is the caller's choice.
#![tactic(auto)]

mod accepting;
mod database_files;
mod drawn;
mod ends;
mod hiding;
mod links;
mod listening;
mod log;
mod log_file;
mod log_line;
mod notes;
mod noting;
mod operator;
mod operators;
mod peer;
mod peers;
mod places;
mod pulling;
mod replying;
mod service;
mod serving;
mod settings;
mod sockets;
mod starting;
mod store_serving;
mod system_clock;
mod tally;
mod telling;
mod time_text;
mod waiting;
mod watched;

pub use accepting::LISTENER;
pub use database_files::DatabaseFiles;
pub use drawn::{DrawnWords, seeded};
pub use ends::{Arrival, Listener, Reader, Writer};
pub use listening::{Listening, ListeningSockets};
pub use log::{Log, begin_log, shared};
pub use service::Service;
pub use serving::serve;
pub use settings::{LogFormat, Settings};
pub use store_serving::serve_store;
pub use system_clock::SystemClock;
pub use telling::tell;
pub use watched::{Watched, begin_status};
