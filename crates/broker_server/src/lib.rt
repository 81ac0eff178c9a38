//! The broker of a database behind a socket: made ready, checked if it is to be, and served.
#![tactic(auto)]

mod files;
mod opening;
mod preparing;
mod serve_error;
mod starting;
mod telling;

pub use files::{Reports, Serving, open_ready, serve_from};
pub use preparing::prepare_checked;
pub use serve_error::ServeError;
pub use starting::{serve_file, serve_in_memory};
