//! The client of the API: requests sent, and replies read and shown (RFC 9110, RFC 9112).
#![tactic(auto)]

mod argument;
mod asking;
mod command;
mod escaping;
mod exchanging;
mod failure;
mod field;
mod json_values;
mod laws;
mod manner;
mod numbers;
mod refusal_text;
mod renewal;
mod reply;
mod reply_head;
mod replying;
mod requesting;
mod shown;
mod token_list;

pub use argument::{FieldText, ShortText};
pub use command::{Command, Request};
pub use exchanging::{Peer, answer_of, exchange, report, tell};
pub use failure::Failure;
pub use json_values::parsed;
pub use laws::written_replies_are_read;
pub use manner::Manner;
pub use numbers::number_of;
pub use renewal::{pause_before_renewal, seconds_left};
pub use reply::{Reply, ReplyError};
pub use replying::reply_of;
pub use requesting::request_of;
pub use token_list::{accessors_in, token_line};
