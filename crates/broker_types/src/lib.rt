//! Values of the broker, and the definitions that every crate above uses.
#![tactic(auto)]

mod answer;
mod ask;
mod duration;
mod fault;
mod identifier;
mod laws;
mod moment;
mod name;
mod path;
mod refusal;
mod reply;
mod request_error;
mod seconds;
mod status;
mod text;
mod time;
mod token;
mod words;

pub use answer::{Answer, Room, errors_body};
pub use ask::{Ask, BodyBytes, Verb, WrapTtl};
pub use duration::read_duration;
pub use fault::Fault;
pub use identifier::{id_bytes, id_text, identifiers_differ};
pub use laws::{
    dropping_takes_out, evolving_lasts, expiry_ends_descendants, first_broker_is_sound,
    lineages_climb, removals_end_tokens, removals_evolve, removals_keep_soundness,
    revocation_ends_descendants, revocation_orphans_children, spending_keeps_soundness,
};
pub use moment::Moment;
pub use name::{is_name, is_reserved};
pub use path::Path;
pub use refusal::{Denial, Field, Reason, Refusal, cutting_text};
pub use reply::Reply;
pub use request_error::RequestError;
pub use seconds::Seconds;
pub use status::{Methods, Status};
pub use text::{Bytes, CowBytes, CowText, TextBuf, is_among, is_same};
pub use time::time_text;
pub use token::{Accessor, TokenText};
pub use words::Words;
