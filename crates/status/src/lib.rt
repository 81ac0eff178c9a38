//! What operators see of a server: the numbers that it keeps, and the texts and replies that are made of them.
#![tactic(auto)]

mod counters;
mod durations;
mod families;
mod family;
mod figures;
mod health;
mod html;
mod label;
mod laws;
mod lines;
mod member;
mod metrics;
mod names;
mod numbers;
mod object;
mod page;
mod printing;
mod replying;
mod samples;
mod target;
mod timings;

pub use counters::{Closing, Counters, Kind};
pub use figures::{AtStart, Figures, State, Storage, Timed};
pub use health::health_text;
pub use laws::counter_laws;
pub use metrics::metrics_text;
pub use page::page_text;
pub use replying::reply;
