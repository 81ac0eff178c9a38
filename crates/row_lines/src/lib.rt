//! The rows of a broker as lines of JSON, and back.
#![tactic(auto)]

mod fields;
mod layout;
mod line;
mod member;
mod reading;
mod spelling;
mod word;

pub use line::{line_of, row_in};
pub use word::kind_word;
