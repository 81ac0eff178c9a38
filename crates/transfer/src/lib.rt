//! The rows of a broker as a file of lines of JSON, and back.
#![tactic(auto)]

mod counted;
mod exporting;
mod laws;
mod line_reader;
mod lines;
mod pending;
mod place;
mod reading;
mod refusal;
mod summed;
mod text;
mod walk;

pub use exporting::export;
pub use laws::files_have_one_meaning;
pub use lines::Lines;
pub use reading::read_rows;
pub use refusal::{Refusal, Why};
pub use summed::Summed;
