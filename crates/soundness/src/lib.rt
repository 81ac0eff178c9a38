//! Whether the rows of a transaction are those of a sound broker.
#![tactic(auto)]

mod chains;
mod checking;
mod credentials;
mod laws;
mod lookups;
mod noting;
mod place;
mod responses;
mod secrets;
mod settings;
mod texts;
mod tokens;
mod trouble;
mod visiting;

pub use checking::{check, check_all};
pub use laws::{
    broken_rows_are_of_no_broker, rows_of_a_broker_are_sound, sound_rows_are_of_a_broker,
};
pub use trouble::{Rule, Trouble};
