//! The command lines of the client: their words put in order and read, and which request each means.
#![tactic(auto)]

mod arguments;
mod arranging;
mod bodies;
mod body_words;
mod building;
mod examples;
mod floats;
mod laws;
mod line;
mod meaning;
mod mistake;
mod no_body;
mod no_command;
mod no_request;
mod objects;
mod parser;
mod policy_form;
mod policy_places;
mod settings;
mod subcommands;
mod task;
mod token_places;
mod values;

pub use arranging::arranged;
pub use body_words::{BodyWord, Origin, origin_of};
pub use examples::example_of;
pub use laws::order_is_kept;
pub use line::{Line, command_of, line_of, usage};
pub use meaning::look_up;
pub use mistake::Mistake;
pub use no_body::BodyMistake;
pub use no_command::NoCommand;
pub use policy_form::{FormMistake, policy_mistake};
pub use settings::Settings;
pub use task::Task;
pub use token_places::{TokenPlace, first_line, token_place};
