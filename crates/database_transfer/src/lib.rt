//! The rows of a database written as a file of lines of JSON, and a database made of such a file.
#![tactic(auto)]

mod databases;
mod draft;
mod failure;
mod files;
mod importing;
mod telling;

pub use databases::{export_records, import_records};
pub use failure::{Failure, Why};
pub use files::{Imported, export_file, import_file};
pub use importing::{How, Outcome, import};
