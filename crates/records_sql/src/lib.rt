//! Rows by kind and key in a table of a database, in transactions; and rows that were read, remembered from one
//! transaction to the next.
#![tactic(auto)]

mod cause;
mod commits;
mod failure;
mod numbers;
mod opening;
mod reading;
mod remembered;
mod row_memory;
mod schema;
mod sql_records;
mod statements;
mod tx;

pub use cause::{Cause, CausedFault};
pub use commits::Commits;
pub use failure::LastCause;
pub use numbers::Numbers;
pub use row_memory::RowMemory;
pub use sql_records::SqlRecords;
pub use tx::SqlTx;
