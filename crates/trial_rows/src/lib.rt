//! What tests do with the rows of a broker: a transaction over them that fails, and all of them, to be compared.
#![tactic(auto)]

mod failing_tx;
mod rows;

pub use failing_tx::FailingTx;
pub use rows::Rows;
