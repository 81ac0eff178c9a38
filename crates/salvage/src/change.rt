//! What was changed of rows.

use broker_types::{Moment, TextBuf};
use database_check::Defect;
use records::Kind;
use std::fmt;

/// What was changed of rows to make them those of a sound broker.
#[derive(Drop)]
pub enum Change {
    /// A row was left out.
    LeftOut {
        /// Its kind.
        kind: Kind,
        /// Its key, which may be a secret.
        key: TextBuf,
        /// What was wrong with it, told without a secret.
        defect: Defect,
    },
    /// An identifier that a row has was marked as given out.
    Marked {
        /// The identifier.
        identifier: TextBuf,
        /// What was wrong with the row, told without a secret.
        defect: Defect,
    },
    /// The clock, which had no row, was set to this moment.
    ClockSet(Moment),
}

impl fmt::Display for Change {
    fn fmt<W: fmt::Write>(&self, f: &mut fmt::Formatter<W>) -> fmt::Result {
        match self {
            Change::LeftOut {
                kind: _,
                key: _,
                defect,
            } => write!(f, "left out: {defect}"),
            Change::Marked {
                identifier: _,
                defect,
            } => write!(f, "marked as given out: {defect}"),
            Change::ClockSet(moment) => {
                let seconds = moment.seconds();
                write!(f, "the clock was set to {seconds}")
            }
        }
    }
}
