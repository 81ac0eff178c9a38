//! Whether a database is that of a sound broker.
#![tactic(auto)]

mod all;
mod checking;
mod counts;
mod defect;

pub use all::{AllFindings, Defects, check_all_file, check_all_records};
pub use checking::{Finding, check_file, check_from, check_records, defect_of};
pub use counts::Counts;
pub use defect::Defect;
