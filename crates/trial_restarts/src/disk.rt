//! The two files of a database in memory, which stop, with a trace of what is done to them, and what crashes leave.

pub(crate) mod images;
pub(crate) mod lent;
pub(crate) mod pair;
pub(crate) mod trace;
