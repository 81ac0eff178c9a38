//! Why a file is refused.

use std::fmt;

/// What is wrong with a line.
#[derive(Clone, Copy, Debug, PartialEq, Eq)]
pub enum Why {
    /// It is not the first line of a file in this format.
    Head,
    /// It is that of no row.
    NoRow,
    /// Its row is not after the one before it, by kind and key.
    Order,
    /// There are fewer rows than the first line says.
    Fewer,
    /// There are more.
    More,
    /// It does not have the SHA-256 of the lines before it.
    Sum,
    /// The file ends before it, or in it.
    CutShort,
    /// Something follows the last line.
    After,
    /// It has more than 67,108,864 bytes.
    TooLong,
    /// It could not be read.
    Unread,
}

/// Which line keeps a file from being read, and why.
#[derive(Clone, Copy, Debug, PartialEq, Eq)]
pub struct Refusal {
    /// The number of the line, counted from 1.
    pub line: u64,
    /// What is wrong with it.
    pub why: Why,
}

impl fmt::Display for Refusal {
    /// In a person's words, without anything of the line.
    fn fmt<W: fmt::Write>(&self, f: &mut fmt::Formatter<W>) -> fmt::Result {
        write!(f, "line {}: ", self.line)?;
        f.write_str(match self.why {
            Why::Head => "it does not begin a file of rows in format 1",
            Why::NoRow => "it is that of no row",
            Why::Order => "its row is there before, or belongs before the one above it",
            Why::Fewer => "there are fewer rows than the first line says",
            Why::More => "there are more rows than the first line says",
            Why::Sum => "the lines above it were changed: it does not have their SHA-256",
            Why::CutShort => "the file ends too early",
            Why::After => "there is more after the last line",
            Why::TooLong => "it is longer than any row",
            Why::Unread => "it could not be read",
        })
    }
}
