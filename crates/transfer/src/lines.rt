//! The lines of a file of rows: the first, those of rows, and the last.

ghost use Rattle.std.specs.Prelude.{◌≡◌, ℕ, List, IfOk, IfSome, Some};
ghost use Rattle.row_lines.specs.Lines.{row_in};
ghost use Rattle.transfer.specs.Files.{fed, head};
ghost use Rattle.transfer.specs.Reading.{IsHeadRead, IsRowRead, IsSummed, IsTailRead, left_in};

use crate::line_reader::LineReader;
use crate::refusal::{Refusal, Why};
use crate::text;
use broker_types::is_same;
use endpoints::Source;
use records::Entry;
use row_lines::row_in;
use sha2::{Digest, Sha256};
use std::alloc::{AllocError, Global};

/// A source that is read as a file of rows, and the SHA-256 of the lines that were taken.
#[derive(Drop)]
pub struct Lines<R: Source + Drop> {
    reader: LineReader<R>,
    hasher: Sha256,
    /// How many lines were asked for.
    number: u64,
}

impl<R: Source + Drop> Lines<R> {
    /// The lines that a source has left.
    pub fn new(alloc: Global, source: R) -> Lines<R>
        ensures { left_in R.left result ≡ R.left source }
    {
        Lines {
            reader: LineReader::new(alloc, source),
            hasher: Sha256::new(),
            number: 0,
        }
    }

    /// The refusal of the line that was asked for last.
    pub(crate) fn refusal(&self, why: Why) -> Refusal {
        Refusal {
            line: self.number,
            why,
        }
    }

    /// How many rows the first line says there are.
    pub(crate) fn read_head(&mut self, alloc: Global) -> Result<Result<u64, Why>, AllocError>
        ensures { IfOk result (IsHeadRead R.left self.old self.new) }
    {
        self.number = self.number.saturating_add(1);
        let line = match self.reader.next_line(alloc)? {
            Ok(line) => line,
            Err(why) => return Ok(Err(why)),
        };
        match head_count(alloc, line.as_slice())? {
            Some(count) => {
                self.hasher = Sha256::new();
                self.sum(line.as_slice());
                Ok(Ok(count))
            }
            None => Ok(Err(Why::Head)),
        }
    }

    /// The row of the next line.
    pub(crate) fn read_row(&mut self, alloc: Global) -> Result<Result<Entry, Why>, AllocError>
        ensures { IfOk result (IsRowRead R.left self.old self.new) }
    {
        self.number = self.number.saturating_add(1);
        let line = match self.reader.next_line(alloc)? {
            Ok(line) => line,
            Err(why) => return Ok(Err(why)),
        };
        match row_of(alloc, line.as_slice())? {
            Some(entry) => {
                self.sum(line.as_slice());
                Ok(Ok(entry))
            }
            None => Ok(Err(no_row(line.as_slice()))),
        }
    }

    /// Nothing if the next line is the last, and the source ends behind it.
    pub(crate) fn read_tail(&mut self, alloc: Global) -> Result<Option<Why>, AllocError>
        ensures { IfOk result (IsTailRead R.left self.old) }
    {
        self.number = self.number.saturating_add(1);
        let line = match self.reader.next_line(alloc)? {
            Ok(line) => line,
            Err(why) => return Ok(Some(why)),
        };
        let tail = text::tail(alloc, &self.hasher)?;
        if line.as_slice() != tail.as_str().as_bytes() {
            return Ok(Some(no_tail(line.as_slice())));
        }
        self.reader.end()
    }

    /// Sums a line with its line feed.
    fn sum(&mut self, line: &[u8])
        ensures reader { self.new.reader ≡ self.old.reader }
        ensures summed { IsSummed self.old.hasher self.new.hasher (fed line.now) }
    {
        self.hasher.update(line);
        self.hasher.update(b"\n");
    }
}

/// What the line of a digest begins with.
const SUM: &[u8] = b"{\"sha256\":";

/// Why a line is that of no row.
fn no_row(line: &[u8]) -> Why {
    if line.starts_with(SUM) {
        Why::Fewer
    } else {
        Why::NoRow
    }
}

/// Why a line is not the last.
fn no_tail(line: &[u8]) -> Why {
    if line.starts_with(SUM) {
        Why::Sum
    } else {
        Why::More
    }
}

/// The row of a line.
fn row_of(alloc: Global, line: &[u8]) -> Result<Option<Entry>, AllocError>
    ensures { IfOk result (λ row. IfSome row (λ entry. row_in line.now ≡ Some entry)) }
{
    match str::from_utf8(line) {
        Ok(text) => row_in(alloc, text),
        Err(_) => Ok(None),
    }
}

/// How many rows a first line says there are.
fn head_count(alloc: Global, line: &[u8]) -> Result<Option<u64>, AllocError>
    ensures { IfOk result (λ count. IfSome count (λ n. (version : List ℕ) × (line.now ≡ head version n))) }
{
    let Ok(text) = str::from_utf8(line) else {
        return Ok(None);
    };
    let Some((count, version)) = head_parts(text) else {
        return Ok(None);
    };
    let expected = text::head(alloc, version, count)?;
    if is_same(expected.as_str(), text) {
        Ok(Some(count))
    } else {
        Ok(None)
    }
}

/// The count and the version of a first line, which may be none of these.
fn head_parts(text: &str) -> Option<(u64, &str)> {
    let rest = text.strip_prefix("{\"format\":1,\"rows\":")?;
    let (count, rest) = rest.split_once(',')?;
    let version = rest.strip_prefix("\"version\":\"")?.strip_suffix("\"}")?;
    Some((count.parse::<u64>().ok()?, version))
}
