//! The lines of a source, one after another.

ghost use Rattle.std.specs.Prelude.{◌≡◌, ◌≤◌, ◌++◌, [], ℕ, List, length, take, drop, IfOk, OnOk};
ghost use Rattle.transfer.specs.LineReads.{IsAtItsEnd, IsFilled, IsNext, left_of};

use crate::pending::{Pending, line_end};
use crate::refusal::Why;
use endpoints::{Failed, Source};
use std::alloc::{AllocError, Global};

/// How many bytes a line has at most, without its line feed. The longest that a broker writes has the body of a request
/// in hexadecimal digits or with each byte escaped.
const LONGEST: usize = 67_108_864;

/// How many bytes are pulled at once.
const PIECE: usize = 8_192;

/// A source that is read line by line.
#[derive(Drop)]
pub(crate) struct LineReader<R: Source + Drop> {
    source: R,
    pending: Pending,
}

impl<R: Source + Drop> LineReader<R> {
    /// The lines that a source has left.
    pub(crate) fn new(alloc: Global, source: R) -> LineReader<R>
        ensures { left_of R.left result ≡ R.left source }
    {
        LineReader {
            source,
            pending: Pending::new(alloc),
        }
    }

    /// The next line, without its line feed.
    pub(crate) fn next_line(&mut self, alloc: Global) -> Result<Result<Vec<u8>, Why>, AllocError>
        ensures { IfOk result (IsNext (left_of R.left self.old) (left_of R.left self.new)) }
    {
        let mut line = Vec::new(alloc);
        for _ in 0..u64::MAX {
            if let Some(end) = line_end(self.pending.as_slice()) {
                self.take(&mut line, end)?;
                self.pending.drop_front(1);
                return Ok(Ok(line));
            }
            let len = self.pending.as_slice().len();
            self.take(&mut line, len)?;
            if line.len() > LONGEST {
                return Ok(Err(Why::TooLong));
            }
            match self.fill()? {
                Ok(true) => {}
                Ok(false) => return Ok(Err(Why::CutShort)),
                Err(Failed) => return Ok(Err(Why::Unread)),
            }
        }
        Ok(Err(Why::TooLong))
    }

    /// Nothing if no byte is left.
    pub(crate) fn end(&mut self) -> Result<Option<Why>, AllocError>
        ensures { IfOk result (IsAtItsEnd (left_of R.left self.old)) }
    {
        if !self.pending.as_slice().is_empty() {
            return Ok(Some(Why::After));
        }
        match self.fill()? {
            Ok(false) => Ok(None),
            Ok(true) => Ok(Some(Why::After)),
            Err(Failed) => Ok(Some(Why::Unread)),
        }
    }

    /// Moves the first of the bytes that wait to the end of a line.
    fn take(&mut self, line: &mut Vec<u8>, len: usize) -> Result<(), AllocError>
        requires { len ≤ length self.old.pending }
        ensures line { OnOk result (line.new.items ≡ line.old.items ++ take len self.old.pending) }
        ensures rest { OnOk result (self.new.pending ≡ drop len self.old.pending) }
        ensures same { OnOk result (self.new.source ≡ self.old.source) }
    {
        line.extend_from_slice(&self.pending.as_slice()[..len])?;
        self.pending.drop_front(len);
        Ok(())
    }

    /// Pulls bytes, where none wait; false if the source has no more.
    fn fill(&mut self) -> Result<Result<bool, Failed>, AllocError>
        requires { self.old.pending ≡ [] }
        ensures { IfOk result (IsFilled (left_of R.left self.old) (left_of R.left self.new)) }
    {
        let mut buffer = [0u8; PIECE];
        match self.source.pull(&mut buffer) {
            Ok(count) => {
                self.pending.replace(&buffer[..count])?;
                Ok(Ok(count > 0))
            }
            Err(Failed) => Ok(Err(Failed)),
        }
    }
}
