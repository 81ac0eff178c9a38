//! Bytes that were pulled and wait to be taken.

ghost use Rattle.std.specs.Prelude.{◌≡◌, ◌≤◌, [], length, drop, position, OnOk, IfSome, IfNone, true};
ghost use Rattle.records.specs.Splits.{lacks, line_feed};
ghost use Rattle.transfer.specs.LineEnds.{IsCutAt, is_line_feed};

use std::alloc::{AllocError, Global};
use std::marker::Model;

/// Bytes that were pulled and wait to be taken, which contracts see as these.
#[derive(Drop)]
pub(crate) struct Pending {
    bytes: Vec<u8>,
    /// How many of the bytes were taken.
    start: usize,
}

impl Model for Pending {
    ghost use Rattle.std.specs.Prelude.{List, ℕ};
    ghost use Rattle.transfer.specs.Pendings.{bytes_in, IsWithin};

    ghost Value = { List ℕ };

    ghost view = { bytes_in };

    ghost invariant = { IsWithin };
}

impl Pending {
    /// No bytes. It takes no memory.
    pub(crate) fn new(alloc: Global) -> Pending
        ensures { result ≡ [] }
    {
        Pending {
            bytes: Vec::new(alloc),
            start: 0,
        }
    }

    /// The bytes.
    pub(crate) fn as_slice(&self) -> &[u8]
        ensures { result.now ≡ self.now }
    {
        &self.bytes[self.start..]
    }

    /// Takes the first bytes away.
    pub(crate) fn drop_front(&mut self, len: usize)
        requires { len ≤ length self.old }
        ensures { self.new ≡ drop len self.old }
    {
        self.start += len;
    }

    /// Other bytes in place of those that are there.
    pub(crate) fn replace(&mut self, bytes: &[u8]) -> Result<(), AllocError>
        ensures { OnOk result (self.new ≡ bytes.now) }
    {
        self.bytes.clear();
        self.start = 0;
        self.bytes.extend_from_slice(bytes)
    }
}

/// Where the first line ends, which is without its line feed.
pub(crate) fn line_end(bytes: &[u8]) -> Option<usize>
    ensures found { IfSome result (λ end. IsCutAt end bytes.now) }
    ensures none { IfNone result (lacks line_feed bytes.now ≡ true) }
{
    first_feed(bytes)
}

/// The place of the first line feed.
fn first_feed(bytes: &[u8]) -> Option<usize>
    ensures { result ≡ position is_line_feed bytes.now }
{
    bytes.iter().position(|byte| *byte == b'\n')
}
