//! Lines put together in a room of fixed size, which takes no memory.

ghost use Rattle.std.specs.Prelude.{◌≡◌, ◌+◌, ◌≤◌, [], ◌++◌, length};

use std::marker::Model;

/// The head of a reply while it is being written, of at most 512 bytes. Contracts see the list of its
/// bytes.
#[derive(Drop)]
pub(crate) struct Lines {
    bytes: [u8; 512],
    len: usize,
}

impl Model for Lines {
    ghost use Rattle.std.specs.Prelude.{ℕ, ◌≤◌, List, take};

    ghost Value = { List ℕ };

    ghost view = { λ l. take l.len l.bytes };

    ghost invariant = { λ l. l.len ≤ 512 };
}

impl Lines {
    pub(crate) fn new() -> Lines
        ensures { result ≡ [] }
    {
        Lines {
            bytes: [0; 512],
            len: 0,
        }
    }

    /// Adds a text at the end. It must fit.
    pub(crate) fn add(&mut self, text: &[u8])
        requires { length self.old + length text.now ≤ 512 }
        ensures { self.new ≡ self.old ++ text.now }
    {
        let end = self.len + text.len();
        self.bytes[self.len..end].copy_from_slice(text);
        self.len = end;
    }

    pub(crate) fn as_slice(&self) -> &[u8]
        ensures { result.now ≡ self.now }
    {
        &self.bytes[..self.len]
    }
}
