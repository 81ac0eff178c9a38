//! What is left to be sent on a connection that takes its reply in parts.

ghost use Rattle.std.specs.Prelude.{◌≤◌, length};

use std::alloc::Global;

/// The number of a connection, and the reply that is being sent with how much of it was.
#[derive(Drop)]
pub struct Link {
    alloc: Global,
    conn: u64,
    reply: Vec<u8>,
    sent: usize,
    ghost bound: { sent ≤ length reply.items },
}

impl Link {
    ghost use Rattle.std.specs.Prelude.{◌≡◌, [], drop, false};
    ghost use Rattle.hub.specs.Links.{number_of, unsent};

    /// A connection to which nothing is to be sent. It takes no memory.
    pub fn new(alloc: Global, conn: u64) -> Link
        ensures number { number_of result ≡ conn }
        ensures nothing { unsent result ≡ [] }
    {
        Link {
            alloc,
            conn,
            reply: Vec::new(alloc),
            sent: 0,
        }
    }

    /// The number of the connection.
    pub fn conn(&self) -> u64
        ensures { result ≡ number_of self.now }
    {
        self.conn
    }

    /// The bytes of the reply that were not sent.
    pub fn unsent(&self) -> &[u8]
        ensures { result.now ≡ unsent self.now }
    {
        &self.reply[self.sent..]
    }

    /// Whether there are any.
    pub fn is_sending(&self) -> bool
        ensures none { result ≡ false → unsent self.now ≡ [] }
        ensures some { unsent self.now ≡ [] → result ≡ false }
    {
        self.sent < self.reply.len()
    }

    /// So many more were sent. A reply that was sent whole is dropped: an idle connection keeps none.
    pub(crate) fn advance(&mut self, count: usize)
        requires { count ≤ length (unsent self.old) }
        ensures same { number_of self.new ≡ number_of self.old }
        ensures rest { unsent self.new ≡ drop count (unsent self.old) }
    {
        self.sent += count;
        if !self.is_sending() {
            self.set_reply(Vec::new(self.alloc));
        }
    }

    /// The next reply, in place of the last, of which all was sent.
    pub(crate) fn set_reply(&mut self, reply: Vec<u8>)
        ensures same { number_of self.new ≡ number_of self.old }
        ensures reply { unsent self.new ≡ reply.items }
    {
        self.sent = 0;
        self.reply = reply;
    }
}
