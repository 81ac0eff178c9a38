//! Failures of an exchange, each with the line that tells it.

ghost use Rattle.std.specs.Prelude.{◌≡◌};
ghost use Rattle.api_client.specs.Exchanges.{failure_line};

/// Why no reply is printed.
#[derive(Clone, Copy, Debug, PartialEq, Eq)]
pub enum Failure {
    /// Memory ran out.
    Memory,
    /// The server cannot be reached.
    Unreached,
    /// A write failed.
    Unwritten,
    /// The server sent no reply within the limits.
    BadReply,
}

impl Failure {
    /// The line that tells it.
    pub fn line(self) -> &'static str
        ensures { result.now ≡ failure_line self }
    {
        match self {
            Failure::Memory => "fault 1\n",
            Failure::Unreached => "fault 5\n",
            Failure::Unwritten => "fault 6\n",
            Failure::BadReply => "bad reply\n",
        }
    }
}
