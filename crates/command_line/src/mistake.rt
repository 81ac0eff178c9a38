//! What is refused of a command line that `clap` takes, with the texts for the user.

use crate::no_body::BodyMistake;

/// Why an argument of the command line is not taken.
#[derive(Clone, Copy, Debug, PartialEq, Eq)]
pub enum Mistake {
    Address,
    Token,
    WrapTtl,
    Path,
    Body,
    WrappingToken,
    /// No request was named.
    Request,
    /// A path of a secret that is a mount alone.
    Secret,
    /// A text that is too long.
    Long,
    /// What should be a number.
    Number,
    /// What should be seconds.
    Seconds,
    /// The words of a body.
    Words(BodyMistake),
}

impl Mistake {
    /// What the user is told.
    pub fn text(self) -> &'static str {
        match self {
            Mistake::Address => "the value of --addr is not 1 to 1,024 visible ASCII characters",
            Mistake::Token => "the value of --token is not 1 to 1,024 visible ASCII characters",
            Mistake::WrapTtl => {
                "the value of --wrap-ttl is not 1 to 1,024 visible ASCII characters"
            }
            Mistake::Path => {
                "PATH is not 1 to 512 bytes without control characters, with no segment that is empty, . or .."
            }
            Mistake::Body => "BODY is longer than 1,048,576 bytes",
            Mistake::WrappingToken => "TOKEN is longer than 1,024 bytes",
            Mistake::Request => "no request was named",
            Mistake::Secret => "PATH is a mount and a path below it, such as secret/app",
            Mistake::Long => {
                "the value of --field or --token-file is longer than 1,024 bytes: --field password, --token-file token"
            }
            Mistake::Number => {
                "the value of --version, --cas or --use-limit is a whole number below 2^64, such as 3"
            }
            Mistake::Seconds => {
                "the value of --wait or --timeout is 1 to 86,400 seconds, such as 30"
            }
            Mistake::Words(mistake) => mistake.text(),
        }
    }
}
