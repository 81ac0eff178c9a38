//! How many rows of some kinds there are.

use records::Kind;

/// How many tokens, secrets and waiting responses there are.
#[derive(Clone, Copy, Debug, PartialEq, Eq)]
pub struct Numbers {
    pub tokens: u64,
    pub secrets: u64,
    /// Responses that wait for their wrapping tokens.
    pub responses: u64,
}

impl Numbers {
    /// Where there is no row.
    pub(crate) fn none() -> Numbers {
        Numbers {
            tokens: 0,
            secrets: 0,
            responses: 0,
        }
    }

    /// Counts a row of a kind.
    pub(crate) fn count(&mut self, kind: Kind) {
        let number = match kind {
            Kind::Token => &mut self.tokens,
            Kind::KvKey => &mut self.secrets,
            Kind::Waiting => &mut self.responses,
            _ => return,
        };
        *number = number.saturating_add(1);
    }
}
