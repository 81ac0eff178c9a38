//! What a store noticed of a request, beside its answer.

use broker_types::Moment;

/// What was noticed of the last request that was answered. None of it is in a row that the request wrote, and none of
/// it is the token.
#[derive(Clone, Copy, Debug, PartialEq, Eq)]
pub struct Noticed {
    /// The accessor of the caller's token, if there was a caller.
    pub accessor: Option<[u8; 36]>,
    /// The broker's clock.
    pub clock: Option<Moment>,
}

impl Noticed {
    /// Nothing.
    pub fn nothing() -> Noticed {
        Noticed {
            accessor: None,
            clock: None,
        }
    }
}
