//! Where a row stands, as it is noted for its identifier.

use broker_types::TextBuf;
use records::Kind;
use std::marker::Model;

/// The kind and the key of a row, which contracts see as the pair of these.
#[derive(Drop)]
pub(crate) struct Place {
    /// The kind of the row.
    pub(crate) kind: Kind,
    /// Its key.
    pub(crate) key: TextBuf,
}

impl Model for Place {
    ghost use Rattle.records.specs.Kind.{RowKey};

    ghost Value = { RowKey };

    ghost view = { λ p. (p.kind, p.key) };
}
