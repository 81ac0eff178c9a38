//! All rows that a transaction shows, to be compared with those of another.

use broker_types::Fault;
use records::{Entry, Kind, RecordsTx};
use std::alloc::Global;

/// The kinds of rows, in the order of their numbers.
const KINDS: [Kind; 13] = [
    Kind::Clock,
    Kind::Used,
    Kind::Token,
    Kind::Accessor,
    Kind::Cubby,
    Kind::Lease,
    Kind::Credential,
    Kind::KvKey,
    Kind::KvVersion,
    Kind::Waiting,
    Kind::Mount,
    Kind::Policy,
    Kind::Role,
];

/// All rows that a transaction showed.
#[derive(Drop)]
pub struct Rows {
    entries: Vec<Entry>,
}

impl Rows {
    /// The rows that a transaction shows, kind by kind. It fails as the transaction does, and with `Memory` if memory
    /// runs out.
    pub fn of<T: RecordsTx>(alloc: Global, tx: &mut T) -> Result<Rows, Fault> {
        let mut entries = Vec::new(alloc);
        for kind in KINDS {
            entries.append(&mut tx.under(kind, "")?)?;
        }
        Ok(Rows { entries })
    }

    /// Whether there are none.
    pub fn is_empty(&self) -> bool {
        self.entries.is_empty()
    }

    /// Whether they are the same rows.
    pub fn are(&self, others: &Rows) -> bool {
        if self.entries.len() != others.entries.len() {
            return false;
        }
        for (entry, other) in self.entries.iter().zip(others.entries.iter()) {
            if !is_same(entry, other) {
                return false;
            }
        }
        true
    }
}

/// Whether two rows have the same kind, key, owner, end and body.
fn is_same(entry: &Entry, other: &Entry) -> bool {
    entry.kind == other.kind
        && entry.key.as_str() == other.key.as_str()
        && entry.row.owner.as_str() == other.row.owner.as_str()
        && entry.row.due == other.row.due
        && entry.row.body.as_slice() == other.row.body.as_slice()
}
