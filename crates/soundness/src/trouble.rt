//! What is told of rows that are not those of a sound broker: which row breaks which rule.

ghost use Rattle.std.specs.Prelude.{◌≡◌, IfOk};

use broker_types::TextBuf;
use records::Kind;
use std::alloc::{AllocError, Global};

/// What a row breaks that keeps rows from being those of a sound broker.
#[derive(Clone, Copy, Debug, PartialEq, Eq)]
pub enum Rule {
    /// The row has to be there.
    Missing,
    /// The row is in the format of its kind.
    Format,
    /// The row of a key is not in the format before it, which is rewritten when a file is opened.
    OldFormat,
    /// The key is one of its kind.
    Key,
    /// Each name and text in the row is one of its kind.
    Text,
    /// Each number in the row is in its range.
    Number,
    /// A token has no use that is spent already.
    Uses,
    /// The parent of a token is there.
    Parent,
    /// The chain of a token's parents ends.
    Chain,
    /// The owner of the row is there, and has what the row says.
    Owner,
    /// The accessor in the row has a row that names this one.
    Accessor,
    /// The credential in the row has a row that names this one.
    Credential,
    /// The identifier of the row is marked as given out.
    Mark,
    /// The identifier of the row is in no other row.
    Place,
    /// The origin of a response is one that was given out, and that of no other response.
    Origin,
}

/// A row that keeps rows from being those of a sound broker.
#[derive(Drop)]
pub struct Trouble {
    /// The kind of the row.
    pub kind: Kind,
    /// Its key, which may be a secret, as that of a token.
    pub key: TextBuf,
    /// What it breaks.
    pub rule: Rule,
    /// Which it is of the rows of its kind, in the order of their keys, counted from 1; 0 if it is not there.
    pub number: usize,
}

impl Trouble {
    /// The rule that the row at a kind and a key breaks. The only error is running out of memory.
    pub(crate) fn at(
        alloc: Global,
        kind: Kind,
        key: &str,
        rule: Rule,
        number: usize,
    ) -> Result<Trouble, AllocError>
        ensures { IfOk result (λ t.
            (t.kind ≡ kind) × (t.key ≡ key.now) × (t.rule ≡ rule) × (t.number ≡ number)) }
    {
        let key = TextBuf::copied(alloc, key)?;
        Ok(Trouble {
            kind,
            key,
            rule,
            number,
        })
    }
}
