//! What is wrong with a row, told without a secret.

ghost use Rattle.std.specs.Prelude.{◌≡◌, IfOk};
ghost use Rattle.std.specs.Char.{is_ascii_graphic};
ghost use Rattle.std.specs.List.{list_all};
ghost use Rattle.broker_types.specs.Fault.{IsMemoryOrStorage};
ghost use Rattle.records.specs.Calls.{IsReading};
ghost use Rattle.records.specs.Transaction.{IsHonest};
ghost use Rattle.database_check.specs.Naming.{IsName, IsNumbered, TellsOf, visible};

use broker_types::{Fault, TextBuf};
use records::{Kind, RecordsTx, read_token, read_waiting};
use soundness::{Rule, Trouble};
use std::alloc::{AllocError, Global};
use std::fmt;

/// A row that keeps rows from being those of a sound broker. A token is told by its accessor, a secret, a mount, a
/// policy and a role by its name, and no other row by its key, which may be a secret.
#[derive(Drop)]
pub struct Defect {
    kind: Kind,
    /// Which it is of the rows of its kind, in the order of their keys, counted from 1.
    number: usize,
    name: Option<TextBuf>,
    rule: Rule,
}

impl Defect {
    /// The row in trouble, which is that of its kind with the number. One of a token or of a response is named by the
    /// accessor in it, and never by its key.
    pub fn at<T: RecordsTx>(alloc: Global, tx: &mut T, trouble: &Trouble) -> Result<Defect, Fault>
        ensures tells { IsHonest (T.seen tx.new) → IsNumbered (T.seen tx.old).rows trouble.now
            → IfOk result (TellsOf (T.seen tx.old).rows trouble.now) }
        ensures call { IsReading (T.seen tx.old) (T.seen tx.new) result IsMemoryOrStorage }
    {
        let name = name_of(alloc, tx, trouble.kind, trouble.key.as_str())?;
        Ok(Defect {
            kind: trouble.kind,
            number: trouble.number,
            name,
            rule: trouble.rule,
        })
    }
}

/// What names a row without a secret, and without what a terminal would obey.
fn name_of<T: RecordsTx>(
    alloc: Global,
    tx: &mut T,
    kind: Kind,
    key: &str,
) -> Result<Option<TextBuf>, Fault>
    ensures named { IsHonest (T.seen tx.new) → IfOk result (IsName (T.seen tx.old).rows kind key.now) }
    ensures call { IsReading (T.seen tx.old) (T.seen tx.new) result IsMemoryOrStorage }
{
    match kind {
        Kind::Token => accessor_of_token(alloc, tx, key),
        Kind::Waiting => accessor_of_response(alloc, tx, key),
        Kind::KvKey | Kind::Mount | Kind::Policy | Kind::Role => Ok(visible(alloc, key)?),
        _ => Ok(None),
    }
}

/// The accessor in the row of a token, if it can be read.
fn accessor_of_token<T: RecordsTx>(
    alloc: Global,
    tx: &mut T,
    key: &str,
) -> Result<Option<TextBuf>, Fault>
    ensures named { IsHonest (T.seen tx.new) → IfOk result (IsName (T.seen tx.old).rows Kind.Token key.now) }
    ensures call { IsReading (T.seen tx.old) (T.seen tx.new) result IsMemoryOrStorage }
{
    let Some(row) = tx.get(Kind::Token, key)? else {
        return Ok(None);
    };
    match read_token(alloc, &row) {
        Ok(token) => Ok(visible(alloc, token.accessor.as_str())?),
        Err(Fault::Damaged) => Ok(None),
        Err(_) => Err(Fault::Memory),
    }
}

/// The accessor of the wrapping token in the row of a response, if it can be read.
fn accessor_of_response<T: RecordsTx>(
    alloc: Global,
    tx: &mut T,
    key: &str,
) -> Result<Option<TextBuf>, Fault>
    ensures named { IsHonest (T.seen tx.new) → IfOk result (IsName (T.seen tx.old).rows Kind.Waiting key.now) }
    ensures call { IsReading (T.seen tx.old) (T.seen tx.new) result IsMemoryOrStorage }
{
    let Some(row) = tx.get(Kind::Waiting, key)? else {
        return Ok(None);
    };
    match read_waiting(&row) {
        Ok(waiting) => Ok(visible(alloc, waiting.accessor)?),
        Err(_) => Ok(None),
    }
}

/// The text, if it has visible ASCII characters alone.
fn visible(alloc: Global, text: &str) -> Result<Option<TextBuf>, AllocError>
    ensures { IfOk result (λ name. name ≡ visible text.now) }
{
    if is_visible(text.as_bytes()) {
        Ok(Some(TextBuf::copied(alloc, text)?))
    } else {
        Ok(None)
    }
}

fn is_visible(text: &[u8]) -> bool
    ensures { result ≡ list_all is_ascii_graphic text.now }
{
    text.iter().all(|byte| byte.is_ascii_graphic())
}

/// What the rows of a kind are.
fn word(kind: Kind) -> &'static str {
    match kind {
        Kind::Clock => "clock",
        Kind::Used => "issued identifier",
        Kind::Token => "token",
        Kind::Accessor => "accessor",
        Kind::Cubby => "cubbyhole object",
        Kind::Lease => "lease",
        Kind::Credential => "credential",
        Kind::KvKey => "secret",
        Kind::KvVersion => "version",
        Kind::Waiting => "wrapped response",
        Kind::Mount => "mount",
        Kind::Policy => "policy",
        Kind::Role => "role",
    }
}

/// What is wrong with a row that breaks a rule.
fn complaint(rule: Rule) -> &'static str {
    match rule {
        Rule::Missing => "it is not there",
        Rule::Format => "it is not in its format",
        Rule::OldFormat => "it is in the format before this one: serve the database once",
        Rule::Key => "its key is none of its kind",
        Rule::Text => "a name or a text in it is out of range",
        Rule::Number => "a number in it is out of range",
        Rule::Uses => "it has no use left",
        Rule::Parent => "its parent is not there",
        Rule::Chain => "the chain of its parents does not end",
        Rule::Owner => "its owner is not there, or says otherwise",
        Rule::Accessor => "its accessor is not there, or names another row",
        Rule::Credential => "its credential is not there, or names another row",
        Rule::Mark => "its identifier is not marked as issued",
        Rule::Place => "its identifier is in another row too",
        Rule::Origin => "its origin was not issued, or is that of another response too",
    }
}

impl fmt::Display for Defect {
    fn fmt<W: fmt::Write>(&self, f: &mut fmt::Formatter<W>) -> fmt::Result {
        if self.rule == Rule::Missing {
            return write!(f, "there is no row of kind {}", word(self.kind));
        }
        write!(f, "row {} of kind {}", self.number, word(self.kind))?;
        if let Some(name) = &self.name {
            let what = if matches!(self.kind, Kind::Token | Kind::Waiting) {
                "accessor "
            } else {
                ""
            };
            write!(f, " ({what}{})", name.as_str())?;
        }
        write!(f, ": {}", complaint(self.rule))
    }
}
