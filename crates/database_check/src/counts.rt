//! How many rows there are.

ghost use Rattle.std.specs.Prelude.{◌≡◌, IfOk};
ghost use Rattle.broker_types.specs.Fault.{IsMemoryOrStorage};
ghost use Rattle.records.specs.Calls.{IsReading};
ghost use Rattle.records.specs.Transaction.{IsHonest};
ghost use Rattle.database_check.specs.Findings.{count_of, counts_of};

use broker_types::Fault;
use records::{Kind, RecordsTx};
use std::fmt;

/// How many of each there are.
#[derive(Clone, Copy, Debug, PartialEq, Eq)]
pub struct Counts {
    tokens: usize,
    /// Objects in cubbyholes.
    objects: usize,
    secrets: usize,
    versions: usize,
    leases: usize,
    /// Responses that wait for their wrapping tokens.
    responses: usize,
    mounts: usize,
    policies: usize,
    roles: usize,
}

impl Counts {
    /// The counts of a transaction.
    pub(crate) fn of<T: RecordsTx>(tx: &mut T) -> Result<Counts, Fault>
        ensures counted { IsHonest (T.seen tx.new) → IfOk result (λ counts. counts ≡ counts_of (T.seen tx.old).rows) }
        ensures call { IsReading (T.seen tx.old) (T.seen tx.new) result IsMemoryOrStorage }
    {
        Ok(Counts {
            tokens: count(tx, Kind::Token)?,
            objects: count(tx, Kind::Cubby)?,
            secrets: count(tx, Kind::KvKey)?,
            versions: count(tx, Kind::KvVersion)?,
            leases: count(tx, Kind::Lease)?,
            responses: count(tx, Kind::Waiting)?,
            mounts: count(tx, Kind::Mount)?,
            policies: count(tx, Kind::Policy)?,
            roles: count(tx, Kind::Role)?,
        })
    }
}

/// How many rows of a kind there are.
fn count<T: RecordsTx>(tx: &mut T, kind: Kind) -> Result<usize, Fault>
    ensures counted { IsHonest (T.seen tx.new) → IfOk result (λ number. number ≡ count_of (T.seen tx.old).rows kind) }
    ensures call { IsReading (T.seen tx.old) (T.seen tx.new) result IsMemoryOrStorage }
{
    Ok(tx.under(kind, "")?.len())
}

impl fmt::Display for Counts {
    fn fmt<W: fmt::Write>(&self, f: &mut fmt::Formatter<W>) -> fmt::Result {
        tell(f, self.tokens, "token", "tokens")?;
        write!(f, ", ")?;
        tell(f, self.objects, "cubbyhole object", "cubbyhole objects")?;
        write!(f, ", ")?;
        tell(f, self.secrets, "secret", "secrets")?;
        write!(f, " with ")?;
        tell(f, self.versions, "version", "versions")?;
        write!(f, ", ")?;
        tell(f, self.leases, "lease", "leases")?;
        write!(f, ", ")?;
        tell(f, self.responses, "wrapped response", "wrapped responses")?;
        write!(f, ", ")?;
        tell(f, self.mounts, "mount", "mounts")?;
        write!(f, ", ")?;
        tell(f, self.policies, "policy", "policies")?;
        write!(f, ", ")?;
        tell(f, self.roles, "role", "roles")
    }
}

/// A number with the word for one of them, or for several.
fn tell<W: fmt::Write>(
    f: &mut fmt::Formatter<W>,
    number: usize,
    one: &str,
    several: &str,
) -> fmt::Result {
    let word = if number == 1 { one } else { several };
    write!(f, "{number} {word}")
}
