//! Rows of leases and of their credentials.

ghost use Rattle.broker_types.specs.Fault.{IsMemoryOrStorage};
ghost use Rattle.records.specs.declared.kind.Kind.TheVariants as kind;
ghost use Rattle.records.specs.Calls.{IsReading};
ghost use Rattle.records.specs.RowForms.{lease_row, credential_row};
ghost use Rattle.records.specs.Table.{table};
ghost use Rattle.records.specs.Transaction.{IsHonest};
ghost use Rattle.soundness.specs.Broken.{BreaksAt, Shows};
ghost use Rattle.soundness.specs.RowRules.{IsOf, Held, IsLeaseAt, IsCredentialOf};
ghost use Rattle.soundness.specs.Visiting.{Finds};

use crate::lookups::{has_row, is_of_lease, lease_has};
use crate::texts::lease_identifier;
use crate::trouble::Rule;
use broker_types::Fault;
use records::{Kind, RecordsTx, Row, read_credential, read_lease};

/// What the row of a lease breaks.
pub(crate) fn lease<T: RecordsTx>(tx: &mut T, key: &str, row: &Row) -> Result<Option<Rule>, Fault>
    ensures sound { IsHonest (T.seen tx.new) → Finds result
        (IsOf (λ (h : Held). lease_row h.0 h.1) (IsLeaseAt (table (T.seen tx.old)) key.now) row.now) }
    ensures broken { IsHonest (T.seen tx.new)
        → Shows result (λ rule. BreaksAt (table (T.seen tx.old)) rule kind.Lease key.now row.now) }
    ensures call { IsReading (T.seen tx.old) (T.seen tx.new) result IsMemoryOrStorage }
{
    let Ok(lease) = read_lease(row) else {
        return Ok(Some(Rule::Format));
    };
    if lease_identifier(key).is_none() {
        return Ok(Some(Rule::Key));
    }
    if lease.ttl > lease.max_ttl {
        return Ok(Some(Rule::Number));
    }
    if !has_row(tx, Kind::Token, row.owner.as_str())? {
        return Ok(Some(Rule::Owner));
    }
    if !is_of_lease(tx, lease.credential, key)? {
        return Ok(Some(Rule::Credential));
    }
    Ok(None)
}

/// What the row of a credential breaks.
pub(crate) fn credential<T: RecordsTx>(
    tx: &mut T,
    key: &str,
    row: &Row,
) -> Result<Option<Rule>, Fault>
    ensures sound { IsHonest (T.seen tx.new) → Finds result
        (IsOf credential_row (IsCredentialOf (table (T.seen tx.old)) key.now) row.now) }
    ensures broken { IsHonest (T.seen tx.new)
        → Shows result (λ rule. BreaksAt (table (T.seen tx.old)) rule kind.Credential key.now row.now) }
    ensures call { IsReading (T.seen tx.old) (T.seen tx.new) result IsMemoryOrStorage }
{
    if read_credential(row).is_err() {
        return Ok(Some(Rule::Format));
    }
    if !lease_has(tx, row.owner.as_str(), key)? {
        return Ok(Some(Rule::Owner));
    }
    Ok(None)
}
