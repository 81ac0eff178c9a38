//! Rows noted by the words of their identifiers, each of which is in one row.

ghost use Rattle.std.specs.Prelude.{◌≡◌, ℕ, Some, false, IfOk, IfErr, OnOk};
ghost use Rattle.std.specs.Bool.{OnTrue};
ghost use Rattle.broker_types.specs.Fault.{IsMemoryOrStorage};
ghost use Rattle.broker_types.specs.IdentifierPlaces as leases;
ghost use Rattle.broker_types.specs.Identifier.{id};
ghost use Rattle.broker_types.specs.Sound.{IsIdentifier, IsLeaseId, IsTokenText};
ghost use Rattle.broker_types.specs.Text.{Text};
ghost use Rattle.broker_types.specs.TokenText.{token_text};
ghost use Rattle.broker_types.specs.declared.fault.Fault.TheVariants as faults;
ghost use Rattle.records.specs.declared.kind.Kind.TheVariants as kind;
ghost use Rattle.records.specs.Calls.{IsReading};
ghost use Rattle.records.specs.Kind.{RowKey};
ghost use Rattle.records.specs.Table.{table};
ghost use Rattle.records.specs.Transaction.{IsHonest};
ghost use Rattle.soundness.specs.Broken.{BreaksAt, HasIdentifier, IsKeyOf, Shows};
ghost use Rattle.soundness.specs.Notes.{AddsOnly, AreNotedOrigins, HasOrigin, IsNotNoted, StopsNoting};
ghost use Rattle.soundness.specs.SoundRows.{IsHad, HasItsIdentifier};
ghost use Rattle.soundness.specs.Visiting.{Finds, Grows, HasItsOrigin, noted};

use crate::lookups::has_row;
use crate::place::Place;
use crate::texts::{lease_identifier, token_identifier, word_of};
use crate::trouble::Rule;
use broker_types::{Fault, TextBuf};
use records::{Kind, RecordsTx, Row, read_waiting};
use std::alloc::Global;
use std::collections::BTreeMap;

/// Notes that a row has the identifier of a word, and answers whether none was noted to have it.
fn note(
    alloc: Global,
    places: &mut BTreeMap<u128, Place>,
    word: u128,
    kind: Kind,
    key: &str,
) -> Result<bool, Fault>
    ensures noted { IfOk result (λ is_new. OnTrue is_new
        ((noted places.new word ≡ Some (kind, key.now)) × Grows (noted places.old) (noted places.new))) }
    ensures whole { IfOk result (λ is_new. is_new ≡ false
        → (other : RowKey) × (noted places.old word ≡ Some other)) }
    ensures adds { IfOk result (λ is_new.
        AddsOnly (λ i. i ≡ id word) (kind, key.now) (noted places.old) (noted places.new)) }
    ensures memory { IfErr result (λ fault. fault ≡ faults.Memory) }
{
    let key = TextBuf::copied(alloc, key)?;
    let old = places.insert(word, Place { kind, key })?;
    Ok(old.is_none())
}

/// Notes that a row has an identifier, which was given out and which no row was noted to have.
fn had<T: RecordsTx>(
    alloc: Global,
    tx: &mut T,
    places: &mut BTreeMap<u128, Place>,
    identifier: &str,
    kind: Kind,
    key: &str,
) -> Result<Option<Rule>, Fault>
    ensures had { IsHonest (T.seen tx.new) → Finds result
        (IsHad (table (T.seen tx.old)) (noted places.new) (kind, key.now) identifier.now
        × Grows (noted places.old) (noted places.new)) }
    ensures broken { IsHonest (T.seen tx.new) → Shows result
        (StopsNoting (table (T.seen tx.old)) (noted places.old) (IsIdentifier identifier.now)
        (λ i. identifier.now ≡ i)) }
    ensures adds { OnOk result
        (AddsOnly (λ i. identifier.now ≡ i) (kind, key.now) (noted places.old) (noted places.new)) }
    ensures call { IsReading (T.seen tx.old) (T.seen tx.new) result IsMemoryOrStorage }
{
    let Some(word) = word_of(identifier) else {
        return Ok(Some(Rule::Key));
    };
    if !has_row(tx, Kind::Used, identifier)? {
        return Ok(Some(Rule::Mark));
    }
    if !note(alloc, places, word, kind, key)? {
        return Ok(Some(Rule::Place));
    }
    Ok(None)
}

/// Notes the identifier of a token or of a wrapping token.
fn note_token<T: RecordsTx>(
    alloc: Global,
    tx: &mut T,
    places: &mut BTreeMap<u128, Place>,
    kind: Kind,
    key: &str,
) -> Result<Option<Rule>, Fault>
    ensures had { IsHonest (T.seen tx.new) → Finds result
        (((i : Text) × (key.now ≡ token_text i)
        × IsHad (table (T.seen tx.old)) (noted places.new) (kind, key.now) i)
        × Grows (noted places.old) (noted places.new)) }
    ensures broken { IsHonest (T.seen tx.new) → Shows result
        (StopsNoting (table (T.seen tx.old)) (noted places.old) (IsTokenText key.now)
        (λ i. key.now ≡ token_text i)) }
    ensures adds { OnOk result
        (AddsOnly (λ i. key.now ≡ token_text i) (kind, key.now) (noted places.old) (noted places.new)) }
    ensures call { IsReading (T.seen tx.old) (T.seen tx.new) result IsMemoryOrStorage }
{
    match token_identifier(key) {
        Some(identifier) => had(alloc, tx, places, identifier, kind, key),
        None => Ok(Some(Rule::Key)),
    }
}

/// Notes the identifier of a lease.
fn note_lease<T: RecordsTx>(
    alloc: Global,
    tx: &mut T,
    places: &mut BTreeMap<u128, Place>,
    key: &str,
) -> Result<Option<Rule>, Fault>
    ensures had { IsHonest (T.seen tx.new) → Finds result
        (IsHad (table (T.seen tx.old)) (noted places.new) (kind.Lease, key.now) (leases.lease_identifier key.now)
        × Grows (noted places.old) (noted places.new)) }
    ensures broken { IsHonest (T.seen tx.new) → Shows result
        (StopsNoting (table (T.seen tx.old)) (noted places.old) (IsLeaseId key.now)
        (λ i. leases.lease_identifier key.now ≡ i)) }
    ensures adds { OnOk result (AddsOnly (λ i. leases.lease_identifier key.now ≡ i) (kind.Lease, key.now)
        (noted places.old) (noted places.new)) }
    ensures call { IsReading (T.seen tx.old) (T.seen tx.new) result IsMemoryOrStorage }
{
    match lease_identifier(key) {
        Some(identifier) => had(alloc, tx, places, identifier, Kind::Lease, key),
        None => Ok(Some(Rule::Key)),
    }
}

/// Notes the identifier of a row, if a row of its kind has one.
pub(crate) fn note_identifier<T: RecordsTx>(
    alloc: Global,
    tx: &mut T,
    places: &mut BTreeMap<u128, Place>,
    kind: Kind,
    key: &str,
) -> Result<Option<Rule>, Fault>
    ensures had { IsHonest (T.seen tx.new) → Finds result
        (HasItsIdentifier (table (T.seen tx.old)) (noted places.new) kind key.now
        × Grows (noted places.old) (noted places.new)) }
    ensures broken { IsHonest (T.seen tx.new) → (owner : Text) → Shows result
        (StopsNoting (table (T.seen tx.old)) (noted places.old) (IsKeyOf kind key.now owner)
        (HasIdentifier kind key.now)) }
    ensures adds { OnOk result
        (AddsOnly (HasIdentifier kind key.now) (kind, key.now) (noted places.old) (noted places.new)) }
    ensures call { IsReading (T.seen tx.old) (T.seen tx.new) result IsMemoryOrStorage }
{
    match kind {
        Kind::Token => note_token(alloc, tx, places, kind, key),
        Kind::Waiting => note_token(alloc, tx, places, kind, key),
        Kind::Lease => note_lease(alloc, tx, places, key),
        Kind::Accessor => had(alloc, tx, places, key, kind, key),
        Kind::Credential => had(alloc, tx, places, key, kind, key),
        _ => Ok(None),
    }
}

/// Notes the origin of a response.
fn note_response<T: RecordsTx>(
    alloc: Global,
    tx: &mut T,
    places: &mut BTreeMap<u128, Place>,
    key: &str,
    row: &Row,
) -> Result<Option<Rule>, Fault>
    ensures had { IsHonest (T.seen tx.new) → Finds result
        (HasItsOrigin (table (T.seen tx.old)) (noted places.new) kind.Waiting key.now row.now
        × Grows (noted places.old) (noted places.new)) }
    ensures broken { IsHonest (T.seen tx.new) → AreNotedOrigins (table (T.seen tx.old)) (noted places.old)
        → IsNotNoted (noted places.old) (kind.Waiting, key.now)
        → Shows result (λ rule. BreaksAt (table (T.seen tx.old)) rule kind.Waiting key.now row.now) }
    ensures adds { OnOk result (AddsOnly (HasOrigin kind.Waiting row.now) (kind.Waiting, key.now)
        (noted places.old) (noted places.new)) }
    ensures call { IsReading (T.seen tx.old) (T.seen tx.new) result IsMemoryOrStorage }
{
    let Ok(waiting) = read_waiting(row) else {
        return Ok(Some(Rule::Format));
    };
    match had(alloc, tx, places, waiting.origin, Kind::Waiting, key)? {
        None => Ok(None),
        Some(_) => Ok(Some(Rule::Origin)),
    }
}

/// Notes the origin of a row, if it is one of a response.
pub(crate) fn note_origin<T: RecordsTx>(
    alloc: Global,
    tx: &mut T,
    places: &mut BTreeMap<u128, Place>,
    kind: Kind,
    key: &str,
    row: &Row,
) -> Result<Option<Rule>, Fault>
    ensures had { IsHonest (T.seen tx.new) → Finds result
        (HasItsOrigin (table (T.seen tx.old)) (noted places.new) kind key.now row.now
        × Grows (noted places.old) (noted places.new)) }
    ensures broken { IsHonest (T.seen tx.new) → AreNotedOrigins (table (T.seen tx.old)) (noted places.old)
        → IsNotNoted (noted places.old) (kind, key.now)
        → Shows result (λ rule. BreaksAt (table (T.seen tx.old)) rule kind key.now row.now) }
    ensures adds { OnOk result
        (AddsOnly (HasOrigin kind row.now) (kind, key.now) (noted places.old) (noted places.new)) }
    ensures call { IsReading (T.seen tx.old) (T.seen tx.new) result IsMemoryOrStorage }
{
    match kind {
        Kind::Waiting => note_response(alloc, tx, places, key, row),
        _ => Ok(None),
    }
}
