//! Other rows that a row needs.

ghost use Rattle.std.specs.Prelude.{◌≡◌, ◌≢◌, true, false, Option, Some, None, IfOk, IfErr, IfSome, IfNone};
ghost use Rattle.std.specs.Bool.{OnTrue};
ghost use Rattle.broker_types.specs.Fault.{IsMemoryOrStorage};
ghost use Rattle.broker_types.specs.Text.{Text};
ghost use Rattle.broker_types.specs.declared.fault.Fault.TheVariants as faults;
ghost use Rattle.records.specs.declared.kind.Kind.TheVariants as kind;
ghost use Rattle.records.specs.declared.holder.Holder.TheVariants as holder;
ghost use Rattle.records.specs.Calls.{IsReading};
ghost use Rattle.records.specs.KeyEntry.{KeyEntry};
ghost use Rattle.records.specs.Ranges.{IsTokenInRange, IsKeyInRange};
ghost use Rattle.records.specs.RowForms.{entry_row, accessor_row, credential_row, key_entry_row};
ghost use Rattle.records.specs.Table.{table};
ghost use Rattle.records.specs.Transaction.{IsHonest};
ghost use Rattle.soundness.specs.RowRules.{IsOf, IsNamedBy, IsCredentialOf};
ghost use Rattle.soundness.specs.Broken.{IsKeyRow};

use broker_types::{Fault, TextBuf, is_same};
use records::{
    Holder, KeyRecord, Kind, RecordsTx, Row, TokenRecord, read_accessor, read_credential, read_key,
    read_lease, read_token, read_waiting,
};
use std::alloc::Global;

/// The token in a row, if the row is one of a token. The only fault is running out of memory.
pub(crate) fn token_in(alloc: Global, row: &Row) -> Result<Option<TokenRecord>, Fault>
    ensures found { IfOk result (λ o. IfSome o (λ x. IsTokenInRange x × (row.now ≡ entry_row x))) }
    ensures whole { IfOk result (λ o. IfNone o (IsOf entry_row IsTokenInRange row.now → ⊥)) }
    ensures memory { IfErr result (λ fault. fault ≡ faults.Memory) }
{
    match read_token(alloc, row) {
        Ok(token) => Ok(Some(token)),
        Err(Fault::Damaged) => Ok(None),
        Err(_) => Err(Fault::Memory),
    }
}

/// The key in a row, if the row is one of a key. The only fault is running out of memory.
pub(crate) fn key_in(alloc: Global, row: &Row) -> Result<Option<KeyRecord>, Fault>
    ensures found { IfOk result (λ o. IfSome o (λ k. IsKeyInRange k × (row.now ≡ key_entry_row k))) }
    ensures whole { IfOk result (λ o. IfNone o (IsOf key_entry_row IsKeyInRange row.now → ⊥)) }
    ensures memory { IfErr result (λ fault. fault ≡ faults.Memory) }
{
    match read_key(alloc, row) {
        Ok(key) => Ok(Some(key)),
        Err(Fault::Damaged) => Ok(None),
        Err(_) => Err(Fault::Memory),
    }
}

/// Whether there is a row at a kind and a key.
pub(crate) fn has_row<T: RecordsTx>(tx: &mut T, kind: Kind, key: &str) -> Result<bool, Fault>
    ensures found { IsHonest (T.seen tx.new)
        → IfOk result (λ v. OnTrue v (table (T.seen tx.old) kind key.now ≢ None)) }
    ensures whole { IsHonest (T.seen tx.new)
        → IfOk result (λ v. v ≡ false → table (T.seen tx.old) kind key.now ≡ None) }
    ensures call { IsReading (T.seen tx.old) (T.seen tx.new) result IsMemoryOrStorage }
{
    Ok(tx.get(kind, key)?.is_some())
}

/// Whether the parent, if there is one, has a row.
pub(crate) fn has_parent<T: RecordsTx>(tx: &mut T, parent: &Option<TextBuf>) -> Result<bool, Fault>
    ensures found { IsHonest (T.seen tx.new) → IfOk result (λ v. OnTrue v
        ((p : Text) → parent.now ≡ Some p → table (T.seen tx.old) kind.Token p ≢ None)) }
    ensures whole { IsHonest (T.seen tx.new) → IfOk result (λ v. v ≡ false
        → (p : Text) × (parent.now ≡ Some p) × (table (T.seen tx.old) kind.Token p ≡ None)) }
    ensures call { IsReading (T.seen tx.old) (T.seen tx.new) result IsMemoryOrStorage }
{
    match parent {
        None => Ok(true),
        Some(parent) => has_row(tx, Kind::Token, parent.as_str()),
    }
}

/// Whether two accessors name what is of one kind.
fn are_alike(found: Holder, what: Holder) -> bool
    ensures sound { OnTrue result (found ≡ what) }
    ensures whole { found ≡ what → result ≡ true }
{
    match found {
        Holder::Token => match what {
            Holder::Token => true,
            Holder::WrappingToken => false,
        },
        Holder::WrappingToken => match what {
            Holder::Token => false,
            Holder::WrappingToken => true,
        },
    }
}

/// Whether the row of an accessor says that it is that of a token or of a wrapping token.
pub(crate) fn is_named<T: RecordsTx>(
    tx: &mut T,
    accessor: &str,
    token: &str,
    what: Holder,
) -> Result<bool, Fault>
    ensures found { IsHonest (T.seen tx.new) → IfOk result (λ v. OnTrue v
        (table (T.seen tx.old) kind.Accessor accessor.now ≡ Some (accessor_row token.now what))) }
    ensures whole { IsHonest (T.seen tx.new) → IfOk result (λ v.
        table (T.seen tx.old) kind.Accessor accessor.now ≡ Some (accessor_row token.now what) → v ≡ true) }
    ensures call { IsReading (T.seen tx.old) (T.seen tx.new) result IsMemoryOrStorage }
{
    let Some(row) = tx.get(Kind::Accessor, accessor)? else {
        return Ok(false);
    };
    if !is_same(row.owner.as_str(), token) {
        return Ok(false);
    }
    match read_accessor(&row) {
        Ok(found) => Ok(are_alike(found, what)),
        Err(_) => Ok(false),
    }
}

/// Whether a token has the accessor.
fn token_has<T: RecordsTx>(
    alloc: Global,
    tx: &mut T,
    token: &str,
    accessor: &str,
) -> Result<bool, Fault>
    ensures found { IsHonest (T.seen tx.new) → IfOk result (λ v. OnTrue v
        (IsNamedBy (table (T.seen tx.old)) accessor.now (token.now, holder.Token))) }
    ensures whole { IsHonest (T.seen tx.new) → IfOk result (λ v.
        IsNamedBy (table (T.seen tx.old)) accessor.now (token.now, holder.Token) → v ≡ true) }
    ensures call { IsReading (T.seen tx.old) (T.seen tx.new) result IsMemoryOrStorage }
{
    let Some(row) = tx.get(Kind::Token, token)? else {
        return Ok(false);
    };
    match token_in(alloc, &row)? {
        Some(found) => Ok(is_same(found.accessor.as_str(), accessor)),
        None => Ok(false),
    }
}

/// Whether the wrapping token of a response has the accessor.
fn response_has<T: RecordsTx>(tx: &mut T, token: &str, accessor: &str) -> Result<bool, Fault>
    ensures found { IsHonest (T.seen tx.new) → IfOk result (λ v. OnTrue v
        (IsNamedBy (table (T.seen tx.old)) accessor.now (token.now, holder.WrappingToken))) }
    ensures whole { IsHonest (T.seen tx.new) → IfOk result (λ v.
        IsNamedBy (table (T.seen tx.old)) accessor.now (token.now, holder.WrappingToken) → v ≡ true) }
    ensures call { IsReading (T.seen tx.old) (T.seen tx.new) result IsMemoryOrStorage }
{
    let Some(row) = tx.get(Kind::Waiting, token)? else {
        return Ok(false);
    };
    match read_waiting(&row) {
        Ok(found) => Ok(is_same(found.accessor, accessor)),
        Err(_) => Ok(false),
    }
}

/// Whether what an accessor names has the accessor.
pub(crate) fn is_held<T: RecordsTx>(
    alloc: Global,
    tx: &mut T,
    accessor: &str,
    token: &str,
    what: Holder,
) -> Result<bool, Fault>
    ensures found { IsHonest (T.seen tx.new) → IfOk result (λ v. OnTrue v
        (IsNamedBy (table (T.seen tx.old)) accessor.now (token.now, what))) }
    ensures whole { IsHonest (T.seen tx.new) → IfOk result (λ v.
        IsNamedBy (table (T.seen tx.old)) accessor.now (token.now, what) → v ≡ true) }
    ensures call { IsReading (T.seen tx.old) (T.seen tx.new) result IsMemoryOrStorage }
{
    match what {
        Holder::Token => token_has(alloc, tx, token, accessor),
        Holder::WrappingToken => response_has(tx, token, accessor),
    }
}

/// Whether the row of a credential says that it is that of a lease.
pub(crate) fn is_of_lease<T: RecordsTx>(
    tx: &mut T,
    credential: &str,
    lease_id: &str,
) -> Result<bool, Fault>
    ensures found { IsHonest (T.seen tx.new) → IfOk result (λ v. OnTrue v
        (table (T.seen tx.old) kind.Credential credential.now ≡ Some (credential_row lease_id.now))) }
    ensures whole { IsHonest (T.seen tx.new) → IfOk result (λ v.
        table (T.seen tx.old) kind.Credential credential.now ≡ Some (credential_row lease_id.now) → v ≡ true) }
    ensures call { IsReading (T.seen tx.old) (T.seen tx.new) result IsMemoryOrStorage }
{
    let Some(row) = tx.get(Kind::Credential, credential)? else {
        return Ok(false);
    };
    match read_credential(&row) {
        Ok(_) => Ok(is_same(row.owner.as_str(), lease_id)),
        Err(_) => Ok(false),
    }
}

/// Whether a lease has the credential.
pub(crate) fn lease_has<T: RecordsTx>(
    tx: &mut T,
    lease_id: &str,
    credential: &str,
) -> Result<bool, Fault>
    ensures found { IsHonest (T.seen tx.new) → IfOk result (λ v. OnTrue v
        (IsCredentialOf (table (T.seen tx.old)) credential.now lease_id.now)) }
    ensures whole { IsHonest (T.seen tx.new) → IfOk result (λ v.
        IsCredentialOf (table (T.seen tx.old)) credential.now lease_id.now → v ≡ true) }
    ensures call { IsReading (T.seen tx.old) (T.seen tx.new) result IsMemoryOrStorage }
{
    let Some(row) = tx.get(Kind::Lease, lease_id)? else {
        return Ok(false);
    };
    match read_lease(&row) {
        Ok(lease) => Ok(is_same(lease.credential, credential)),
        Err(_) => Ok(false),
    }
}

/// The current version of a key, if there is one.
pub(crate) fn current_version<T: RecordsTx>(
    alloc: Global,
    tx: &mut T,
    name: &str,
) -> Result<Option<u64>, Fault>
    ensures found { IsHonest (T.seen tx.new) → IfOk result (λ o. IfSome o (λ n.
        (k : KeyEntry) × IsKeyInRange k
        × (table (T.seen tx.old) kind.KvKey name.now ≡ Some (key_entry_row k)) × (n ≡ k.current))) }
    ensures whole { IsHonest (T.seen tx.new) → IfOk result (λ o. IfNone o
        ((k : KeyEntry) → IsKeyRow (table (T.seen tx.old)) name.now k → ⊥)) }
    ensures call { IsReading (T.seen tx.old) (T.seen tx.new) result IsMemoryOrStorage }
{
    let Some(row) = tx.get(Kind::KvKey, name)? else {
        return Ok(None);
    };
    match key_in(alloc, &row)? {
        Some(key) => Ok(Some(key.current)),
        None => Ok(None),
    }
}
