//! Rows of secrets and of their versions.

ghost use Rattle.std.specs.Prelude.{◌≡◌, ℕ, true, option_map, IfOk, IfErr, IfSome, IfNone, string_bytes};
ghost use Rattle.std.specs.Bool.{OnTrue};
ghost use Rattle.std.specs.List.{list_all};
ghost use Rattle.broker_types.specs.Fault.{IsMemoryOrStorage};
ghost use Rattle.broker_types.specs.Text.{Text};
ghost use Rattle.broker_types.specs.declared.fault.Fault.TheVariants as faults;
ghost use Rattle.api_json.specs.KeptBodies as kept;
ghost use Rattle.records.specs.declared.kind.Kind.TheVariants as kind;
ghost use Rattle.records.specs.Calls.{IsReading};
ghost use Rattle.records.specs.Ranges.{IsKeyInRange};
ghost use Rattle.records.specs.RowReaders.{IsSomeIn};
ghost use Rattle.records.specs.RowForms.{key_entry_row, version_row};
ghost use Rattle.records.specs.Rows as rows;
ghost use Rattle.records.specs.Table.{Table, table};
ghost use Rattle.records.specs.Transaction.{IsHonest};
ghost use Rattle.soundness.specs.Broken.{BreaksAt, IsVersionKey, Shows};
ghost use Rattle.soundness.specs.RowRules.{IsOf, IsKeyAt, IsVersionAt};
ghost use Rattle.soundness.specs.Texts.{is_fit, are_fit};
ghost use Rattle.soundness.specs.Visiting.{Finds};

use crate::lookups::{current_version, key_in};
use crate::texts::{is_object, is_secret_name};
use crate::trouble::Rule;
use broker_types::{Fault, TextBuf};
use records::{RecordsTx, Row, read_old_key, read_version};
use std::alloc::{AllocError, Global};

/// Whether a name and a value of custom metadata are as short as they have to be, the name not empty.
fn is_fit(pair: &(TextBuf, TextBuf)) -> bool
    ensures { result ≡ is_fit pair.now }
{
    let name = pair.0.as_str().len();
    let value = pair.1.as_str().len();
    name > 0 && name <= 128 && value <= 512
}

/// Whether each name and value of custom metadata is as short as it has to be.
fn each_is_fit(pairs: &[(TextBuf, TextBuf)]) -> bool
    ensures { result ≡ list_all is_fit pairs.now }
{
    pairs.iter().all(|pair| is_fit(pair))
}

/// Whether custom metadata has few names, each with its value as short as it has to be.
fn are_fit(pairs: &[(TextBuf, TextBuf)]) -> bool
    ensures { result ≡ are_fit pairs.now }
{
    if pairs.len() > 64 {
        return false;
    }
    each_is_fit(pairs)
}

/// What a row that is not one of a key breaks.
fn form(alloc: Global, row: &Row) -> Rule
    ensures { (IsOf key_entry_row IsKeyInRange row.now → ⊥)
        → (rows : Table) (q : Text) → BreaksAt rows result kind.KvKey q row.now }
{
    match read_old_key(alloc, row) {
        Ok(_) => Rule::OldFormat,
        Err(_) => Rule::Format,
    }
}

/// What the row of a key breaks. The only fault is running out of memory.
pub(crate) fn key(alloc: Global, key: &str, row: &Row) -> Result<Option<Rule>, Fault>
    ensures sound { Finds result (IsOf key_entry_row (IsKeyAt key.now) row.now) }
    ensures broken { (rows : Table) → Shows result (λ rule. BreaksAt rows rule kind.KvKey key.now row.now) }
    ensures memory { IfErr result (λ fault. fault ≡ faults.Memory) }
{
    let Some(found) = key_in(alloc, row)? else {
        return Ok(Some(form(alloc, row)));
    };
    if !is_secret_name(key) {
        return Ok(Some(Rule::Key));
    }
    if !are_fit(&found.custom_metadata) {
        return Ok(Some(Rule::Text));
    }
    Ok(None)
}

/// The key of a version's row: the secret's name, a line feed and the number in twenty digits. The only error is
/// running out of memory.
fn version_key(alloc: Global, name: &str, number: u64) -> Result<String, AllocError>
    ensures { IfOk result (λ key. string_bytes key ≡ rows.version_key name.now number) }
{
    let digits = format!(in alloc; "{number}")?;
    let mut key = String::from_str(alloc, name)?;
    key.push_str("\n")?;
    let start = digits.len();
    for place in start..20 {
        key.push_str("0")?;
    }
    key.push_str(digits.as_str())?;
    Ok(key)
}

/// The name of the secret and the number of the version that a key is of. The only error is running out of memory.
fn parts(alloc: Global, key: &str) -> Result<Option<(&str, u64)>, AllocError>
    ensures sound { IfOk result (λ o. IfSome o (λ p. IsVersionKey key.now p.0.now p.1)) }
    ensures whole { IfOk result (λ o. IfNone o
        ((name : Text) (number : ℕ) → IsVersionKey key.now name number → ⊥)) }
{
    let Some((name, digits)) = key.split_once('\n') else {
        return Ok(None);
    };
    let Ok(number) = digits.parse::<u64>() else {
        return Ok(None);
    };
    let expected = version_key(alloc, name, number)?;
    if expected.as_str() == key {
        Ok(Some((name, number)))
    } else {
        Ok(None)
    }
}

/// Whether the secret of a version, if it has one, is the compact text of an object.
fn is_secret(alloc: Global, secret: Option<&str>) -> Result<bool, AllocError>
    ensures sound { IfOk result (λ v. OnTrue v
        (IsSomeIn (λ t. kept.is_object t ≡ true) (option_map (λ s. s.now) secret.entry))) }
    ensures whole { IfOk result (λ v.
        IsSomeIn (λ t. kept.is_object t ≡ true) (option_map (λ s. s.now) secret.entry) → v ≡ true) }
{
    match secret {
        Some(text) => is_object(alloc, text),
        None => Ok(true),
    }
}

/// What the row of a version breaks.
pub(crate) fn version<T: RecordsTx>(
    alloc: Global,
    tx: &mut T,
    key: &str,
    row: &Row,
) -> Result<Option<Rule>, Fault>
    ensures sound { IsHonest (T.seen tx.new)
        → Finds result (IsOf version_row (IsVersionAt (table (T.seen tx.old)) key.now) row.now) }
    ensures broken { IsHonest (T.seen tx.new)
        → Shows result (λ rule. BreaksAt (table (T.seen tx.old)) rule kind.KvVersion key.now row.now) }
    ensures call { IsReading (T.seen tx.old) (T.seen tx.new) result IsMemoryOrStorage }
{
    let Ok(version) = read_version(row) else {
        return Ok(Some(Rule::Format));
    };
    if !is_secret(alloc, version.secret)? {
        return Ok(Some(Rule::Text));
    }
    let Some((name, number)) = parts(alloc, key)? else {
        return Ok(Some(Rule::Key));
    };
    let Some(current) = current_version(alloc, tx, name)? else {
        return Ok(Some(Rule::Owner));
    };
    if number == 0 || number > current {
        return Ok(Some(Rule::Number));
    }
    Ok(None)
}
