//! Rows of tokens, of their accessors, and of what they keep.

ghost use Rattle.std.specs.Prelude.{◌≡◌, ◌≢◌, ◌++◌, ◌∷◌, true, false, Some, IfOk, IfSome, IfNone};
ghost use Rattle.std.specs.List.{list_all};
ghost use Rattle.broker_types.specs.Fault.{IsMemoryOrStorage};
ghost use Rattle.broker_types.specs.Name as names;
ghost use Rattle.broker_types.specs.Text.{Text};
ghost use Rattle.records.specs.declared.kind.Kind.TheVariants as kind;
ghost use Rattle.records.specs.Calls.{IsReading};
ghost use Rattle.records.specs.RowForms.{entry_row, accessor_row, cubby_row};
ghost use Rattle.records.specs.Splits.{slash};
ghost use Rattle.records.specs.Table.{table};
ghost use Rattle.records.specs.Transaction.{IsHonest};
ghost use Rattle.soundness.specs.Broken.{BreaksAt, Shows};
ghost use Rattle.soundness.specs.RowRules.{IsOf, IsTokenAt, Named, IsNamedBy, Owned, IsObjectAt};
ghost use Rattle.soundness.specs.Visiting.{Finds};

use crate::lookups::{has_parent, has_row, is_held, is_named, token_in};
use crate::texts::{is_object, is_path};
use crate::trouble::Rule;
use broker_types::{Fault, TextBuf, is_name};
use records::{Holder, Kind, RecordsTx, Row, read_accessor, read_cubby};
use std::alloc::Global;

/// Whether each text is a name.
fn are_names(texts: &[TextBuf]) -> bool
    ensures { result ≡ list_all names.is_name texts.now }
{
    texts.iter().all(|text| is_name(text.as_str()))
}

/// Whether uses are limited, and none is left.
fn is_spent(uses_left: Option<u64>) -> bool
    ensures sound { result ≡ false → uses_left ≢ Some 0 }
    ensures spent { result ≡ true → uses_left ≡ Some 0 }
{
    match uses_left {
        Some(uses) => uses == 0,
        None => false,
    }
}

/// What the row of a token breaks.
pub(crate) fn token<T: RecordsTx>(
    alloc: Global,
    tx: &mut T,
    key: &str,
    row: &Row,
) -> Result<Option<Rule>, Fault>
    ensures sound { IsHonest (T.seen tx.new)
        → Finds result (IsOf entry_row (IsTokenAt (table (T.seen tx.old)) key.now) row.now) }
    ensures broken { IsHonest (T.seen tx.new)
        → Shows result (λ rule. BreaksAt (table (T.seen tx.old)) rule kind.Token key.now row.now) }
    ensures call { IsReading (T.seen tx.old) (T.seen tx.new) result IsMemoryOrStorage }
{
    let Some(token) = token_in(alloc, row)? else {
        return Ok(Some(Rule::Format));
    };
    if !are_names(&token.policies) {
        return Ok(Some(Rule::Text));
    }
    if is_spent(token.uses_left) {
        return Ok(Some(Rule::Uses));
    }
    if !has_parent(tx, &token.parent)? {
        return Ok(Some(Rule::Parent));
    }
    if !is_named(tx, token.accessor.as_str(), key, Holder::Token)? {
        return Ok(Some(Rule::Accessor));
    }
    Ok(None)
}

/// What the row of an accessor breaks.
pub(crate) fn accessor<T: RecordsTx>(
    alloc: Global,
    tx: &mut T,
    key: &str,
    row: &Row,
) -> Result<Option<Rule>, Fault>
    ensures sound { IsHonest (T.seen tx.new) → Finds result
        (IsOf (λ (n : Named). accessor_row n.0 n.1) (IsNamedBy (table (T.seen tx.old)) key.now) row.now) }
    ensures broken { IsHonest (T.seen tx.new)
        → Shows result (λ rule. BreaksAt (table (T.seen tx.old)) rule kind.Accessor key.now row.now) }
    ensures call { IsReading (T.seen tx.old) (T.seen tx.new) result IsMemoryOrStorage }
{
    let Ok(what) = read_accessor(row) else {
        return Ok(Some(Rule::Format));
    };
    if !is_held(alloc, tx, key, row.owner.as_str(), what)? {
        return Ok(Some(Rule::Owner));
    }
    Ok(None)
}

/// What follows a token and a slash.
fn path_of<'k>(key: &'k str, token: &str) -> Option<&'k str>
    ensures sound { IfSome result (λ path. key.now ≡ token.now ++ slash ∷ path.now) }
    ensures whole { IfNone result ((path : Text) → key.now ≡ token.now ++ slash ∷ path → ⊥) }
{
    let rest = key.strip_prefix(token)?;
    rest.strip_prefix("/")
}

/// What the row of an object in a cubbyhole breaks.
pub(crate) fn object<T: RecordsTx>(
    alloc: Global,
    tx: &mut T,
    key: &str,
    row: &Row,
) -> Result<Option<Rule>, Fault>
    ensures sound { IsHonest (T.seen tx.new) → Finds result
        (IsOf (λ (e : Owned). cubby_row e.0 e.1) (IsObjectAt (table (T.seen tx.old)) key.now) row.now) }
    ensures broken { IsHonest (T.seen tx.new)
        → Shows result (λ rule. BreaksAt (table (T.seen tx.old)) rule kind.Cubby key.now row.now) }
    ensures call { IsReading (T.seen tx.old) (T.seen tx.new) result IsMemoryOrStorage }
{
    let Ok(text) = read_cubby(row) else {
        return Ok(Some(Rule::Format));
    };
    let Some(path) = path_of(key, row.owner.as_str()) else {
        return Ok(Some(Rule::Key));
    };
    if !is_path(path) {
        return Ok(Some(Rule::Key));
    }
    if !is_object(alloc, text)? {
        return Ok(Some(Rule::Text));
    }
    if !has_row(tx, Kind::Token, row.owner.as_str())? {
        return Ok(Some(Rule::Owner));
    }
    Ok(None)
}
