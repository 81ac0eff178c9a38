//! Rows visited one after another: each is tested, and its identifiers are noted.

ghost use Rattle.std.specs.Prelude.{◌≡◌, ◌≢◌, ◌<◌, ◌+◌, ◌-◌, ◌++◌, ◌∷◌, [], length, nat_le, slice_get, Contains, Some};
ghost use Rattle.std.specs.Prelude.{IfOk, OnOk, string_bytes};
ghost use Rattle.broker_types.specs.Fault.{IsMemoryOrStorage};
ghost use Rattle.records.specs.Calls.{IsReading};
ghost use Rattle.records.specs.declared.row.Row.{Row};
ghost use Rattle.records.specs.Kind.{RowKey};
ghost use Rattle.records.specs.Table.{table};
ghost use Rattle.records.specs.Transaction.{IsHonest};
ghost use Rattle.soundness.specs.Broken.{BreaksAt, Shows};
ghost use Rattle.soundness.specs.RowRules.{IsSoundAt};
ghost use Rattle.soundness.specs.Visiting.{Finds, EachEnds, IsPassed, noted};
ghost use Rattle.soundness.specs.Notes.{AreApart, AreTrue, GoesOnFrom, IsEntry, IsFresh, Spares};
ghost use Rattle.soundness.specs.Walks.{CanBeWalked, IsNumbered, IsOfKind, IsOfKinds, Walked};

use crate::chains::chain;
use crate::credentials::{credential, lease};
use crate::noting::{note_identifier, note_origin};
use crate::place::Place;
use crate::responses::response;
use crate::secrets::{key as secret, version};
use crate::settings::{clock, mount, policy, role, used};
use crate::tokens::{accessor, object, token};
use crate::trouble::{Rule, Trouble};
use broker_types::Fault;
use records::{Entry, Kind, RecordsTx, Row};
use std::alloc::{AllocError, Global};
use std::collections::{BTreeMap, BTreeSet};

/// What a walk over rows knows of those that it has passed.
#[derive(Drop)]
pub(crate) struct Notes {
    /// The words of tokens whose chains of parents end.
    pub(crate) rooted: BTreeSet<u128>,
    /// The rows that have identifiers, by the words of these.
    pub(crate) identifiers: BTreeMap<u128, Place>,
    /// The responses that have origins, by the words of these.
    pub(crate) origins: BTreeMap<u128, Place>,
}

/// A walk over rows: what it knows of those that it has passed, and what it has found.
#[derive(Drop)]
pub(crate) struct Walk {
    /// What it knows of rows.
    pub(crate) notes: Notes,
    /// The rows in trouble, in the order in which it came to them.
    pub(crate) troubles: Vec<Trouble>,
    /// At so many of them it stops.
    pub(crate) most: usize,
}

/// Whether a walk stops.
fn is_full(walk: &Walk) -> bool
    ensures { result ≡ nat_le walk.now.most (length walk.now.troubles.items) }
{
    walk.troubles.len() >= walk.most
}

/// What a row breaks, by itself and by other rows that it needs.
fn test<T: RecordsTx>(
    alloc: Global,
    tx: &mut T,
    kind: Kind,
    key: &str,
    row: &Row,
) -> Result<Option<Rule>, Fault>
    ensures sound { IsHonest (T.seen tx.new)
        → Finds result (IsSoundAt (table (T.seen tx.old)) kind key.now row.now) }
    ensures broken { IsHonest (T.seen tx.new)
        → Shows result (λ rule. BreaksAt (table (T.seen tx.old)) rule kind key.now row.now) }
    ensures call { IsReading (T.seen tx.old) (T.seen tx.new) result IsMemoryOrStorage }
{
    match kind {
        Kind::Clock => Ok(clock(key, row)),
        Kind::Used => Ok(used(key, row)),
        Kind::Token => token(alloc, tx, key, row),
        Kind::Accessor => accessor(alloc, tx, key, row),
        Kind::Cubby => object(alloc, tx, key, row),
        Kind::Lease => lease(tx, key, row),
        Kind::Credential => credential(tx, key, row),
        Kind::KvKey => secret(alloc, key, row),
        Kind::KvVersion => version(alloc, tx, key, row),
        Kind::Waiting => response(tx, key, row),
        Kind::Mount => Ok(mount(key, row)),
        Kind::Policy => policy(alloc, key, row),
        Kind::Role => Ok(role(key, row)),
    }
}

/// What a row breaks, also with those that were visited before. Its identifiers are noted.
fn visit<T: RecordsTx>(
    alloc: Global,
    tx: &mut T,
    notes: &mut Notes,
    entry: &Entry,
) -> Result<Option<Rule>, Fault>
    ensures passed { IsHonest (T.seen tx.new) → EachEnds (table (T.seen tx.old)) notes.old.rooted
        → Finds result (GoesOnFrom notes.old notes.new
        × IsPassed (table (T.seen tx.old)) (noted notes.new.identifiers) (noted notes.new.origins) entry.now) }
    ensures broken { IsHonest (T.seen tx.new) → AreTrue (table (T.seen tx.old)) notes.old
        → IsFresh notes.old entry.now.0 → Shows result
        (λ rule. BreaksAt (table (T.seen tx.old)) rule entry.now.0.0 entry.now.0.1 entry.now.1) }
    ensures spares { IsHonest (T.seen tx.new) → IsEntry (table (T.seen tx.old)) entry.now
        → OnOk result (Spares (table (T.seen tx.old)) (λ key. key ≢ entry.now.0) notes.old notes.new) }
    ensures rooted { OnOk result (notes.new.rooted ≡ notes.old.rooted) }
    ensures call { IsReading (T.seen tx.old) (T.seen tx.new) result IsMemoryOrStorage }
{
    let key = entry.key.as_str();
    if let Some(rule) = test(alloc, tx, entry.kind, key, &entry.row)? {
        return Ok(Some(rule));
    }
    if let Some(place) = note_identifier(alloc, tx, &mut notes.identifiers, entry.kind, key)? {
        return Ok(Some(place));
    }
    if let Some(origin) = note_origin(alloc, tx, &mut notes.origins, entry.kind, key, &entry.row)? {
        return Ok(Some(origin));
    }
    Ok(chain(&notes.rooted, entry.kind, key))
}

/// Visits a row, which is that of its kind with the number. If it breaks a rule, it is listed.
fn visit_one<T: RecordsTx>(
    alloc: Global,
    tx: &mut T,
    walk: &mut Walk,
    entry: &Entry,
    number: usize,
) -> Result<(), Fault>
    ensures walked { IsHonest (T.seen tx.new) → IsNumbered (T.seen tx.old).rows number entry.now
        → length walk.old.troubles.items < walk.old.most
        → OnOk result (Walked (T.seen tx.old).rows (λ e. e ≡ entry.now) walk.old walk.new) }
    ensures call { IsReading (T.seen tx.old) (T.seen tx.new) result IsMemoryOrStorage }
{
    if let Some(rule) = visit(alloc, tx, &mut walk.notes, entry)? {
        let trouble = Trouble::at(alloc, entry.kind, entry.key.as_str(), rule, number)?;
        walk.troubles.push(trouble)?;
    }
    Ok(())
}

/// Visits rows of a kind that follow so many others of it, until the walk is full, and answers how many there are then.
fn visit_each<T: RecordsTx>(
    alloc: Global,
    tx: &mut T,
    walk: &mut Walk,
    entries: &[Entry],
    before: usize,
) -> Result<usize, Fault>
    ensures walked { IsHonest (T.seen tx.new) → CanBeWalked (T.seen tx.old).rows before entries.now
        → OnOk result (Walked (T.seen tx.old).rows (Contains entries.now) walk.old walk.new) }
    ensures counted { IsHonest (T.seen tx.new) → CanBeWalked (T.seen tx.old).rows before entries.now → IfOk result
        (λ number. length walk.new.troubles.items < walk.old.most → number ≡ before + length entries.now) }
    ensures call { IsReading (T.seen tx.old) (T.seen tx.new) result IsMemoryOrStorage }
{
    let mut number = before;
    for entry in entries {
        if is_full(walk) {
            return Ok(number);
        }
        let Some(next) = number.checked_add(1) else {
            return Err(Fault::Memory);
        };
        visit_one(alloc, tx, walk, entry, next)?;
        number = next;
    }
    Ok(number)
}

/// The least text above the key of the last of the rows.
fn just_above(alloc: Global, page: &[Entry]) -> Result<String, AllocError>
    ensures { (e : RowKey × Row) → slice_get page.now (length page.now - 1) ≡ Some e
        → IfOk result (λ text. string_bytes text ≡ e.0.1 ++ 0 ∷ []) }
{
    match page.last() {
        None => Ok(String::new(alloc)),
        Some(entry) => {
            let mut text = String::from_str(alloc, entry.key.as_str())?;
            text.push_str("\0")?;
            Ok(text)
        }
    }
}

/// How many rows are asked for at once.
const PAGE: u32 = 16;

/// Visits the rows of a kind, until the walk is full. It holds one page of rows at a time.
fn visit_kind<T: RecordsTx>(
    alloc: Global,
    tx: &mut T,
    walk: &mut Walk,
    kind: Kind,
) -> Result<(), Fault>
    ensures walked { IsHonest (T.seen tx.new)
        → OnOk result (Walked (T.seen tx.old).rows (IsOfKind (T.seen tx.old).rows kind) walk.old walk.new) }
    ensures call { IsReading (T.seen tx.old) (T.seen tx.new) result IsMemoryOrStorage }
{
    let mut from = String::new(alloc);
    let mut count = 0;
    for _ in 0..u32::MAX {
        if is_full(walk) {
            return Ok(());
        }
        let page = tx.under_from(kind, "", from.as_str(), PAGE)?;
        count = visit_each(alloc, tx, walk, &page, count)?;
        if page.len() < PAGE as usize {
            return Ok(());
        }
        from = just_above(alloc, &page)?;
    }
    Err(Fault::Memory)
}

/// The kinds of rows.
const KINDS: [Kind; 13] = [
    Kind::Clock,
    Kind::Used,
    Kind::Token,
    Kind::Accessor,
    Kind::Cubby,
    Kind::Lease,
    Kind::Credential,
    Kind::KvKey,
    Kind::KvVersion,
    Kind::Waiting,
    Kind::Mount,
    Kind::Policy,
    Kind::Role,
];

/// Visits the rows of kinds, until the walk is full.
fn visit_kinds<T: RecordsTx>(
    alloc: Global,
    tx: &mut T,
    walk: &mut Walk,
    kinds: &[Kind],
) -> Result<(), Fault>
    ensures walked { IsHonest (T.seen tx.new) → AreApart (λ k. k) kinds.now
        → OnOk result (Walked (T.seen tx.old).rows (IsOfKinds (T.seen tx.old).rows kinds.now) walk.old walk.new) }
    ensures call { IsReading (T.seen tx.old) (T.seen tx.new) result IsMemoryOrStorage }
{
    for kind in kinds {
        visit_kind(alloc, tx, walk, *kind)?;
    }
    Ok(())
}

/// Visits all rows, until the walk is full.
pub(crate) fn visit_all<T: RecordsTx>(
    alloc: Global,
    tx: &mut T,
    walk: &mut Walk,
) -> Result<(), Fault>
    ensures walked { IsHonest (T.seen tx.new) → OnOk result
        (Walked (T.seen tx.old).rows (IsEntry (table (T.seen tx.old))) walk.old walk.new) }
    ensures call { IsReading (T.seen tx.old) (T.seen tx.new) result IsMemoryOrStorage }
{
    visit_kinds(alloc, tx, walk, &KINDS)
}
