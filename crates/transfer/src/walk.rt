//! All rows of a transaction, visited in the order of kinds and keys.

ghost use Rattle.std.specs.Prelude.{◌≡◌, ◌-◌, ◌++◌, ◌∷◌, [], ℕ, List, length, slice_get, flat_map, Some, true, IfOk};
ghost use Rattle.std.specs.Prelude.{string_bytes};
ghost use Rattle.broker_types.specs.Fault.{IsMemoryOrStorage};
ghost use Rattle.broker_types.specs.Words.{entries};
ghost use Rattle.records.specs.Calls.{IsReading};
ghost use Rattle.records.specs.Kind.{RowKey};
ghost use Rattle.records.specs.Transaction.{IsHonest, rows_under};
ghost use Rattle.records.specs.declared.row.Row.{Row};

use broker_types::Fault;
use records::{Entry, Kind, RecordsTx};
use std::alloc::{AllocError, Global};

/// What is done with rows, page by page.
pub(crate) trait Visit: Drop {
    /// From one state to another these rows were visited.
    ghost visited: { Self → Self → List (RowKey × Row) → Type 0 };

    /// Visits the next rows; false if no more are taken. The only error is running out of memory.
    fn visit(&mut self, alloc: Global, page: &[Entry]) -> Result<bool, AllocError>
        ensures { IfOk result (λ more. more ≡ true → (first : Self) (rows : List (RowKey × Row))
            → visited first self.old rows → visited first self.new (rows ++ page.now)) };
}

/// How many rows are asked for at once.
const PAGE: u32 = 128;

/// The least text above the key of the last of the rows.
fn just_above(alloc: Global, page: &[Entry]) -> Result<String, AllocError>
    ensures { (e : RowKey × Row) → slice_get page.now (length page.now - 1) ≡ Some e
        → IfOk result (λ text. string_bytes text ≡ e.0.1 ++ 0 ∷ []) }
{
    match page.last() {
        None => Ok(String::new(alloc)),
        Some(entry) => {
            let mut text = String::from_str(alloc, entry.key.as_str())?;
            text.push_str("\0")?;
            Ok(text)
        }
    }
}

/// Visits the rows of a kind.
fn walk_kind<T: RecordsTx, V: Visit>(
    alloc: Global,
    tx: &mut T,
    visitor: &mut V,
    kind: Kind,
) -> Result<bool, Fault>
    ensures visited { IsHonest (T.seen tx.new) → IfOk result (λ whole. whole ≡ true
        → (first : V) (rows : List (RowKey × Row)) → V.visited first visitor.old rows
        → V.visited first visitor.new (rows ++ rows_under (T.seen tx.old).rows kind [])) }
    ensures call { IsReading (T.seen tx.old) (T.seen tx.new) result IsMemoryOrStorage }
{
    let mut from = String::new(alloc);
    for _ in 0..u64::MAX {
        let page = tx.under_from(kind, "", from.as_str(), PAGE)?;
        if !visitor.visit(alloc, &page)? {
            return Ok(false);
        }
        if page.len() < PAGE as usize {
            return Ok(true);
        }
        from = just_above(alloc, &page)?;
    }
    Err(Fault::Memory)
}

/// The kinds of rows, in the order of their numbers.
const KINDS: [Kind; 13] = [
    Kind::Clock,
    Kind::Used,
    Kind::Token,
    Kind::Accessor,
    Kind::Cubby,
    Kind::Lease,
    Kind::Credential,
    Kind::KvKey,
    Kind::KvVersion,
    Kind::Waiting,
    Kind::Mount,
    Kind::Policy,
    Kind::Role,
];

/// Visits the rows of the kinds.
fn walk_kinds<T: RecordsTx, V: Visit>(
    alloc: Global,
    tx: &mut T,
    visitor: &mut V,
    kinds: &[Kind],
) -> Result<bool, Fault>
    ensures visited { IsHonest (T.seen tx.new) → IfOk result (λ whole. whole ≡ true
        → (first : V) (rows : List (RowKey × Row)) → V.visited first visitor.old rows
        → V.visited first visitor.new (rows ++ flat_map (λ k. rows_under (T.seen tx.old).rows k []) kinds.now)) }
    ensures call { IsReading (T.seen tx.old) (T.seen tx.new) result IsMemoryOrStorage }
{
    for kind in kinds {
        if !walk_kind(alloc, tx, visitor, *kind)? {
            return Ok(false);
        }
    }
    Ok(true)
}

/// Visits all rows, in the order of kinds and keys, a page of at most 128 at a time; or stops where no more are taken,
/// and answers false. It fails only if memory runs out or the storage fails.
pub(crate) fn walk<T: RecordsTx, V: Visit>(
    alloc: Global,
    tx: &mut T,
    visitor: &mut V,
) -> Result<bool, Fault>
    ensures visited { IsHonest (T.seen tx.new) → IfOk result (λ whole. whole ≡ true
        → (first : V) → V.visited first visitor.old [] → V.visited first visitor.new (entries (T.seen tx.old).rows)) }
    ensures call { IsReading (T.seen tx.old) (T.seen tx.new) result IsMemoryOrStorage }
{
    walk_kinds(alloc, tx, visitor, &KINDS)
}
