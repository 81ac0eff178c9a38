//! The rows of a file as those of a sound broker.

ghost use Rattle.std.specs.Prelude.{◌≡◌, ℕ, List, Some, IfOk};
ghost use Rattle.std.specs.FinMap as map;
ghost use Rattle.broker_types.specs.Fault.{IsMemoryOrStorage};
ghost use Rattle.records.specs.Calls.{IsCall, IsReading};
ghost use Rattle.records.specs.Transaction.{IsHonest};
ghost use Rattle.transfer.specs.Reading.{left_in};
ghost use Rattle.database_transfer.specs.Imports.{IsImported, IsMade, IsSoundAsItIs};

use broker_types::{Fault, Moment};
use database_check::Defect;
use endpoints::Source;
use records::{RecordsTx, upgrade_keys};
use salvage::{Change, salvage};
use soundness::check;
use std::alloc::Global;
use transfer::{Lines, Refusal, read_rows};

/// What is done with rows that are those of no sound broker.
#[derive(Clone, Copy, Debug, PartialEq, Eq)]
pub enum How {
    /// They are refused.
    Whole,
    /// They are changed until they are those of one; a clock that has no row is set to the moment.
    Salvaged(Moment),
}

/// What became of a file that was read.
#[derive(Drop)]
pub enum Outcome {
    /// Its rows are those of a sound broker, after these changes, in their order.
    Done(Vec<Change>),
    /// It is no file of rows, by this line.
    Refused(Refusal),
    /// This row keeps its rows from being those of a sound broker.
    Unsound(Defect),
}

/// Puts the rows of a file into a transaction that has none, with those of keys in format 1 rewritten as an opening
/// does, and changes them if that is asked for. If it is done they are those of a sound broker, as between two
/// requests; or else give the transaction up. It fails only if memory runs out or the storage fails.
pub fn import<T: RecordsTx, R: Source + Drop>(
    alloc: Global,
    tx: &mut T,
    lines: &mut Lines<R>,
    how: How,
) -> Result<Outcome, Fault>
    ensures imported { IsHonest (T.seen tx.new) → (T.seen tx.old).rows ≡ map.empty → (text : List ℕ)
        → left_in R.left lines.old ≡ Some text → IfOk result (IsImported text how (T.seen tx.new).rows) }
    ensures call { IsCall (T.seen tx.old) (T.seen tx.new) result IsMemoryOrStorage }
{
    if let Err(refusal) = read_rows(alloc, tx, lines)? {
        return Ok(Outcome::Refused(refusal));
    }
    make_sound(alloc, tx, how)
}

/// Rewrites the rows of keys in format 1, and changes or refuses rows that are then not those of a sound broker.
fn make_sound<T: RecordsTx>(alloc: Global, tx: &mut T, how: How) -> Result<Outcome, Fault>
    ensures made { IsHonest (T.seen tx.new)
        → IfOk result (IsMade how (T.seen tx.old).rows (T.seen tx.new).rows) }
    ensures call { IsCall (T.seen tx.old) (T.seen tx.new) result IsMemoryOrStorage }
{
    upgrade_keys(alloc, tx)?;
    match how {
        How::Whole => refuse_unsound(alloc, tx),
        How::Salvaged(moment) => Ok(Outcome::Done(salvage(alloc, tx, moment)?)),
    }
}

/// Refuses rows that are not those of a sound broker.
fn refuse_unsound<T: RecordsTx>(alloc: Global, tx: &mut T) -> Result<Outcome, Fault>
    ensures sound { IsHonest (T.seen tx.new) → IfOk result (IsSoundAsItIs (T.seen tx.old).rows) }
    ensures call { IsReading (T.seen tx.old) (T.seen tx.new) result IsMemoryOrStorage }
{
    match check(alloc, tx)? {
        None => Ok(Outcome::Done(Vec::new(alloc))),
        Some(trouble) => Ok(Outcome::Unsound(Defect::at(alloc, tx, &trouble)?)),
    }
}
