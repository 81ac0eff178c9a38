//! Rows changed until they are those of a sound broker.

ghost use Rattle.std.specs.Prelude.{◌≡◌, IfOk, OnOk};
ghost use Rattle.std.specs.List.{fold};
ghost use Rattle.broker_types.specs.Fault.{IsMemoryOrStorage};
ghost use Rattle.records.specs.Calls.{IsCall};
ghost use Rattle.records.specs.Transaction.{IsHonest, Rows};
ghost use Rattle.soundness.specs.Laws.{AreOfABroker};
ghost use Rattle.salvage.specs.Changes.{changed};

use crate::change::Change;
use broker_types::{Fault, Moment, TextBuf};
use database_check::Defect;
use records::{Kind, RecordsTx, write_clock, write_used};
use soundness::{Rule, Trouble, check_all};
use std::alloc::Global;

/// How many bytes the text of an identifier has (RFC 9562, section 4).
const IDENTIFIER: usize = 36;

/// At how many rows in trouble a walk stops. Each takes some 100 bytes until it is mended.
const MOST: usize = 100_000;

/// Changes the rows of a transaction until they are those of a sound broker, as between two requests, and answers what
/// was changed, in its order. It goes by rounds: all rows are checked, and what is wrong with those in trouble is
/// changed, until none is. A row that breaks a rule is left out; but an identifier that was not marked as given out is
/// marked, since a row has it, and a clock without a row is set to the moment. A row whose identifier or origin is in
/// another row too is left out only in a round in which nothing else is in trouble, so that the other one stands. It
/// fails only if memory runs out or the storage fails.
pub fn salvage<T: RecordsTx>(
    alloc: Global,
    tx: &mut T,
    moment: Moment,
) -> Result<Vec<Change>, Fault>
    ensures sound { IsHonest (T.seen tx.new) → OnOk result (AreOfABroker (T.seen tx.new).rows) }
    ensures rows { IsHonest (T.seen tx.new) → IfOk result (λ changes.
        (T.seen tx.new).rows ≡ fold changed (T.seen tx.old).rows changes.items) }
    ensures call { IsCall (T.seen tx.old) (T.seen tx.new) result IsMemoryOrStorage }
{
    let mut changes = Vec::new(alloc);
    for _ in 0..u64::MAX {
        let troubles = check_all(alloc, tx, MOST)?;
        if troubles.is_empty() {
            return Ok(changes);
        }
        mend_each(alloc, tx, moment, &troubles, &mut changes)?;
    }
    // So many changes find no memory.
    Err(Fault::Memory)
}

/// In which turn a row that breaks the rule is mended: those that break it together with another row come last. Two
/// responses of one origin come before two rows of one identifier, since the first may be one of the second.
fn turn(rule: Rule) -> u8 {
    match rule {
        Rule::Place => 2,
        Rule::Origin => 1,
        _ => 0,
    }
}

/// The first turn in which one of the rows is mended.
fn first_turn(troubles: &[Trouble]) -> u8 {
    let mut first = u8::MAX;
    for trouble in troubles {
        first = first.min(turn(trouble.rule));
    }
    first
}

/// Changes what is wrong with rows, those whose turn it is, and adds it to the changes.
fn mend_each<T: RecordsTx>(
    alloc: Global,
    tx: &mut T,
    moment: Moment,
    troubles: &[Trouble],
    changes: &mut Vec<Change>,
) -> Result<(), Fault>
    ensures rows { IsHonest (T.seen tx.new) → OnOk result ((first : Rows)
        → (T.seen tx.old).rows ≡ fold changed first changes.old.items
        → (T.seen tx.new).rows ≡ fold changed first changes.new.items) }
    ensures call { IsCall (T.seen tx.old) (T.seen tx.new) result IsMemoryOrStorage }
{
    let first = first_turn(troubles);
    for trouble in troubles {
        if turn(trouble.rule) == first {
            changes.push(mend(alloc, tx, moment, trouble)?)?;
        }
    }
    Ok(())
}

/// Changes what is wrong with a row.
fn mend<T: RecordsTx>(
    alloc: Global,
    tx: &mut T,
    moment: Moment,
    trouble: &Trouble,
) -> Result<Change, Fault>
    ensures rows { IsHonest (T.seen tx.new) → IfOk result (λ change.
        (T.seen tx.new).rows ≡ changed (T.seen tx.old).rows change) }
    ensures call { IsCall (T.seen tx.old) (T.seen tx.new) result IsMemoryOrStorage }
{
    let defect = Defect::at(alloc, tx, trouble)?;
    match trouble.rule {
        Rule::Missing => set_clock(alloc, tx, moment),
        Rule::Mark => mark(alloc, tx, trouble, defect),
        _ => leave_out(alloc, tx, trouble, defect),
    }
}

/// Sets the clock.
fn set_clock<T: RecordsTx>(alloc: Global, tx: &mut T, moment: Moment) -> Result<Change, Fault>
    ensures rows { IsHonest (T.seen tx.new) → IfOk result (λ change.
        (T.seen tx.new).rows ≡ changed (T.seen tx.old).rows change) }
    ensures call { IsCall (T.seen tx.old) (T.seen tx.new) result IsMemoryOrStorage }
{
    tx.put(Kind::Clock, "", write_clock(alloc, moment)?)?;
    Ok(Change::ClockSet(moment))
}

/// Marks the identifier of a row as given out. It is the end of its key, whatever the kind.
fn mark<T: RecordsTx>(
    alloc: Global,
    tx: &mut T,
    trouble: &Trouble,
    defect: Defect,
) -> Result<Change, Fault>
    ensures rows { IsHonest (T.seen tx.new) → IfOk result (λ change.
        (T.seen tx.new).rows ≡ changed (T.seen tx.old).rows change) }
    ensures call { IsCall (T.seen tx.old) (T.seen tx.new) result IsMemoryOrStorage }
{
    let key = trouble.key.as_str();
    let Some(identifier) = key.get(key.len().saturating_sub(IDENTIFIER)..) else {
        return leave_out(alloc, tx, trouble, defect);
    };
    let identifier = TextBuf::copied(alloc, identifier)?;
    tx.put(Kind::Used, identifier.as_str(), write_used(alloc)?)?;
    Ok(Change::Marked { identifier, defect })
}

/// Leaves a row out.
fn leave_out<T: RecordsTx>(
    alloc: Global,
    tx: &mut T,
    trouble: &Trouble,
    defect: Defect,
) -> Result<Change, Fault>
    ensures rows { IsHonest (T.seen tx.new) → IfOk result (λ change.
        (T.seen tx.new).rows ≡ changed (T.seen tx.old).rows change) }
    ensures call { IsCall (T.seen tx.old) (T.seen tx.new) result IsMemoryOrStorage }
{
    let key = TextBuf::copied(alloc, trouble.key.as_str())?;
    tx.remove(trouble.kind, key.as_str())?;
    Ok(Change::LeftOut {
        kind: trouble.kind,
        key,
        defect,
    })
}
