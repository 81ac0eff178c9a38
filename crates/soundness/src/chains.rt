//! Tokens whose chains of parents end.

ghost use Rattle.std.specs.Prelude.{◌≡◌, ◌<◌, ◌^◌, All, false, IfOk, IfErr, IfNone, IfSome, OnOk};
ghost use Rattle.std.specs.Bool.{OnTrue};
ghost use Rattle.broker_types.specs.Fault.{IsMemoryOrStorage};
ghost use Rattle.broker_types.specs.Identifier.{id};
ghost use Rattle.broker_types.specs.Sound.{IsTokenText};
ghost use Rattle.broker_types.specs.TokenText.{token_text};
ghost use Rattle.broker_types.specs.declared.fault.Fault.TheVariants as faults;
ghost use Rattle.records.specs.declared.row.Row.{Row};
ghost use Rattle.records.specs.Calls.{IsReading};
ghost use Rattle.records.specs.Table.{Table, table};
ghost use Rattle.records.specs.Transaction.{IsHonest};
ghost use Rattle.soundness.specs.Broken.{BreaksAt, IsRooted};
ghost use Rattle.soundness.specs.Chains.{HasWordOf, HasEachRooted, OnlyAdds};
ghost use Rattle.soundness.specs.SoundRows.{Ends};
ghost use Rattle.soundness.specs.Visiting.{EachEnds, HasItsEnd, IsAbove};

use crate::texts::{token_identifier, word_of};
use crate::trouble::Rule;
use broker_types::{Fault, TextBuf};
use records::{Entry, Kind, RecordsTx};
use std::alloc::Global;
use std::collections::BTreeSet;

/// The word of a token's identifier.
fn word_of_token(token: &str) -> Option<u128>
    ensures sound { IfSome result (λ word. (word < 2 ^ 128) × (token.now ≡ token_text (id word))) }
    ensures whole { IfNone result (IsTokenText token.now → ⊥) }
{
    let identifier = token_identifier(token)?;
    word_of(identifier)
}

/// Adds a token whose chain of parents ends, unless it is there.
fn add(
    alloc: Global,
    words: &mut BTreeSet<u128>,
    queue: &mut Vec<TextBuf>,
    token: &str,
) -> Result<(), Fault>
    ensures words { OnOk result ((rows : Table) → Ends rows token.now
        → EachEnds rows words.old → EachEnds rows words.new) }
    ensures queue { OnOk result ((rows : Table) → Ends rows token.now
        → All (IsAbove rows) queue.old.items → All (IsAbove rows) queue.new.items) }
    ensures added { OnOk result (HasWordOf words.new token.now) }
    ensures grows { OnOk result (OnlyAdds words.old words.new queue.old.items queue.new.items) }
    ensures memory { IfErr result (λ fault. fault ≡ faults.Memory) }
{
    let Some(word) = word_of_token(token) else {
        return Ok(());
    };
    if words.insert(word)? {
        queue.push(TextBuf::copied(alloc, token)?)?;
    }
    Ok(())
}

/// Adds tokens whose chains of parents end, those that are not there.
fn add_each(
    alloc: Global,
    words: &mut BTreeSet<u128>,
    queue: &mut Vec<TextBuf>,
    tokens: &[Entry],
) -> Result<(), Fault>
    ensures words { OnOk result ((rows : Table) → All (λ e. Ends rows e.0.1) tokens.now
        → EachEnds rows words.old → EachEnds rows words.new) }
    ensures queue { OnOk result ((rows : Table) → All (λ e. Ends rows e.0.1) tokens.now
        → All (IsAbove rows) queue.old.items → All (IsAbove rows) queue.new.items) }
    ensures added { OnOk result (All (λ e. HasWordOf words.new e.0.1) tokens.now) }
    ensures grows { OnOk result (OnlyAdds words.old words.new queue.old.items queue.new.items) }
    ensures memory { IfErr result (λ fault. fault ≡ faults.Memory) }
{
    for token in tokens {
        add(alloc, words, queue, token.key.as_str())?;
    }
    Ok(())
}

/// The words of tokens whose chains of parents end: of those that no token owns, and then of the children of one after
/// the other.
pub(crate) fn rooted<T: RecordsTx>(alloc: Global, tx: &mut T) -> Result<BTreeSet<u128>, Fault>
    ensures ends { IsHonest (T.seen tx.new) → IfOk result (EachEnds (table (T.seen tx.old))) }
    ensures whole { IsHonest (T.seen tx.new) → IfOk result (HasEachRooted (table (T.seen tx.old))) }
    ensures call { IsReading (T.seen tx.old) (T.seen tx.new) result IsMemoryOrStorage }
{
    let mut words = BTreeSet::new(alloc);
    let mut queue = Vec::new(alloc);
    queue.push(TextBuf::copied(alloc, "")?)?;
    let mut next = 0;
    while next < queue.len() {
        let children = tx.by_owner(Kind::Token, queue[next].as_str())?;
        add_each(alloc, &mut words, &mut queue, &children)?;
        next += 1;
    }
    Ok(words)
}

/// Whether the word of a token is among the words.
fn is_among(words: &BTreeSet<u128>, token: &str) -> bool
    ensures sound { (rows : Table) → EachEnds rows words.now → OnTrue result (Ends rows token.now) }
    ensures whole { (rows : Table) → HasEachRooted rows words.now → result ≡ false → IsRooted rows token.now → ⊥ }
{
    match word_of_token(token) {
        Some(word) => words.contains(&word),
        None => false,
    }
}

/// What the row of a token breaks whose chain of parents does not end.
pub(crate) fn chain(words: &BTreeSet<u128>, kind: Kind, key: &str) -> Option<Rule>
    ensures sound { (rows : Table) → EachEnds rows words.now → IfNone result (HasItsEnd rows kind key.now) }
    ensures broken { (rows : Table) (row : Row) → HasEachRooted rows words.now
        → IfSome result (λ rule. BreaksAt rows rule kind key.now row) }
{
    match kind {
        Kind::Token => {
            if is_among(words, key) {
                None
            } else {
                Some(Rule::Chain)
            }
        }
        _ => None,
    }
}
