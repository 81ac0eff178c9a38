//! The identifiers that a request gives out.

ghost use Rattle.std.specs.Prelude.{◌≡◌, ◌∷◌, [], Option, IfOk, OnOk};
ghost use Rattle.broker_types.specs.Broker.{Broker};
ghost use Rattle.broker_types.specs.Fault.{IsMemoryOrStorage};
ghost use Rattle.broker_types.specs.Identifier.{id};
ghost use Rattle.broker_types.specs.Names.{names_of};
ghost use Rattle.broker_types.specs.Sound.{IsIdentifier};
ghost use Rattle.broker_types.specs.Text.{Text};
ghost use Rattle.broker_types.specs.TokenText.{token_text};
ghost use Rattle.broker_types.specs.Used as model;
ghost use Rattle.records.specs.RowForms.{used_row};
ghost use Rattle.records.specs.Table.{with_row, table};
ghost use Rattle.records.specs.Transaction.{IsHonest};
ghost use Rattle.records.specs.declared.kind.Kind.TheVariants as kind;
ghost use Rattle.records.specs.Calls.{IsCall, IsReading};
ghost use Rattle.broker_model.specs.Traits.{names_needed};
ghost use Rattle.broker_rows.specs.Marks.{are_unmarked};
ghost use Rattle.broker_rows.specs.Operating.{ArePrinted};
ghost use Rattle.broker_rows.specs.Representing.{Represents};

use broker_model::Needs;
use broker_types::{Fault, TextBuf, Words, id_text, is_among};
use records::{Kind, RecordsTx, write_used};
use std::alloc::{AllocError, Global};

/// The identifiers that an operation needs, which have to be new, printed. The only error is running out of memory.
#[tactic(auto, unfolding(broker_types::specs::Names::names_of))]
pub fn needed(alloc: Global, words: &Words, needs: Needs) -> Result<Vec<TextBuf>, AllocError>
    ensures { IfOk result (λ own. ArePrinted own.items (names_needed needs (names_of words.now))) }
{
    match needs {
        Needs::Nothing => Ok(Vec::new(alloc)),
        Needs::Token => printed(alloc, words.token(), words.accessor()),
        Needs::Lease => printed(alloc, words.lease(), words.credential()),
        Needs::WrappingToken => printed(alloc, words.wrapping_token(), words.wrapping_accessor()),
    }
}

/// The identifiers of two words, printed. The only error is running out of memory.
fn printed(alloc: Global, first: u128, second: u128) -> Result<Vec<TextBuf>, AllocError>
    ensures { IfOk result (λ own. ArePrinted own.items (id first ∷ id second ∷ [])) }
{
    let first = identifier(alloc, first)?;
    let second = identifier(alloc, second)?;
    Ok(vec![in alloc; first, second]?)
}

/// The identifier of a word, printed. The only error is running out of memory.
pub fn identifier(alloc: Global, word: u128) -> Result<TextBuf, AllocError>
    ensures value { IfOk result (λ t. t ≡ id word) }
    ensures good { IfOk result IsIdentifier }
{
    Ok(TextBuf::new(id_text(alloc, word)?))
}

/// The token of an identifier, printed. The only error is running out of memory.
pub fn token_text(alloc: Global, identifier: &str) -> Result<TextBuf, AllocError>
    ensures { IfOk result (λ text. text ≡ token_text identifier.now) }
{
    let mut text = String::from_str(alloc, "hvs.")?;
    text.push_str(identifier)?;
    Ok(TextBuf::new(text))
}

/// Whether identifiers are new: no two are equal, and none was ever given out.
/// It fails with `Memory` if memory runs out, and with `Storage` if the transaction's storage failed.
pub fn are_new<T: RecordsTx>(tx: &mut T, identifiers: &[TextBuf]) -> Result<bool, Fault>
    ensures told { IsHonest (T.seen tx.new) → (who : Option Text) (b : Broker) → Represents who (T.seen tx.old).rows b
        → IfOk result (λ v. v ≡ model.are_new b.used identifiers.now) }
    ensures call { IsReading (T.seen tx.old) (T.seen tx.new) result IsMemoryOrStorage }
{
    are_unmarked(tx, identifiers)
}

/// Whether no row marks one of the identifiers as given out, and no two are equal.
fn are_unmarked<T: RecordsTx>(tx: &mut T, identifiers: &[TextBuf]) -> Result<bool, Fault>
    ensures found { IsHonest (T.seen tx.new)
        → IfOk result (λ v. v ≡ are_unmarked (table (T.seen tx.old)) identifiers.now) }
    ensures call { IsReading (T.seen tx.old) (T.seen tx.new) result IsMemoryOrStorage }
{
    let mut later = identifiers;
    while let [first, rest @ ..] = later {
        if is_among(rest, first.as_str()) || tx.get(Kind::Used, first.as_str())?.is_some() {
            return Ok(false);
        }
        later = rest;
    }
    Ok(true)
}

/// Marks an identifier as given out.
/// It fails with `Memory` if memory runs out, and with `Storage` if the transaction's storage failed.
pub fn use_up<T: RecordsTx>(alloc: Global, tx: &mut T, identifier: &str) -> Result<(), Fault>
    ensures rows { IsHonest (T.seen tx.new) → OnOk result (table (T.seen tx.new)
        ≡ with_row (table (T.seen tx.old)) kind.Used identifier.now used_row) }
    ensures call { IsCall (T.seen tx.old) (T.seen tx.new) result IsMemoryOrStorage }
{
    tx.put(Kind::Used, identifier, write_used(alloc)?)
}
