//! Tokens by their accessors.

ghost use Rattle.std.specs.Prelude.{◌≡◌, [], IfOk, IfErr, OnOk};
ghost use Rattle.std.specs.List.{AllByRecursion};
ghost use Rattle.broker_types.specs.Fault.{IsMemoryOrStorage};
ghost use Rattle.records.specs.Calls.{IsReading, IsReadFault, IsDecodeFault, OfEachBroker};
ghost use Rattle.records.specs.Table.{table};
ghost use Rattle.records.specs.Transaction.{IsHonest};
ghost use Rattle.token_tree.specs.Accessors.{IsFoundAt, IsDamagedAccessor, IsAccessorRow, AreAccessorRows};
ghost use Rattle.token_tree.specs.Accessors.{with_accessor, with_accessors, token_accessors};
ghost use Rattle.token_tree.specs.Tokens as tokens;
ghost use Rattle.token_tree.specs.Tokens.{RepresentsTokens, accessors_of};

use broker_types::{Fault, TextBuf};
use records::{Entry, Holder, Kind, RecordsTx, read_accessor};
use std::alloc::Global;

/// The token that an accessor names, if it names one. That of a wrapping token names none. It fails as `Damaged` if
/// the row of the accessor is not one, and also if memory runs out or the storage fails (Vault's documentation,
/// "Tokens", token accessors).
pub fn find_accessor<T: RecordsTx>(tx: &mut T, accessor: &str) -> Result<Option<TextBuf>, Fault>
    ensures found { IsHonest (T.seen tx.new) → IfOk result (IsFoundAt (table (T.seen tx.old)) accessor.now) }
    ensures told { OfEachBroker RepresentsTokens (T.seen tx.old) (T.seen tx.new) (λ b.
        IfOk result (λ found. found ≡ tokens.find_accessor b accessor.now)) }
    ensures wants { OfEachBroker RepresentsTokens (T.seen tx.old) (T.seen tx.new)
        (λ b. IfErr result IsMemoryOrStorage) }
    ensures call { IsReading (T.seen tx.old) (T.seen tx.new) result
        (IsReadFault (IsHonest (T.seen tx.new) → IsDamagedAccessor (table (T.seen tx.old)) accessor.now)) }
{
    let Some(kept) = tx.get(Kind::Accessor, accessor)? else {
        return Ok(None);
    };
    let holder = read_accessor(&kept)?;
    match holder {
        Holder::Token => Ok(Some(kept.owner)),
        Holder::WrappingToken => Ok(None),
    }
}

/// Adds an accessor to the names, if it names a token.
fn add_accessor(alloc: Global, names: &mut Vec<TextBuf>, entry: &Entry) -> Result<(), Fault>
    ensures found { OnOk result (names.new.items ≡ with_accessor entry.now names.old.items) }
    ensures readable { OnOk result (IsAccessorRow entry.now) }
    ensures faults { IfErr result (IsDecodeFault (IsAccessorRow entry.now → ⊥)) }
{
    let holder = read_accessor(&entry.row)?;
    match holder {
        Holder::Token => {
            names.push(TextBuf::copied(alloc, entry.key.as_str())?)?;
            Ok(())
        }
        Holder::WrappingToken => Ok(()),
    }
}

/// The accessors among the entries that name tokens.
fn names_of(alloc: Global, entries: &[Entry]) -> Result<Vec<TextBuf>, Fault>
    ensures found { IfOk result (λ names. names.items ≡ with_accessors entries.now []) }
    ensures readable { OnOk result (AllByRecursion IsAccessorRow entries.now) }
    ensures faults { IfErr result (IsDecodeFault (AllByRecursion IsAccessorRow entries.now → ⊥)) }
{
    let mut names = Vec::new(alloc);
    for entry in entries {
        add_accessor(alloc, &mut names, entry)?;
    }
    Ok(names)
}

/// The accessors of all tokens, in the order of their bytes, each once. It fails as `Damaged` if the row of an
/// accessor is not one, and also if memory runs out or the storage fails (Vault's documentation, "Tokens", list
/// accessors).
pub fn accessors<T: RecordsTx>(alloc: Global, tx: &mut T) -> Result<Vec<TextBuf>, Fault>
    ensures found { IsHonest (T.seen tx.new)
        → IfOk result (λ names. names.items ≡ token_accessors (T.seen tx.old).rows) }
    ensures told { OfEachBroker RepresentsTokens (T.seen tx.old) (T.seen tx.new) (λ b.
        IfOk result (λ names. names.items ≡ accessors_of b)) }
    ensures readable { IsHonest (T.seen tx.new) → OnOk result (AreAccessorRows (T.seen tx.old).rows) }
    ensures wants { OfEachBroker RepresentsTokens (T.seen tx.old) (T.seen tx.new)
        (λ b. IfErr result IsMemoryOrStorage) }
    ensures call { IsReading (T.seen tx.old) (T.seen tx.new) result
        (IsReadFault (IsHonest (T.seen tx.new) → AreAccessorRows (T.seen tx.old).rows → ⊥)) }
{
    let listed = tx.under(Kind::Accessor, "")?;
    names_of(alloc, &listed)
}
