//! Cubbyholes, read.

ghost use Rattle.std.specs.Prelude.{◌≡◌, length, is_some, IfOk, IfErr};
ghost use Rattle.broker_types.specs.Broker.{Broker};
ghost use Rattle.broker_types.specs.Fault.{IsMemoryOrStorage};
ghost use Rattle.broker_types.specs.Sound.{Forms, SoundTokens, IsShortText};
ghost use Rattle.records.specs.declared.kind.Kind.TheVariants as kind;
ghost use Rattle.records.specs.Calls.{IsReadFault, IsReading};
ghost use Rattle.records.specs.Parts.{of_cubbyholes, Tells};
ghost use Rattle.records.specs.RowReaders.{IsSomeIn, Reads, shown};
ghost use Rattle.records.specs.RowForms.{cubby_row};
ghost use Rattle.records.specs.Rows.{token_len};
ghost use Rattle.records.specs.Table.{table};
ghost use Rattle.records.specs.Transaction.{IsHonest};
ghost use Rattle.cubbyhole.specs.Cubbyhole as cubbyhole;
ghost use Rattle.cubbyhole.specs.Objects as objects;
ghost use Rattle.cubbyhole.specs.Objects.{children_in, IsObjectAt, IsDamagedAt};

use crate::keys::{folder_key, object_key};
use broker_types::{Fault, TextBuf};
use records::{Kind, RecordsTx, Row, list_children, read_cubby};
use std::alloc::Global;

/// The compact text of the object that a row of the token's cubbyhole keeps. It fails as `Damaged` if
/// the row is not one of the token's cubbyhole.
fn object_of<'r>(kept: &'r Row, token: &str) -> Result<&'r str, Fault>
    ensures { Reads IsShortText (cubby_row token.now) kept.now (shown result (λ s. s.now)) }
{
    let owner = kept.owner.as_str();
    if owner != token {
        return Err(Fault::Damaged);
    }
    read_cubby(kept)
}

/// The compact text of the object at a path of a token's cubbyhole, if there is one. It fails as
/// `Damaged` if the row at the path is not one of the token's cubbyhole, and also if memory runs out or
/// the storage fails (Vault's documentation, "Cubbyhole secrets engine", read secret).
pub fn read<T: RecordsTx>(
    alloc: Global,
    tx: &mut T,
    token: &str,
    path: &str,
) -> Result<Option<TextBuf>, Fault>
    ensures found { IsHonest (T.seen tx.new) → IfOk result (IsObjectAt (table (T.seen tx.old)) token.now path.now) }
    ensures short { IfOk result (IsSomeIn IsShortText) }
    ensures told { IsHonest (T.seen tx.new) → (b : Broker) → Tells of_cubbyholes (table (T.seen tx.old)) b
        → length token.now ≡ token_len → IfOk result (λ object. object ≡ cubbyhole.object_at b token.now path.now) }
    ensures wants { IsHonest (T.seen tx.new) → (forms : Forms) (b : Broker) → SoundTokens forms b.tokens
        → Tells of_cubbyholes (table (T.seen tx.old)) b → length token.now ≡ token_len
        → IfErr result IsMemoryOrStorage }
    ensures call { IsReading (T.seen tx.old) (T.seen tx.new) result
        (IsReadFault (IsHonest (T.seen tx.new) → IsDamagedAt (table (T.seen tx.old)) token.now path.now)) }
{
    let key = object_key(alloc, token, path)?;
    let Some(kept) = tx.get(Kind::Cubby, key.as_str())? else {
        return Ok(None);
    };
    let object = object_of(&kept, token)?;
    Ok(Some(TextBuf::copied(alloc, object)?))
}

/// Whether something is at a path of a token's cubbyhole. The row at the path tells it by being there: it is not
/// read, so a damaged one counts too. It fails only if memory runs out or the storage fails (Vault's documentation,
/// "Policies", capabilities: a write to a path where nothing is needs `create`, and any other `update`).
pub fn is_there<T: RecordsTx>(
    alloc: Global,
    tx: &mut T,
    token: &str,
    path: &str,
) -> Result<bool, Fault>
    ensures found { IsHonest (T.seen tx.new) → IfOk result
        (λ v. v ≡ is_some (table (T.seen tx.old) kind.Cubby (objects.object_key token.now path.now))) }
    ensures told { IsHonest (T.seen tx.new) → (b : Broker) → Tells of_cubbyholes (table (T.seen tx.old)) b
        → length token.now ≡ token_len → IfOk result (λ v. v ≡ is_some (cubbyhole.object_at b token.now path.now)) }
    ensures call { IsReading (T.seen tx.old) (T.seen tx.new) result IsMemoryOrStorage }
{
    let place = object_key(alloc, token, path)?;
    Ok(tx.get(Kind::Cubby, place.as_str())?.is_some())
}

/// The immediate children of a folder of a token's cubbyhole, in the order of their bytes, each once: names, and
/// folders with a slash at their ends. The empty path is for the whole cubbyhole. There are none if nothing is in the
/// folder. It fails only if memory runs out or the storage fails (Vault's documentation, "Cubbyhole secrets engine",
/// list secrets).
pub fn list<T: RecordsTx>(
    alloc: Global,
    tx: &mut T,
    token: &str,
    path: &str,
) -> Result<Vec<TextBuf>, Fault>
    ensures found { IsHonest (T.seen tx.new)
        → IfOk result (λ names. names.items ≡ children_in (T.seen tx.old).rows token.now path.now) }
    ensures told { IsHonest (T.seen tx.new) → (b : Broker) → Tells of_cubbyholes (table (T.seen tx.old)) b
        → length token.now ≡ token_len → IfOk result (λ names. names.items ≡ cubbyhole.list b token.now path.now) }
    ensures call { IsReading (T.seen tx.old) (T.seen tx.new) result IsMemoryOrStorage }
{
    let key = folder_key(alloc, token, path)?;
    list_children(alloc, tx, Kind::Cubby, key.as_str())
}
