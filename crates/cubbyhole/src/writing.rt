//! Cubbyholes, written.

ghost use Rattle.std.specs.Prelude.{◌≡◌, ◌≢◌, ◌<◌, ◌^◌, [], None, length, OnOk};
ghost use Rattle.broker_types.specs.Map.{get};
ghost use Rattle.broker_types.specs.Broker.{Broker};
ghost use Rattle.broker_types.specs.Fault.{IsMemoryOrStorage};
ghost use Rattle.records.specs.declared.kind.Kind.TheVariants as kind;
ghost use Rattle.records.specs.Calls.{IsChange};
ghost use Rattle.records.specs.Parts.{Part, Tells};
ghost use Rattle.records.specs.RowForms.{cubby_row};
ghost use Rattle.records.specs.Rows.{token_len};
ghost use Rattle.records.specs.Table.{table, with_row, without_row, without_under, without_owned};
ghost use Rattle.records.specs.Transaction.{IsHonest};
ghost use Rattle.cubbyhole.specs.Cubbyhole as cubbyhole;
ghost use Rattle.cubbyhole.specs.Objects as objects;
ghost use Rattle.cubbyhole.specs.Objects.{KeepsOtherOwners, AreFiled};

use crate::keys::object_key;
use broker_types::Fault;
use records::{Kind, RecordsTx, remove_under, write_cubby};
use std::alloc::Global;

/// Puts the compact text of an object at a path of a token's cubbyhole, in place of the one that is
/// there. It fails only if memory runs out or the storage fails (Vault's documentation, "Cubbyhole
/// secrets engine", create or update secret).
pub fn write<T: RecordsTx>(
    alloc: Global,
    tx: &mut T,
    token: &str,
    path: &str,
    object: &str,
) -> Result<(), Fault>
    requires { length object.now < 2 ^ 32 }
    ensures rows { IsHonest (T.seen tx.new) → OnOk result (table (T.seen tx.new) ≡ with_row (table (T.seen tx.old))
        kind.Cubby (objects.object_key token.now path.now) (cubby_row token.now object.now)) }
    ensures told { IsHonest (T.seen tx.new) → (part : Part) (b : Broker) → Tells part (table (T.seen tx.old)) b
        → get b.tokens token.now ≢ None → length token.now ≡ token_len
        → OnOk result (Tells part (table (T.seen tx.new)) (cubbyhole.write b token.now path.now object.now)) }
    ensures call { IsChange (KeepsOtherOwners token.now) (T.seen tx.old) (T.seen tx.new) result IsMemoryOrStorage }
{
    let key = object_key(alloc, token, path)?;
    let row = write_cubby(alloc, token, object)?;
    tx.put(Kind::Cubby, key.as_str(), row)
}

/// Removes what is at a path of a token's cubbyhole, if there is anything. It fails only if memory runs
/// out or the storage fails (Vault's documentation, "Cubbyhole secrets engine", delete secret).
pub fn delete<T: RecordsTx>(alloc: Global, tx: &mut T, token: &str, path: &str) -> Result<(), Fault>
    ensures rows { IsHonest (T.seen tx.new) → OnOk result (table (T.seen tx.new)
        ≡ without_row (table (T.seen tx.old)) kind.Cubby (objects.object_key token.now path.now)) }
    ensures told { IsHonest (T.seen tx.new) → (part : Part) (b : Broker) → Tells part (table (T.seen tx.old)) b
        → length token.now ≡ token_len
        → OnOk result (Tells part (table (T.seen tx.new)) (cubbyhole.delete b token.now path.now)) }
    ensures call { IsChange (KeepsOtherOwners token.now) (T.seen tx.old) (T.seen tx.new) result IsMemoryOrStorage }
{
    let key = object_key(alloc, token, path)?;
    tx.remove(Kind::Cubby, key.as_str())
}

/// Removes a token's whole cubbyhole, also after the token has ended. It fails only if memory runs out
/// or the storage fails (Vault's documentation, "Cubbyhole secrets engine": a cubbyhole goes with its
/// token).
pub fn drop_owner<T: RecordsTx>(alloc: Global, tx: &mut T, token: &str) -> Result<(), Fault>
    ensures rows { IsHonest (T.seen tx.new) → OnOk result (table (T.seen tx.new)
        ≡ without_under (table (T.seen tx.old)) kind.Cubby (objects.object_key token.now [])) }
    ensures owned { IsHonest (T.seen tx.new) → AreFiled (table (T.seen tx.old)) → length token.now ≡ token_len
        → OnOk result (table (T.seen tx.new) ≡ without_owned (table (T.seen tx.old)) kind.Cubby token.now) }
    ensures told { IsHonest (T.seen tx.new) → (part : Part) (b : Broker) → Tells part (table (T.seen tx.old)) b
        → length token.now ≡ token_len
        → OnOk result (Tells part (table (T.seen tx.new)) (cubbyhole.drop_owner b token.now)) }
    ensures call { IsChange (KeepsOtherOwners token.now) (T.seen tx.old) (T.seen tx.new) result IsMemoryOrStorage }
{
    let key = object_key(alloc, token, "")?;
    remove_under(tx, Kind::Cubby, key.as_str())
}
