//! The list of all mounts.

ghost use Rattle.std.specs.Prelude.{◌≡◌, List, [], map, IfOk, IfErr, OnOk, MatchResult, All, Ok, false, true};
ghost use Rattle.broker_types.specs.Text.{Text, text_cmp};
ghost use Rattle.broker_types.specs.Fault.{IsMemoryOrStorage, IsNotBadStart};
ghost use Rattle.broker_types.specs.Map.{Map};
ghost use Rattle.broker_types.specs.Broker.{Mount};
ghost use Rattle.records.specs.Calls.{IsReading, IsDecodeFault};
ghost use Rattle.records.specs.KeyPlaces.{rank, is_met};
ghost use Rattle.records.specs.Ranges.{IsMountInRange};
ghost use Rattle.records.specs.RowForms.{mount_row};
ghost use Rattle.records.specs.Table.{table};
ghost use Rattle.records.specs.Transaction.{IsHonest, rows_under};
ghost use Rattle.mounts.specs.MountRows.{AreMounts, IsMountRow, at_mount, placed, in_places};
ghost use Rattle.mounts.specs.Mounts as spec;
ghost use Rattle.mounts.specs.Types.{type_of};

use crate::mount_type::{MountType, engine_type};
use broker_types::{Fault, TextBuf};
use records::{Entry, Kind, RecordsTx, Row, read_mount};
use std::alloc::{AllocError, Global};
use std::cmp::Ordering;
use std::marker::Model;

/// The name of a mount and its type, which contracts see as a pair.
#[derive(Drop)]
pub struct NamedMount {
    /// The name with a slash behind it, as a reply prints it.
    pub name: TextBuf,
    /// The type.
    pub mount_type: MountType,
}

impl Model for NamedMount {
    ghost use Rattle.broker_types.specs.Text.{Text};
    ghost use Rattle.mounts.specs.declared.mount_type.MountType.{MountType};

    ghost Value = { Text × MountType };

    ghost view = { λ m. (m.name, m.mount_type) };
}

/// The mounts that have rows, and those that are always there and are listed. Each name has a slash behind it, and
/// they are in the order of these names by bytes. The rows stay. It fails with `Damaged` if a row cannot be read, and
/// also if memory runs out or the storage fails (Vault's documentation, "/sys/mounts", list mounted secrets engines).
pub fn list<T: RecordsTx>(alloc: Global, tx: &mut T) -> Result<Vec<NamedMount>, Fault>
    ensures told { IsHonest (T.seen tx.new) → (mounts : Map Mount) → AreMounts (table (T.seen tx.old)) mounts
        → MatchResult result (λ list. list.items ≡ spec.listed mounts) IsMemoryOrStorage }

    // Whatever the rows are: no list leaves a damaged row out.
    ensures readable { IsHonest (T.seen tx.new)
        → IfOk result (λ list. All (λ e. IsMountRow e.1) (rows_under (T.seen tx.old).rows Kind.Mount [])) }
    ensures call { IsReading (T.seen tx.old) (T.seen tx.new) result IsNotBadStart }
{
    let rows = tx.under(Kind::Mount, "")?;
    let mut list = read_types(alloc, &rows)?;
    put_type(alloc, &mut list, "cubbyhole", MountType::Cubbyhole)?;
    put_type(alloc, &mut list, "sys", MountType::System)?;
    Ok(list)
}

/// The names and the types of the mounts of rows. It fails as `Damaged` if a row is not one of a mount.
fn read_types(alloc: Global, rows: &[Entry]) -> Result<Vec<NamedMount>, Fault>
    ensures told { (mounts : List (Text × Mount)) → All (λ m. IsMountInRange m.1) mounts
        → rows.now ≡ map at_mount mounts → IfOk result (λ list. list.items ≡ in_places (map spec.typed mounts)) }
    ensures readable { IfOk result (λ list. All (λ e. IsMountRow e.1) rows.now) }
    ensures faults { IfErr result
        (IsDecodeFault ((mounts : List (Text × Mount)) → All (λ m. IsMountInRange m.1) mounts
        → rows.now ≡ map at_mount mounts → ⊥)) }
{
    let mut list = Vec::new(alloc);
    for entry in rows {
        let mount_type = read_type(&entry.row)?;
        put_type(alloc, &mut list, entry.key.as_str(), mount_type)?;
    }
    Ok(list)
}

/// The type of the mount of a row. It fails as `Damaged` if the row is not one of a mount.
fn read_type(row: &Row) -> Result<MountType, Fault>
    ensures told { (mount : Mount) → IsMountInRange mount → row.now ≡ mount_row mount
        → result ≡ Ok (type_of mount) }
    ensures readable { IfOk result (λ found. IsMountRow row.now) }
    ensures faults { IfErr result (λ fault. fault ≡ Fault.Damaged) }
{
    let mount = read_mount(row)?;
    Ok(engine_type(mount.engine))
}

/// Puts a mount among mounts in the order of their names.
fn put_type(
    alloc: Global,
    list: &mut Vec<NamedMount>,
    name: &str,
    mount_type: MountType,
) -> Result<(), AllocError>
    ensures { OnOk result (list.new.items ≡ placed list.old.items (name.now, mount_type)) }
{
    let name = printed(alloc, name)?;
    match place(list, name.as_str()) {
        Ok(i) => {
            let found = &mut list[i];
            found.mount_type = mount_type;
            Ok(())
        }
        Err(i) => {
            list.insert(i, NamedMount { name, mount_type })?;
            Ok(())
        }
    }
}

/// A name with a slash behind it.
fn printed(alloc: Global, name: &str) -> Result<TextBuf, AllocError>
    ensures { IfOk result (λ text. text ≡ spec.printed name.now) }
{
    let mut text = String::from_str(alloc, name)?;
    text.push_str("/")?;
    Ok(TextBuf::new(text))
}

/// The place of a name, or the place where it would go.
fn place(list: &[NamedMount], name: &str) -> Result<usize, usize>
    ensures at { IfOk result (λ i. i ≡ rank text_cmp name.now list.now) }
    ensures met { OnOk result (is_met text_cmp name.now list.now ≡ true) }
    ensures gap { IfErr result (λ i. i ≡ rank text_cmp name.now list.now) }
    ensures missed { IfErr result (λ i. is_met text_cmp name.now list.now ≡ false) }
{
    for (i, mount) in list.iter().enumerate() {
        match name.cmp(mount.name.as_str()) {
            Ordering::Less => return Err(i),
            Ordering::Equal => return Ok(i),
            Ordering::Greater => {}
        }
    }
    Err(list.len())
}
