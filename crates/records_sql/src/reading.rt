//! Rows as the statements show them. What could not be read is a failure of the storage, since the table holds only
//! what this crate writes.

ghost use Rattle.std.specs.Prelude.{◌≡◌, ◌<◌, pos, None, IsTrue, IfOk, IfErr, OnOk};
ghost use Rattle.std.specs.Prelude.{slice_get, option_map, filter, map, nat_eq};
ghost use Rattle.sqlite.specs.declared.types.Value.TheVariants.{Int};
ghost use Rattle.records.specs.Kind.{kind_number};
ghost use Rattle.std.specs.List.{starts_with};
ghost use Rattle.broker_types.specs.Fault.{IsMemoryOrStorage};
ghost use Rattle.records.specs.KeyLaws.{kind_of};
ghost use Rattle.sqlite_value.specs.Order.{column, bytes};
ghost use Rattle.records_sql.specs.Bounds.{IsAbove, IsLater};
ghost use Rattle.records_sql.specs.Numbered.{AreNumbered, IsOver};
ghost use Rattle.records_sql.specs.SqlTable.{read_row, row_from, entry_in, whole_entry};
ghost use Rattle.records_sql.specs.SqlTable.{due_in, due_value, int_in, size_of};

use crate::numbers::Numbers;
use broker_types::{Bytes, Fault, TextBuf};
use records::{Due, Entry, Kind, Row};
use sqlite::Row as SqlRow;
use std::alloc::{AllocError, Global};

fn text_at(row: &SqlRow, at: usize) -> Result<TextBuf, Fault>
    ensures value { IfOk result (λ text. text ≡ bytes (column row.now at)) }
    ensures faults { IfErr result (λ fault. fault ≡ Fault.Storage) }
{
    match row.get::<String>(at) {
        Ok(text) => Ok(TextBuf::new(text)),
        Err(_) => Err(Fault::Storage),
    }
}

fn bytes_at(row: &SqlRow, at: usize) -> Result<Bytes, Fault>
    ensures value { IfOk result (λ b. b ≡ bytes (column row.now at)) }
    ensures faults { IfErr result (λ fault. fault ≡ Fault.Storage) }
{
    match row.get::<Vec<u8>>(at) {
        Ok(bytes) => Ok(Bytes::new(bytes)),
        Err(_) => Err(Fault::Storage),
    }
}

fn due_at(row: &SqlRow, at: usize) -> Result<Option<Due>, Fault>
    ensures value { IfOk result (λ due. due ≡ due_in (column row.now at)) }
    ensures exact { OnOk result (column row.now at ≡ due_value (due_in (column row.now at))) }
    ensures faults { IfErr result (λ fault. fault ≡ Fault.Storage) }
{
    match row.get::<Option<u64>>(at) {
        Ok(None) => Ok(None),
        Ok(Some(seconds)) => match Due::new(seconds) {
            Some(due) => Ok(Some(due)),
            None => Err(Fault::Storage),
        },
        Err(_) => Err(Fault::Storage),
    }
}

/// The owner, when it is due and the body, from a column on.
fn row_at(row: &SqlRow, at: usize) -> Result<Row, Fault>
    requires { at < 8 }
    ensures value { IfOk result (λ r. r ≡ row_from row.now at) }
    ensures faults { IfErr result (λ fault. fault ≡ Fault.Storage) }
{
    Ok(Row {
        owner: text_at(row, at)?,
        due: due_at(row, at + 1)?,
        body: bytes_at(row, at + 2)?,
    })
}

pub(crate) fn first_row(rows: &[SqlRow]) -> Result<Option<Row>, Fault>
    ensures found { IfOk result (λ found. found ≡ option_map read_row (slice_get rows.now 0)) }
    ensures faults { IfErr result (λ fault. fault ≡ Fault.Storage) }
{
    match rows.first() {
        None => Ok(None),
        Some(row) => Ok(Some(row_at(row, 0)?)),
    }
}

fn entry_of(kind: Kind, row: &SqlRow) -> Result<Entry, Fault>
    ensures value { IfOk result (λ entry. entry ≡ entry_in kind row.now) }
    ensures faults { IfErr result (λ fault. fault ≡ Fault.Storage) }
{
    Ok(Entry {
        kind,
        key: text_at(row, 0)?,
        row: row_at(row, 1)?,
    })
}

/// The entries of a kind that rows show.
pub(crate) fn entries_of(alloc: Global, kind: Kind, rows: &[SqlRow]) -> Result<Vec<Entry>, Fault>
    ensures entries { IfOk result (λ list. list.items ≡ map (entry_in kind) rows.now) }
    ensures faults { IfErr result IsMemoryOrStorage }
{
    let mut list = Vec::new(alloc);
    for row in rows {
        list.push(entry_of(kind, row)?)?;
    }
    Ok(list)
}

/// The entries whose keys begin with the prefix.
pub(crate) fn entries_under(
    alloc: Global,
    kind: Kind,
    prefix: &str,
    rows: &[SqlRow],
) -> Result<Vec<Entry>, Fault>
    ensures entries { IfOk result (λ list.
        list.items ≡ filter (λ e. starts_with nat_eq e.0.1 prefix.now) (map (entry_in kind) rows.now)) }
    ensures faults { IfErr result IsMemoryOrStorage }
{
    let mut list = entries_of(alloc, kind, rows)?;
    list.retain(|entry| begins_with(entry.key.as_str(), prefix));
    Ok(list)
}

fn begins_with(key: &str, prefix: &str) -> bool
    ensures { result ≡ starts_with nat_eq key.now prefix.now }
{
    key.as_bytes().starts_with(prefix.as_bytes())
}

/// The kind that a number stands for.
fn kind_at(row: &SqlRow, at: usize) -> Result<Kind, Fault>
    ensures value { IfOk result (λ kind. kind ≡ kind_of (size_of (int_in (column row.now at)))) }
    ensures exact { IfOk result (λ kind. column row.now at ≡ Int (pos (kind_number kind))) }
    ensures faults { IfErr result (λ fault. fault ≡ Fault.Storage) }
{
    match row.get::<u32>(at) {
        Ok(number) => kind_of(number),
        Err(_) => Err(Fault::Storage),
    }
}

/// The kind with the number.
fn kind_of(number: u32) -> Result<Kind, Fault>
    ensures value { IfOk result (λ kind. kind ≡ kind_of number) }
    ensures number { IfOk result (λ kind. kind_number kind ≡ number) }
    ensures faults { IfErr result (λ fault. fault ≡ Fault.Storage) }
{
    match number {
        1 => Ok(Kind::Clock),
        2 => Ok(Kind::Used),
        3 => Ok(Kind::Token),
        4 => Ok(Kind::Accessor),
        5 => Ok(Kind::Cubby),
        6 => Ok(Kind::Lease),
        7 => Ok(Kind::Credential),
        8 => Ok(Kind::KvKey),
        9 => Ok(Kind::KvVersion),
        10 => Ok(Kind::Waiting),
        11 => Ok(Kind::Mount),
        12 => Ok(Kind::Policy),
        13 => Ok(Kind::Role),
        _ => Err(Fault::Storage),
    }
}

fn whole_entry_of(row: &SqlRow) -> Result<Entry, Fault>
    ensures value { IfOk result (λ entry. entry ≡ whole_entry row.now) }
    ensures faults { IfErr result (λ fault. fault ≡ Fault.Storage) }
{
    Ok(Entry {
        kind: kind_at(row, 0)?,
        key: text_at(row, 1)?,
        row: row_at(row, 2)?,
    })
}

/// The entries of all kinds that rows show.
pub(crate) fn whole_entries(alloc: Global, rows: &[SqlRow]) -> Result<Vec<Entry>, Fault>
    ensures entries { IfOk result (λ list. list.items ≡ map whole_entry rows.now) }
    ensures faults { IfErr result IsMemoryOrStorage }
{
    let mut list = Vec::new(alloc);
    for row in rows {
        list.push(whole_entry_of(row)?)?;
    }
    Ok(list)
}

/// The number of a row. SQLite gives none below 1 to a row that is put without one.
fn number_at(row: &SqlRow, at: usize) -> Result<u64, Fault>
    ensures value { IfOk result (λ number. column row.now at ≡ Int (pos number)) }
    ensures faults { IfErr result (λ fault. fault ≡ Fault.Storage) }
{
    match row.get::<u64>(at) {
        Ok(number) => Ok(number),
        Err(_) => Err(Fault::Storage),
    }
}

fn is_over(last: Option<u64>, number: u64) -> bool
    ensures { IsTrue result → IsOver last number }
{
    match last {
        None => true,
        Some(last) => last < number,
    }
}

/// How many rows of some kinds there are among those that are shown by number, kind and when they are due, if they
/// could be rows of this crate: each has a kind that there is, is due at a moment or never, and has a number above that
/// of the row before.
pub(crate) fn check_numbers(rows: &[SqlRow]) -> Result<Numbers, Fault>
    ensures numbered { OnOk result (AreNumbered None rows.now) }
    ensures faults { IfErr result (λ fault. fault ≡ Fault.Storage) }
{
    let mut last = None;
    let mut numbers = Numbers::none();
    for row in rows {
        let number = number_at(row, 0)?;
        numbers.count(kind_at(row, 1)?);
        due_at(row, 2)?;
        if !is_over(last, number) {
            return Err(Fault::Storage);
        }
        last = Some(number);
    }
    Ok(numbers)
}

/// A bound above all keys that begin with a prefix: the prefix with its last byte raised by one. It is compared by
/// bytes, so it need not be UTF-8. There is none for the empty prefix.
pub(crate) fn bound_above(alloc: Global, prefix: &str) -> Result<Option<Vec<u8>>, AllocError>
    ensures { IfOk result (λ bound. IsAbove prefix.now (option_map (λ b. b.items) bound)) }
{
    let Some((last, init)) = prefix.as_bytes().split_last() else {
        return Ok(None);
    };
    let Some(raised) = last.checked_add(1) else {
        return Ok(None);
    };
    let mut bound = init.to_vec(alloc)?;
    bound.push(raised)?;
    Ok(Some(bound))
}

/// The later of two texts.
pub(crate) fn later<'t>(a: &'t str, b: &'t str) -> &'t str
    ensures { IsLater a.now b.now result.now }
{
    if a.cmp(b).is_lt() { b } else { a }
}
