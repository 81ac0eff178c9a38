//! Whether a database has the table of rows as this crate makes it, told from its schema.

ghost use Rattle.std.specs.Prelude.{◌≡◌, [], None, false, IsTrue};
ghost use Rattle.records_sql.specs.SqlTable.{no_schema, broker_schema, table, strict_column, index_on};

use sqlite_schema::schema::{Column, Index, Kind, Schema, Table};
use sqlite_value::keys::{Collation, Order};
use sqlite_value::value::Value;

/// Whether there is no table, index or view.
pub(crate) fn is_blank(schema: &Schema) -> bool
    ensures { IsTrue result → schema.now ≡ no_schema }
{
    schema.tables.is_empty() && schema.indexes.is_empty() && schema.views.is_empty()
}

/// Whether there is the table `broker_rows` with its indexes, and nothing else.
pub(crate) fn is_ours(schema: &Schema) -> bool
    ensures { IsTrue result → schema.now ≡ broker_schema }
{
    let [table] = schema.tables.as_slice() else {
        return false;
    };
    is_table(table) && are_indexes(schema.indexes.as_slice()) && schema.views.is_empty()
}

/// Whether the indexes are that of the key, which SQLite names, and the two that are made for lists.
fn are_indexes(indexes: &[Index]) -> bool
    ensures { IsTrue result → indexes.now ≡ broker_schema.indexes }
{
    let [key, owner, due] = indexes else {
        return false;
    };
    is_index(key, b"sqlite_autoindex_broker_rows_1", 1, &[1, 2], true)
        && is_index(owner, b"broker_owner", 2, &[1, 3, 2], false)
        && is_index(due, b"broker_due", 3, &[4, 1, 2], false)
}

/// Whether the table is `broker_rows`, with its columns and its key.
fn is_table(found: &Table) -> bool
    ensures { IsTrue result → found.now ≡ table }
{
    found.name.as_slice() == b"broker_rows".as_slice()
        && found.tree == 0
        && are_columns(found.columns.as_slice())
        && is_keyed(found)
        && is_plain(found)
}

fn are_columns(columns: &[Column]) -> bool
    ensures { IsTrue result → columns.now ≡ table.columns }
{
    let [kind, key, owner, due, body] = columns else {
        return false;
    };
    is_column(kind, b"kind", Kind::Integer, true)
        && is_column(key, b"key", Kind::Text, true)
        && is_column(owner, b"owner", Kind::Text, true)
        && is_column(due, b"due", Kind::Integer, false)
        && is_column(body, b"body", Kind::Blob, true)
}

/// Whether a column has this name and takes values of this kind alone, and NULL unless it may not. It has no default.
fn is_column(column: &Column, name: &[u8], kind: Kind, not_null: bool) -> bool
    ensures { IsTrue result → column.now ≡ strict_column name.now kind not_null }
{
    column.name.as_slice() == name
        && column.kind == kind
        && column.is_strict
        && column.not_null == not_null
        && matches!(column.default, Value::Null)
        && column.collation == Collation::Binary
}

/// Whether the key of the table is that of its first two columns, and its only one.
fn is_keyed(found: &Table) -> bool
    ensures { IsTrue result → (found.now.key ≡ None) × (found.now.primary ≡ table.primary)
        × (found.now.uniques ≡ table.uniques) × (found.now.orders ≡ table.orders) }
{
    let [unique] = found.uniques.as_slice() else {
        return false;
    };
    let [order] = found.orders.as_slice() else {
        return false;
    };
    found.key.is_none()
        && are_of_key(found.primary.as_slice())
        && are_of_key(unique.as_slice())
        && *order == Order::PLAIN
}

/// Whether the places are those of the kind and the key.
fn are_of_key(places: &[usize]) -> bool
    ensures { IsTrue result → places.now ≡ table.primary }
{
    matches!(places, [1, 2])
}

/// Whether the table has no other rule than its columns and keys, and computes no value.
fn is_plain(found: &Table) -> bool
    ensures { IsTrue result → (found.now.checks ≡ []) × (found.now.references ≡ [])
        × (found.now.computed ≡ []) × (found.now.stamps ≡ table.stamps) × (found.now.is_counted ≡ false) }
{
    found.checks.roots.is_empty()
        && found.references.is_empty()
        && found.computed.is_empty()
        && found.stamps.places.is_empty()
        && found.stamps.terms.roots.is_empty()
        && found.stamps.formats.is_empty()
        && !found.is_counted
}

/// Whether an index of the table has this name, this number, these places of columns, in ascending order of bytes.
fn is_index(index: &Index, name: &[u8], tree: u32, columns: &[usize], is_unique: bool) -> bool
    ensures { IsTrue result → index.now ≡ index_on name.now tree columns.now is_unique }
{
    index.name.as_slice() == name
        && index.tree == tree
        && index.table == 0
        && index.columns.as_slice() == columns
        && index.order == Order::PLAIN
        && index.is_unique == is_unique
}
