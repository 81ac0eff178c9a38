//! One row that is remembered.

ghost use Rattle.std.specs.Prelude.{◌≡◌, ◌≤◌, ◌+◌, length, min, ◌^◌, ◌-◌, true, IfSome, option_map};
ghost use Rattle.std.specs.Option.{option_copied};
ghost use Rattle.records.specs.Kind.{kind_number};
ghost use Rattle.records_sql.specs.Memory.{is_kept, row_size, greatest_size};

use records::{Kind, Row};
use std::alloc::Global;
use std::marker::Model;

/// How many bytes a key and its row have at most, to be remembered.
const LARGEST: usize = 4096;

/// The row of a kind, or that there is none.
#[derive(Drop)]
pub(crate) struct Remembered {
    kind: Kind,
    row: Option<Row>,
}

impl Model for Remembered {
    ghost use Rattle.std.specs.Prelude.{◌≡◌, true, Option};
    ghost use Rattle.records.specs.declared.kind.Kind.{Kind};
    ghost use Rattle.records.specs.declared.row.Row.{Row};
    ghost use Rattle.records_sql.specs.Memory.{is_kept};

    ghost Value = { Kind × Option Row };

    ghost view = { λ e. (e.kind, e.row) };

    ghost invariant = { λ e. is_kept e.kind e.row ≡ true };
}

impl Remembered {
    /// The row at a kind and key, if such a row is remembered, it is small enough and memory suffices.
    pub(crate) fn copied(
        alloc: Global,
        kind: Kind,
        key: &str,
        row: Option<&Row>,
    ) -> Option<Remembered>
        ensures row { IfSome result (λ e. e ≡ (kind, option_map (λ r. r.now) row.entry)) }
        ensures size { IfSome result (λ e. length key.now + row_size e.1 ≤ greatest_size) }
    {
        if !is_kept(kind, row) || key.len().saturating_add(size(row)) > LARGEST {
            return None;
        }
        let row = match row {
            None => None,
            Some(row) => Some(row.copied(alloc).ok()?),
        };
        Some(Remembered { kind, row })
    }

    /// Whether it is that of a kind.
    pub(crate) fn is_of(&self, kind: Kind) -> bool
        ensures { result ≡ true → kind_number self.now.0 ≡ kind_number kind }
    {
        self.kind.number() == kind.number()
    }

    /// The row, if there is one.
    pub(crate) fn row(&self) -> Option<&Row>
        ensures { option_copied result ≡ self.now.1 }
    {
        self.row.as_ref()
    }
}

/// Whether the row of a kind is remembered, or that there is none. Rows that hold what a client keeps secret never are:
/// versions of secrets, cubbyholes, responses that wait.
fn is_kept(kind: Kind, row: Option<&Row>) -> bool
    ensures { result ≡ is_kept kind (option_map (λ r. r.now) row.entry) }
{
    match kind {
        Kind::Clock | Kind::Token => row.is_some(),
        Kind::KvKey | Kind::Mount | Kind::Policy => true,
        _ => false,
    }
}

/// The bytes of a row that count, at most as many as a `usize` has.
fn size(row: Option<&Row>) -> usize
    ensures { result ≡ min (row_size (option_map (λ r. r.now) row.entry)) (2 ^ 64 - 1) }
{
    match row {
        None => 0,
        Some(row) => row
            .owner
            .as_str()
            .len()
            .saturating_add(row.body.as_slice().len()),
    }
}
