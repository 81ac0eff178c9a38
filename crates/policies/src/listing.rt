//! The list of all policies.

ghost use Rattle.std.specs.Prelude.{◌≡◌, [], map, IfOk};
ghost use Rattle.std.specs.Ordering.{is_lt};
ghost use Rattle.broker_types.specs.Fault.{IsMemoryOrStorage};
ghost use Rattle.broker_types.specs.Map.{Map};
ghost use Rattle.broker_types.specs.Text.{Text, text_cmp};
ghost use Rattle.records.specs.Calls.{IsReading};
ghost use Rattle.records.specs.Children.{keys_under};
ghost use Rattle.records.specs.Table.{table};
ghost use Rattle.records.specs.Transaction.{IsHonest};
ghost use Rattle.policies.specs.Policies as spec;
ghost use Rattle.policies.specs.PolicyRows.{ArePolicies, with_name, all_names};

use broker_types::{Fault, TextBuf};
use records::{Entry, Kind, RecordsTx};
use std::alloc::{AllocError, Global};

/// The names of all policies in the order of their bytes, `default` and `root` always among them. The rows stay. It
/// fails only if memory runs out or the storage fails (Vault's documentation, "/sys/policies", list ACL policies).
pub fn list<T: RecordsTx>(alloc: Global, tx: &mut T) -> Result<Vec<TextBuf>, Fault>
    ensures found { IsHonest (T.seen tx.new)
        → IfOk result (λ names. names.items ≡ all_names (keys_under (T.seen tx.old).rows Kind.Policy [])) }
    ensures told { IsHonest (T.seen tx.new) → (policies : Map Text) → ArePolicies (table (T.seen tx.old)) policies
        → IfOk result (λ names. names.items ≡ spec.listed policies) }
    ensures call { IsReading (T.seen tx.old) (T.seen tx.new) result IsMemoryOrStorage }
{
    let rows = tx.under(Kind::Policy, "")?;
    Ok(names_of(alloc, &rows)?)
}

/// The names of rows, with those that are always there.
fn names_of(alloc: Global, rows: &[Entry]) -> Result<Vec<TextBuf>, AllocError>
    ensures { IfOk result (λ names. names.items ≡ all_names (map (λ e. e.0.1) rows.now)) }
{
    let names = names_in(alloc, rows)?;
    let names = with_name(alloc, &names, "default")?;
    with_name(alloc, &names, "root")
}

/// The names of rows.
fn names_in(alloc: Global, rows: &[Entry]) -> Result<Vec<TextBuf>, AllocError>
    ensures { IfOk result (λ names. names.items ≡ map (λ e. e.0.1) rows.now) }
{
    let mut names = Vec::new(alloc);
    for entry in rows {
        names.push(TextBuf::copied(alloc, entry.key.as_str())?)?;
    }
    Ok(names)
}

/// The names with one in its place, if it is not there.
fn with_name(alloc: Global, names: &[TextBuf], name: &str) -> Result<Vec<TextBuf>, AllocError>
    ensures { IfOk result (λ list. list.items ≡ with_name name.now names.now) }
{
    let mut list = Vec::new(alloc);
    let mut is_in = false;
    for other in names {
        if !is_in {
            if is_before(name, other.as_str()) {
                list.push(TextBuf::copied(alloc, name)?)?;
                is_in = true;
            } else if !is_before(other.as_str(), name) {
                is_in = true;
            }
        }
        list.push(TextBuf::copied(alloc, other.as_str())?)?;
    }
    if !is_in {
        list.push(TextBuf::copied(alloc, name)?)?;
    }
    Ok(list)
}

fn is_before(one: &str, other: &str) -> bool
    ensures { result ≡ is_lt (text_cmp one.now other.now) }
{
    one < other
}
