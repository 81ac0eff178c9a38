//! Routes.

ghost use Rattle.std.specs.Prelude.{◌≡◌, Option, true, IfOk, ⊤};
ghost use Rattle.broker_types.specs.Map.{Map};
ghost use Rattle.broker_types.specs.Broker.{Mount};
ghost use Rattle.broker_types.specs.Path.{is_path};
ghost use Rattle.broker_types.specs.RequestError.{Ends};
ghost use Rattle.records.specs.Calls.{OnAnswer, IsReading, IsRequestReading, IsReadFault};
ghost use Rattle.records.specs.Splits.{lacks, slash};
ghost use Rattle.records.specs.Table.{table};
ghost use Rattle.records.specs.Transaction.{IsHonest};
ghost use Rattle.mounts.specs.Forms as forms;
ghost use Rattle.mounts.specs.MountRows.{IsKnownAt, IsReadableAt, IsDamagedAt, AreMounts};
ghost use Rattle.mounts.specs.RouteTable.{takes_parameter};
ghost use Rattle.mounts.specs.Patterns as patterns;
ghost use Rattle.mounts.specs.RouteRow.{rows_in, shown};
ghost use Rattle.mounts.specs.Route as spec;
ghost use Rattle.mounts.specs.Types as types;

use crate::mount_type::{MountType, engine_type, fixed_type};
use crate::operation::{Operation, Route};
use crate::router::Routers;
use crate::table::{RouteRow, route_rows};
use broker_types::{Fault, Methods, Refusal, RequestError, Verb};
use records::{Kind, RecordsTx, read_mount};

/// The operation that a verb and a path mean, with the mounts that have rows. It is refused with 404 if there is
/// no such mount, or no pattern of its type is the path's; and with 405 if the pattern has other methods. The rows
/// stay. It fails with `Damaged` if the mount's row cannot be read, and also if memory runs out or the storage
/// fails (Vault's documentation, "HTTP API"; RFC 9110, section 15.5.6, for a method that is not allowed).
pub fn route<'p, T: RecordsTx>(
    routers: &Routers,
    tx: &mut T,
    verb: Verb,
    path: &'p str,
) -> Result<Route<'p>, RequestError>
    ensures found { IsHonest (T.seen tx.new) → (mount : Option Mount)
        → IsKnownAt (table (T.seen tx.old)) (spec.cut path.now).0 mount
        → Ends (λ found known. found ≡ known) ⊤ result (spec.route_at mount verb path.now) }
    ensures told { IsHonest (T.seen tx.new) → (mounts : Map Mount) → AreMounts (table (T.seen tx.old)) mounts
        → Ends (λ found known. found ≡ known) ⊤ result (spec.route_of mounts verb path.now) }

    // Whatever the rows are: a damaged row is answered neither as another mount nor as an absent one.
    ensures readable { IsHonest (T.seen tx.new)
        → OnAnswer result (IsReadableAt (table (T.seen tx.old)) (spec.cut path.now).0) }
    ensures parameter { is_path path.now ≡ true
        → IfOk result (λ found. takes_parameter found.operation ≡ true → is_path found.parameter ≡ true) }
    ensures call { IsRequestReading (T.seen tx.old) (T.seen tx.new) result
        (IsReadFault (IsHonest (T.seen tx.new) → IsDamagedAt (table (T.seen tx.old)) (spec.cut path.now).0)) }
{
    let (mount, rest) = cut(path);
    let Some(mount_type) = type_of(tx, mount)? else {
        return Err(RequestError::Refused(Refusal::NotFound));
    };
    let Some(pattern) = routers.pattern_found(mount_type, rest) else {
        return Err(RequestError::Refused(Refusal::NotFound));
    };
    Ok(route_by(route_rows(mount_type), verb, mount, rest, pattern)?)
}

/// The first segment of a path, which names its mount, and what follows its slash.
fn cut(path: &str) -> (&str, &str)
    ensures name { result.0.now ≡ (spec.cut path.now).0 }
    ensures rest { result.1.now ≡ (spec.cut path.now).1 }
{
    match path.split_once('/') {
        Some(parts) => parts,
        None => (path, ""),
    }
}

/// The type of a mount, if it is there.
fn type_of<T: RecordsTx>(tx: &mut T, name: &str) -> Result<Option<MountType>, Fault>
    ensures found { IsHonest (T.seen tx.new) → (mount : Option Mount)
        → IsKnownAt (table (T.seen tx.old)) name.now mount
        → IfOk result (λ found. found ≡ types.type_at mount name.now) }
    ensures readable { IsHonest (T.seen tx.new)
        → IfOk result (λ found. IsReadableAt (table (T.seen tx.old)) name.now) }
    ensures call { IsReading (T.seen tx.old) (T.seen tx.new) result
        (IsReadFault (IsHonest (T.seen tx.new) → IsDamagedAt (table (T.seen tx.old)) name.now)) }
{
    if let Some(found) = fixed_type(name) {
        return Ok(Some(found));
    }
    let Some(kept) = tx.get(Kind::Mount, name)? else {
        return Ok(None);
    };
    let mount = read_mount(&kept)?;
    Ok(Some(engine_type(mount.engine)))
}

// ---- mounts that are always there

/// The operation of a verb at a path that is a pattern itself, of a mount that is always there.
#[tactic(auto, unfolding(crate::specs::Route::operation_at))]
pub fn operation_at(verb: Verb, path: &str) -> Option<Operation>
    ensures { result ≡ spec.operation_at verb path.now }
{
    let (mount, rest) = cut(path);
    operation_for(fixed_rows(mount), rest, verb)
}

/// Whether a path asks for the capability `sudo`, whatever the verb: it has the form of a pattern at which an operation
/// does (Vault's documentation, "Policies", root-protected API endpoints).
pub fn asks_sudo(path: &str) -> bool
    ensures { result ≡ spec.asks_sudo path.now }
{
    let (mount, rest) = cut(path);
    fixed_rows(mount).iter().any(|row| row_asks_sudo(row, rest))
}

/// The rows of a mount that is always there; another name has none here.
fn fixed_rows(name: &str) -> &'static [RouteRow]
    ensures { rows_in result.now ≡ spec.fixed_rows name.now }
{
    match fixed_type(name) {
        Some(mount_type) => route_rows(mount_type),
        None => &[],
    }
}

fn row_asks_sudo(row: &RouteRow, path: &str) -> bool
    ensures { result ≡ spec.row_asks_sudo path.now (shown row.now) }
{
    row.2.facts().sudo && has_form(row.1, path)
}

// ---- the row

/// The route of a pattern, or 405 with its methods if no row of it has the verb.
fn route_by<'p>(
    rows: &[RouteRow],
    verb: Verb,
    mount: &'p str,
    path: &'p str,
    pattern: &str,
) -> Result<Route<'p>, Refusal>
    ensures { result ≡ spec.route_by (rows_in rows.now) verb mount.now path.now pattern.now }
{
    let Some(operation) = operation_for(rows, pattern, verb) else {
        return Err(Refusal::MethodNotAllowed(methods_of(rows, pattern)));
    };
    Ok(Route {
        operation,
        mount,
        parameter: parameter(pattern, path),
    })
}

/// The operation of the row that has the pattern and the verb.
fn operation_for(rows: &[RouteRow], pattern: &str, verb: Verb) -> Option<Operation>
    ensures { result ≡ spec.operation_for (rows_in rows.now) pattern.now verb }
{
    for row in rows {
        if is_row(row, pattern, verb) {
            return Some(row.2);
        }
    }
    None
}

/// The methods of a pattern.
fn methods_of(rows: &[RouteRow], pattern: &str) -> Methods
    ensures { result ≡ spec.methods_of (rows_in rows.now) pattern.now }
{
    Methods {
        get: has_row(rows, pattern, Verb::Get),
        list: has_row(rows, pattern, Verb::List),
        write: has_row(rows, pattern, Verb::Write),
        delete: has_row(rows, pattern, Verb::Delete),
    }
}

fn has_row(rows: &[RouteRow], pattern: &str, verb: Verb) -> bool
    ensures { result ≡ spec.has_row (rows_in rows.now) pattern.now verb }
{
    for row in rows {
        if is_row(row, pattern, verb) {
            return true;
        }
    }
    false
}

fn is_row(row: &RouteRow, pattern: &str, verb: Verb) -> bool
    ensures { result ≡ patterns.is_row pattern.now verb (shown row.now) }
{
    row.1 == pattern && same_verb(row.0, verb)
}

fn same_verb(verb: Verb, other: Verb) -> bool
    ensures { result ≡ patterns.same_verb verb other }
{
    verb == other
}

// ---- the parameter

/// What a path has in place of the pattern's parameter.
fn parameter<'p>(pattern: &str, path: &'p str) -> &'p str
    ensures { result.now ≡ forms.parameter pattern.now path.now }
{
    match path.strip_prefix(literal_of(pattern)) {
        Some(rest) => rest,
        None => "",
    }
}

/// Whether a path within the mount has the form of a pattern.
fn has_form(pattern: &str, path: &str) -> bool
    ensures { result ≡ forms.has_form (forms.form_of pattern.now) path.now }
{
    match path.strip_prefix(literal_of(pattern)) {
        Some(rest) => is_ending(pattern, rest),
        None => false,
    }
}

/// Whether a text is what may stand in place of the pattern's parameter; nothing if it has none.
fn is_ending(pattern: &str, text: &str) -> bool
    ensures { result ≡ forms.is_ending (forms.form_of pattern.now).ending text.now }
{
    let Some((_, parameter)) = pattern.split_once('{') else {
        return text.is_empty();
    };
    !text.is_empty() && (parameter.starts_with("*") || lacks_slash(text))
}

fn lacks_slash(text: &str) -> bool
    ensures { result ≡ lacks slash text.now }
{
    text.as_bytes().iter().all(|byte| *byte != b'/')
}

/// The text of a pattern before its parameter.
fn literal_of(pattern: &str) -> &str
    ensures { result.now ≡ (forms.form_of pattern.now).literal }
{
    match pattern.split_once('{') {
        Some((literal, _)) => literal,
        None => pattern,
    }
}
