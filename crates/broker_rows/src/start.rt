//! The rows of the first broker.

ghost use Rattle.std.specs.Prelude.{◌≡◌, ◌≢◌, ◌<◌, ◌≤◌, ◌^◌, length, IfOk, OnOk};
ghost use Rattle.std.specs.FinMap as map;
ghost use Rattle.broker_types.specs.Fault.{IsMemoryOrStorage};
ghost use Rattle.broker_types.specs.Moment.{greatest_moment};
ghost use Rattle.broker_types.specs.First.{first_broker, root_token, secret_mount};
ghost use Rattle.broker_types.specs.Identifier.{id};
ghost use Rattle.broker_types.specs.TokenText.{token_text};
ghost use Rattle.records.specs.Calls.{IsCall};
ghost use Rattle.records.specs.FirstRows.{with_settings, with_root};
ghost use Rattle.records.specs.RowForms.{token_row, mount_row};
ghost use Rattle.records.specs.Transaction.{IsHonest};
ghost use Rattle.broker_rows.specs.Representing.{Represents};

use broker_types::{Fault, Moment, TextBuf, TokenText, id_text};
use records::{
    Engine, Holder, Kind, MountRecord, RecordsTx, Row, TokenRecord, write_accessor, write_clock,
    write_mount, write_policy, write_token, write_used,
};
use std::alloc::{AllocError, Global};

/// Writes the rows of the first broker into a transaction without rows: the root token of one word, with
/// the accessor of another, the mount `secret` and the policy `default`. The words have to differ. It answers the
/// text of the root token. It fails with `Memory` if memory runs out, and with `Storage` if the transaction's storage
/// failed.
pub fn write_first_rows<T: RecordsTx>(
    alloc: Global,
    tx: &mut T,
    moment: Moment,
    token_word: u128,
    accessor_word: u128,
) -> Result<TokenText, Fault>
    ensures told { IsHonest (T.seen tx.new) → (T.seen tx.old).rows ≡ map.empty → token_word ≢ accessor_word
        → OnOk result (Represents None (T.seen tx.new).rows (first_broker moment token_word accessor_word)) }
    ensures token { IfOk result (λ t. t ≡ token_text (id token_word)) }
    ensures call { IsCall (T.seen tx.old) (T.seen tx.new) result IsMemoryOrStorage }
{
    let token = TokenText::of_word(alloc, token_word)?;
    let identifier = id_text(alloc, token_word)?;
    let accessor = id_text(alloc, accessor_word)?;
    let issued = moment.seconds();
    put_settings(alloc, tx, moment)?;
    put_root(
        alloc,
        tx,
        issued,
        identifier.as_str(),
        accessor.as_str(),
        token.as_str(),
    )?;
    Ok(token)
}

/// Puts the clock, the mount `secret` and the policy `default`.
fn put_settings<T: RecordsTx>(alloc: Global, tx: &mut T, moment: Moment) -> Result<(), Fault>
    ensures rows { IsHonest (T.seen tx.new)
        → OnOk result ((T.seen tx.new).rows ≡ with_settings (T.seen tx.old).rows moment) }
    ensures call { IsCall (T.seen tx.old) (T.seen tx.new) result IsMemoryOrStorage }
{
    tx.put(Kind::Clock, "", write_clock(alloc, moment)?)?;
    tx.put(Kind::Mount, "secret", secret_row(alloc)?)?;
    tx.put(
        Kind::Policy,
        "default",
        write_policy(alloc, DEFAULT_POLICY)?,
    )
}

/// Puts a root token, its accessor and their identifiers.
fn put_root<T: RecordsTx>(
    alloc: Global,
    tx: &mut T,
    issued: u64,
    identifier: &str,
    accessor: &str,
    token: &str,
) -> Result<(), Fault>
    requires moment { issued ≤ greatest_moment }
    requires short { length accessor.now < 2 ^ 32 }
    ensures rows { IsHonest (T.seen tx.new) → OnOk result ((T.seen tx.new).rows
        ≡ with_root (T.seen tx.old).rows issued identifier.now accessor.now token.now) }
    ensures call { IsCall (T.seen tx.old) (T.seen tx.new) result IsMemoryOrStorage }
{
    tx.put(Kind::Used, identifier, write_used(alloc)?)?;
    tx.put(Kind::Used, accessor, write_used(alloc)?)?;
    tx.put(Kind::Token, token, root_row(alloc, issued, accessor)?)?;
    tx.put(
        Kind::Accessor,
        accessor,
        write_accessor(alloc, token, Holder::Token)?,
    )
}

/// The row of a root token.
fn root_row(alloc: Global, issued: u64, accessor: &str) -> Result<Row, AllocError>
    requires moment { issued ≤ greatest_moment }
    requires short { length accessor.now < 2 ^ 32 }
    ensures { IfOk result (λ kept. kept ≡ token_row (root_token issued accessor.now)) }
{
    let root = TextBuf::copied(alloc, "root")?;
    let token = TokenRecord {
        parent: None,
        accessor: TextBuf::copied(alloc, accessor)?,
        policies: vec![in alloc; root]?,
        issued,
        ends: None,
        ttl: 0,
        explicit_max_ttl: 0,
        period: 0,
        uses_left: None,
        meta: Vec::new(alloc),
    };
    write_token(alloc, &token)
}

/// The row of the mount `secret`.
fn secret_row(alloc: Global) -> Result<Row, AllocError>
    ensures { IfOk result (λ kept. kept ≡ mount_row secret_mount) }
{
    let mount = MountRecord {
        engine: Engine::Kv,
        cas_required: false,
        max_versions: 0,
    };
    write_mount(alloc, &mount)
}

/// The text of the policy `default`, which a start makes.
const DEFAULT_POLICY: &str = "{\"path\":{\
    \"auth/token/lookup-self\":{\"capabilities\":[\"read\"]},\
    \"auth/token/renew-self\":{\"capabilities\":[\"update\"]},\
    \"auth/token/revoke-self\":{\"capabilities\":[\"update\"]},\
    \"cubbyhole/*\":{\"capabilities\":[\"create\",\"read\",\"update\",\"delete\",\"list\"]},\
    \"sys/leases/lookup\":{\"capabilities\":[\"update\"]},\
    \"sys/leases/renew\":{\"capabilities\":[\"update\"]},\
    \"sys/wrapping/lookup\":{\"capabilities\":[\"update\"]},\
    \"sys/wrapping/unwrap\":{\"capabilities\":[\"update\"]},\
    \"sys/wrapping/wrap\":{\"capabilities\":[\"update\"]}}}";
