//! One more root token.

ghost use Rattle.std.specs.Prelude.{◌≡◌, ◌≤◌, true, ⊤, None, Option, IfOk, IfErr, OnOk};
ghost use Rattle.broker_types.specs.Broker.{Broker};
ghost use Rattle.broker_types.specs.Fault.{IsMemoryOrStorage};
ghost use Rattle.broker_types.specs.First.{root_token};
ghost use Rattle.broker_types.specs.Identifier.{id};
ghost use Rattle.broker_types.specs.Moment.{greatest_moment};
ghost use Rattle.broker_types.specs.Names.{accessor_word};
ghost use Rattle.broker_types.specs.Used as model;
ghost use Rattle.records.specs.Calls.{IsCall, IsReading};
ghost use Rattle.records.specs.TokenEntry.{token_entry};
ghost use Rattle.records.specs.Transaction.{IsHonest};
ghost use Rattle.token_tree.specs.Tokens.{created};
ghost use Rattle.broker_rows.specs.Representing.{Represents};
ghost use Rattle.maintenance.specs.NewRoot.{MakesRoot, first_new, root_identifiers, root_text};

use broker_rows::{are_new, expire, identifier, token_text, use_up};
use broker_types::{Fault, Moment, TextBuf, Words};
use records::{RecordsTx, TokenRecord};
use std::alloc::{AllocError, Global};
use token_tree::create;

/// Makes one more root token, by the first of the draws of which both identifiers are new, those of the token and of
/// its accessor, and answers its text. If none is, it answers none, and the rows stay. The clock moves on to the moment
/// first, unless it is later already, and what has come to its end by then ends, as for a request. It fails with
/// `BadStart` if the clock has no row, with `Memory` if memory runs out, with `Storage` if the transaction's storage
/// failed, and with `Damaged` if a row that it asks for cannot be read.
pub fn add_root<T: RecordsTx>(
    alloc: Global,
    tx: &mut T,
    moment: Moment,
    draws: &[Words],
) -> Result<Option<TextBuf>, Fault>
    ensures told { IsHonest (T.seen tx.new) → (b : Broker) → Represents None (T.seen tx.old).rows b
        → IfOk result (MakesRoot b moment draws.now (T.seen tx.new).rows) }
    ensures wants { IsHonest (T.seen tx.new) → (b : Broker) → Represents None (T.seen tx.old).rows b
        → IfErr result IsMemoryOrStorage }
    ensures call { IsCall (T.seen tx.old) (T.seen tx.new) result (λ _. ⊤) }
{
    let Some(words) = first_new(alloc, tx, draws)? else {
        return Ok(None);
    };
    let clock = expire(alloc, tx, moment)?;
    let token = put_root(alloc, tx, clock, &words)?;
    Ok(Some(token))
}

/// The first of the draws of which both identifiers are new, if there is one.
fn first_new<T: RecordsTx>(
    alloc: Global,
    tx: &mut T,
    draws: &[Words],
) -> Result<Option<Words>, Fault>
    ensures told { IsHonest (T.seen tx.new) → (b : Broker) → Represents None (T.seen tx.old).rows b
        → IfOk result (λ found. found ≡ first_new b.used draws.now) }
    ensures call { IsReading (T.seen tx.old) (T.seen tx.new) result IsMemoryOrStorage }
{
    for words in draws {
        if is_new(alloc, tx, words)? {
            return Ok(Some(*words));
        }
    }
    Ok(None)
}

/// Whether the identifiers of a root token and of its accessor, by these words, are new, and differ.
fn is_new<T: RecordsTx>(alloc: Global, tx: &mut T, words: &Words) -> Result<bool, Fault>
    ensures told { IsHonest (T.seen tx.new) → (b : Broker) → Represents None (T.seen tx.old).rows b
        → IfOk result (λ v. v ≡ model.are_new b.used (root_identifiers words.now)) }
    ensures call { IsReading (T.seen tx.old) (T.seen tx.new) result IsMemoryOrStorage }
{
    let own = identifiers(alloc, words)?;
    are_new(tx, &own)
}

/// The identifiers of a root token and of its accessor.
fn identifiers(alloc: Global, words: &Words) -> Result<Vec<TextBuf>, AllocError>
    ensures { IfOk result (λ own. own.items ≡ root_identifiers words.now) }
{
    let token = identifier(alloc, words.token())?;
    let accessor = identifier(alloc, words.accessor())?;
    Ok(vec![in alloc; token, accessor]?)
}

/// Writes a root token that is made now, marks its identifiers as given out, and answers its text.
fn put_root<T: RecordsTx>(
    alloc: Global,
    tx: &mut T,
    clock: Moment,
    words: &Words,
) -> Result<TextBuf, Fault>
    ensures text { IfOk result (λ text. text ≡ root_text words.now) }
    ensures told { IsHonest (T.seen tx.new) → (b : Broker) → Represents None (T.seen tx.old).rows b
        → b.clock ≡ clock → model.are_new b.used (root_identifiers words.now) ≡ true
        → OnOk result (Represents None (T.seen tx.new).rows
        (created b (root_text words.now) (root_token clock (id (accessor_word words.now))))) }
    ensures call { IsCall (T.seen tx.old) (T.seen tx.new) result IsMemoryOrStorage }
{
    let own = identifier(alloc, words.token())?;
    let accessor = identifier(alloc, words.accessor())?;
    let text = token_text(alloc, own.as_str())?;
    let record = root_record(alloc, clock, accessor.as_str())?;
    create(alloc, tx, text.as_str(), &record)?;
    use_up(alloc, tx, accessor.as_str())?;
    use_up(alloc, tx, own.as_str())?;
    Ok(text)
}

/// The record of a root token that is made now.
fn root_record(alloc: Global, clock: Moment, accessor: &str) -> Result<TokenRecord, AllocError>
    ensures entry { IfOk result (λ made. made ≡ token_entry (root_token clock accessor.now)) }
    ensures within { IfOk result (λ _. clock ≤ greatest_moment) }
{
    let root = TextBuf::copied(alloc, "root")?;
    Ok(TokenRecord {
        parent: None,
        accessor: TextBuf::copied(alloc, accessor)?,
        policies: vec![in alloc; root]?,
        issued: clock.seconds(),
        ends: None,
        ttl: 0,
        explicit_max_ttl: 0,
        period: 0,
        uses_left: None,
        meta: Vec::new(alloc),
    })
}
