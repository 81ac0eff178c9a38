//! Which tokens are revoked.

ghost use Rattle.std.specs.Prelude.{◌≡◌, IfOk, IfErr, None};
ghost use Rattle.broker_types.specs.Broker.{Broker};
ghost use Rattle.broker_types.specs.Fault.{IsMemoryOrStorage, IsNotBadStart};
ghost use Rattle.records.specs.Calls.{IsReading};
ghost use Rattle.records.specs.Transaction.{IsHonest};
ghost use Rattle.broker_rows.specs.Representing.{Represents};
ghost use Rattle.maintenance.specs.Choosing.{is_chosen, is_chosen_at, tokens_where};

use broker_types::{Fault, TextBuf, is_among, is_same};
use records::{Kind, RecordsTx, TokenRecord};
use std::alloc::Global;
use token_tree::find;

/// The tokens that are to be revoked.
#[derive(Clone, Copy)]
pub enum Chosen<'t> {
    /// Those with the policy `root`, but for the token of this text.
    OtherRoots(&'t str),
    /// All but those with the policy `root` and without an end.
    AllButLastingRoots,
}

/// Whether the token of a text is chosen, by what its row says.
fn chooses(chosen: &Chosen<'_>, token: &str, record: &TokenRecord) -> bool
    ensures { result ≡ is_chosen chosen.now token.now record.now }
{
    let has_root = is_among(record.policies.as_slice(), "root");
    match chosen {
        Chosen::OtherRoots(own) => has_root && !is_same(token, own),
        Chosen::AllButLastingRoots => !(has_root && record.ends.is_none()),
    }
}

/// Whether there is a token of the text, and it is chosen.
fn is_chosen<T: RecordsTx>(
    alloc: Global,
    tx: &mut T,
    chosen: &Chosen<'_>,
    token: &str,
) -> Result<bool, Fault>
    ensures told { IsHonest (T.seen tx.new) → (b : Broker) → Represents None (T.seen tx.old).rows b
        → IfOk result (λ v. v ≡ is_chosen_at (is_chosen chosen.now) b token.now) }
    ensures wants { IsHonest (T.seen tx.new) → (b : Broker) → Represents None (T.seen tx.old).rows b
        → IfErr result IsMemoryOrStorage }
    ensures call { IsReading (T.seen tx.old) (T.seen tx.new) result IsNotBadStart }
{
    match find(alloc, tx, token)? {
        None => Ok(false),
        Some(record) => Ok(chooses(chosen, token, &record)),
    }
}

/// The texts of the tokens that are chosen, in the order of their bytes. It fails with `Memory` if memory runs out,
/// with `Storage` if the transaction's storage failed, and with `Damaged` if the row of a token cannot be read.
pub(crate) fn chosen_tokens<T: RecordsTx>(
    alloc: Global,
    tx: &mut T,
    chosen: &Chosen<'_>,
) -> Result<Vec<TextBuf>, Fault>
    ensures told { IsHonest (T.seen tx.new) → (b : Broker) → Represents None (T.seen tx.old).rows b
        → IfOk result (λ list. list.items ≡ tokens_where (is_chosen chosen.now) b) }
    ensures wants { IsHonest (T.seen tx.new) → (b : Broker) → Represents None (T.seen tx.old).rows b
        → IfErr result IsMemoryOrStorage }
    ensures call { IsReading (T.seen tx.old) (T.seen tx.new) result IsNotBadStart }
{
    let listed = tx.under(Kind::Token, "")?;
    let mut tokens = Vec::new(alloc);
    for entry in &listed {
        let token = entry.key.as_str();
        if is_chosen(alloc, tx, chosen, token)? {
            tokens.push(TextBuf::copied(alloc, token)?)?;
        }
    }
    Ok(tokens)
}
