//! What is done to the broker of a stopped server.

ghost use Rattle.std.specs.Prelude.{⊤, None, IfOk, IfErr, OnOk};
ghost use Rattle.broker_types.specs.Broker.{Broker};
ghost use Rattle.broker_types.specs.Fault.{IsMemoryOrStorage};
ghost use Rattle.records.specs.Calls.{IsCall};
ghost use Rattle.records.specs.Transaction.{IsHonest};
ghost use Rattle.broker_rows.specs.Representing.{Represents};
ghost use Rattle.maintenance.specs.Choosing.{is_chosen};
ghost use Rattle.maintenance.specs.Tasks.{IsRestored, IsDone, MakesRootAlone, without_if};

use crate::choosing::Chosen;
use crate::new_root::add_root;
use crate::responses::drop_responses;
use crate::revoking::revoke_chosen;
use broker_types::{Fault, Moment, TextBuf, Words};
use records::RecordsTx;
use std::alloc::Global;

/// What is to be done.
#[derive(Clone, Copy)]
pub enum Task<'t> {
    /// One more root token is made, at the moment, by the first of the draws that is new. If the others are to be
    /// revoked, each other token with the policy `root` is, alone.
    NewRoot {
        moment: Moment,
        draws: &'t [Words],
        revokes_others: bool,
    },
    /// All responses that wait are dropped. If tokens are to be revoked, all are but those with the policy `root` and
    /// without an end.
    AfterRestore {
        revokes_tokens: bool,
    },
}

/// What was done.
#[derive(Drop)]
pub struct Done {
    /// The text of the new root token, if one was made.
    pub root: Option<TextBuf>,
    /// How many responses were dropped.
    pub responses: usize,
    /// How many tokens were revoked.
    pub tokens: usize,
}

/// Does it. If a new root token is to be made, and none of the draws is new, nothing changes. It fails with `BadStart`
/// if the clock has no row, with `Memory` if memory runs out, with `Storage` if the transaction's storage failed, and
/// with `Damaged` if a row that it asks for cannot be read.
pub fn perform<T: RecordsTx>(alloc: Global, tx: &mut T, task: &Task<'_>) -> Result<Done, Fault>
    ensures told { IsHonest (T.seen tx.new) → (b : Broker) → Represents None (T.seen tx.old).rows b
        → IfOk result (IsDone task.now b (T.seen tx.new).rows) }
    ensures wants { IsHonest (T.seen tx.new) → (b : Broker) → Represents None (T.seen tx.old).rows b
        → IfErr result IsMemoryOrStorage }
    ensures call { IsCall (T.seen tx.old) (T.seen tx.new) result (λ _. ⊤) }
{
    match task {
        Task::NewRoot {
            moment,
            draws,
            revokes_others,
        } => make_root(alloc, tx, *moment, draws, *revokes_others),
        Task::AfterRestore { revokes_tokens } => clear(alloc, tx, *revokes_tokens),
    }
}

/// Makes one more root token, and revokes the others if that is asked for.
fn make_root<T: RecordsTx>(
    alloc: Global,
    tx: &mut T,
    moment: Moment,
    draws: &[Words],
    revokes_others: bool,
) -> Result<Done, Fault>
    ensures told { IsHonest (T.seen tx.new) → (b : Broker) → Represents None (T.seen tx.old).rows b
        → IfOk result (λ done. MakesRootAlone b moment draws.now revokes_others (T.seen tx.new).rows done.root) }
    ensures wants { IsHonest (T.seen tx.new) → (b : Broker) → Represents None (T.seen tx.old).rows b
        → IfErr result IsMemoryOrStorage }
    ensures call { IsCall (T.seen tx.old) (T.seen tx.new) result (λ _. ⊤) }
{
    let Some(root) = add_root(alloc, tx, moment, draws)? else {
        return Ok(Done {
            root: None,
            responses: 0,
            tokens: 0,
        });
    };
    let others = Chosen::OtherRoots(root.as_str());
    let tokens = revoke_if(alloc, tx, revokes_others, &others)?;
    Ok(Done {
        root: Some(root),
        responses: 0,
        tokens,
    })
}

/// Drops the responses that wait, and revokes the tokens that a restore must not bring back if that is asked for.
fn clear<T: RecordsTx>(alloc: Global, tx: &mut T, revokes_tokens: bool) -> Result<Done, Fault>
    ensures told { IsHonest (T.seen tx.new) → (b : Broker) → Represents None (T.seen tx.old).rows b
        → IfOk result (λ done. IsRestored b revokes_tokens (T.seen tx.new).rows done.responses) }
    ensures wants { IsHonest (T.seen tx.new) → (b : Broker) → Represents None (T.seen tx.old).rows b
        → IfErr result IsMemoryOrStorage }
    ensures call { IsCall (T.seen tx.old) (T.seen tx.new) result (λ _. ⊤) }
{
    let responses = drop_responses(alloc, tx)?;
    let tokens = revoke_if(alloc, tx, revokes_tokens, &Chosen::AllButLastingRoots)?;
    Ok(Done {
        root: None,
        responses,
        tokens,
    })
}

/// Revokes the tokens that are chosen, if that is asked for, and answers how many they were.
fn revoke_if<T: RecordsTx>(
    alloc: Global,
    tx: &mut T,
    asked: bool,
    chosen: &Chosen<'_>,
) -> Result<usize, Fault>
    ensures told { IsHonest (T.seen tx.new) → (b : Broker) → Represents None (T.seen tx.old).rows b
        → OnOk result (Represents None (T.seen tx.new).rows (without_if asked (is_chosen chosen.now) b)) }
    ensures wants { IsHonest (T.seen tx.new) → (b : Broker) → Represents None (T.seen tx.old).rows b
        → IfErr result IsMemoryOrStorage }
    ensures call { IsCall (T.seen tx.old) (T.seen tx.new) result (λ _. ⊤) }
{
    if !asked {
        return Ok(0);
    }
    revoke_chosen(alloc, tx, chosen)
}
