//! A reply is wrapped: kept for its unwrapping.

ghost use Rattle.std.specs.Prelude.{◌≡◌, List, Option, None, IfOk, OnOk};
ghost use Rattle.api_json.specs.Reply.{reply_text, wrap_reply};
ghost use Rattle.broker_types.specs.Broker.{Broker};
ghost use Rattle.broker_types.specs.Fault.{IsMemoryOrStorage};
ghost use Rattle.broker_types.specs.Names.{names_of};
ghost use Rattle.broker_types.specs.Operation as operation;
ghost use Rattle.broker_types.specs.Operation.{Done};
ghost use Rattle.broker_types.specs.Evolves.{IsNew};
ghost use Rattle.broker_types.specs.IdentifierPlaces.{token_identifier};
ghost use Rattle.broker_types.specs.Sound.{IsSoundWaiting};
ghost use Rattle.broker_types.specs.Text.{Text};
ghost use Rattle.broker_types.specs.TokenText.{token_text};
ghost use Rattle.records.specs.Calls.{IsCall};
ghost use Rattle.records.specs.Ranges.{IsWaitingInRange};
ghost use Rattle.records.specs.Rows.{rows_of};
ghost use Rattle.records.specs.Table.{table};
ghost use Rattle.records.specs.Transaction.{IsHonest};
ghost use Rattle.broker_model.specs.Order as order;
ghost use Rattle.broker_rows.specs.Done.{answered_of, counted, IsDone};
ghost use Rattle.broker_rows.specs.Representing.{Represents};
ghost use Rattle.broker.specs.Stages.{IsServed};
ghost use Rattle.broker.specs.Wraps.{IsSoundWrapping, MayWrap, kept_in, waiting_from};

use api_json::{WrapObject, reply_text, wrap_object, wrap_reply};
use broker_model::wrapping_is_proper;
use broker_rows::{Answered, Context, token_text, use_up};
use broker_types::{Fault, Reply, TextBuf, WrapTtl, id_text};
use records::{RecordsTx, WaitingRecord};
use std::alloc::{AllocError, Global};
use std::marker::Model;
use wrapping::store;

/// How the reply to a request is to be wrapped.
#[derive(Drop)]
pub(crate) struct Wrapping<'r> {
    /// The path of the request.
    pub path: &'r str,
    /// How long the response waits.
    pub ttl: WrapTtl,
    /// The identifier of the new wrapping token, as it is printed.
    pub token: &'r str,
    /// The accessor of the new wrapping token, as it is printed.
    pub accessor: &'r str,
}

impl<'r> Model for Wrapping<'r> {
    ghost use Rattle.broker.specs.Wraps as spec;

    ghost Value = { spec.Wrapping };

    ghost view = { λ w. record {
      path = w.path.now;
      ttl = w.ttl;
      token = w.token.now;
      accessor = w.accessor.now;
    } };
}

/// A reply of status 200 is kept under a new wrapping token, and the caller is told of this token in its place (Vault's
/// documentation, "Response wrapping"). Nothing else is wrapped. The identifiers of the token and of its accessor are
/// new. It fails with `Memory` if memory runs out, and with `Storage` if the transaction's storage failed.
pub(crate) fn wrap<T: RecordsTx>(
    tx: &mut T,
    context: &Context<'_>,
    wrapping: &Wrapping<'_>,
    answered: Answered,
) -> Result<Answered, Fault>
    requires { IsSoundWrapping wrapping.now }
    ensures told { IsHonest (T.seen tx.new) → (who : Option Text) (b : Broker) (own : List Text) (d : Done)
        → MayWrap context.now wrapping.now b own d → IsDone who (T.seen tx.old).rows answered d
        → IfOk result (λ x. IsServed who (T.seen tx.new).rows x
        (order.wrap_200 b wrapping.now.path wrapping.now.ttl (names_of context.now.words) d d.answered)) }
    ensures call { IsCall (T.seen tx.old) (T.seen tx.new) result IsMemoryOrStorage }
{
    match answered {
        Answered::Given(reply) => keep(tx, context, wrapping, &reply, None),
        Answered::Made(reply, made) => keep(tx, context, wrapping, &reply, Some(made)),
        Answered::Nothing => Ok(Answered::Nothing),
        Answered::Kept(text) => Ok(Answered::Kept(text)),
        Answered::Missing(reply) => Ok(Answered::Missing(reply)),
    }
}

/// Keeps a reply under a new wrapping token, and tells of this token. If the reply made a token, `made` is the accessor
/// of that.
fn keep<T: RecordsTx>(
    tx: &mut T,
    context: &Context<'_>,
    wrapping: &Wrapping<'_>,
    reply: &Reply,
    made: Option<TextBuf>,
) -> Result<Answered, Fault>
    requires { IsSoundWrapping wrapping.now }
    ensures told { IsHonest (T.seen tx.new) → (who : Option Text) (b : Broker) (own : List Text) (d : Done)
        → MayWrap context.now wrapping.now b own d → Represents who (T.seen tx.old).rows (counted d)
        → IfOk result (λ x. IsServed who (T.seen tx.new).rows x
        (order.wrap b wrapping.now.path wrapping.now.ttl (names_of context.now.words) d reply.now made)) }
    ensures call { IsCall (T.seen tx.old) (T.seen tx.new) result IsMemoryOrStorage }
{
    let alloc = context.alloc;
    wrapping_is_proper();
    let text = reply_text(alloc, reply)?;
    let response = waiting(context, wrapping, text.as_str());
    let wrapping_token = token_text(alloc, wrapping.token)?;
    put(alloc, tx, wrapping_token.as_str(), &response)?;
    Ok(told(context, wrapping_token, &response, made)?)
}

/// A text, as it waits from now on.
fn waiting<'r>(context: &Context<'_>, wrapping: &Wrapping<'r>, text: &'r str) -> WaitingRecord<'r>
    requires { IsSoundWrapping wrapping.now }
    ensures value { result ≡ waiting_from context.now.clock wrapping.now text.now }
    ensures sound { IsSoundWaiting (token_text wrapping.now.token) result }
{
    WaitingRecord {
        accessor: wrapping.accessor,
        created: context.clock.seconds(),
        ttl: u64::from(wrapping.ttl.count()),
        path: wrapping.path,
        origin: wrapping.token,
        reply: text,
    }
}

/// Stores a response under a new wrapping token, and marks its identifiers as given out.
fn put<T: RecordsTx>(
    alloc: Global,
    tx: &mut T,
    token: &str,
    response: &WaitingRecord<'_>,
) -> Result<(), Fault>
    requires { IsWaitingInRange response.now }
    ensures told { IsHonest (T.seen tx.new) → (who : Option Text) (b : Broker)
        → Represents who (T.seen tx.old).rows b → IsNew b (token_identifier token.now) → IsNew b response.now.accessor
        → OnOk result (table (T.seen tx.new) ≡ rows_of (kept_in b token.now response.now)) }
    ensures call { IsCall (T.seen tx.old) (T.seen tx.new) result IsMemoryOrStorage }
{
    store(alloc, tx, token, response)?;
    use_up(alloc, tx, response.accessor)?;
    use_up(alloc, tx, response.origin)
}

/// Answers with the wrapping token of a response that was kept now.
fn told(
    context: &Context<'_>,
    token: TextBuf,
    response: &WaitingRecord<'_>,
    made: Option<TextBuf>,
) -> Result<Answered, AllocError>
    requires { response.now.created ≡ context.now.clock }
    ensures { IfOk result (λ a. answered_of a ≡ operation.reply (wrap_reply (names_of context.now.words).request
        (order.wrap_info token response.now made)) None) }
{
    let alloc = context.alloc;
    let wrap = WrapObject {
        accessor: TextBuf::copied(alloc, response.accessor)?,
        creation_path: TextBuf::copied(alloc, response.path)?,
        created: context.clock,
        token,
        ttl: response.ttl,
        wrapped_accessor: made,
    };
    let request = id_text(alloc, context.words.request())?;
    let info = wrap_object(alloc, &wrap)?;
    Ok(Answered::Given(wrap_reply(alloc, request.as_str(), info)?))
}
