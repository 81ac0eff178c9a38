//! The front of a connection's bytes is served: the broker is asked, or the request is refused.

ghost use Rattle.std.specs.Prelude.{◌≡◌, IfOk, IfErr, IsOk, OnOk, Some, None, [], true, false};
ghost use Rattle.broker_types.specs.Answer.{response_of, HasRoom};
ghost use Rattle.broker_types.specs.Broker.{Broker};
ghost use Rattle.broker_rows.specs.ClockRow.{HasClock};
ghost use Rattle.broker_rows.specs.Representing.{Represents};
ghost use Rattle.http_layer.specs.Asked.{asked};
ghost use Rattle.http_layer.specs.Front.{IsFront, need};
ghost use Rattle.http_layer.specs.Refusing.{front_refused};
ghost use Rattle.http_layer.specs.Reply.{IsReply};
ghost use Rattle.records.specs.Kept.{IsHonestStore};
ghost use Rattle.hub.specs.AnyRows.{IsRequestReply};
ghost use Rattle.hub.specs.Feeding.{ServesFront, IsServed, Keeps};
ghost use Rattle.hub.specs.ListedReplies.{IsListedReply};
ghost use Rattle.hub.specs.World.{request_closes, request_effect};

use crate::buffer::Buffer;
use broker::Store;
use broker_types::{Answer, BodyBytes, Fault, Moment, Room, Status, Words};
use http_layer::{AskError, Cut, Head, ask_of, front_refusal, reply_bytes};
use std::alloc::Global;
use std::mem;

/// What serving the front of a connection's bytes gave.
#[derive(Drop)]
pub(crate) struct Served {
    /// The bytes of the reply, if there is one.
    pub(crate) bytes: Vec<u8>,
    /// The length of the request that was answered.
    pub(crate) len: Option<usize>,
    /// Whether the connection closes.
    pub(crate) closes: bool,
}

impl Served {
    /// No reply: more bytes are needed.
    fn nothing(alloc: Global) -> Served
        ensures bytes { result.bytes.items ≡ [] }
        ensures len { result.len ≡ None }
        ensures closes { result.closes ≡ false }
    {
        Served {
            bytes: Vec::new(alloc),
            len: None,
            closes: false,
        }
    }

    /// The reply to an answer, in the room that was reserved for its bytes, so nothing can run out once
    /// the broker has answered.
    fn reply(alloc: Global, mut answer: Answer, moment: Moment, closes: bool) -> Served
        requires { HasRoom answer }
        ensures reply { IsReply (response_of answer) moment closes result.bytes.items }
        ensures len { result.len ≡ None }
        ensures closes { result.closes ≡ closes }
    {
        let mut bytes = mem::replace(&mut answer.room, Room::empty(alloc)).into_vec();
        match reply_bytes(&answer, moment, closes).append_to(&mut bytes) {
            Ok(()) => Served {
                bytes,
                len: None,
                closes,
            },
            Err(_) => unreachable!(),
        }
    }
}

/// Serves the front of the bytes that are not answered.
pub(crate) fn serve_front<S: Store>(
    alloc: Global,
    store: &mut S,
    rest: &Buffer,
    moment: Moment,
    words: &Words,
) -> Result<Served, Fault>
    ensures serves { IfOk result (λ served. ServesFront (S.seen store.old) (S.seen store.new)
        moment words.now rest.now served) }
    ensures listed { IfOk result (λ served. IsListedReply served.bytes.items) }
    ensures succeeds { IsFront rest.now need → IsOk result }
    ensures keeps { Keeps (S.seen store.old) (S.seen store.new) result }
{
    match rest.cut() {
        Cut::Need => Ok(Served::nothing(alloc)),
        Cut::Refused { status } => serve_refusal(alloc, status, moment),
        Cut::Whole { len, head, body } => {
            let mut served = serve_request(alloc, store, &head, body, moment, words)?;
            served.len = Some(len);
            Ok(served)
        }
    }
}

/// The refusal of a front.
fn serve_refusal(alloc: Global, status: Status, moment: Moment) -> Result<Served, Fault>
    ensures reply { IfOk result (λ served. IsReply
        (front_refused status) moment true served.bytes.items) }
    ensures len { IfOk result (λ served. served.len ≡ None) }
    ensures closes { IfOk result (λ served. served.closes ≡ true) }
    ensures memory { IfErr result (λ fault. fault ≡ Fault.Memory) }
{
    let answer = front_refusal(alloc, status)?;
    Ok(Served::reply(alloc, answer, moment, true))
}

/// The reply to a whole request, without its length: the broker's answer to what it asks, or the refusal of one
/// that asks nothing.
fn serve_request<'b, S: Store>(
    alloc: Global,
    store: &mut S,
    head: &Head<'b>,
    body: BodyBytes<'b>,
    moment: Moment,
    words: &Words,
) -> Result<Served, Fault>
    ensures broker { IsHonestStore (S.seen store.new) → (b : Broker) → Represents None (S.seen store.old).rows b
        → IfOk result (λ served. IsServed (request_effect b moment words.now
        (asked head.now body.entry)) moment (request_closes head.now (asked head.now body.entry))
        served.bytes.items (S.seen store.new).rows) }
    ensures reply { IfOk result (λ served. IsRequestReply moment
        (request_closes head.now (asked head.now body.entry)) (asked head.now body.entry)
        served.bytes.items) }
    ensures clock { IsHonestStore (S.seen store.new)
        → OnOk result (OnOk (asked head.now body.entry) (HasClock (S.seen store.old).rows)) }
    ensures closes { IfOk result (λ served. served.closes
        ≡ request_closes head.now (asked head.now body.entry)) }
    ensures keeps { Keeps (S.seen store.old) (S.seen store.new) result }
{
    match ask_of(alloc, head, body) {
        Ok(ask) => {
            let answer = store.one(moment, words, &ask)?;
            Ok(Served::reply(alloc, answer, moment, head.closes()))
        }
        Err(AskError::Refused(refusal)) => {
            let answer = refusal.answer(alloc)?;
            let closes = head.closes() || refusal.close;
            Ok(Served::reply(alloc, answer, moment, closes))
        }
        Err(AskError::Fault(fault)) => Err(fault),
    }
}
