//! Answers to requests.

ghost use Rattle.std.specs.Prelude.{◌≡◌, IfOk, IfErr};
ghost use Rattle.broker_model.specs.ListedResponses.{IsListed};
ghost use Rattle.api_json.specs.Reply.{reply_text};
ghost use Rattle.broker_model.specs.Order.{response_to};
ghost use Rattle.broker_model.specs.Responses.{ok, not_found};
ghost use Rattle.broker_rows.specs.Done.{answered_of};
ghost use Rattle.broker_types.specs.Answer.{HasRoom, response_of, refused};
ghost use Rattle.broker_types.specs.declared.fault.Fault.TheVariants.{Memory};

use api_json::reply_text;
use broker_rows::Answered;
use broker_types::{Answer, Denial, Fault, Methods, Refusal, Reply, Status, TextBuf};
use std::alloc::{AllocError, Global};

/// 403 `permission denied`.
pub(crate) const PERMISSION_DENIED: Refusal = Refusal::Forbidden(Denial::PermissionDenied);

/// The answer to a refused request.
pub(crate) fn refuse(alloc: Global, refusal: Refusal) -> Result<Answer, Fault>
    ensures response { IfOk result (λ a. response_of a ≡ refused refusal) }
    ensures room { IfOk result HasRoom }
    ensures listed { IfOk result (λ a. IsListed (response_of a)) }
    ensures memory { IfErr result (λ fault. fault ≡ Memory) }
{
    Ok(Answer::refused(alloc, refusal)?)
}

/// The answer that an operation gives.
pub(crate) fn answer(alloc: Global, answered: Answered) -> Result<Answer, AllocError>
    ensures response { IfOk result (λ a. response_of a ≡ response_to (answered_of answered)) }
    ensures room { IfOk result HasRoom }
    ensures listed { IfOk result (λ a. IsListed (response_of a)) }
{
    match answered {
        Answered::Nothing => {
            let text = TextBuf::new(String::new(alloc));
            Answer::new(alloc, Status::NoContent, Methods::none(), text)
        }
        Answered::Given(reply) => success(alloc, &reply),
        Answered::Made(reply, _) => success(alloc, &reply),
        Answered::Kept(text) => Answer::new(alloc, Status::Success, Methods::none(), text),
        Answered::Missing(reply) => missing(alloc, &reply),
    }
}

/// 200 with a reply.
fn success(alloc: Global, reply: &Reply) -> Result<Answer, AllocError>
    ensures response { IfOk result (λ a. response_of a ≡ ok (reply_text reply.now)) }
    ensures room { IfOk result HasRoom }
    ensures listed { IfOk result (λ a. IsListed (response_of a)) }
{
    let text = reply_text(alloc, reply)?;
    Answer::new(alloc, Status::Success, Methods::none(), text)
}

/// 404 with a reply.
fn missing(alloc: Global, reply: &Reply) -> Result<Answer, AllocError>
    ensures response { IfOk result (λ a. response_of a ≡ not_found (reply_text reply.now)) }
    ensures room { IfOk result HasRoom }
    ensures listed { IfOk result (λ a. IsListed (response_of a)) }
{
    let text = reply_text(alloc, reply)?;
    Answer::new(alloc, Status::NotFound, Methods::none(), text)
}
