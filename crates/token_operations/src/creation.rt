//! Creation of tokens.

ghost use Rattle.std.specs.Prelude.{◌≡◌, Option, IfOk, OnOk};
ghost use Rattle.broker_types.specs.Broker.{Broker};
ghost use Rattle.broker_types.specs.Fault.{IsMemoryOrStorage, IsNotBadStart};
ghost use Rattle.broker_types.specs.Map.{empty};
ghost use Rattle.broker_types.specs.Names.{names_of};
ghost use Rattle.broker_types.specs.Text.{Text};
ghost use Rattle.broker_types.specs.Token.{Token};
ghost use Rattle.broker_types.specs.TokenText.{token_text};
ghost use Rattle.broker_types.specs.declared.ask.Verb.TheVariants as verb;
ghost use Rattle.records.specs.Calls.{IsCall, IsRequestCall};
ghost use Rattle.records.specs.Ranges.{IsTokenInRange};
ghost use Rattle.records.specs.TokenEntry.{token_entry};
ghost use Rattle.records.specs.Transaction.{IsHonest};
ghost use Rattle.token_tree.specs.Tokens.{MayBeMade, created};
ghost use Rattle.api_json.specs.KeptBodies.{IsKeptCreation};
ghost use Rattle.policies.specs.Allows.{allows};
ghost use Rattle.policies.specs.declared.capability.Capability.TheVariants as capability;
ghost use Rattle.broker_model.specs.Forms.{forms};
ghost use Rattle.broker_model.specs.Traits.{token_names};
ghost use Rattle.broker_model.specs.parts.TokenCreation.{making_path};
ghost use Rattle.broker_model.specs.parts.Tokens as part;
ghost use Rattle.broker_rows.specs.Caller.{AreItsRules};
ghost use Rattle.broker_rows.specs.Operating.{ArePrinted, PerformsBy};
ghost use Rattle.broker_rows.specs.Representing.{Represents};
ghost use Rattle.token_operations.specs.TokenMaking.{PutsToken};

use crate::new_policies::new_policies;
use crate::new_token::{check, new_parent, new_record};
use crate::shown::auth_reply;
use api_json::TokenCreation;
use broker_model::Making;
use broker_rows::{Answered, Asker, Context, token_text, use_up};
use broker_types::{Denial, Fault, Refusal, RequestError, TextBuf, Verb};
use policies::{Capability, Rules, allows_with};
use records::{RecordsTx, TokenRecord};
use std::alloc::Global;
use token_tree::create as create_token;

/// Makes the token that is asked for, if the caller may. The identifiers of the request are new, and have been printed.
pub(crate) fn create<T: RecordsTx>(
    tx: &mut T,
    context: &Context<'_>,
    asker: &Asker<'_>,
    own: &[TextBuf],
    making: Making,
    asked: &TokenCreation,
) -> Result<Answered, RequestError>
    requires storable { IsKeptCreation asked.now }
    requires known { IsTokenInRange asker.now.caller.known }
    requires own { ArePrinted own.now (token_names (names_of context.now.words)) }
    ensures told { AreItsRules (T.seen tx.old).rows asker.now
        → PerformsBy asker.now.caller context.now (token_names (names_of context.now.words))
        (T.seen tx.old) (T.seen tx.new)
        (λ b. part.create b asker.now.caller.token (names_of context.now.words) making asked.now) result }
    ensures call { IsRequestCall (T.seen tx.old) (T.seen tx.new) result IsNotBadStart }
{
    let alloc = context.alloc;
    let caller = &asker.caller;
    if caller.token.is_empty() {
        return Err(RequestError::Refused(Refusal::Forbidden(Denial::BadToken)));
    }
    let privileged = has_sudo(&asker.rules, making);
    let policies = new_policies(alloc, privileged, &caller.known, asked)?;
    check(privileged, making, &caller.known, &policies, asked)?;
    let parent = new_parent(alloc, caller.token, making, asked)?;
    let accessor = TextBuf::copied(alloc, own[1].as_str())?;
    let token = new_record(alloc, context.clock, parent, accessor, policies, asked)?;
    make(tx, context, own[0].as_str(), token)
}

/// Whether rules allow `sudo` for a write to the path of the route that makes the token. By it a caller may give more
/// than it has.
fn has_sudo(rules: &Rules, making: Making) -> bool
    ensures { result ≡ allows (record rules.now { verb = verb.Write }) (making_path making) capability.Sudo }
{
    allows_with(rules, Verb::Write, making.path(), Capability::Sudo)
}

/// Makes a token, and answers with it.
fn make<T: RecordsTx>(
    tx: &mut T,
    context: &Context<'_>,
    identifier: &str,
    token: TokenRecord,
) -> Result<Answered, RequestError>
    requires { IsTokenInRange token }
    ensures told { (who : Option Text) → identifier.now ≡ (names_of context.now.words).token
        → PutsToken who context.now (T.seen tx.old) (T.seen tx.new) token result }
    ensures call { IsRequestCall (T.seen tx.old) (T.seen tx.new) result IsNotBadStart }
{
    let (text, accessor) = put(tx, context.alloc, identifier, &token)?;
    Ok(Answered::Made(auth_reply(context, text, token)?, accessor))
}

/// Writes a new token, marks its identifiers as given out, and answers its text and a copy of its accessor.
fn put<T: RecordsTx>(
    tx: &mut T,
    alloc: Global,
    identifier: &str,
    token: &TokenRecord,
) -> Result<(TextBuf, TextBuf), Fault>
    requires { IsTokenInRange token.now }
    ensures texts { IfOk result (λ texts. texts ≡ (token_text identifier.now, token.now.accessor)) }
    ensures told { IsHonest (T.seen tx.new) → (who : Option Text) (b : Broker) (x : Token)
        → Represents who (T.seen tx.old).rows b → token_entry x ≡ token.now
        → MayBeMade forms b (token_text identifier.now) x → x.cubbyhole ≡ empty
        → OnOk result (Represents who (T.seen tx.new).rows (created b (token_text identifier.now) x)) }
    ensures call { IsCall (T.seen tx.old) (T.seen tx.new) result IsMemoryOrStorage }
{
    let text = token_text(alloc, identifier)?;
    let accessor = TextBuf::copied(alloc, token.accessor.as_str())?;
    create_token(alloc, tx, text.as_str(), token)?;
    use_up(alloc, tx, accessor.as_str())?;
    use_up(alloc, tx, identifier)?;
    Ok((text, accessor))
}
