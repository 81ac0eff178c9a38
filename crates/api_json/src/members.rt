//! The members of a body by name.
ghost use Rattle.std.specs.Prelude.{◌≡◌, false, IfOk, option_map};
ghost use Rattle.serde_json.specs.Find.{get_member};
ghost use Rattle.serde_json.specs.View.{view, members_view};
ghost use Rattle.serde_json.specs.Written.{members_have_float, has_float};
ghost use Rattle.broker_types.specs.Refusal.{field_name};
ghost use Rattle.broker_types.specs.Refuse.{unless};
ghost use Rattle.broker_types.specs.declared.request_error.RequestError.TheVariants.{Refused};
ghost use Rattle.api_json.specs.Kinds as kind;
ghost use Rattle.api_json.specs.Members as spec;
ghost use Rattle.api_json.specs.Members.{given, optional, required, within, payload, invalid, missing};
ghost use Rattle.api_json.specs.Reads.{IsRead, IsReadAs};

use crate::from_member::FromMember;
use broker_types::{Field, Reason, Refusal, RequestError, TextBuf};
use serde_json::{Map, Value};
use std::alloc::{AllocError, Global};

/// A member that may be absent; null is absent. A member of another kind is 400 `invalid field: NAME`.
#[tactic(auto, unfolding(crate::specs::Members::optional))]
pub(crate) fn optional<X: FromMember>(
    alloc: Global,
    members: &Map<String, Value>,
    field: Field,
) -> Result<Option<X>, RequestError>
    ensures { IsRead (optional X.kind field (members_view members.now.entries)) result }
{
    match given(members, field) {
        None => Ok(None),
        Some(member) => match X::from_member(alloc, member)? {
            Some(value) => Ok(Some(value)),
            None => Err(invalid(field)),
        },
    }
}

/// A member that must be there. If it is absent: 400 `missing field: NAME`.
pub(crate) fn required<X: FromMember>(
    alloc: Global,
    members: &Map<String, Value>,
    field: Field,
) -> Result<X, RequestError>
    ensures { IsRead (required X.kind field (members_view members.now.entries)) result }
{
    match optional(alloc, members, field)? {
        Some(value) => Ok(value),
        None => Err(missing(field)),
    }
}

/// The members of an object that is itself a member.
#[tactic(auto, unfolding(crate::specs::Members::optional))]
pub(crate) fn object<'m>(
    members: &'m Map<String, Value>,
    field: Field,
) -> Result<Option<&'m Map<String, Value>>, RequestError>
    ensures { IsReadAs (option_map (λ m. members_view m.now.entries))
        (optional kind.as_members field (members_view members.now.entries)) result }
{
    match given(members, field) {
        None => Ok(None),
        Some(Value::Object(object)) => Ok(Some(object)),
        Some(_) => Err(invalid(field)),
    }
}

/// A member of an object, if there is an object.
pub(crate) fn within<X: FromMember>(
    alloc: Global,
    object: Option<&Map<String, Value>>,
    field: Field,
) -> Result<Option<X>, RequestError>
    ensures { IsRead (within (optional X.kind field)
        (option_map (λ m. members_view m.now.entries) object.entry)) result }
{
    match object {
        None => Ok(None),
        Some(members) => optional(alloc, members, field),
    }
}

/// Refuses a member whose value is not accepted.
pub(crate) fn unless(holds: bool, field: Field) -> Result<(), RequestError>
    ensures { IsRead (unless holds (invalid field)) result }
{
    if holds { Ok(()) } else { Err(invalid(field)) }
}

/// The member `data`, an object, as its compact text.
#[tactic(auto, using(crate::proofs::Whole::member_whole), unfolding(crate::specs::Members::payload))]
pub(crate) fn payload(
    alloc: Global,
    members: &Map<String, Value>,
) -> Result<Option<TextBuf>, AllocError>
    requires { members_have_float (members_view members.now.entries) ≡ false }
    ensures { IfOk result (λ t. t ≡ payload (members_view members.now.entries)) }
{
    match member(members, "data") {
        None => Ok(None),
        Some(value) => object_text(alloc, value),
    }
}

/// The compact text of an object.
fn object_text(alloc: Global, value: &Value) -> Result<Option<TextBuf>, AllocError>
    requires { has_float (view value.now) ≡ false }
    ensures { IfOk result (λ t. t ≡ kind.as_object_text (view value.now)) }
{
    match value {
        Value::Object(_) => Ok(Some(TextBuf::new(value.to_string(alloc)?))),
        Value::Null | Value::Bool(_) | Value::Number(_) | Value::String(_) | Value::Array(_) => Ok(
            None,
        ),
    }
}

/// The member of this name, unless it is null.
fn given<'m>(members: &'m Map<String, Value>, field: Field) -> Option<&'m Value>
    ensures { option_map (λ v. view v.now) result
        ≡ given (get_member (field_name field) (members_view members.now.entries)) }
{
    match member(members, field.name()) {
        None | Some(Value::Null) => None,
        Some(value) => Some(value),
    }
}

fn member<'m>(members: &'m Map<String, Value>, name: &str) -> Option<&'m Value>
    ensures { option_map (λ v. view v.now) result ≡ get_member name.now (members_view members.now.entries) }
{
    members.get(name)
}

/// A member of another kind, or with a value that is not accepted.
fn invalid(field: Field) -> RequestError
    ensures { result ≡ Refused (invalid field) }
{
    RequestError::Refused(Refusal::BadRequest(Reason::InvalidField(field)))
}

/// A member that must be there.
pub(crate) fn missing(field: Field) -> RequestError
    ensures { result ≡ Refused (missing field) }
{
    RequestError::Refused(Refusal::BadRequest(Reason::MissingField(field)))
}
