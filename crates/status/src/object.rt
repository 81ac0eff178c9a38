//! Objects printed member by member, as compact JSON (RFC 8259).

ghost use Rattle.std.specs.Prelude.{◌≡◌, ◌++◌, ◌∷◌, [], IfOk, OnOk, string_bytes};
ghost use Rattle.status.specs.Members.{member_text};
ghost use Rattle.status.specs.Objects.{bool_text, number_or_null, quoted, time, whole_number, with_member};

use crate::member::Member;
use broker_types::{Moment, time_text};
use serde_json::Value;
use std::alloc::{AllocError, Global};
use std::marker::Model;

/// The compact text of an object without its closing brace, to which members are written in turn.
#[derive(Drop)]
pub(crate) struct ObjectText {
    alloc: Global,
    text: String,
}

impl Model for ObjectText {
    ghost use Rattle.std.specs.Prelude.{ℕ, List, string_bytes};

    ghost Value = { List ℕ };

    ghost view = { λ o. string_bytes o.text };
}

impl ObjectText {
    /// An object without members.
    pub(crate) fn new(alloc: Global) -> Result<ObjectText, AllocError>
        ensures { IfOk result (λ o. o ≡ 123 ∷ []) }
    {
        Ok(ObjectText {
            alloc,
            text: String::from_str(alloc, "{")?,
        })
    }

    /// A member whose value is a JSON text.
    #[tactic(auto, unfolding(crate::specs::Objects::with_member))]
    fn member(self, name: Member, value: &str) -> Result<ObjectText, AllocError>
        ensures { IfOk result (λ o. o ≡ with_member self (member_text name, value.now)) }
    {
        let ObjectText { alloc, mut text } = self;
        if text.len() != 1 {
            text.push_str(",")?;
        }
        text.push_str(quoted(alloc, name.text())?.as_str())?;
        text.push_str(":")?;
        text.push_str(value)?;
        Ok(ObjectText { alloc, text })
    }

    pub(crate) fn text(self, name: Member, value: &str) -> Result<ObjectText, AllocError>
        ensures { IfOk result (λ o. o ≡ with_member self (member_text name, quoted value.now)) }
    {
        let value = quoted(self.alloc, value)?;
        self.member(name, value.as_str())
    }

    #[tactic(auto, unfolding(crate::specs::Objects::whole_number))]
    pub(crate) fn number(self, name: Member, value: u64) -> Result<ObjectText, AllocError>
        ensures { IfOk result (λ o. o ≡ with_member self (member_text name, whole_number value)) }
    {
        let value = value.to_string(self.alloc)?;
        self.member(name, value.as_str())
    }

    #[tactic(auto, unfolding(crate::specs::Objects::number_or_null))]
    pub(crate) fn number_or_null(
        self,
        name: Member,
        value: Option<u8>,
    ) -> Result<ObjectText, AllocError>
        ensures { IfOk result (λ o. o ≡ with_member self (member_text name, number_or_null value)) }
    {
        match value {
            Some(value) => self.number(name, value as u64),
            None => self.member(name, "null"),
        }
    }

    #[tactic(auto, unfolding(crate::specs::Objects::bool_text))]
    pub(crate) fn flag(self, name: Member, value: bool) -> Result<ObjectText, AllocError>
        ensures { IfOk result (λ o. o ≡ with_member self (member_text name, bool_text value)) }
    {
        self.member(name, if value { "true" } else { "false" })
    }

    #[tactic(auto, unfolding(crate::specs::Objects::time))]
    pub(crate) fn time(self, name: Member, moment: Moment) -> Result<ObjectText, AllocError>
        ensures { IfOk result (λ o. o ≡ with_member self (member_text name, time moment)) }
    {
        let value = time_text(self.alloc, moment.seconds())?;
        self.text(name, value.as_str())
    }

    /// The whole object, and a line feed.
    pub(crate) fn finish(self) -> Result<Vec<u8>, AllocError>
        ensures { IfOk result (λ text. text.items ≡ self ++ 125 ∷ 10 ∷ []) }
    {
        let ObjectText { alloc: _, mut text } = self;
        text.push_str("}\n")?;
        Ok(text.into_bytes())
    }
}

/// A text as JSON.
#[tactic(auto, unfolding(crate::specs::Objects::quoted))]
fn quoted(alloc: Global, text: &str) -> Result<String, AllocError>
    ensures { IfOk result (λ s. string_bytes s ≡ quoted text.now) }
{
    Value::String(String::from_str(alloc, text)?).to_string(alloc)
}
