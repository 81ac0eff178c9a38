//! Objects and arrays printed member by member, as compact JSON (RFC 8259).
ghost use Rattle.std.specs.Prelude.{◌≡◌, ◌<◌, ◌++◌, ◌∷◌, [], IfOk, OnOk, map, fold, string_bytes};
ghost use Rattle.api_json.specs.Names.{name_text};
ghost use Rattle.api_json.specs.Printing.{quoted, whole_number, with_item, with_member, null_text, bool_text, or_null};
ghost use Rattle.api_json.specs.Printing.{time, time_or, texts, pairs, quoted_pair};

use crate::end_time::EndTime;
use crate::name::Name;
use broker_types::{Moment, TextBuf, time_text};
use serde_json::Value;
use std::alloc::{AllocError, Global};
use std::marker::Model;

/// The compact text of an object without its closing brace, to which members are written in turn.
#[derive(Drop)]
pub(crate) struct ObjectText {
    alloc: Global,
    text: String,
}

impl Model for ObjectText {
    ghost use Rattle.std.specs.Prelude.{ℕ, List, string_bytes};

    ghost Value = { List ℕ };

    ghost view = { λ o. string_bytes o.text };
}

impl ObjectText {
    /// An object without members.
    pub(crate) fn new(alloc: Global) -> Result<ObjectText, AllocError>
        ensures { IfOk result (λ o. o ≡ 123 ∷ []) }
    {
        Ok(ObjectText {
            alloc,
            text: String::from_str(alloc, "{")?,
        })
    }

    /// A member of any name, whose value is a JSON text.
    #[tactic(auto, unfolding(crate::specs::Printing::with_member))]
    pub(crate) fn entry(self, name: &str, value: &str) -> Result<ObjectText, AllocError>
        ensures { IfOk result (λ o. o ≡ with_member self (name.now, value.now)) }
    {
        let ObjectText { alloc, mut text } = self;
        let mut member = quoted(alloc, name)?;
        member.push_str(":")?;
        member.push_str(value)?;
        push_item(&mut text, member.as_str())?;
        Ok(ObjectText { alloc, text })
    }

    /// A member whose value is a JSON text.
    pub(crate) fn member(self, name: Name, value: &str) -> Result<ObjectText, AllocError>
        ensures { IfOk result (λ o. o ≡ with_member self (name_text name, value.now)) }
    {
        self.entry(name.text(), value)
    }

    pub(crate) fn text(self, name: Name, value: &str) -> Result<ObjectText, AllocError>
        ensures { IfOk result (λ o. o ≡ with_member self (name_text name, quoted value.now)) }
    {
        let value = quoted(self.alloc, value)?;
        self.member(name, value.as_str())
    }

    #[tactic(auto, unfolding(crate::specs::Printing::whole_number))]
    pub(crate) fn number(self, name: Name, value: u64) -> Result<ObjectText, AllocError>
        ensures { IfOk result (λ o. o ≡ with_member self (name_text name, whole_number value)) }
    {
        let value = value.to_string(self.alloc)?;
        self.member(name, value.as_str())
    }

    #[tactic(auto, unfolding(crate::specs::Printing::bool_text))]
    pub(crate) fn flag(self, name: Name, value: bool) -> Result<ObjectText, AllocError>
        ensures { IfOk result (λ o. o ≡ with_member self (name_text name, bool_text value)) }
    {
        self.member(name, if value { "true" } else { "false" })
    }

    #[tactic(auto, unfolding(crate::specs::Printing::null_text))]
    pub(crate) fn null(self, name: Name) -> Result<ObjectText, AllocError>
        ensures { IfOk result (λ o. o ≡ with_member self (name_text name, null_text)) }
    {
        self.member(name, "null")
    }

    #[tactic(auto, unfolding(crate::specs::Printing::or_null))]
    pub(crate) fn or_null(
        self,
        name: Name,
        value: &Option<TextBuf>,
    ) -> Result<ObjectText, AllocError>
        ensures { IfOk result (λ o. o ≡ with_member self (name_text name, or_null value.now)) }
    {
        match value {
            Some(value) => self.member(name, value.as_str()),
            None => self.null(name),
        }
    }

    pub(crate) fn time(self, name: Name, moment: Moment) -> Result<ObjectText, AllocError>
        ensures { IfOk result (λ o. o ≡ with_member self (name_text name, time moment)) }
    {
        self.seconds(name, moment.seconds())
    }

    /// The time that many seconds after the beginning of 1970.
    #[tactic(auto, unfolding(crate::specs::Printing::time))]
    fn seconds(self, name: Name, seconds: u64) -> Result<ObjectText, AllocError>
        requires { seconds < 253402300800 }
        ensures { IfOk result (λ o. o ≡ with_member self (name_text name, time seconds)) }
    {
        let value = time_text(self.alloc, seconds)?;
        self.text(name, value.as_str())
    }

    /// A time, or an empty text.
    #[tactic(auto, unfolding(crate::specs::Printing::time_or))]
    pub(crate) fn time_or_empty(
        self,
        name: Name,
        moment: Option<Moment>,
    ) -> Result<ObjectText, AllocError>
        ensures { IfOk result (λ o. o ≡ with_member self (name_text name, time_or (quoted []) moment)) }
    {
        match moment {
            Some(moment) => self.time(name, moment),
            None => self.text(name, ""),
        }
    }

    /// A time, or `null`.
    #[tactic(auto, unfolding(crate::specs::Printing::time_or))]
    pub(crate) fn time_or_null(
        self,
        name: Name,
        moment: Option<Moment>,
    ) -> Result<ObjectText, AllocError>
        ensures { IfOk result (λ o. o ≡ with_member self (name_text name, time_or null_text moment)) }
    {
        match moment {
            Some(moment) => self.time(name, moment),
            None => self.null(name),
        }
    }

    pub(crate) fn end(self, name: Name, end: EndTime) -> Result<ObjectText, AllocError>
        ensures { IfOk result (λ o. o ≡ with_member self (name_text name, time end)) }
    {
        self.seconds(name, end.seconds())
    }

    #[tactic(auto, unfolding(crate::specs::Printing::time_or))]
    pub(crate) fn end_or_null(
        self,
        name: Name,
        end: Option<EndTime>,
    ) -> Result<ObjectText, AllocError>
        ensures { IfOk result (λ o. o ≡ with_member self (name_text name, time_or null_text end)) }
    {
        match end {
            Some(end) => self.end(name, end),
            None => self.null(name),
        }
    }

    pub(crate) fn texts(self, name: Name, values: &[TextBuf]) -> Result<ObjectText, AllocError>
        ensures { IfOk result (λ o. o ≡ with_member self (name_text name, texts values.now)) }
    {
        let value = texts(self.alloc, values)?;
        self.member(name, value.as_str())
    }

    pub(crate) fn pairs(
        self,
        name: Name,
        values: &[(TextBuf, TextBuf)],
    ) -> Result<ObjectText, AllocError>
        ensures { IfOk result (λ o. o ≡ with_member self (name_text name, pairs values.now)) }
    {
        let value = pairs(self.alloc, values)?;
        self.member(name, value.as_str())
    }

    /// The whole object.
    pub(crate) fn finish(self) -> Result<TextBuf, AllocError>
        ensures { IfOk result (λ t. t ≡ self ++ 125 ∷ []) }
    {
        let ObjectText { alloc: _, mut text } = self;
        text.push_str("}")?;
        Ok(TextBuf::new(text))
    }
}

/// Appends what follows an opening bracket, with a comma before it unless it is the first.
#[tactic(auto, unfolding(crate::specs::Printing::with_item))]
fn push_item(begun: &mut String, value: &str) -> Result<(), AllocError>
    ensures { OnOk result (string_bytes begun.new ≡ with_item (string_bytes begun.old) value.now) }
{
    if begun.len() != 1 {
        begun.push_str(",")?;
    }
    begun.push_str(value)
}

/// A text as JSON.
#[tactic(auto, unfolding(crate::specs::Printing::quoted))]
fn quoted(alloc: Global, text: &str) -> Result<String, AllocError>
    ensures { IfOk result (λ s. string_bytes s ≡ quoted text.now) }
{
    Value::String(String::from_str(alloc, text)?).to_string(alloc)
}

/// An array of texts.
#[tactic(auto, unfolding(crate::specs::Printing::texts))]
pub(crate) fn texts(alloc: Global, values: &[TextBuf]) -> Result<TextBuf, AllocError>
    ensures { IfOk result (λ t. t ≡ texts values.now) }
{
    let mut text = String::from_str(alloc, "[")?;
    for value in values {
        let value = quoted(alloc, value.as_str())?;
        push_item(&mut text, value.as_str())?;
    }
    text.push_str("]")?;
    Ok(TextBuf::new(text))
}

/// An object of texts, and `null` if there is none.
#[tactic(auto, unfolding(crate::specs::Printing::pairs, crate::specs::Printing::null_text))]
pub(crate) fn pairs(alloc: Global, values: &[(TextBuf, TextBuf)]) -> Result<TextBuf, AllocError>
    ensures { IfOk result (λ t. t ≡ pairs values.now) }
{
    if values.is_empty() {
        return TextBuf::copied(alloc, "null");
    }
    let mut object = ObjectText::new(alloc)?;
    for value in values {
        let text = quoted(alloc, value.1.as_str())?;
        object = object.entry(value.0.as_str(), text.as_str())?;
    }
    object.finish()
}
