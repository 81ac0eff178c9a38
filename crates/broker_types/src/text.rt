//! Texts and bytes that contracts see as lists of bytes, owned or borrowed.

ghost use Rattle.std.specs.Prelude.{◌≡◌, IfOk, option_map, string_bytes};
ghost use Rattle.std.specs.Cow.{cow_str_bytes, cow_slice_items};
ghost use Rattle.std.specs.List.{list_any};
ghost use Rattle.broker_types.specs.Text.{same};

use std::alloc::{AllocError, Global};
use std::borrow::{CowSlice, CowStr};
use std::marker::Model;

/// A text that contracts see as the list of its UTF-8 bytes.
#[derive(Drop)]
pub struct TextBuf {
    text: String,
}

impl Model for TextBuf {
    ghost use Rattle.std.specs.Prelude.{ℕ, List, string_bytes};

    ghost Value = { List ℕ };

    ghost view = { λ t. string_bytes t.text };
}

impl TextBuf {
    /// The text of a `String`.
    pub fn new(text: String) -> TextBuf
        ensures { result ≡ string_bytes text }
    {
        TextBuf { text }
    }

    /// A copy of a text. It fails only when out of memory.
    pub fn copied(alloc: Global, text: &str) -> Result<TextBuf, AllocError>
        ensures { IfOk result (λ t. t ≡ text.now) }
    {
        Ok(TextBuf {
            text: String::from_str(alloc, text)?,
        })
    }

    /// A copy of a text, if there is one. It fails only when out of memory.
    pub fn copied_if_some(alloc: Global, text: Option<&str>) -> Result<Option<TextBuf>, AllocError>
        ensures { IfOk result (λ copy. copy ≡ option_map (λ t. t.now) text.entry) }
    {
        match text {
            None => Ok(None),
            Some(text) => Ok(Some(TextBuf::copied(alloc, text)?)),
        }
    }

    /// The text.
    pub fn as_str(&self) -> &str
        ensures { result.now ≡ self.now }
    {
        self.text.as_str()
    }

    /// The text as a `String`.
    pub fn into_string(self) -> String
        ensures { string_bytes result ≡ self }
    {
        let TextBuf { text } = self;
        text
    }
}

/// Whether two texts are one.
#[tactic(auto, unfolding(crate::specs::Text::same))]
pub fn is_same(a: &str, b: &str) -> bool
    ensures { result ≡ same a.now b.now }
{
    a == b
}

/// Whether a text is one of the list.
pub fn is_among(list: &[TextBuf], text: &str) -> bool
    ensures { result ≡ list_any (same text.now) list.now }
{
    list.iter().any(|other| is_same(text, other.as_str()))
}

/// Bytes that contracts see as their list.
#[derive(Drop)]
pub struct Bytes {
    bytes: Vec<u8>,
}

impl Model for Bytes {
    ghost use Rattle.std.specs.Prelude.{ℕ, List};

    ghost Value = { List ℕ };

    ghost view = { λ b. b.bytes.items };
}

impl Bytes {
    /// The bytes of a `Vec`.
    pub fn new(bytes: Vec<u8>) -> Bytes
        ensures { result ≡ bytes.items }
    {
        Bytes { bytes }
    }

    /// The bytes.
    pub fn as_slice(&self) -> &[u8]
        ensures { result.now ≡ self.now }
    {
        self.bytes.as_slice()
    }

    /// The bytes as a `Vec`.
    pub fn into_vec(self) -> Vec<u8>
        ensures { result.items ≡ self }
    {
        let Bytes { bytes } = self;
        bytes
    }
}

/// A text that is borrowed if possible, seen as the list of its UTF-8 bytes.
#[derive(Drop)]
pub struct CowText<'b> {
    cow: CowStr<'b>,
}

impl<'b> Model for CowText<'b> {
    ghost use Rattle.std.specs.Prelude.{ℕ, List};
    ghost use Rattle.std.specs.Cow.{cow_str_bytes};

    ghost Value = { List ℕ };

    ghost view = { λ t. cow_str_bytes t.cow };
}

impl<'b> CowText<'b> {
    /// The text of a `CowStr`.
    pub fn new(text: CowStr<'b>) -> CowText<'b>
        ensures { result ≡ cow_str_bytes text.entry }
    {
        CowText { cow: text }
    }

    /// The text.
    pub fn as_str(&self) -> &str
        ensures { result.now ≡ self.now }
    {
        self.cow.as_str()
    }
}

/// Bytes that are borrowed if possible, seen as their list.
#[derive(Drop)]
pub struct CowBytes<'b> {
    cow: CowSlice<'b, u8>,
}

impl<'b> Model for CowBytes<'b> {
    ghost use Rattle.std.specs.Prelude.{ℕ, List};
    ghost use Rattle.std.specs.Cow.{cow_slice_items};

    ghost Value = { List ℕ };

    ghost view = { λ b. cow_slice_items b.cow };
}

impl<'b> CowBytes<'b> {
    /// The bytes of a `CowSlice`.
    pub fn new(bytes: CowSlice<'b, u8>) -> CowBytes<'b>
        ensures { result ≡ cow_slice_items bytes.entry }
    {
        CowBytes { cow: bytes }
    }

    /// The bytes.
    pub fn as_slice(&self) -> &[u8]
        ensures { result.now ≡ self.now }
    {
        self.cow.as_slice()
    }
}
