//! What a client sends as its token, and by what others may name it: texts that are made from words.

ghost use Rattle.std.specs.Prelude.{◌≡◌, IfOk};
ghost use Rattle.broker_types.specs.Identifier.{id};
ghost use Rattle.broker_types.specs.TokenText.{token_text};

use crate::identifier::id_text;
use std::alloc::{AllocError, Global};
use std::marker::Model;

/// The text of a token, which a client sends with its requests: `hvs.` and an identifier (Vault's
/// documentation, "Tokens", token prefixes).
#[derive(Drop)]
pub struct TokenText {
    text: String,
}

impl Model for TokenText {
    ghost use Rattle.std.specs.Prelude.{ℕ, List, string_bytes};

    ghost Value = { List ℕ };

    ghost view = { λ t. string_bytes t.text };
}

impl TokenText {
    /// The token of a word. It fails only when out of memory.
    pub fn of_word(alloc: Global, word: u128) -> Result<TokenText, AllocError>
        ensures { IfOk result (λ t. t ≡ token_text (id word)) }
    {
        let mut text = String::from_str(alloc, "hvs.")?;
        text.push_str(id_text(alloc, word)?.as_str())?;
        Ok(TokenText { text })
    }

    /// The token's text.
    pub fn as_str(&self) -> &str
        ensures { result.now ≡ self.now }
    {
        self.text.as_str()
    }
}

/// The name of a token for those who do not know its text: an identifier (Vault's documentation,
/// "Tokens", token accessors).
#[derive(Drop)]
pub struct Accessor {
    identifier: String,
}

impl Model for Accessor {
    ghost use Rattle.std.specs.Prelude.{ℕ, List, string_bytes};

    ghost Value = { List ℕ };

    ghost view = { λ a. string_bytes a.identifier };
}

impl Accessor {
    /// The accessor of a word. It fails only when out of memory.
    pub fn of_word(alloc: Global, word: u128) -> Result<Accessor, AllocError>
        ensures { IfOk result (λ a. a ≡ id word) }
    {
        Ok(Accessor {
            identifier: id_text(alloc, word)?,
        })
    }

    /// The accessor's text.
    pub fn as_str(&self) -> &str
        ensures { result.now ≡ self.now }
    {
        self.identifier.as_str()
    }
}
