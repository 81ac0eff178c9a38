//! Identifiers, which are words written as UUIDs (RFC 9562).

ghost use Rattle.std.specs.Prelude.{◌≡◌, ◌≢◌, length, IfOk, string_bytes, codes};
ghost use Rattle.broker_types.specs.Identifier.{id};

use std::alloc::{AllocError, Global};
use uuid::Uuid;

/// The identifier of a word, without memory: its hyphenated lower-case text
/// (RFC 9562, section 4).
pub fn id_bytes(word: u128) -> [u8; 36]
    ensures { result ≡ id word }
{
    let mut buffer = [0u8; 36];
    let text = Uuid::from_u128(word).hyphenated().encode_lower(&mut buffer);
    let mut bytes = [0u8; 36];
    bytes.copy_from_slice(text.as_bytes());
    bytes
}

/// The identifier of a word: its hyphenated lower-case text (RFC 9562, section 4).
/// It fails only when out of memory.
pub fn id_text(alloc: Global, word: u128) -> Result<String, AllocError>
    ensures { IfOk result (λ s. string_bytes s ≡ id word) }
{
    Uuid::from_u128(word).hyphenated().to_string(alloc)
}

/// A law: different words have different identifiers, each of 36 bytes.
pub fn identifiers_differ(v: u128, w: u128)
    ensures differ { v ≢ w → id v ≢ id w }
    ensures long { length (id v) ≡ 36 }
{}
