//! Requests as the broker sees them, without their HTTP.

ghost use Rattle.std.specs.Prelude.{◌≡◌, ◌≤◌, length, min};
ghost use Rattle.std.specs.Option.{SomeIff};
ghost use Rattle.std.specs.Cow.{cow_slice_items};
ghost use Rattle.broker_types.specs.Limits.{longest_body, longest_ttl};

use crate::path::Path;
use crate::seconds::Seconds;
use crate::text::{CowBytes, CowText};
use std::borrow::CowSlice;
use std::marker::Model;

/// What a request does with its path (RFC 9110, section 9; Vault's documentation, "HTTP API", for LIST).
/// POST and PUT are one, `Write`.
#[derive(Clone, Copy, Debug, PartialEq, Eq)]
pub enum Verb {
    Get,
    List,
    Write,
    Delete,
}

/// What a request asks of the broker.
#[derive(Drop)]
pub struct Ask<'b> {
    /// What is done with the path.
    pub verb: Verb,
    /// What follows `/v1/`.
    pub path: Path<'b>,
    /// The version that the query asks for, as it is written there; empty if it asks for none.
    pub version: CowBytes<'b>,
    /// The client token, if there is one.
    pub token: Option<CowText<'b>>,
    /// How long the reply is kept for unwrapping.
    pub wrap_ttl: WrapTtl,
    /// The body, as it was sent.
    pub body: BodyBytes<'b>,
}

/// How long a reply is kept for unwrapping (Vault's documentation, "Response wrapping"): at most
/// 2,764,800 seconds (32 days), and 0 for a reply that is not wrapped.
#[derive(Clone, Copy, Debug, PartialEq, Eq)]
pub struct WrapTtl {
    count: u32,
}

impl Model for WrapTtl {
    ghost use Rattle.std.specs.Prelude.{ℕ, ◌≤◌};
    ghost use Rattle.broker_types.specs.Limits.{longest_ttl};

    ghost Value = { ℕ };

    ghost view = { λ t. t.count };

    ghost invariant = { λ t. t.count ≤ longest_ttl };

    ghost inverse = { λ n. record { count = n } };
}

impl WrapTtl {
    /// The time asked for, cut to 32 days.
    pub fn cut(asked: Seconds) -> WrapTtl
        ensures { result ≡ min asked longest_ttl }
    {
        WrapTtl {
            count: asked.count().min(2_764_800),
        }
    }

    /// How many seconds it is.
    pub fn count(self) -> u32
        ensures value { result ≡ self }
        ensures within { result ≤ longest_ttl }
    {
        self.count
    }
}

/// The body of a request: at most 1,048,576 bytes (this project's limit), borrowed if possible.
#[derive(Drop)]
pub struct BodyBytes<'b> {
    bytes: CowSlice<'b, u8>,
}

impl<'b> Model for BodyBytes<'b> {
    ghost use Rattle.std.specs.Prelude.{ℕ, List, ◌≤◌, length};
    ghost use Rattle.std.specs.Cow.{cow_slice_items};
    ghost use Rattle.broker_types.specs.Limits.{longest_body};

    ghost Value = { List ℕ };

    ghost view = { λ b. cow_slice_items b.bytes };

    ghost invariant = { λ b. length (cow_slice_items b.bytes) ≤ longest_body };
}

impl<'b> BodyBytes<'b> {
    /// The body of these bytes; none if they are too many.
    pub fn new(bytes: CowSlice<'b, u8>) -> Option<BodyBytes<'b>>
        ensures { SomeIff result (length (cow_slice_items bytes.entry) ≤ longest_body) (cow_slice_items bytes.entry) }
    {
        if bytes.as_slice().len() <= 1_048_576 {
            Some(BodyBytes { bytes })
        } else {
            None
        }
    }

    /// The bytes.
    pub fn as_slice(&self) -> &[u8]
        ensures bytes { result.now ≡ self.now }
        ensures within { length result.now ≤ longest_body }
    {
        self.bytes.as_slice()
    }
}
