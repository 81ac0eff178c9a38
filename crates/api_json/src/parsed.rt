//! Values that were read.
ghost use Rattle.std.specs.Prelude.{◌≡◌, ◌≤◌, false};
ghost use Rattle.serde_json.specs.Data.{depth};
ghost use Rattle.serde_json.specs.Read.{max_depth};
ghost use Rattle.serde_json.specs.View.{view, members_view};
ghost use Rattle.serde_json.specs.Written.{has_float, members_have_float};

use serde_json::{Map, Value};

/// A JSON value without floats, of at most 127 levels: each of its numbers is a whole number from -2^63 to 2^64-1 (RFC
/// 8259, sections 6 and 9, leaves the range of numbers and the depth to a reader).
#[derive(Drop)]
pub struct Tree {
    pub(crate) value: Value,
    ghost whole: { has_float (view value) ≡ false },
    ghost shallow: { depth (view value) ≤ max_depth },
}

/// The object that a request's body is, without floats.
#[derive(Drop)]
pub struct Body {
    pub(crate) members: Map<String, Value>,
    ghost whole: { members_have_float (members_view members.entries) ≡ false },
}
