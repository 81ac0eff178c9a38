//! Laws of printed and of kept objects, each the contract of a function that does nothing.
ghost use Rattle.api_json.specs.Laws.{PrintsFromTheFront, PrintsJson, PrintsReadBack, BodiesReadBack};
ghost use Rattle.api_json.specs.Laws.{CompactIsNoLonger, BodiesAreKept, PayloadsAreKept};

/// A law: an object is printed name by name between braces, and if the values of its members are compact JSON, it is
/// the compact text of an object. That is read again as the object, if the names ascend, each number is whole, and
/// there are at most 127 levels.
pub fn objects_are_json()
    ensures front { PrintsFromTheFront }
    ensures json { PrintsJson }
    ensures back { PrintsReadBack }
{}

/// A law: the object that a body is read as is read again from its compact text, which is no longer than the body where
/// the body has a byte. It and the object that it brings as a secret can be kept: their compact texts are those of
/// objects, and shorter than 2^32 bytes.
pub fn kept_objects()
    ensures back { BodiesReadBack }
    ensures no_longer { CompactIsNoLonger }
    ensures bodies { BodiesAreKept }
    ensures payloads { PayloadsAreKept }
{}
