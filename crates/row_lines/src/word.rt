//! The words for kinds of rows.

ghost use Rattle.std.specs.Prelude.{◌≡◌};
ghost use Rattle.row_lines.specs.KindWords as spec;

use broker_types::is_same;
use records::Kind;

/// What a line calls the rows of a kind.
pub fn kind_word(kind: Kind) -> &'static str
    ensures { result.now ≡ spec.kind_word kind }
{
    match kind {
        Kind::Clock => "clock",
        Kind::Used => "identifier",
        Kind::Token => "token",
        Kind::Accessor => "accessor",
        Kind::Cubby => "object",
        Kind::Lease => "lease",
        Kind::Credential => "credential",
        Kind::KvKey => "secret",
        Kind::KvVersion => "version",
        Kind::Waiting => "response",
        Kind::Mount => "mount",
        Kind::Policy => "policy",
        Kind::Role => "role",
    }
}

/// The kind that a line calls so.
pub(crate) fn kind_of(word: &str) -> Option<Kind>
    ensures { result ≡ spec.kind_of word.now }
{
    if is_same(word, "clock") {
        Some(Kind::Clock)
    } else if is_same(word, "identifier") {
        Some(Kind::Used)
    } else if is_same(word, "token") {
        Some(Kind::Token)
    } else if is_same(word, "accessor") {
        Some(Kind::Accessor)
    } else if is_same(word, "object") {
        Some(Kind::Cubby)
    } else if is_same(word, "lease") {
        Some(Kind::Lease)
    } else if is_same(word, "credential") {
        Some(Kind::Credential)
    } else {
        later_kind_of(word)
    }
}

/// The kind of these that a line calls so: of secrets, responses and settings.
fn later_kind_of(word: &str) -> Option<Kind>
    ensures { result ≡ spec.later_kind_of word.now }
{
    if is_same(word, "secret") {
        Some(Kind::KvKey)
    } else if is_same(word, "version") {
        Some(Kind::KvVersion)
    } else if is_same(word, "response") {
        Some(Kind::Waiting)
    } else if is_same(word, "mount") {
        Some(Kind::Mount)
    } else if is_same(word, "policy") {
        Some(Kind::Policy)
    } else if is_same(word, "role") {
        Some(Kind::Role)
    } else {
        None
    }
}
