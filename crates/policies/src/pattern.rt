//! Patterns of paths.

ghost use Rattle.std.specs.Prelude.{◌≡◌, ◌++◌, ◌∷◌, [], nat_eq};
ghost use Rattle.std.specs.List.{starts_with};
ghost use Rattle.broker_types.specs.Text.{same};
ghost use Rattle.policies.specs.Patterns.{tried};
ghost use Rattle.policies.specs.PatternPlaces.{place, exact_place, prefix_place, tried_text};

use broker_types::{TextBuf, Verb};

/// Which paths a rule is about.
#[derive(Drop)]
pub enum Pattern {
    /// This path alone.
    Exact(TextBuf),
    /// The paths that begin with this text, which a `*` followed.
    Prefix(TextBuf),
}

/// How early a pattern is tried at a path: how many of those that can match are left then, itself among them; 0 if it
/// does not match. LIST tries the path with a slash, the path, and each text that the path with a slash begins with,
/// the longest first; the other verbs try the path, and each text that it begins with.
#[tactic(auto, using(crate::proofs::PlaceLemmas::exact_placed, crate::proofs::PlaceLemmas::prefix_placed))]
pub(crate) fn place(verb: Verb, path: &str, pattern: &Pattern) -> usize
    ensures { result ≡ place (tried verb path.now) pattern.now }
{
    match pattern {
        Pattern::Exact(text) => exact_place(verb, path, text.as_str()),
        Pattern::Prefix(text) => prefix_place(verb, path, text.as_str()),
    }
}

/// The place of an exact pattern.
fn exact_place(verb: Verb, path: &str, text: &str) -> usize
    ensures { result ≡ exact_place verb path.now text.now }
{
    match verb {
        Verb::List => {
            if is_with_slash(text, path) {
                path.len() + 4
            } else if text == path {
                path.len() + 3
            } else {
                0
            }
        }
        Verb::Get | Verb::Write | Verb::Delete => { if text == path { path.len() + 2 } else { 0 } }
    }
}

/// The place of a prefix.
fn prefix_place(verb: Verb, path: &str, text: &str) -> usize
    ensures { result ≡ prefix_place verb path.now text.now }
{
    if begins(verb, path, text) {
        text.len() + 1
    } else {
        0
    }
}

/// Whether the text that prefixes are tested against begins with a text: of LIST the path and a slash, else the path.
fn begins(verb: Verb, path: &str, text: &str) -> bool
    ensures { result ≡ starts_with nat_eq (tried_text verb path.now) text.now }
{
    match verb {
        Verb::List => path.starts_with(text) || is_with_slash(text, path),
        Verb::Get | Verb::Write | Verb::Delete => path.starts_with(text),
    }
}

/// Whether a text is a path with a slash behind it.
fn is_with_slash(text: &str, path: &str) -> bool
    ensures { result ≡ same text.now (path.now ++ 47 ∷ []) }
{
    match text.strip_suffix('/') {
        Some(start) => start == path,
        None => false,
    }
}
