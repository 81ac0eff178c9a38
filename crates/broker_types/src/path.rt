//! Paths of requests, read once, so that no other code meets a text that is none.

ghost use Rattle.std.specs.Prelude.{◌≡◌, ℕ, [], MatchResult, true, false, Err};
ghost use Rattle.std.specs.List.{list_all};
ghost use Rattle.std.specs.Cow.{cow_str_bytes};
ghost use Rattle.broker_types.specs.Path.{is_path, is_path_byte, is_segment, segments, without_slash};
ghost use Rattle.broker_types.specs.declared.refusal.Refusal.TheVariants.{BadRequest};
ghost use Rattle.broker_types.specs.declared.refusal.Reason.TheVariants.{InvalidPath};

use crate::refusal::{Reason, Refusal};
use std::borrow::CowStr;
use std::marker::Model;

/// The path of a request, below `/v1/`: a text of 1 to 512 bytes, none of them below 0x20 or 0x7F,
/// without a final `/`. No segment is empty, `.` or `..` (RFC 3986, section 3.3).
#[derive(Drop)]
pub struct Path<'b> {
    text: CowStr<'b>,
}

impl<'b> Model for Path<'b> {
    ghost use Rattle.std.specs.Prelude.{◌≡◌, ℕ, List, true};
    ghost use Rattle.std.specs.Cow.{cow_str_bytes};
    ghost use Rattle.broker_types.specs.Path.{is_path};

    ghost Value = { List ℕ };

    ghost view = { λ p. cow_str_bytes p.text };

    ghost invariant = { λ p. is_path (cow_str_bytes p.text) ≡ true };
}

impl<'b> Path<'b> {
    /// Reads a path from its decoded text. One `/` at the end is dropped. It takes no memory. Any other
    /// text is refused: 400 `invalid path`.
    pub fn read(text: CowStr<'b>) -> Result<Path<'b>, Refusal>
        ensures { MatchResult result
            (λ path. (path ≡ without_slash (cow_str_bytes text.entry)) × (is_path path ≡ true))
            (λ refusal. (refusal ≡ BadRequest InvalidPath)
            × (is_path (without_slash (cow_str_bytes text.entry)) ≡ false)) }
    {
        let text = without_final_slash(text);
        if !is_good(text.as_str().as_bytes()) {
            return Err(Refusal::BadRequest(Reason::InvalidPath));
        }
        Ok(Path { text })
    }

    /// The path's text.
    pub fn as_str(&self) -> &str
        ensures text { result.now ≡ self.now }
        ensures good { is_path result.now ≡ true }
    {
        self.text.as_str()
    }
}

/// The text without one `/` at its end.
fn without_final_slash<'b>(text: CowStr<'b>) -> CowStr<'b>
    ensures { cow_str_bytes result ≡ without_slash (cow_str_bytes text.entry) }
{
    match text {
        CowStr::Borrowed(s) => {
            if s.ends_with('/') {
                return CowStr::Borrowed(&s[..s.len() - 1]);
            }
            CowStr::Borrowed(s)
        }
        CowStr::Owned(mut s) => {
            if s.ends_with('/') {
                let _ = s.pop();
            }
            CowStr::Owned(s)
        }
    }
}

fn is_good(text: &[u8]) -> bool
    ensures { result ≡ is_path text.now }
{
    !text.is_empty() && text.len() <= 512 && has_good_bytes(text) && has_good_segments(text)
}

fn has_good_bytes(text: &[u8]) -> bool
    ensures { result ≡ list_all is_path_byte text.now }
{
    text.iter().all(|byte| *byte >= 0x20 && *byte != 0x7F)
}

fn has_good_segments(text: &[u8]) -> bool
    ensures { result ≡ list_all is_segment (segments [] text.now) }
{
    let mut start = 0;
    for (i, byte) in text.iter().enumerate() {
        if *byte == b'/' {
            if !is_good_segment(&text[start..i]) {
                return false;
            }
            start = i + 1;
        }
    }
    is_good_segment(&text[start..])
}

fn is_good_segment(part: &[u8]) -> bool
    ensures { result ≡ is_segment part.now }
{
    !part.is_empty() && part != b".".as_slice() && part != b"..".as_slice()
}
