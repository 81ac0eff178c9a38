//! Whether a connection stays open after a request, by its Connection fields.

ghost use Rattle.std.specs.Prelude.{◌≡◌, reverse, map, length, All};
ghost use Rattle.std.specs.List.{list_any};
ghost use Rattle.httparse.specs.Grammar.{skip_ows, trim_ows};
ghost use Rattle.httparse.specs.Spans.{IsHeaderWithin, header_bytes};
ghost use Rattle.http_layer.specs.Closing.{is_close, lists_close, is_closing};

use crate::fields::same_in_any_case;
use httparse::spans::HeaderSpan;

/// Whether a Connection field lists `close` (RFC 9112, section 9.6).
pub(crate) fn asks_to_close(text: &[u8], headers: &[HeaderSpan]) -> bool
    requires { All (IsHeaderWithin (length text.now)) headers.now }
    ensures { result ≡ list_any is_closing (map (header_bytes text.now) headers.now) }
{
    for header in headers {
        if same_in_any_case(header.name.of(text), b"connection")
            && lists_close(header.value.of(text))
        {
            return true;
        }
    }
    false
}

fn lists_close(value: &[u8]) -> bool
    ensures { result ≡ lists_close value.now }
{
    value.split(|byte| *byte == b',').any(is_close)
}

fn is_close(element: &[u8]) -> bool
    ensures { result ≡ is_close element.now }
{
    same_in_any_case(trimmed(element), b"close")
}

/// The text without the spaces and tabs around it.
#[tactic(auto, unfolding(httparse::specs::Grammar::trim_ows))]
fn trimmed(text: &[u8]) -> &[u8]
    ensures { result.now ≡ trim_ows text.now }
{
    trimmed_end(trimmed_start(text))
}

fn trimmed_start(mut text: &[u8]) -> &[u8]
    ensures { result.now ≡ skip_ows text.now }
{
    while let [b' ' | b'\t', rest @ ..] = text {
        text = rest;
    }
    text
}

fn trimmed_end(mut text: &[u8]) -> &[u8]
    ensures { result.now ≡ reverse (skip_ows (reverse text.now)) }
{
    while let [rest @ .., b' ' | b'\t'] = text {
        text = rest;
    }
    text
}
