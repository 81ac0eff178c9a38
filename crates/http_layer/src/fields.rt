//! Fields of a head, found by their names.

ghost use Rattle.std.specs.Prelude.{◌≡◌, length, map, All};
ghost use Rattle.httparse.specs.Spans.{IsHeaderWithin, header_bytes};
ghost use Rattle.http_layer.specs.HeadParts.{same_in_any_case, values_named};
ghost use Rattle.http_layer.specs.Named.{AreNamed};

use httparse::spans::HeaderSpan;

/// How often a head has a field of some name, with the value if it has one.
#[derive(Clone, Copy)]
pub(crate) enum Named<'b> {
    Absent,
    Once(&'b [u8]),
    Several,
}

/// Whether the texts are equal, ignoring the case of ASCII letters.
pub(crate) fn same_in_any_case(a: &[u8], b: &[u8]) -> bool
    ensures { result ≡ same_in_any_case a.now b.now }
{
    a.eq_ignore_ascii_case(b)
}

/// The fields with the name, in any case.
pub(crate) fn find_named<'b>(text: &'b [u8], headers: &[HeaderSpan], name: &[u8]) -> Named<'b>
    requires { All (IsHeaderWithin (length text.now)) headers.now }
    ensures { AreNamed (values_named name.now (map (header_bytes text.now) headers.now)) result }
{
    let mut named = Named::Absent;
    for header in headers {
        if same_in_any_case(header.name.of(text), name) {
            named = match named {
                Named::Absent => Named::Once(header.value.of(text)),
                _ => Named::Several,
            };
        }
    }
    named
}
