//! Targets taken apart, and what their queries ask for.

ghost use Rattle.std.specs.Prelude.{◌≡◌, ◌≤◌, length, option_map, IfSome};
ghost use Rattle.std.specs.List.{find};
ghost use Rattle.http_layer.specs.Query.{target_path, target_query, query_parts, lists, is_list_part};
ghost use Rattle.http_layer.specs.Query.{is_version_part, version_asked};

/// The path and the query of a target, which the first `?` separates; without one the query is empty
/// (RFC 3986, section 3.4).
pub(crate) fn split_target<'b>(target: &'b str) -> (&'b str, &'b [u8])
    ensures path { result.0.now ≡ target_path target.now }
    ensures query { result.1.now ≡ target_query target.now }
{
    match target.split_once('?') {
        Some((path, query)) => (path, query.as_bytes()),
        None => (target, b""),
    }
}

/// Whether a part of the query is `list=true`.
pub(crate) fn lists(query: &[u8]) -> bool
    ensures { result ≡ lists query.now }
{
    query.split(|byte| *byte == b'&').any(is_list_part)
}

fn is_list_part(part: &[u8]) -> bool
    ensures { result ≡ is_list_part part.now }
{
    part == b"list=true".as_slice()
}

/// The version asked for, as it is written: what follows the first `version=` that begins a part of the
/// query. It is empty if there is none.
pub(crate) fn version_asked<'b>(query: &'b [u8]) -> &'b [u8]
    ensures { result.now ≡ version_asked query.now }
{
    match version_part(query) {
        Some(part) => &part[8..],
        None => b"",
    }
}

/// The first part of the query that begins with `version=`.
fn version_part<'b>(query: &'b [u8]) -> Option<&'b [u8]>
    ensures first { option_map (λ part. part.now) result ≡ find is_version_part (query_parts query.now) }
    ensures long { IfSome result (λ part. 8 ≤ length part.now) }
{
    query.split(|byte| *byte == b'&').find(is_version_part)
}

fn is_version_part(part: &&[u8]) -> bool
    ensures { result ≡ is_version_part part.now.now }
{
    part.starts_with(b"version=")
}
