//! Where a head ends, so that no byte is searched twice, in however many pieces it comes.

ghost use Rattle.std.specs.Prelude.{◌≡◌, ◌≤◌, length, take, IfSome, IfNone};
ghost use Rattle.std.specs.List.{prefix_len};
ghost use Rattle.http_layer.specs.Front.{is_line_byte, HeadEnds, HasNoHeadEnd, window};

/// How many bytes the longest head has, with the empty lines before and after it.
pub(crate) const HEAD_LIMIT: usize = 16_384;

/// The length of the head in bytes, with its empty line; none if it does not end within the first
/// 16,384 bytes. The first `seen` bytes are not searched again: no head ends within them.
pub(crate) fn head_end(bytes: &[u8], seen: usize) -> Option<usize>
    ensures found { HasNoHeadEnd (take seen bytes.now) → IfSome result (HeadEnds (window bytes.now)) }
    ensures none { HasNoHeadEnd (take seen bytes.now) → IfNone result (HasNoHeadEnd (window bytes.now)) }
    ensures within { IfSome result (λ len. (4 ≤ len) × (len ≤ length bytes.now)) }
{
    end_in(window(bytes), seen)
}

/// How many of the first bytes have no end of a head among them, where no head ends within the first `seen`:
/// as many as `cut_after` can be told when more bytes have come. It allocates nothing.
pub fn searched(bytes: &[u8], seen: usize) -> usize
    ensures unended { HasNoHeadEnd (take seen bytes.now) → HasNoHeadEnd (take result bytes.now) }
    ensures within { result ≤ length bytes.now }
{
    match head_end(bytes, seen) {
        Some(len) => len - 1,
        None => HEAD_LIMIT.min(bytes.len()),
    }
}

/// The bytes in which the head has to end.
fn window(bytes: &[u8]) -> &[u8]
    ensures { result.now ≡ window bytes.now }
{
    &bytes[..HEAD_LIMIT.min(bytes.len())]
}

/// The length of the head in bytes, with its empty line; none if it does not end within the bytes. No head
/// ends within the first `seen` of them.
fn end_in(bytes: &[u8], seen: usize) -> Option<usize>
    ensures found { HasNoHeadEnd (take seen bytes.now) → IfSome result (HeadEnds bytes.now) }
    ensures none { HasNoHeadEnd (take seen bytes.now) → IfNone result (HasNoHeadEnd bytes.now) }
    ensures within { IfSome result (λ len. (4 ≤ len) × (len ≤ length bytes.now)) }
{
    let first = line_bytes(bytes).max(seen.saturating_sub(3));
    for i in first..bytes.len().saturating_sub(3) {
        if &bytes[i..i + 4] == b"\r\n\r\n".as_slice() {
            return Some(i + 4);
        }
    }
    None
}

/// How many bytes are CR or LF before the first that is neither.
fn line_bytes(bytes: &[u8]) -> usize
    ensures { result ≡ prefix_len is_line_byte bytes.now }
{
    for (i, b) in bytes.iter().enumerate() {
        if *b != b'\r' && *b != b'\n' {
            return i;
        }
    }
    bytes.len()
}
