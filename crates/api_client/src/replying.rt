//! Replies read from a connection, head and body, within limits.

ghost use Rattle.std.specs.Prelude.{◌≡◌, ◌<◌, ◌-◌, ℕ, List, IfOk, IfErr, OnOk, Some, length};
ghost use Rattle.std.specs.Io.KnownBytes.{IsAtEnd};
ghost use Rattle.api_client.specs.Replies.{BeginsWithReply};
ghost use Rattle.api_client.specs.ReplyReads.{IsReplyError, HasNoReply, HasNoReplyHead, EndsInBody};
ghost use Rattle.api_client.specs.ReplyReads.{ReadsSome, ReadsHead, ReadsBody};

use crate::reply::{Reply, ReplyError};
use crate::reply_head::{HeadRead, ReplyHead, read_head};
use broker_types::Bytes;
use endpoints::Source;
use std::alloc::Global;

/// How many bytes the head of a reply has at most.
const HEAD_LIMIT: usize = 16_384;

/// Reads a reply: a head of at most 16,384 bytes and 64 fields, and then as many bytes of body as its first
/// Content-Length field tells, at most 16,777,216, or none without such a field (RFC 9112, sections 4 to 6).
pub fn reply_of<R: Source>(alloc: Global, reader: &mut R) -> Result<Reply, ReplyError>
    ensures ok { (input : List ℕ) → R.left reader.old ≡ Some input → IfOk result (BeginsWithReply input) }
    ensures err { IfErr result (IsReplyError (R.has_failed reader.new) (HasNoReply (R.left reader.old))) }
{
    let (head, bytes) = head_of(alloc, reader)?;
    let Some(body_len) = head.body_len else {
        return Err(ReplyError::BadReply);
    };
    let body = body_of(alloc, reader, &bytes.as_slice()[head.len..], body_len)?;
    Ok(Reply {
        status: head.status,
        body: Bytes::new(body),
    })
}

/// Reads until the bytes begin with a whole head, and answers it with them.
fn head_of<R: Source>(alloc: Global, reader: &mut R) -> Result<(ReplyHead, Vec<u8>), ReplyError>
    ensures ok { IfOk result (λ p. ReadsHead (R.left reader.old) (R.left reader.new) p.0 p.1.items) }
    ensures err { IfErr result (IsReplyError (R.has_failed reader.new) (HasNoReplyHead (R.left reader.old))) }
{
    let mut bytes = Vec::new(alloc);
    loop {
        match read_head(bytes.as_slice()) {
            HeadRead::Whole(head) => return Ok((head, bytes)),
            HeadRead::Refused => return Err(ReplyError::BadReply),
            HeadRead::Unended => {
                if bytes.len() >= HEAD_LIMIT {
                    return Err(ReplyError::BadReply);
                }
                read_some(reader, &mut bytes, HEAD_LIMIT)?;
            }
        }
    }
}

/// Reads the rest of a body of this length, of which some bytes have come, or all and more.
fn body_of<R: Source>(
    alloc: Global,
    reader: &mut R,
    begun: &[u8],
    len: usize,
) -> Result<Vec<u8>, ReplyError>
    ensures ok { IfOk result (λ body. ReadsBody (R.left reader.old) (R.left reader.new) len begun.now body.items) }
    ensures err { IfErr result (IsReplyError (R.has_failed reader.new)
        (EndsInBody len begun.now (R.left reader.old))) }
{
    let mut body = Vec::from_slice(alloc, &begun[..len.min(begun.len())])?;
    while body.len() < len {
        read_some(reader, &mut body, len)?;
    }
    Ok(body)
}

/// Reads some bytes, and adds them at the end of those that have come. There are fewer than the limit.
fn read_some<R: Source>(reader: &mut R, bytes: &mut Vec<u8>, limit: usize) -> Result<(), ReplyError>
    requires { length bytes.old.items < limit }
    ensures ok { OnOk result (ReadsSome (R.left reader.old) (R.left reader.new) (limit - length bytes.old.items)
        bytes.old.items bytes.new.items) }
    ensures err { IfErr result (IsReplyError (R.has_failed reader.new) (IsAtEnd (R.left reader.old))) }
{
    let mut buffer = [0u8; 4096];
    let room = (limit - bytes.len()).min(buffer.len());
    let Ok(count) = reader.pull(&mut buffer[..room]) else {
        return Err(ReplyError::BadReply);
    };
    if count == 0 {
        return Err(ReplyError::BadReply);
    }
    bytes.extend_from_slice(&buffer[..count])?;
    Ok(())
}
