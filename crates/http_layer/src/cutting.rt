//! Streams of bytes cut into requests, each as soon as its bytes have come.

ghost use Rattle.std.specs.Prelude.{◌≡◌, ◌≤◌, length, take, nat_le, if◌then◌else◌};
ghost use Rattle.broker_types.specs.Limits.{longest_body};
ghost use Rattle.http_layer.specs.Cutting.{front_of, FitsIn, IsNeed};
ghost use Rattle.broker_types.specs.declared.status.Status.TheVariants.{HeaderFieldsTooLarge};
ghost use Rattle.http_layer.specs.Front.{IsFront, HasNoHeadEnd, need, refused_with, longest_head};

use crate::front::Cut;
use crate::head::Head;
use crate::head_end::{HEAD_LIMIT, head_end};
use broker_types::{BodyBytes, Status};
use std::borrow::CowSlice;

/// The request or the refusal that a stream begins with, as soon as its first bytes decide it
/// (RFC 9112, sections 2 to 6). It allocates nothing. The first that fits refuses: 431 if the head has
/// not ended within the first 16,384 bytes; 400 for a head that is not one of `httparse`'s grammar
/// with at most 64 fields; 501 for a Transfer-Encoding field; 400 for more than one Host field, or
/// none in HTTP/1.1; 400 for more than one Content-Length field, or one that is not one or more
/// digits; 413 for a length above 1,048,576 bytes. None of these waits for the body.
pub fn cut<'b>(bytes: &'b [u8]) -> Cut<'b>
    ensures front { IsFront bytes.now (front_of result) }
    ensures fits { FitsIn (length bytes.now) result }
    ensures waits { IsFront bytes.now need → IsNeed result }
{
    cut_after(bytes, 0)
}

/// As `cut`, where no head ends within the first `seen` bytes: these are not searched for its end again. So
/// a head that comes in many pieces costs time in proportion to its bytes. It allocates nothing.
pub fn cut_after<'b>(bytes: &'b [u8], seen: usize) -> Cut<'b>
    ensures front { HasNoHeadEnd (take seen bytes.now) → IsFront bytes.now (front_of result) }
    ensures fits { FitsIn (length bytes.now) result }
    ensures waits { HasNoHeadEnd (take seen bytes.now) → IsFront bytes.now need → IsNeed result }
{
    let Some(len) = head_end(bytes, seen) else {
        return without_end(bytes.len());
    };
    let Some(head) = Head::read(&bytes[..len]) else {
        return Cut::Refused {
            status: Status::BadRequest,
        };
    };
    match head.body_len() {
        Err(status) => Cut::Refused { status },
        Ok(body_len) if body_len <= bytes.len() - len => Cut::Whole {
            len: len + body_len,
            head,
            body: short_body(&bytes[len..len + body_len]),
        },
        Ok(_) => Cut::Need,
    }
}

/// The answer to so many bytes of which no head ends within the first ones.
fn without_end<'b>(len: usize) -> Cut<'b>
    ensures { front_of result ≡ (if nat_le longest_head len then refused_with HeaderFieldsTooLarge else need) }
{
    if len < HEAD_LIMIT {
        return Cut::Need;
    }
    Cut::Refused {
        status: Status::HeaderFieldsTooLarge,
    }
}

/// The body that these bytes are.
fn short_body<'b>(bytes: &'b [u8]) -> BodyBytes<'b>
    requires { length bytes.now ≤ longest_body }
    ensures { result ≡ bytes.now }
{
    BodyBytes::new(CowSlice::Borrowed(bytes)).unwrap()
}
