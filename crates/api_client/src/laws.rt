//! Laws of the definitions. Each is the contract of a function that does nothing.

ghost use Rattle.api_client.specs.Laws.{ReplyIsUnique, WrittenReplyIsRead};

/// A stream begins with at most one reply. Where it begins with the bytes that a server writes for a
/// response, this is the reply with the status and the body of the response.
pub fn written_replies_are_read()
    ensures unique { ReplyIsUnique }
    ensures read { WrittenReplyIsRead }
{}
