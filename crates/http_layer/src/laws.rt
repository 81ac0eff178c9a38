//! Laws of the definitions. Each is the contract of a function that does nothing.

ghost use Rattle.http_layer.specs.Laws.{FrontIsUnique, KnownFrontStays, WholeRequestIsWithin, WholeRequestHasShortBody};
ghost use Rattle.http_layer.specs.Laws.{PrintedRequestIsFront, PrintedLengthIsRead};
ghost use Rattle.http_layer.specs.Laws.{ReplyIsUnique, ReplyIsNotEmpty, FrontRefusalIsListed, AskRefusalIsListed};

/// A stream has at most one front, and more bytes do not change a front that is known. A whole request
/// takes at least one byte and no more than there are, and its body at most 1,048,576 bytes. A head that
/// is printed with CR LF at the end of its lines, one Host field and the length of the body is, with the
/// body after it, a whole request of exactly these bytes.
pub fn front_laws()
    ensures unique { FrontIsUnique }
    ensures stays { KnownFrontStays }
    ensures within { WholeRequestIsWithin }
    ensures short_body { WholeRequestHasShortBody }
    ensures printed { PrintedRequestIsFront }
    ensures printed_length { PrintedLengthIsRead }
{}

/// A response at a moment has one reply, which is not empty.
pub fn reply_laws()
    ensures unique { ReplyIsUnique }
    ensures not_empty { ReplyIsNotEmpty }
{}

/// The refusals of fronts, and of requests that ask nothing, are listed.
pub fn refusal_laws()
    ensures fronts { FrontRefusalIsListed }
    ensures asks { AskRefusalIsListed }
{}
