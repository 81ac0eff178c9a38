//! For how long a server waits for a peer, by what the peer is to do.

ghost use Rattle.std.specs.Prelude.{◌≡◌};
ghost use Rattle.server.specs.Patience.{claim_of, goes_before, is_farewell, is_over};

/// What a peer is waited for.
#[derive(Clone, Copy, Debug, PartialEq, Eq)]
pub(crate) enum Wait {
    /// The next request: all that came is answered, and the replies are sent.
    NextRequest,
    /// The rest of a request, or all of the first one; or that a reply is taken.
    Progress,
    /// The end of what it still sends, after its last reply.
    Farewell,
}

impl Wait {
    /// Whether it is the last.
    pub(crate) fn is_farewell(self) -> bool
        ensures { result ≡ is_farewell self }
    {
        match self {
            Wait::Farewell => true,
            Wait::NextRequest | Wait::Progress => false,
        }
    }
}

/// Whether a peer may have to leave its place to one that waits for it.
#[derive(Clone, Copy, Debug, PartialEq, Eq)]
pub(crate) enum Claim {
    /// It stays.
    Stays,
    /// It has been waited for within a request or a reply, for so many milliseconds.
    Unfinished(u64),
    /// It has been idle for so many.
    Idle(u64),
}

/// How often the limits are looked at, in milliseconds.
pub(crate) const TICK: u64 = 50;

/// How long a peer may take to ask again where its place is wanted, or to end after its last reply, in milliseconds.
const SHORT_PAUSE: u64 = 250;

/// How long a peer may take to ask again, in milliseconds.
const LONG_PAUSE: u64 = 90_000;

/// How long a peer may take within a request or a reply where its place is wanted, in milliseconds.
const SHORT_EXCHANGE: u64 = 1_000;

/// How long a peer may neither send nor take a byte, in milliseconds.
const LONGEST_SILENCE: u64 = 5_000;

/// How long a peer may take to send one request, or to take one reply, in milliseconds.
pub(crate) const LONGEST_EXCHANGE: u64 = 20_000;

/// Whether a peer's time is over, if the last byte came or went so many milliseconds ago, and what is waited for began
/// so many ago. It is pressed if its place is wanted, or no more connections are accepted.
pub(crate) fn is_over(wait: Wait, silence: u64, age: u64, is_pressed: bool) -> bool
    ensures { result ≡ is_over wait silence age is_pressed }
{
    match wait {
        Wait::NextRequest => age >= if is_pressed { SHORT_PAUSE } else { LONG_PAUSE },
        Wait::Progress => silence >= LONGEST_SILENCE || age >= LONGEST_EXCHANGE,
        Wait::Farewell => age >= SHORT_PAUSE,
    }
}

/// Whether silence ends what is waited for, if its time is over.
pub(crate) fn is_silent(silence: u64) -> bool {
    silence >= LONGEST_SILENCE
}

/// Whether a peer may have to leave its place, if what it is waited for began so many milliseconds ago, and something
/// that it sent is still to be read or not.
pub(crate) fn claim_of(wait: Wait, has_more: bool, age: u64) -> Claim
    ensures { result ≡ claim_of wait has_more age }
{
    match wait {
        Wait::NextRequest if !has_more && age >= SHORT_PAUSE => Claim::Idle(age),
        Wait::Progress if age >= SHORT_EXCHANGE => Claim::Unfinished(age),
        _ => Claim::Stays,
    }
}

/// Whether the first has to leave its place before the second: who is idle before who is within a request, and of two
/// alike the one that has been so longer.
pub(crate) fn goes_before(first: Claim, second: Claim) -> bool
    ensures { result ≡ goes_before first second }
{
    match (first, second) {
        (Claim::Stays, _) => false,
        (Claim::Unfinished(one), Claim::Unfinished(other)) => one > other,
        (Claim::Idle(one), Claim::Idle(other)) => one > other,
        (Claim::Unfinished(_), Claim::Idle(_)) => false,
        _ => true,
    }
}
