//! Moments that rows keep.

ghost use Rattle.std.specs.Prelude.{◌≡◌};
ghost use Rattle.broker_types.specs.Sound.{IsMoment};
ghost use Rattle.records.specs.RowReaders.{IsSomeIn};

use broker_types::Moment;

/// The moment of seconds that a row can hold.
pub fn moment(seconds: u64) -> Moment
    requires { IsMoment seconds }
    ensures { result ≡ seconds }
{
    Moment::new(seconds).unwrap()
}

/// The same of seconds that may be absent.
pub fn moment_or_none(seconds: Option<u64>) -> Option<Moment>
    requires { IsSomeIn IsMoment seconds }
    ensures { result ≡ seconds }
{
    match seconds {
        None => None,
        Some(seconds) => Some(moment(seconds)),
    }
}
