//! Samples with a label, and without one.

ghost use Rattle.std.specs.Prelude.{◌≡◌};
ghost use Rattle.status.specs.Samples.{labelled, plain};

use crate::family::{Labels, Number, Sample, Suffix};
use crate::label::Label;

/// A sample without labels.
pub(crate) fn plain<'a>(number: Number) -> Sample<'a>
    ensures { result ≡ plain number }
{
    Sample {
        suffix: Suffix::Nothing,
        labels: Labels::Absent,
        number,
    }
}

/// A sample with one label.
pub(crate) fn labelled<'a>(name: &'static str, value: &'a str, number: Number) -> Sample<'a>
    ensures { result ≡ labelled name.now value.now number }
{
    Sample {
        suffix: Suffix::Nothing,
        labels: Labels::One(Label { name, value }),
        number,
    }
}

/// A sample with one label and a whole number.
pub(crate) fn counting(name: &'static str, value: &'static str, number: u64) -> Sample<'static>
    ensures { result ≡ labelled name.now value.now (Number.Whole number) }
{
    labelled(name, value, Number::Whole(number))
}
