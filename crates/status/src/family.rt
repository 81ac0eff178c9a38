//! Metrics of one name.

use crate::label::Label;

/// The type of a metric.
#[derive(Clone, Copy, Debug, PartialEq, Eq)]
pub(crate) enum Metric {
    Counter,
    Gauge,
    Histogram,
}

/// A number, or microseconds that are shown in seconds.
#[derive(Clone, Copy, Debug, PartialEq, Eq)]
pub(crate) enum Number {
    Whole(u64),
    Seconds(u64),
}

/// What follows the name of a family.
#[derive(Clone, Copy, Debug, PartialEq, Eq)]
pub(crate) enum Suffix {
    Nothing,
    Bucket,
    Sum,
    Count,
}

/// At most two labels.
#[derive(Drop)]
pub(crate) enum Labels<'a> {
    Absent,
    One(Label<'a>),
    Two(Label<'a>, Label<'a>),
}

/// One number of a family.
#[derive(Drop)]
pub(crate) struct Sample<'a> {
    pub(crate) suffix: Suffix,
    pub(crate) labels: Labels<'a>,
    pub(crate) number: Number,
}
