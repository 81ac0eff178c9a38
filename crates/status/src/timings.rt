//! The samples of the histogram of seconds that requests took.

ghost use Rattle.std.specs.Prelude.{◌≡◌, ◌≤◌, OnOk, IfOk};
ghost use Rattle.status.specs.Timings.{bucket, timings, total, with_buckets, with_timings, with_totals};

use crate::counters::Counters;
use crate::durations::Durations;
use crate::family::{Labels, Number, Sample, Suffix};
use crate::label::Label;
use std::alloc::{AllocError, Global};

/// The samples of all kinds of requests.
#[tactic(auto, unfolding(crate::specs::Timings::timings))]
pub(crate) fn timings<'a>(alloc: Global, counters: &Counters) -> Result<Vec<Sample<'a>>, AllocError>
    ensures { IfOk result (λ samples. samples.items ≡ timings counters.now) }
{
    let mut samples = Vec::new(alloc);
    add_timings(&mut samples, "read", &counters.reads)?;
    add_timings(&mut samples, "list", &counters.lists)?;
    add_timings(&mut samples, "write", &counters.writes)?;
    add_timings(&mut samples, "delete", &counters.deletes)?;
    add_timings(&mut samples, "refused", &counters.refused)?;
    Ok(samples)
}

/// Adds the samples of one kind of requests.
#[tactic(auto, unfolding(crate::specs::Timings::with_timings))]
fn add_timings<'a>(
    samples: &mut Vec<Sample<'a>>,
    kind: &'static str,
    durations: &Durations,
) -> Result<(), AllocError>
    ensures { OnOk result (samples.new.items ≡ with_timings samples.old.items kind.now durations.now) }
{
    add_buckets(samples, kind, durations)?;
    add_totals(samples, kind, durations)
}

/// Adds how many took at most so long as each bound; without one, all.
#[tactic(auto, unfolding(crate::specs::Timings::with_buckets))]
fn add_buckets<'a>(
    samples: &mut Vec<Sample<'a>>,
    kind: &'static str,
    d: &Durations,
) -> Result<(), AllocError>
    ensures { OnOk result (samples.new.items ≡ with_buckets samples.old.items kind.now d.now) }
{
    samples.push(bucket(kind, d, "0.0005", 1))?;
    samples.push(bucket(kind, d, "0.001", 2))?;
    samples.push(bucket(kind, d, "0.0025", 3))?;
    samples.push(bucket(kind, d, "0.005", 4))?;
    samples.push(bucket(kind, d, "0.01", 5))?;
    samples.push(bucket(kind, d, "0.025", 6))?;
    samples.push(bucket(kind, d, "0.05", 7))?;
    samples.push(bucket(kind, d, "0.1", 8))?;
    samples.push(bucket(kind, d, "0.25", 9))?;
    samples.push(bucket(kind, d, "0.5", 10))?;
    samples.push(bucket(kind, d, "1", 11))?;
    samples.push(bucket(kind, d, "2.5", 12))?;
    samples.push(bucket(kind, d, "5", 13))?;
    samples.push(bucket(kind, d, "10", 14))?;
    samples.push(bucket(kind, d, "+Inf", 15))?;
    Ok(())
}

/// How many took at most so many seconds as `le` says, the bound with this number.
fn bucket<'a>(kind: &'static str, d: &Durations, le: &'static str, bound: usize) -> Sample<'a>
    requires { bound ≤ 15 }
    ensures { result ≡ bucket kind.now d.now le.now bound }
{
    let kind = Label {
        name: "kind",
        value: kind,
    };
    let le = Label {
        name: "le",
        value: le,
    };
    Sample {
        suffix: Suffix::Bucket,
        labels: Labels::Two(kind, le),
        number: Number::Whole(d.up_to(bound)),
    }
}

/// Adds how long requests of one kind took in all, and how many there were.
#[tactic(auto, unfolding(crate::specs::Timings::with_totals))]
fn add_totals<'a>(
    samples: &mut Vec<Sample<'a>>,
    kind: &'static str,
    d: &Durations,
) -> Result<(), AllocError>
    ensures { OnOk result (samples.new.items ≡ with_totals samples.old.items kind.now d.now) }
{
    samples.push(total(Suffix::Sum, kind, Number::Seconds(d.micros())))?;
    samples.push(total(Suffix::Count, kind, Number::Whole(d.up_to(15))))?;
    Ok(())
}

fn total<'a>(suffix: Suffix, kind: &'static str, number: Number) -> Sample<'a>
    ensures { result ≡ total suffix kind.now number }
{
    Sample {
        suffix,
        labels: Labels::One(Label {
            name: "kind",
            value: kind,
        }),
        number,
    }
}
