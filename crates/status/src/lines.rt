//! Families printed for Prometheus, in its text format, version 0.0.4.

ghost use Rattle.std.specs.Prelude.{◌≡◌, ◌++◌, OnOk};
ghost use Rattle.status.specs.Samples.{family};
ghost use Rattle.status.specs.Printing.{escaped, escaped_byte, metric_line, suffix_text, with_head, with_label};
ghost use Rattle.status.specs.Printing.{with_labels, with_metric_family, with_sample};

use crate::family::{Labels, Metric, Sample, Suffix};
use crate::label::Label;
use crate::names::Name;
use crate::numbers::put_number;
use crate::printing::put;
use std::alloc::AllocError;

/// Adds the lines of a family, if it has a sample.
#[tactic(auto, unfolding(crate::specs::Printing::with_metric_family))]
pub(crate) fn put_metric_family(
    text: &mut Vec<u8>,
    name: Name,
    samples: &[Sample<'_>],
) -> Result<(), AllocError>
    ensures { OnOk result (text.new.items ≡ with_metric_family text.old.items (family name samples.now)) }
{
    if samples.is_empty() {
        return Ok(());
    }
    put_head(text, name)?;
    for sample in samples {
        put_sample(text, name, sample)?;
    }
    Ok(())
}

/// Adds the lines that say what a family means, and its type.
#[tactic(auto, unfolding(crate::specs::Printing::with_head))]
fn put_head(text: &mut Vec<u8>, name: Name) -> Result<(), AllocError>
    ensures { OnOk result (text.new.items ≡ with_head text.old.items name) }
{
    put(text, "# HELP ")?;
    put(text, name.text())?;
    put(text, " ")?;
    put(text, name.help())?;
    put(text, "\n# TYPE ")?;
    put(text, name.text())?;
    put(text, metric_line(name.metric()))
}

/// The type of a metric, and the end of its line.
fn metric_line(metric: Metric) -> &'static str
    ensures { result.now ≡ metric_line metric }
{
    match metric {
        Metric::Counter => " counter\n",
        Metric::Gauge => " gauge\n",
        Metric::Histogram => " histogram\n",
    }
}

/// Adds the line of a sample.
#[tactic(auto, unfolding(crate::specs::Printing::with_sample))]
fn put_sample(text: &mut Vec<u8>, name: Name, sample: &Sample<'_>) -> Result<(), AllocError>
    ensures { OnOk result (text.new.items ≡ with_sample name text.old.items sample.now) }
{
    put(text, name.text())?;
    put(text, suffix_text(sample.suffix))?;
    put_labels(text, &sample.labels)?;
    put(text, " ")?;
    put_number(text, sample.number)?;
    put(text, "\n")
}

/// What follows the name of a family.
fn suffix_text(suffix: Suffix) -> &'static str
    ensures { result.now ≡ suffix_text suffix }
{
    match suffix {
        Suffix::Nothing => "",
        Suffix::Bucket => "_bucket",
        Suffix::Sum => "_sum",
        Suffix::Count => "_count",
    }
}

/// Adds the labels.
#[tactic(auto, unfolding(crate::specs::Printing::with_labels))]
fn put_labels(text: &mut Vec<u8>, labels: &Labels<'_>) -> Result<(), AllocError>
    ensures { OnOk result (text.new.items ≡ with_labels text.old.items labels.now) }
{
    match labels {
        Labels::Absent => Ok(()),
        Labels::One(label) => {
            put(text, "{")?;
            put_label(text, label)?;
            put(text, "}")
        }
        Labels::Two(first, second) => {
            put(text, "{")?;
            put_label(text, first)?;
            put(text, ",")?;
            put_label(text, second)?;
            put(text, "}")
        }
    }
}

/// Adds a label and its value.
#[tactic(auto, unfolding(crate::specs::Printing::with_label))]
fn put_label(text: &mut Vec<u8>, label: &Label<'_>) -> Result<(), AllocError>
    ensures { OnOk result (text.new.items ≡ with_label text.old.items label.now) }
{
    put(text, label.name)?;
    put(text, "=\"")?;
    put_escaped(text, label.value)?;
    put(text, "\"")
}

/// Adds the value of a label: a backslash before a double quote, a backslash and a line feed, which is `n` then.
fn put_escaped(text: &mut Vec<u8>, value: &str) -> Result<(), AllocError>
    ensures { OnOk result (text.new.items ≡ text.old.items ++ escaped value.now) }
{
    let bytes = value.as_bytes();
    for byte in bytes {
        put_escaped_byte(text, *byte)?;
    }
    Ok(())
}

fn put_escaped_byte(text: &mut Vec<u8>, byte: u8) -> Result<(), AllocError>
    ensures { OnOk result (text.new.items ≡ text.old.items ++ escaped_byte byte) }
{
    if byte == b'\\' {
        return put(text, "\\\\");
    }
    if byte == b'"' {
        return put(text, "\\\"");
    }
    if byte == b'\n' {
        return put(text, "\\n");
    }
    text.extend_from_slice(&[byte])
}
