//! Families printed for people, as items of a description list of HTML.

ghost use Rattle.std.specs.Prelude.{◌≡◌, ◌++◌, fold, OnOk};
ghost use Rattle.status.specs.Html.{html, html_byte, suffix_word, with_html_family, with_html_sample, with_shown};
ghost use Rattle.status.specs.Samples.{family};
ghost use Rattle.status.specs.Html.{with_value, with_values};

use crate::family::{Labels, Sample, Suffix};
use crate::label::Label;
use crate::names::Name;
use crate::numbers::put_number;
use crate::printing::put;
use std::alloc::AllocError;

/// Adds what a family means, and its samples, if it has any. The buckets of histograms are left out.
#[tactic(auto, unfolding(crate::specs::Html::with_html_family))]
pub(crate) fn put_html_family(
    text: &mut Vec<u8>,
    name: Name,
    samples: &[Sample<'_>],
) -> Result<(), AllocError>
    ensures { OnOk result (text.new.items ≡ with_html_family text.old.items (family name samples.now)) }
{
    if samples.is_empty() {
        return Ok(());
    }
    put(text, "<div><dt>")?;
    put_html(text, name.help())?;
    put(text, "</dt>")?;
    put_html_samples(text, samples)?;
    put(text, "</div>\n")
}

fn put_html_samples(text: &mut Vec<u8>, samples: &[Sample<'_>]) -> Result<(), AllocError>
    ensures { OnOk result (text.new.items ≡ fold with_html_sample text.old.items samples.now) }
{
    for sample in samples {
        put_html_sample(text, sample)?;
    }
    Ok(())
}

/// Adds a sample, if it is no bucket of a histogram.
#[tactic(auto, unfolding(crate::specs::Html::with_html_sample))]
fn put_html_sample(text: &mut Vec<u8>, sample: &Sample<'_>) -> Result<(), AllocError>
    ensures { OnOk result (text.new.items ≡ with_html_sample text.old.items sample.now) }
{
    match sample.suffix {
        Suffix::Bucket => Ok(()),
        Suffix::Nothing | Suffix::Sum | Suffix::Count => put_shown(text, sample),
    }
}

/// Adds the values of the labels of a sample, and its number.
#[tactic(auto, unfolding(crate::specs::Html::with_shown))]
fn put_shown(text: &mut Vec<u8>, sample: &Sample<'_>) -> Result<(), AllocError>
    ensures { OnOk result (text.new.items ≡ with_shown text.old.items sample.now) }
{
    put(text, "<dd>")?;
    put_values(text, &sample.labels)?;
    put(text, suffix_word(sample.suffix))?;
    put(text, "<b>")?;
    put_number(text, sample.number)?;
    put(text, "</b></dd>")
}

/// What the number of a histogram is.
fn suffix_word(suffix: Suffix) -> &'static str
    ensures { result.now ≡ suffix_word suffix }
{
    match suffix {
        Suffix::Nothing | Suffix::Bucket => "",
        Suffix::Sum => "in all ",
        Suffix::Count => "requests ",
    }
}

/// Adds the values of the labels.
#[tactic(auto, unfolding(crate::specs::Html::with_values))]
fn put_values(text: &mut Vec<u8>, labels: &Labels<'_>) -> Result<(), AllocError>
    ensures { OnOk result (text.new.items ≡ with_values text.old.items labels.now) }
{
    match labels {
        Labels::Absent => Ok(()),
        Labels::One(label) => put_value(text, label),
        Labels::Two(first, second) => {
            put_value(text, first)?;
            put_value(text, second)
        }
    }
}

/// Adds the value of a label, and a space.
#[tactic(auto, unfolding(crate::specs::Html::with_value))]
fn put_value(text: &mut Vec<u8>, label: &Label<'_>) -> Result<(), AllocError>
    ensures { OnOk result (text.new.items ≡ with_value text.old.items label.now) }
{
    put_html(text, label.value)?;
    put(text, " ")
}

/// Adds a text, in which `&`, `<`, `>` and `"` are written as HTML has them.
pub(crate) fn put_html(text: &mut Vec<u8>, part: &str) -> Result<(), AllocError>
    ensures { OnOk result (text.new.items ≡ text.old.items ++ html part.now) }
{
    let bytes = part.as_bytes();
    for byte in bytes {
        put_html_byte(text, *byte)?;
    }
    Ok(())
}

fn put_html_byte(text: &mut Vec<u8>, byte: u8) -> Result<(), AllocError>
    ensures { OnOk result (text.new.items ≡ text.old.items ++ html_byte byte) }
{
    if byte == b'&' {
        return put(text, "&amp;");
    }
    if byte == b'<' {
        return put(text, "&lt;");
    }
    if byte == b'>' {
        return put(text, "&gt;");
    }
    if byte == b'"' {
        return put(text, "&quot;");
    }
    text.extend_from_slice(&[byte])
}
