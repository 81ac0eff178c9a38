//! Families printed, as Prometheus reads them or as people do.

ghost use Rattle.std.specs.Prelude.{◌≡◌, ◌++◌, OnOk};
ghost use Rattle.status.specs.Samples.{family};
ghost use Rattle.status.specs.Printing.{with_family};

use crate::family::Sample;
use crate::html::put_html_family;
use crate::lines::put_metric_family;
use crate::names::Name;
use std::alloc::AllocError;

/// For whom families are printed.
#[derive(Clone, Copy, Debug, PartialEq, Eq)]
pub(crate) enum Style {
    /// For Prometheus, in its text format, version 0.0.4.
    Metrics,
    /// For people, as items of a description list of HTML.
    Page,
}

/// Adds a text.
pub(crate) fn put(text: &mut Vec<u8>, part: &str) -> Result<(), AllocError>
    ensures { OnOk result (text.new.items ≡ text.old.items ++ part.now) }
{
    text.extend_from_slice(part.as_bytes())
}

/// Adds a family, if it has a sample.
#[tactic(auto, unfolding(crate::specs::Printing::with_family))]
pub(crate) fn put_family(
    style: Style,
    text: &mut Vec<u8>,
    name: Name,
    samples: &[Sample<'_>],
) -> Result<(), AllocError>
    ensures { OnOk result (text.new.items ≡ with_family style text.old.items (family name samples.now)) }
{
    match style {
        Style::Metrics => put_metric_family(text, name, samples),
        Style::Page => put_html_family(text, name, samples),
    }
}
