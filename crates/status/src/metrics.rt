//! What `/metrics` shows.

ghost use Rattle.std.specs.Prelude.{◌≡◌, IfOk};
ghost use Rattle.status.specs.Printed.{metrics_text};

use crate::counters::Counters;
use crate::families::put_all;
use crate::figures::Figures;
use crate::printing::Style;
use std::alloc::{AllocError, Global};

/// All families in the text format of Prometheus, version 0.0.4. The only error is running out of memory.
pub fn metrics_text(
    alloc: Global,
    counters: &Counters,
    figures: &Figures<'_>,
) -> Result<Vec<u8>, AllocError>
    ensures { IfOk result (λ text. text.items ≡ metrics_text counters.now figures.entry.now) }
{
    let mut text = Vec::new(alloc);
    put_all(Style::Metrics, &mut text, alloc, counters, figures)?;
    Ok(text)
}
