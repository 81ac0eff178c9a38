//! What `/` shows: a page for people.

ghost use Rattle.std.specs.Prelude.{◌≡◌, ◌++◌, IfOk, OnOk};
ghost use Rattle.status.specs.Page.{fault_text, page_text, time, with_start, with_store, with_title};

use crate::counters::Counters;
use crate::families::put_all;
use crate::figures::Figures;
use crate::health::{state_text, storage_text, uptime};
use crate::html::put_html;
use crate::numbers::put_whole;
use crate::printing::{Style, put};
use broker_types::{Moment, time_text};
use std::alloc::{AllocError, Global};

/// What every page begins with. It is readable in light and dark, on small screens too, and needs no other file.
const PAGE_BEGIN: &str = "<!DOCTYPE html>\n<html lang=\"en\">\n<meta charset=\"utf-8\">\n\
<meta name=\"viewport\" content=\"width=device-width\">\n<title>Dehluvima</title>\n<style>\n\
:root{color-scheme:light dark}\n\
body{font:1em/1.5 sans-serif;max-width:50em;margin:2em auto;padding:0 1em}\n\
h1{font-size:1.3em}\n\
div{border-top:1px solid #8888;padding:.3em 0}\n\
dd{display:inline-block;margin:0 1.5em 0 0}\n\
b{font-variant-numeric:tabular-nums}\n\
</style>\n";

/// A page of HTML, with the same numbers as `/metrics`, but for the buckets of histograms. The only error is running
/// out of memory.
pub fn page_text(
    alloc: Global,
    counters: &Counters,
    figures: &Figures<'_>,
) -> Result<Vec<u8>, AllocError>
    ensures { IfOk result (λ text. text.items ≡ page_text counters.now figures.entry.now) }
{
    let mut text = Vec::new(alloc);
    put(&mut text, PAGE_BEGIN)?;
    put_title(&mut text, figures)?;
    put_start(&mut text, alloc, figures)?;
    put_store(&mut text, figures)?;
    put(&mut text, "<dl>\n")?;
    put_all(Style::Page, &mut text, alloc, counters, figures)?;
    put(&mut text, "</dl>\n</html>\n")?;
    Ok(text)
}

/// Adds the version and the state.
#[tactic(auto, unfolding(crate::specs::Page::with_title))]
fn put_title(text: &mut Vec<u8>, figures: &Figures<'_>) -> Result<(), AllocError>
    ensures { OnOk result (text.new.items ≡ with_title text.old.items figures.entry.now) }
{
    put(text, "<h1>Dehluvima ")?;
    put_html(text, figures.version)?;
    put(text, ": ")?;
    put(text, state_text(figures.state))?;
    put(text, "</h1>\n")
}

/// Adds since when it runs, and for how long.
#[tactic(auto, unfolding(crate::specs::Page::with_start))]
fn put_start(text: &mut Vec<u8>, alloc: Global, figures: &Figures<'_>) -> Result<(), AllocError>
    ensures { OnOk result (text.new.items ≡ with_start text.old.items figures.entry.now) }
{
    put(text, "<p>Started ")?;
    put_time(text, alloc, figures.started)?;
    put(text, ", ")?;
    put_whole(text, uptime(figures))?;
    put(text, " seconds ago.")?;
    Ok(())
}

/// Adds a time (RFC 3339).
#[tactic(auto, unfolding(crate::specs::Page::time))]
fn put_time(text: &mut Vec<u8>, alloc: Global, moment: Moment) -> Result<(), AllocError>
    ensures { OnOk result (text.new.items ≡ text.old.items ++ time moment) }
{
    let time = time_text(alloc, moment.seconds())?;
    put(text, time.as_str())
}

/// Adds where the rows are, and the last fault.
#[tactic(auto, unfolding(crate::specs::Page::with_store))]
fn put_store(text: &mut Vec<u8>, figures: &Figures<'_>) -> Result<(), AllocError>
    ensures { OnOk result (text.new.items ≡ with_store text.old.items figures.entry.now) }
{
    put(text, " Store: ")?;
    put(text, storage_text(figures.storage))?;
    put(text, ". Last fault: ")?;
    put_fault(text, figures.last_fault)?;
    put(text, ".</p>\n")
}

/// Adds the number of a fault, if there was one.
fn put_fault(text: &mut Vec<u8>, fault: Option<u8>) -> Result<(), AllocError>
    ensures { OnOk result (text.new.items ≡ text.old.items ++ fault_text fault) }
{
    match fault {
        Some(number) => put_whole(text, number as u64),
        None => put(text, "none"),
    }
}
