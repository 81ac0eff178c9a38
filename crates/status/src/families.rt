//! The families of metrics of a server, added to a text in either style.

ghost use Rattle.std.specs.Prelude.{◌≡◌, fold, OnOk, option_map};
ghost use Rattle.status.specs.Families.{closing_rows, connection_families, fault_rows, file_families};
ghost use Rattle.status.specs.Families.{program_families, request_families, request_rows, single, single_time};
ghost use Rattle.status.specs.Families.{start_families, version_family};
ghost use Rattle.status.specs.Printed.{with_all};
ghost use Rattle.status.specs.Printing.{with_family};

use crate::counters::Counters;
use crate::family::{Number, Sample};
use crate::figures::Figures;
use crate::names::Name;
use crate::printing::{Style, put_family};
use crate::samples::{counting, labelled, plain};
use crate::timings::timings;
use std::alloc::{AllocError, Global};

/// Adds all families.
pub(crate) fn put_all(
    style: Style,
    text: &mut Vec<u8>,
    alloc: Global,
    counters: &Counters,
    figures: &Figures<'_>,
) -> Result<(), AllocError>
    ensures { OnOk result (text.new.items ≡ with_all style text.old.items counters.now figures.entry.now) }
{
    put_requests(style, text, alloc, counters)?;
    put_connections(style, text, counters, figures)?;
    put_files(style, text, figures)?;
    put_start(style, text, figures)?;
    put_program(style, text, counters, figures)
}

/// Adds a family of one whole number, if it is known.
fn put_single(
    style: Style,
    text: &mut Vec<u8>,
    name: Name,
    number: Option<u64>,
) -> Result<(), AllocError>
    ensures { OnOk result (text.new.items ≡ with_family style text.old.items (single name number)) }
{
    match number {
        Some(number) => put_family(style, text, name, &[plain(Number::Whole(number))]),
        None => put_family(style, text, name, &[]),
    }
}

/// Adds a family of one number of microseconds, if it is known.
fn put_single_time(
    style: Style,
    text: &mut Vec<u8>,
    name: Name,
    micros: Option<u64>,
) -> Result<(), AllocError>
    ensures { OnOk result (text.new.items ≡ with_family style text.old.items (single_time name micros)) }
{
    match micros {
        Some(micros) => put_family(style, text, name, &[plain(Number::Seconds(micros))]),
        None => put_family(style, text, name, &[]),
    }
}

// ---- requests

#[tactic(auto, unfolding(crate::specs::Families::request_families))]
fn put_requests(
    style: Style,
    text: &mut Vec<u8>,
    alloc: Global,
    counters: &Counters,
) -> Result<(), AllocError>
    ensures { OnOk result
        (text.new.items ≡ fold (with_family style) text.old.items (request_families counters.now)) }
{
    put_family(
        style,
        text,
        Name::Requests,
        &request_rows(&counters.requests),
    )?;
    let timings = timings(alloc, counters)?;
    put_family(style, text, Name::RequestSeconds, &timings)?;
    put_family(style, text, Name::Faults, &fault_rows(&counters.faults))
}

#[tactic(auto, unfolding(crate::specs::Families::request_rows))]
fn request_rows(counts: &[u64; 12]) -> [Sample<'static>; 12]
    ensures { result ≡ request_rows counts.now }
{
    [
        counting("status", "200", counts[0]),
        counting("status", "204", counts[1]),
        counting("status", "400", counts[2]),
        counting("status", "403", counts[3]),
        counting("status", "404", counts[4]),
        counting("status", "405", counts[5]),
        counting("status", "413", counts[6]),
        counting("status", "431", counts[7]),
        counting("status", "500", counts[8]),
        counting("status", "501", counts[9]),
        counting("status", "none", counts[10]),
        counting("status", "other", counts[11]),
    ]
}

#[tactic(auto, unfolding(crate::specs::Families::fault_rows))]
fn fault_rows(counts: &[u64; 7]) -> [Sample<'static>; 7]
    ensures { result ≡ fault_rows counts.now }
{
    [
        counting("fault", "1", counts[0]),
        counting("fault", "2", counts[1]),
        counting("fault", "3", counts[2]),
        counting("fault", "4", counts[3]),
        counting("fault", "5", counts[4]),
        counting("fault", "6", counts[5]),
        counting("fault", "other", counts[6]),
    ]
}

// ---- connections

#[tactic(auto, unfolding(crate::specs::Families::connection_families))]
fn put_connections(
    style: Style,
    text: &mut Vec<u8>,
    counters: &Counters,
    figures: &Figures<'_>,
) -> Result<(), AllocError>
    ensures { OnOk result (text.new.items
        ≡ fold (with_family style) text.old.items (connection_families counters.now figures.entry.now)) }
{
    put_single(style, text, Name::Connections, Some(figures.connections))?;
    put_single(style, text, Name::ConnectionsLimit, Some(figures.at_once))?;
    put_single(
        style,
        text,
        Name::ConnectionsAccepted,
        Some(counters.accepted),
    )?;
    put_family(
        style,
        text,
        Name::ConnectionsClosed,
        &closing_rows(&counters.closed),
    )
}

#[tactic(auto, unfolding(crate::specs::Families::closing_rows))]
fn closing_rows(counts: &[u64; 7]) -> [Sample<'static>; 7]
    ensures { result ≡ closing_rows counts.now }
{
    [
        counting("reason", "ended", counts[0]),
        counting("reason", "idle", counts[1]),
        counting("reason", "room", counts[2]),
        counting("reason", "silent", counts[3]),
        counting("reason", "slow", counts[4]),
        counting("reason", "fault", counts[5]),
        counting("reason", "stopped", counts[6]),
    ]
}

// ---- the store

#[tactic(auto, unfolding(crate::specs::Families::file_families))]
fn put_files(style: Style, text: &mut Vec<u8>, figures: &Figures<'_>) -> Result<(), AllocError>
    ensures { OnOk result
        (text.new.items ≡ fold (with_family style) text.old.items (file_families figures.entry.now)) }
{
    put_single(style, text, Name::DatabaseBytes, figures.database_bytes)?;
    put_single(style, text, Name::DatabaseLogBytes, figures.log_bytes)?;
    put_single(
        style,
        text,
        Name::Commits,
        figures.commits.map(|commits| commits.times),
    )?;
    put_single_time(
        style,
        text,
        Name::CommitSeconds,
        figures.commits.map(|commits| commits.micros),
    )
}

#[tactic(auto, unfolding(crate::specs::Families::start_families))]
fn put_start(style: Style, text: &mut Vec<u8>, figures: &Figures<'_>) -> Result<(), AllocError>
    ensures { OnOk result
        (text.new.items ≡ fold (with_family style) text.old.items (start_families figures.entry.now)) }
{
    put_single(
        style,
        text,
        Name::TokensAtStart,
        figures.at_start.map(|start| start.tokens),
    )?;
    put_single(
        style,
        text,
        Name::SecretsAtStart,
        figures.at_start.map(|start| start.secrets),
    )?;
    put_single(
        style,
        text,
        Name::ResponsesAtStart,
        figures.at_start.map(|start| start.responses),
    )
}

// ---- the program

#[tactic(auto, unfolding(crate::specs::Families::program_families))]
fn put_program(
    style: Style,
    text: &mut Vec<u8>,
    counters: &Counters,
    figures: &Figures<'_>,
) -> Result<(), AllocError>
    ensures { OnOk result (text.new.items
        ≡ fold (with_family style) text.old.items (program_families counters.now figures.entry.now)) }
{
    put_version(style, text, figures)?;
    put_single(
        style,
        text,
        Name::StartTime,
        Some(figures.started.seconds()),
    )?;
    put_single(style, text, Name::ResidentMemory, figures.resident_bytes)?;
    put_single(style, text, Name::ClockAhead, figures.clock_ahead)?;
    put_single(style, text, Name::LinesDropped, Some(counters.dropped))
}

/// Adds the family whose label is the version.
#[tactic(auto, unfolding(crate::specs::Families::version_family))]
fn put_version(style: Style, text: &mut Vec<u8>, figures: &Figures<'_>) -> Result<(), AllocError>
    ensures { OnOk result
        (text.new.items ≡ with_family style text.old.items (version_family figures.entry.now)) }
{
    let version = labelled("version", figures.version, Number::Whole(1));
    put_family(style, text, Name::BuildInfo, &[version])
}
