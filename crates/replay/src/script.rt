//! The lines of a replay, read before the first of them is run.

ghost use Rattle.std.specs.Prelude.{◌≡◌, ◌∷◌, ◌<◌, length, IfOk, IfSome, option_map, position};
ghost use Rattle.std.specs.List.{slice_split};
ghost use Rattle.replay.specs.Replays.{told};
ghost use Rattle.replay.specs.Lines.{is_line_feed, lines_left, lines_of, told_in, without_end};

use crate::lines::{Start, read_event, read_start};
use crate::replaying::Exit;
use hub::Event;
use std::alloc::{AllocError, Global};

/// What the lines of a replay say, up to the first that is bad.
#[derive(Drop)]
pub struct Script {
    /// With what the broker is started.
    pub start: Start,
    /// The events, in their order.
    pub events: Vec<Event>,
    /// Whether a bad line follows those of the events.
    pub is_cut: bool,
}

impl Script {
    ghost use Rattle.std.specs.Prelude.{◌≡◌};
    ghost use Rattle.replay.specs.Replays.{exit_of, told};

    /// How its run ends if nothing fails.
    pub(crate) fn exit(&self) -> Exit
        ensures { result ≡ exit_of (told self.now) }
    {
        if self.is_cut {
            Exit::BadLine(self.events.len() as u64 + 2)
        } else {
            Exit::Done
        }
    }
}

/// Reads the lines of a replay, each ended by LF, which the last may lack. None if the first line is
/// bad. The only error is running out of memory.
pub fn read_script(alloc: Global, input: &[u8]) -> Result<Option<Script>, AllocError>
    ensures { IfOk result (λ script. option_map told script ≡ told_in (lines_of input.now)) }
{
    let (first, mut rest) = split_line(without_end(input));
    let Some(start) = read_start(alloc, first)? else {
        return Ok(None);
    };
    let mut events = Vec::new(alloc);
    while let Some(lines) = rest {
        let (line, next) = split_line(lines);
        let Some(event) = read_event(alloc, line)? else {
            return Ok(Some(Script {
                start,
                events,
                is_cut: true,
            }));
        };
        events.push(event)?;
        rest = next;
    }
    Ok(Some(Script {
        start,
        events,
        is_cut: false,
    }))
}

/// The input without an LF at its end.
fn without_end(input: &[u8]) -> &[u8]
    ensures { result.now ≡ without_end input.now }
{
    match input {
        [lines @ .., b'\n'] => lines,
        _ => input,
    }
}

/// The first line, and what follows its LF, if it has one.
fn split_line(lines: &[u8]) -> (&[u8], Option<&[u8]>)
    ensures parts { slice_split is_line_feed lines.now ≡ result.0.now ∷ lines_left (option_map
        (λ rest. rest.now) result.1) }
    ensures shorter { IfSome result.1 (λ rest. length rest.now < length lines.now) }
{
    match line_end(lines) {
        Some(end) => (&lines[..end], Some(&lines[end + 1..])),
        None => (lines, None),
    }
}

/// The place of the first LF.
fn line_end(lines: &[u8]) -> Option<usize>
    ensures place { result ≡ position is_line_feed lines.now }
    ensures within { IfSome result (λ end. end < length lines.now) }
{
    lines.iter().position(|byte| *byte == b'\n')
}
