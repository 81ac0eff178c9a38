//! Steps over files that stop: after each stop, whatever a crash left, the broker is found as it was before the step in
//! progress, or as it is after it.

use crate::disk::images::Image;
use crate::disk::pair::Part;
use crate::ending::End;
use crate::found::{reply_found, rows_found};
use crate::opening::{Until, Writes, in_memory};
use crate::running::{ReplyAfter, Run, Steps, all_states};
use crate::script::whole_script_of;
use crate::stops::Stop;
use crate::tally::Tally;
use crate::upgraded::{OldAndNew, upgrade_until_stop};
use broker_types::Fault;
use endpoints::{Sink, Source};
use hub::Event;
use replay::{Exit, Script};
use std::alloc::Global;
use trial_rows::Rows;

/// An event that is asked of what is found once the last step is in progress, and its replies.
#[derive(Drop)]
struct Asked {
    event: Event,
    /// That of a broker that did not take the last step.
    without: Vec<u8>,
    /// That of one that did.
    with: Vec<u8>,
}

/// What is done over the files.
#[derive(Clone, Copy, Debug, PartialEq, Eq)]
enum Over {
    /// The start, each event, and the close.
    Script,
    /// The opening after all of these, once the keys have rows of format 1, and the close.
    Upgrade,
}

/// Steps over files that stop.
#[derive(Drop)]
struct Trial {
    alloc: Global,
    writes: Writes,
    over: Over,
    script: Script,
    /// The rows before the first step, and after each step but the close.
    states: Vec<Rows>,
    asked: Option<Asked>,
}

/// Stops a run of the lines of the source at each call on the log in turn, and then at each on the database file, and
/// tells what was met. It fails with `Storage` if a run stops though each call is answered.
pub(crate) fn run_stopped<R: Source>(
    alloc: Global,
    writes: Writes,
    reader: &mut R,
) -> Result<Tally, End> {
    let script = whole_script_of(alloc, reader)?;
    let trial = Trial::new(alloc, writes, Over::Script, script, None)?;
    trial.run()
}

/// The same of all lines but the last, which asks what is found from the last step on. It answers how often that step
/// had not been taken, and how often it had, and writes the reply to the last line of a broker that did not take that
/// step, and of one that did.
pub(crate) fn run_again<R: Source, W: Sink>(
    alloc: Global,
    writes: Writes,
    reader: &mut R,
    writer: &mut W,
) -> Result<(u64, u64), End> {
    let mut script = whole_script_of(alloc, reader)?;
    let Some(event) = script.events.pop() else {
        return Err(End::Replayed(Exit::BadLine(2)));
    };
    let before = script.events.len().saturating_sub(1);
    let asked = Asked::of(alloc, &script, before, event)?;
    let written = writer.push(asked.without.as_slice());
    if written.is_err() || writer.push(asked.with.as_slice()).is_err() {
        return Err(End::Replayed(Exit::Faulted(6)));
    }
    let trial = Trial::new(alloc, writes, Over::Script, script, Some(asked))?;
    Ok(trial.run()?.last_step())
}

/// Stops the opening of files, in which a run of all lines but the last left the rows, but those of the keys are of
/// format 1; the last line asks what is found. It tells what was met, and writes the reply of a broker in memory to the
/// last line.
///
/// An opening that rewrites no row, or one page of them, would end as wrong at the first stop of the log, after no
/// call; one that rewrites each row in a transaction of its own, after one of its syncs, if there are several keys.
pub(crate) fn run_upgraded<R: Source, W: Sink>(
    alloc: Global,
    writes: Writes,
    reader: &mut R,
    writer: &mut W,
) -> Result<Tally, End> {
    let mut script = whole_script_of(alloc, reader)?;
    let Some(event) = script.events.pop() else {
        return Err(End::Replayed(Exit::BadLine(2)));
    };
    let asked = Asked::of(alloc, &script, script.events.len(), event)?;
    if writer.push(asked.with.as_slice()).is_err() {
        return Err(End::Replayed(Exit::Faulted(6)));
    }
    let trial = Trial::new(alloc, writes, Over::Upgrade, script, Some(asked))?;
    trial.run()
}

impl Asked {
    /// The replies to an event after so many events of the script, and after all of it.
    fn of(alloc: Global, script: &Script, before: usize, event: Event) -> Result<Asked, Fault> {
        let mut without = ReplyAfter {
            steps: Steps::first(script, before),
            event: &event,
        };
        let mut with = ReplyAfter {
            steps: Steps::of(script),
            event: &event,
        };
        Ok(Asked {
            without: in_memory(alloc, &mut without)?,
            with: in_memory(alloc, &mut with)?,
            event,
        })
    }

    /// Whether it is the reply of a broker that took the last step, or of one that did not.
    fn is_reply(&self, reply: &[u8], is_taken: bool) -> bool {
        let wanted = if is_taken { &self.with } else { &self.without };
        wanted.as_slice() == reply
    }
}

impl Trial {
    fn new(
        alloc: Global,
        writes: Writes,
        over: Over,
        script: Script,
        asked: Option<Asked>,
    ) -> Result<Trial, Fault> {
        let states = match over {
            Over::Script => all_states(alloc, &script)?,
            Over::Upgrade => in_memory(alloc, &mut OldAndNew(Steps::of(&script)))?,
        };
        Ok(Trial {
            alloc,
            writes,
            over,
            script,
            states,
            asked,
        })
    }

    /// Stops runs at each call on either file, and tells what was met.
    fn run(&self) -> Result<Tally, End> {
        let whole = self.until_stop(Until::NEVER)?;
        if whole.is_stopped {
            return Err(End::from(Fault::Storage));
        }
        let mut tally = Tally::new(self.alloc, self.states.len())?;
        self.stop_at_each(Part::Log, &mut tally)?;
        self.stop_at_each(Part::Database, &mut tally)?;
        Ok(tally)
    }

    fn until_stop(&self, until: Until) -> Result<Run, Fault> {
        match self.over {
            Over::Script => Run::until_stop(self.alloc, &self.script, self.writes, until),
            Over::Upgrade => upgrade_until_stop(self.alloc, &self.script, self.writes, until),
        }
    }

    /// Stops a run at each call on a file in turn, until a run meets no stop. Where a run came no further than the one
    /// that stopped a call earlier, the files are the same.
    fn stop_at_each(&self, part: Part, tally: &mut Tally) -> Result<(), End> {
        let mut before = None;
        for calls in 0..u64::MAX {
            let mut run = self.until_stop(Until { part, calls })?;
            if run.is_stopped {
                tally.count_stop(part, before, run.progress);
            }
            if before != Some(run.progress) && self.is_asked(&run) {
                let wrong = self.first_wrong(&mut run, calls, tally)?;
                if let Some(image) = wrong {
                    return Err(End::Wrong(Stop { part, calls, image }));
                }
            }
            if !run.is_stopped {
                return Ok(());
            }
            before = Some(run.progress);
        }
        Ok(())
    }

    /// Whether the broker that is found after a run is to be looked at.
    fn is_asked(&self, run: &Run) -> bool {
        match (&self.asked, self.over) {
            (Some(_), Over::Script) => run.progress.answered >= self.script.events.len(),
            _ => true,
        }
    }

    /// The first image in which the broker is not the one before the step in progress, or after it. A seed chooses the
    /// images.
    fn first_wrong(
        &self,
        run: &mut Run,
        seed: u64,
        tally: &mut Tally,
    ) -> Result<Option<Image>, Fault> {
        for image in run.files.images(seed)?.iter().copied() {
            if !self.is_right(run, image, tally)? {
                return Ok(Some(image));
            }
        }
        Ok(None)
    }

    /// Whether what a crash leaves of a run is the broker before the step in progress, or after it; it is counted.
    fn is_right(&self, run: &mut Run, image: Image, tally: &mut Tally) -> Result<bool, Fault> {
        let files = run.files.left(image)?;
        let states = self.states.as_slice();
        let start = &self.script.start;
        let Some(rows) = rows_found(self.alloc, files, self.writes, start, states)? else {
            return Ok(false);
        };
        let step = run.progress.answered;
        let mut is_before = is_state(states, step, &rows);
        let mut is_after = is_state(states, step.saturating_add(1), &rows);
        if let Some(asked) = &self.asked {
            let files = run.files.left(image)?;
            let reply = reply_found(self.alloc, files, self.writes, &asked.event)?;
            let is_taken = step > self.script.events.len();
            is_before = is_before && asked.is_reply(reply.as_slice(), is_taken);
            is_after = is_after && asked.is_reply(reply.as_slice(), true);
        }
        tally.count_found(step, is_before, is_after);
        Ok(is_before || is_after)
    }
}

/// Whether these are the rows of the state at a place.
fn is_state(states: &[Rows], place: usize, rows: &Rows) -> bool {
    match states.get(place) {
        Some(state) => state.are(rows),
        None => false,
    }
}
