//! What was met at the steps of a script.

use crate::disk::pair::Part;
use crate::disk::trace::Counts;
use crate::running::Progress;
use broker_types::Fault;
use std::alloc::Global;
use std::fmt;

/// The stops of a file after calls that a step made.
#[derive(Clone, Copy, Debug, PartialEq, Eq)]
pub(crate) struct Stops {
    all: u64,
    /// How many came right after a change of the file.
    after_changes: u64,
    /// How many came right after a sync of it.
    after_syncs: u64,
}

impl Stops {
    const NONE: Stops = Stops {
        all: 0,
        after_changes: 0,
        after_syncs: 0,
    };

    /// Counts a stop after one more call than the last one.
    fn count(&mut self, before: Counts, now: Counts) {
        self.all = self.all.saturating_add(1);
        if now.changes > before.changes {
            self.after_changes = self.after_changes.saturating_add(1);
        }
        if now.syncs > before.syncs {
            self.after_syncs = self.after_syncs.saturating_add(1);
        }
    }
}

impl fmt::Display for Stops {
    fn fmt<W: fmt::Write>(&self, f: &mut fmt::Formatter<W>) -> fmt::Result {
        let Stops {
            all,
            after_changes,
            after_syncs,
        } = *self;
        write!(
            f,
            "{all} ({after_changes} after a change, {after_syncs} after a sync)"
        )
    }
}

/// What was met at a step.
#[derive(Clone, Copy, Debug, PartialEq, Eq)]
pub(crate) struct Step {
    log: Stops,
    database: Stops,
    /// In how many images the rows were those before the step, while it was in progress.
    pub(crate) before: u64,
    /// In how many they were those after it.
    pub(crate) after: u64,
}

impl fmt::Display for Step {
    fn fmt<W: fmt::Write>(&self, f: &mut fmt::Formatter<W>) -> fmt::Result {
        let Step {
            log,
            database,
            before,
            after,
        } = *self;
        write!(
            f,
            "stops of the log {log}, of the database {database}; found {before} times before it, {after} after it"
        )
    }
}

/// What was met at the start, at each event, and at the close of the files.
#[derive(Drop)]
pub(crate) struct Tally {
    pub(crate) steps: Vec<Step>,
    pub(crate) images: u64,
}

impl Tally {
    /// That of so many steps. The only error is `Memory`.
    pub(crate) fn new(alloc: Global, steps: usize) -> Result<Tally, Fault> {
        let step = Step {
            log: Stops::NONE,
            database: Stops::NONE,
            before: 0,
            after: 0,
        };
        let steps = vec![in alloc; step; steps]?;
        Ok(Tally { steps, images: 0 })
    }

    /// Counts a stop of a file. The run that stopped one call earlier came as far as `before`; before the first call
    /// there is none.
    pub(crate) fn count_stop(&mut self, part: Part, before: Option<Progress>, now: Progress) {
        let before = before.unwrap_or(now);
        let Some(step) = self.steps.get_mut(before.answered) else {
            return;
        };
        match part {
            Part::Log => step.log.count(before.log, now.log),
            Part::Database => step.database.count(before.database, now.database),
        }
    }

    /// Counts what was found in an image while a step was in progress.
    pub(crate) fn count_found(&mut self, step: usize, is_before: bool, is_after: bool) {
        self.images = self.images.saturating_add(1);
        let Some(step) = self.steps.get_mut(step) else {
            return;
        };
        step.before = step.before.saturating_add(u64::from(is_before));
        step.after = step.after.saturating_add(u64::from(is_after));
    }

    /// In how many images the last step but the close had not been taken, and in how many it had.
    pub(crate) fn last_step(&self) -> (u64, u64) {
        match self.steps.as_slice() {
            [.., last, close] => (last.before, last.after.saturating_add(close.before)),
            _ => (0, 0),
        }
    }
}
