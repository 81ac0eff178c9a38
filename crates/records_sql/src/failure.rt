//! Which failure came last, and what is told of commits.

ghost use Rattle.std.specs.Prelude.{◌≡◌, None, Some};
ghost use Rattle.records_sql.specs.Causes.{after};

use crate::cause::Cause;
use crate::commits::Commits;
use std::alloc::{AllocError, Global};
use std::cell::Cell;
use std::marker::Model;
use std::rc::Rc;
use std::time::Instant;

/// Why the last call failed, if one has.
pub struct Failure {
    cause: Option<Cause>,
    /// Where it is told as well.
    told: Option<LastCause>,
    /// Whether the transaction has written something.
    has_written: bool,
    /// Where commits are counted.
    commits: Option<Commits>,
}

impl Model for Failure {
    ghost use Rattle.std.specs.Prelude.{Option};
    ghost use Rattle.records_sql.specs.declared.cause.Cause.{Cause};

    ghost Value = { Option Cause };

    ghost view = { λ failure. failure.cause };
}

// It is written out, so that a caller does not prove again how each part is dropped.
impl Drop for Failure {
    fn drop(self) {
        let Failure {
            cause: _,
            told: _told,
            has_written: _,
            commits: _commits,
        } = self;
    }
}

impl Failure {
    /// No call has failed.
    pub(crate) fn none() -> Failure
        ensures { result ≡ None }
    {
        Failure {
            cause: None,
            told: None,
            has_written: false,
            commits: None,
        }
    }

    /// Why the last call failed.
    pub(crate) fn cause(&self) -> Option<Cause>
        ensures { result ≡ self.now }
    {
        self.cause
    }

    /// A call has failed.
    pub(crate) fn note(&mut self, cause: Cause)
        ensures { self.new ≡ Some (after self.old cause) }
    {
        let cause = cause.after(self.cause);
        self.cause = Some(cause);
        if let Some(told) = &self.told {
            told.tell(cause);
        }
    }

    /// A transaction has begun, in which none has failed.
    pub(crate) fn clear(&mut self)
        ensures { self.new ≡ None }
    {
        self.cause = None;
        self.has_written = false;
    }

    /// The transaction writes something.
    pub(crate) fn note_write(&mut self)
        ensures { self.new ≡ self.old }
    {
        self.has_written = true;
    }

    /// The transaction is to be committed now: when that begins, if it has written something and commits are counted.
    pub(crate) fn begin_commit(&self) -> Option<Instant> {
        match &self.commits {
            Some(commits) if self.has_written => commits.begin(),
            _ => None,
        }
    }

    /// A commit that began then has succeeded.
    pub(crate) fn count_commit(&self, began: Option<Instant>) {
        if let Some(commits) = &self.commits
            && let Some(began) = began
        {
            commits.end(began);
        }
    }

    /// From now on causes are told there as well.
    pub(crate) fn tell_to(&mut self, place: &LastCause)
        ensures { self.new ≡ self.old }
    {
        self.told = place.shared().ok();
    }

    /// From now on commits are counted there.
    pub(crate) fn count_in(&mut self, commits: &Commits)
        ensures { self.new ≡ self.old }
    {
        self.commits = commits.shared().ok();
    }
}

/// A place where records tell why they failed last, for one who has them no more.
pub struct LastCause(Rc<Cell<Option<Cause>>>);

impl Drop for LastCause {
    fn drop(self) {
        let LastCause(_place) = self;
    }
}

impl LastCause {
    /// A place where nothing is told.
    pub fn new(alloc: Global) -> Result<LastCause, AllocError> {
        Ok(LastCause(Rc::new(alloc, Cell::new(None))?))
    }

    /// The same place once more.
    fn shared(&self) -> Result<LastCause, AllocError> {
        Ok(LastCause(Rc::clone(&self.0)?))
    }

    /// Tells a cause.
    pub fn tell(&self, cause: Cause) {
        self.0.set(Some(cause));
    }

    /// What was told last. A later begin does not take it back.
    pub fn get(&self) -> Option<Cause> {
        self.0.get()
    }
}
