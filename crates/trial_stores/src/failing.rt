//! A store whose transactions fail, call by call.

ghost use Rattle.std.specs.Prelude.{IfOk};
ghost use Rattle.broker_types.specs.Answer.{HasRoom, response_of};
ghost use Rattle.broker_model.specs.ListedResponses.{IsListed};

use crate::base::{Base, Outcome, Request};
use broker::{Noticed, Store};
use broker_types::{Answer, Ask, Fault, Moment, Words};
use rand_chacha::ChaCha20Rng;
use rand_core::{Rng, SeedableRng};

/// Of so many requests one has a call that fails.
const TURNS: u64 = 10;

/// Which calls fail.
#[derive(Clone, Copy, Debug, PartialEq, Eq)]
pub(crate) enum Way {
    /// Each call of a request in turn, before the request is answered.
    Each,
    /// One call of every tenth request, which is answered by `Storage`.
    Tenth,
}

/// How many calls failed, and how many requests had one.
#[derive(Clone, Copy, Debug, PartialEq, Eq)]
pub(crate) struct Tally {
    pub(crate) calls: u64,
    /// How many of the calls came after a row had been put or removed.
    pub(crate) after_writes: u64,
    pub(crate) requests: u64,
}

/// A store over rows of which some calls fail. Nothing is said of its rows: what it answers is for tests to compare.
#[derive(Drop)]
pub(crate) struct Failing<B: Base> {
    base: B,
    way: Way,
    generator: ChaCha20Rng,
    asked: u64,
    tally: Tally,
    is_wrong: bool,
    has_failed: bool,
}

impl<B: Base> Failing<B> {
    /// A store over the rows. No call has failed.
    pub(crate) fn new(base: B, way: Way) -> Failing<B> {
        Failing {
            base,
            way,
            generator: ChaCha20Rng::from_seed([0; 32]),
            asked: 0,
            tally: Tally {
                calls: 0,
                after_writes: 0,
                requests: 0,
            },
            is_wrong: false,
            has_failed: false,
        }
    }

    /// How many calls failed.
    pub(crate) fn tally(&self) -> Tally {
        self.tally
    }

    /// Whether a call that failed did not end its request by `Storage` alone, or left other rows.
    pub(crate) fn is_wrong(&self) -> bool {
        self.is_wrong
    }

    /// Answers a request, once calls of it have failed.
    fn fail_and_answer(&mut self, request: &Request) -> Result<Answer, Fault>
        ensures room { IfOk result HasRoom }
        ensures listed { IfOk result (λ a. IsListed (response_of a)) }
    {
        match self.way {
            Way::Each => self.fail_each(request)?,
            Way::Tenth => self.fail_tenth(request)?,
        }
        self.base.answer(request)
    }

    /// Lets each call of a request fail in turn. After each the rows have to be as before.
    fn fail_each(&mut self, request: &Request) -> Result<(), Fault> {
        let before = self.base.rows()?;
        for passes in 0..u64::MAX {
            let attempt = self.try_failing(passes, request)?;
            if !self.base.rows()?.are(&before) {
                return self.go_wrong();
            }
            if !attempt.has_failed {
                self.tally.requests = self.tally.requests.saturating_add(u64::from(passes > 0));
                return Ok(());
            }
        }
        Ok(())
    }

    /// Lets a drawn call of every tenth request fail, which is the answer then.
    fn fail_tenth(&mut self, request: &Request) -> Result<(), Fault> {
        self.asked = self.asked.saturating_add(1);
        if self.asked % TURNS != 0 {
            return Ok(());
        }
        let whole = self.try_failing(u64::MAX, request)?;
        if whole.calls == 0 {
            return self.go_wrong();
        }
        let passes = self.generator.next_u64() % whole.calls;
        let attempt = self.try_failing(passes, request)?;
        if !attempt.has_failed {
            return self.go_wrong();
        }
        self.tally.requests = self.tally.requests.saturating_add(1);
        Err(Fault::Storage)
    }

    /// Asks a request over a transaction of which so many calls are passed on, and counts the one that fails.
    fn try_failing(&mut self, passes: u64, request: &Request) -> Result<Outcome, Fault> {
        let attempt = self.base.attempt(passes, request)?;
        if attempt.is_storage != attempt.has_failed {
            self.go_wrong()?;
        }
        if attempt.has_failed {
            let after_write = u64::from(attempt.writes > 0);
            self.tally.calls = self.tally.calls.saturating_add(1);
            self.tally.after_writes = self.tally.after_writes.saturating_add(after_write);
        }
        Ok(attempt)
    }

    /// Keeps that something is wrong, and ends the run.
    fn go_wrong(&mut self) -> Result<(), Fault> {
        self.is_wrong = true;
        Err(Fault::Damaged)
    }
}

impl<B: Base> Store for Failing<B> {
    ghost use Rattle.std.specs.FinMap as map;
    ghost use Rattle.std.specs.Prelude.{false};

    ghost seen = { λ f. record { rows = map.empty; mismatches = 1; has_failed = f.has_failed; is_open = false } };

    fn one(&mut self, moment: Moment, words: &Words, ask: &Ask<'_>) -> Result<Answer, Fault> {
        let request = Request { moment, words, ask };
        let answered = self.fail_and_answer(&request);
        self.has_failed = matches!(answered, Err(Fault::Storage));
        answered
    }

    fn failed(&self) -> bool {
        self.has_failed
    }

    fn noticed(&self) -> Noticed {
        Noticed::nothing()
    }
}
