//! A store that notes what it is asked and how it answers.

use crate::notes::Notes;
use broker::{Noticed, Store};
use broker_types::{Answer, Ask, Fault, Moment, Words};
use std::rc::Rc;

/// A store over another one, which answers: what is asked and answered is noted.
#[derive(Drop)]
pub(crate) struct Noting<S: Store> {
    store: S,
    notes: Rc<Notes>,
}

impl<S: Store> Noting<S> {
    ghost use Rattle.std.specs.Prelude.{◌≡◌};

    /// The store, with its rows.
    pub(crate) fn new(store: S, notes: Rc<Notes>) -> Noting<S>
        ensures { ⟦<Noting<S> as Store>⟧.seen result ≡ S.seen store }
    {
        Noting { store, notes }
    }
}

impl<S: Store> Store for Noting<S> {
    ghost use Rattle.server.specs.Noting.{store_of};

    ghost seen = { λ noting. S.seen (store_of noting) };

    fn one(&mut self, moment: Moment, words: &Words, ask: &Ask<'_>) -> Result<Answer, Fault> {
        self.notes.ask(ask);
        let answered = self.store.one(moment, words, ask);
        if let Ok(answer) = &answered {
            let noticed = self.store.noticed();
            let clock = match noticed.clock {
                Some(clock) => Some(clock.seconds()),
                None => None,
            };
            self.notes.answer(answer, noticed.accessor, clock);
        }
        answered
    }

    fn failed(&self) -> bool {
        self.store.failed()
    }

    fn noticed(&self) -> Noticed {
        self.store.noticed()
    }
}
