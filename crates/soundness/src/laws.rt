//! Laws of rows, each the contract of a function that does nothing.

ghost use Rattle.soundness.specs.Laws.{BrokenRowsAreOfNoBroker, RowsOfABrokerAreSound, SoundRowsAreOfABroker};

/// A law: rows that keep the rules are those of a sound broker.
pub fn sound_rows_are_of_a_broker()
    ensures { SoundRowsAreOfABroker }
{}

/// A law: the rows of a sound broker keep the rules.
pub fn rows_of_a_broker_are_sound()
    ensures { RowsOfABrokerAreSound }
{}

/// A law: rows in which a row breaks a rule are not those of a sound broker.
pub fn broken_rows_are_of_no_broker()
    ensures { BrokenRowsAreOfNoBroker }
{
    rows_of_a_broker_are_sound();
}
