//! Laws of rows and brokers, each the contract of a function that does nothing.

ghost use Rattle.broker_rows.specs.Laws.{RowsRepresentOneBroker, TheFirstBrokerIsRepresented};
ghost use Rattle.broker_rows.specs.Laws.{OldRowsRepresentTheirBroker, UpgradedRowsRepresentTheirBroker};

use records::{new_rows_stay, old_rows_are_upgraded, rows_determine_the_broker};

/// A law: rows represent one broker at most.
pub fn rows_represent_one_broker()
    ensures { RowsRepresentOneBroker }
{
    rows_determine_the_broker();
}

/// A law: the rows of the broker that a start makes of two different words, at a moment that is accepted,
/// represent it; so a law with this premise is not empty.
pub fn the_first_broker_is_represented()
    ensures { TheFirstBrokerIsRepresented }
{}

/// A law: to upgrade rows changes no broker. Those that a broker had in the format before represent it then, and those
/// that represent one go on to.
pub fn upgraded_rows_represent_the_same_broker()
    ensures old { OldRowsRepresentTheirBroker }
    ensures again { UpgradedRowsRepresentTheirBroker }
{
    old_rows_are_upgraded();
    new_rows_stay();
}
