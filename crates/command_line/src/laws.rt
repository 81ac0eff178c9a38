//! Laws of the definitions. Each is the contract of a function that does nothing.

ghost use Rattle.command_line.specs.Laws.{OrderIsKept};

/// A command line that was right before options could stand anywhere is left as it is.
pub fn order_is_kept()
    ensures { OrderIsKept }
{}
