//! Laws of the definitions, each the contract of a function that does nothing.

ghost use Rattle.mounts.specs.Laws.{AreInOrder, RowsAreRoutes, FoundByForm, OneByForm, NoneFoundByForm};
ghost use Rattle.mounts.specs.Laws.{EnableKeepsSoundness, DisableKeepsSoundness, MountsEvolve, MountsAreTold};

/// A law: the table of each type of mounts is in order.
pub fn tables_are_in_order()
    ensures { AreInOrder }
{}

/// A law: in each table that is in order, the verb and the pattern of each row mean its operation.
pub fn rows_are_routes()
    ensures { RowsAreRoutes }
{}

/// A law: in each table that is in order, a path finds the pattern whose form it has. If it has the forms of
/// several, it finds the one with the longest text before its parameter, and no two have texts of one length.
pub fn patterns_are_found_by_form()
    ensures found { FoundByForm }
    ensures one { OneByForm }
    ensures none { NoneFoundByForm }
{}

/// A law: enabling and disabling a mount leaves a sound broker sound, whoever may have spent its last use.
pub fn edits_keep_soundness()
    ensures enabled { EnableKeepsSoundness }
    ensures disabled { DisableKeepsSoundness }
{}

/// A law: a change of mounts lets a broker evolve.
pub fn edits_evolve()
    ensures { MountsEvolve }
{}

/// A law: the rows of mounts that a broker has tell its mounts, and they alone do.
pub fn mounts_are_told()
    ensures { MountsAreTold }
{}
