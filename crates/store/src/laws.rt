//! Laws that the words of the contracts keep: functions with nothing to do, whose contracts are the laws.

ghost use Rattle.store.specs.Laws.{FindsOurs, OpensAgain, OpensOurs, TakesChanges, TakesTables};

/// Tables that stand for an office are opened as that office and no other, from the trees of their database alone.
pub fn opening_law()
    ensures { OpensAgain }
{}

/// Tables as they are made here take each change of a valid request.
pub fn available_law()
    ensures { TakesChanges }
{}

/// A database in which nothing was made takes the tables.
pub fn founding_law()
    ensures { TakesTables }
{}

/// Tables as they are made here are found so wherever their trees are, and to open them is hindered by no statement.
pub fn reopening_law()
    ensures found { FindsOurs }
    ensures opens { OpensOurs }
{}
