//! What applying comes to: a function without effect, whose contract is the law.

ghost use Rattle.applies.specs.Laws.{StandbyIsPrimary};

/// The text of a whole history, applied to new books that began on its day, leaves the rows of its own books.
pub fn standby_is_primary()
    ensures { StandbyIsPrimary }
{}
