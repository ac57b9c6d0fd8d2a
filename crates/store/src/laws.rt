//! Laws of the rows that books store: functions without effect, whose contracts are the laws.

ghost use Rattle.store.specs.Fitting.{RowsOfActsFit};
ghost use Rattle.store.specs.Opening.{OlderRowsGoOn};

/// The rows that a program of an older schema leaves, of acts without a command of a newer one, are those that `open` takes
/// for rows of the acts.
pub fn older_rows_go_on()
    ensures { OlderRowsGoOn }
{}

/// The numbers of each row of a history's tables are within the bounds of their columns. So no row that an act leaves is
/// refused as too big.
pub fn rows_of_acts_fit()
    ensures { RowsOfActsFit }
{}
