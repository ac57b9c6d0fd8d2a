//! Keys that tell exactly, and rows that have a key among others.

use crate::LineKey;
use commands::{LineRow, LotRow, ReservedRow, StagedRow, StockRow, UrgentRow};
use values::{LotKey, TextKey};

/// A key that compares as equal with itself alone.
pub trait ExactKey: Ord + Copy {
    ghost use Rattle.std.specs.Prelude.{◌≡◌, true};
    ghost use Rattle.std.specs.Ordering.{is_eq};

    ghost one_key: { (k q : Self) → is_eq (Self.cmp k q) ≡ true → k ≡ q };
}

/// A row of a table, which has a key there.
pub trait KeyedRow: Copy {
    ghost use Rattle.std.specs.Prelude.{◌≡◌, Bool};

    ghost same_row: { Self → Self → Bool };

    /// Whether it has the key of the other one.
    fn is_same(&self, other: &Self) -> bool
        ensures { result ≡ same_row self.now other.now };
}

impl ExactKey for TextKey {
    ghost use Rattle.rows_in_memory.specs.Keyed.{text_one};

    ghost one_key = { text_one };
}

impl ExactKey for LotKey {
    ghost use Rattle.rows_in_memory.specs.Keyed.{lot_one};

    ghost one_key = { lot_one };
}

impl ExactKey for LineKey {
    ghost use Rattle.rows_in_memory.specs.Keyed.{line_one};

    ghost one_key = { line_one };
}

impl KeyedRow for LotRow {
    ghost use Rattle.rows_in_memory.specs.Keyed.{same_lot_row};

    ghost same_row = { same_lot_row };

    fn is_same(&self, other: &Self) -> bool {
        self.lot == other.lot
    }
}

impl KeyedRow for UrgentRow {
    ghost use Rattle.rows_in_memory.specs.Keyed.{same_urgent_row};

    ghost same_row = { same_urgent_row };

    fn is_same(&self, other: &Self) -> bool {
        self.order == other.order
    }
}

impl KeyedRow for LineRow {
    ghost use Rattle.rows_in_memory.specs.Keyed.{same_line_row};

    ghost same_row = { same_line_row };

    fn is_same(&self, other: &Self) -> bool {
        self.order == other.order && self.gtin == other.gtin
    }
}

impl KeyedRow for StockRow {
    ghost use Rattle.rows_in_memory.specs.Keyed.{same_stock_row};

    ghost same_row = { same_stock_row };

    fn is_same(&self, other: &Self) -> bool {
        self.lot == other.lot && self.bin == other.bin
    }
}

impl KeyedRow for StagedRow {
    ghost use Rattle.rows_in_memory.specs.Keyed.{same_staged_row};

    ghost same_row = { same_staged_row };

    fn is_same(&self, other: &Self) -> bool {
        self.order == other.order && self.lot == other.lot
    }
}

impl KeyedRow for ReservedRow {
    ghost use Rattle.rows_in_memory.specs.Keyed.{same_reserved_row};

    ghost same_row = { same_reserved_row };

    fn is_same(&self, other: &Self) -> bool {
        self.order == other.order && self.lot == other.lot
    }
}
