//! What rows have: an item, a lot, the name of an order or of a bin, units.

ghost use Rattle.std.specs.Prelude.{◌≡◌};

use commands::{
    BinRow, ItemRow, LeastRow, LineRow, LotRow, OrderLine, OrderRow, RecallRow, ReservedRow,
    StagedRow, StockRow, UrgentRow,
};
use values::{Gtin, Lot, LotId, Name};

/// A row that has such a value.
pub trait Has<K>: Copy {
    ghost of_row: { Self → K };

    fn value(&self) -> K
        ensures { result ≡ of_row self.now };
}

/// A row of units.
pub trait HasUnits: Copy {
    ghost use Rattle.std.specs.Prelude.{ℕ};

    ghost units: { Self → ℕ };

    fn units(&self) -> u64
        ensures { result ≡ units self.now };
}

// Items

impl Has<Gtin> for ItemRow {
    ghost of_row = { λ r. r.gtin };

    fn value(&self) -> Gtin {
        self.gtin
    }
}

impl Has<Gtin> for LeastRow {
    ghost of_row = { λ r. r.gtin };

    fn value(&self) -> Gtin {
        self.gtin
    }
}

impl Has<Gtin> for OrderLine {
    ghost of_row = { λ r. r.gtin };

    fn value(&self) -> Gtin {
        self.gtin
    }
}

impl Has<Gtin> for LineRow {
    ghost of_row = { λ r. r.gtin };

    fn value(&self) -> Gtin {
        self.gtin
    }
}

impl Has<Gtin> for LotRow {
    ghost of_row = { λ r. r.lot.gtin };

    fn value(&self) -> Gtin {
        self.lot.gtin
    }
}

impl Has<Gtin> for RecallRow {
    ghost of_row = { λ r. r.lot.gtin };

    fn value(&self) -> Gtin {
        self.lot.gtin
    }
}

impl Has<Gtin> for StockRow {
    ghost of_row = { λ r. r.lot.gtin };

    fn value(&self) -> Gtin {
        self.lot.gtin
    }
}

impl Has<Gtin> for StagedRow {
    ghost of_row = { λ r. r.lot.gtin };

    fn value(&self) -> Gtin {
        self.lot.gtin
    }
}

impl Has<Gtin> for ReservedRow {
    ghost of_row = { λ r. r.lot.gtin };

    fn value(&self) -> Gtin {
        self.lot.gtin
    }
}

// Lots

impl Has<LotId> for LotRow {
    ghost of_row = { λ r. r.lot };

    fn value(&self) -> LotId {
        self.lot
    }
}

impl Has<LotId> for RecallRow {
    ghost of_row = { λ r. r.lot };

    fn value(&self) -> LotId {
        self.lot
    }
}

impl Has<LotId> for StockRow {
    ghost of_row = { λ r. r.lot };

    fn value(&self) -> LotId {
        self.lot
    }
}

impl Has<LotId> for StagedRow {
    ghost of_row = { λ r. r.lot };

    fn value(&self) -> LotId {
        self.lot
    }
}

impl Has<LotId> for ReservedRow {
    ghost of_row = { λ r. r.lot };

    fn value(&self) -> LotId {
        self.lot
    }
}

impl Has<LotId> for LotId {
    ghost of_row = { λ l. l };

    fn value(&self) -> LotId {
        *self
    }
}

// Lots among those of their items

impl Has<Lot> for LotRow {
    ghost of_row = { λ r. r.lot.lot };

    fn value(&self) -> Lot {
        self.lot.lot
    }
}

impl Has<Lot> for RecallRow {
    ghost of_row = { λ r. r.lot.lot };

    fn value(&self) -> Lot {
        self.lot.lot
    }
}

impl Has<Lot> for StockRow {
    ghost of_row = { λ r. r.lot.lot };

    fn value(&self) -> Lot {
        self.lot.lot
    }
}

impl Has<Lot> for StagedRow {
    ghost of_row = { λ r. r.lot.lot };

    fn value(&self) -> Lot {
        self.lot.lot
    }
}

impl Has<Lot> for ReservedRow {
    ghost of_row = { λ r. r.lot.lot };

    fn value(&self) -> Lot {
        self.lot.lot
    }
}

// Names of orders and of bins

impl Has<Name> for BinRow {
    ghost of_row = { λ r. r.name };

    fn value(&self) -> Name {
        self.name
    }
}

impl Has<Name> for StockRow {
    ghost of_row = { λ r. r.bin };

    fn value(&self) -> Name {
        self.bin
    }
}

impl Has<Name> for OrderRow {
    ghost of_row = { λ r. r.order };

    fn value(&self) -> Name {
        self.order
    }
}

impl Has<Name> for UrgentRow {
    ghost of_row = { λ r. r.order };

    fn value(&self) -> Name {
        self.order
    }
}

impl Has<Name> for LineRow {
    ghost of_row = { λ r. r.order };

    fn value(&self) -> Name {
        self.order
    }
}

impl Has<Name> for StagedRow {
    ghost of_row = { λ r. r.order };

    fn value(&self) -> Name {
        self.order
    }
}

impl Has<Name> for ReservedRow {
    ghost of_row = { λ r. r.order };

    fn value(&self) -> Name {
        self.order
    }
}

impl Has<Name> for Name {
    ghost of_row = { λ n. n };

    fn value(&self) -> Name {
        *self
    }
}

// Lots in bins, lots of orders and items of orders

impl Has<(LotId, Name)> for StockRow {
    ghost of_row = { λ r. (r.lot, r.bin) };

    fn value(&self) -> (LotId, Name) {
        (self.lot, self.bin)
    }
}

impl Has<(Name, LotId)> for StagedRow {
    ghost of_row = { λ r. (r.order, r.lot) };

    fn value(&self) -> (Name, LotId) {
        (self.order, self.lot)
    }
}

impl Has<(Name, LotId)> for ReservedRow {
    ghost of_row = { λ r. (r.order, r.lot) };

    fn value(&self) -> (Name, LotId) {
        (self.order, self.lot)
    }
}

impl Has<(Name, Gtin)> for LineRow {
    ghost of_row = { λ r. (r.order, r.gtin) };

    fn value(&self) -> (Name, Gtin) {
        (self.order, self.gtin)
    }
}

impl Has<(Name, Gtin)> for StagedRow {
    ghost of_row = { λ r. (r.order, r.lot.gtin) };

    fn value(&self) -> (Name, Gtin) {
        (self.order, self.lot.gtin)
    }
}

impl Has<(Gtin, Name)> for StagedRow {
    ghost of_row = { λ r. (r.lot.gtin, r.order) };

    fn value(&self) -> (Gtin, Name) {
        (self.lot.gtin, self.order)
    }
}

impl Has<(Name, Gtin)> for ReservedRow {
    ghost of_row = { λ r. (r.order, r.lot.gtin) };

    fn value(&self) -> (Name, Gtin) {
        (self.order, self.lot.gtin)
    }
}

// Units

impl HasUnits for StockRow {
    ghost units = { λ r. r.qty };

    fn units(&self) -> u64 {
        self.qty
    }
}

impl HasUnits for StagedRow {
    ghost units = { λ r. r.qty };

    fn units(&self) -> u64 {
        self.qty
    }
}

impl HasUnits for ReservedRow {
    ghost units = { λ r. r.qty };

    fn units(&self) -> u64 {
        self.qty
    }
}
