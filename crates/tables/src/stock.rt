//! The table `stock`.

use crate::goods_texts::{ADD_STOCK, CHANGE_STOCK, DROP_STOCK, STOCK_IN, STOCK_OF, STOCK_OF_LOT};
use commands::StockRow;
use commands::limits::UNITS_MAX;
use keyed_rows::mapped::Mapped;
use keyed_rows::reading::SoughtBy;
use keyed_rows::table::{Changing, Losing};
use table_words::column::Count;
use values::{Gtin, Lot, LotId, Name};

/// The table.
pub struct Stock;

impl Mapped for Stock {
    ghost use Rattle.std.specs.Prelude.{refl};
    ghost use Rattle.table_words.specs.Typed.{stock_mapping};
    ghost use Rattle.tables.specs.Stock.{stock, stock_laws};

    type Row = StockRow;

    type Key = (LotId, Name);

    type Parts = (Gtin, (Lot, (Name, Count<UNITS_MAX>)));

    ghost mapping = { stock_mapping };

    ghost described = { stock };

    ghost mapped = { record { few = refl; cells = λ s. refl; has = λ r. refl; seen = λ r. refl; back = λ s. refl } };

    ghost mapped_laws = { stock_laws };

    fn parts(row: &StockRow) -> Self::Parts {
        let qty = Count { number: row.qty };
        (row.lot.gtin, (row.lot.lot, (row.bin, qty)))
    }

    fn of((gtin, (lot, (bin, qty))): Self::Parts) -> StockRow {
        StockRow {
            lot: LotId { gtin, lot },
            bin,
            qty: qty.number,
        }
    }

    fn add_text() -> &'static str {
        ADD_STOCK
    }
}

impl Changing for Stock {
    ghost use Rattle.tables.specs.Stock.{change_stock, change_stock_laws};

    ghost change = { change_stock };

    ghost change_laws = { change_stock_laws };

    fn change_text() -> &'static str {
        CHANGE_STOCK
    }
}

impl Losing for Stock {
    ghost use Rattle.std.specs.Prelude.{refl};
    ghost use Rattle.tables.specs.declared.goods_texts.TheConstants.{DROP_STOCK};
    ghost use Rattle.tables.specs.Stock.{drop_is};

    type Keys = (Gtin, (Lot, Name));

    ghost keys = { λ s. (s.lot.gtin, (s.lot.lot, s.bin)) };

    ghost drop = { DROP_STOCK.now };

    ghost keyed = { record { few = refl; fits = λ s. refl; cells = λ s. refl } };

    ghost drop_laws = { drop_is };

    fn keys(row: &StockRow) -> Self::Keys {
        (row.lot.gtin, (row.lot.lot, row.bin))
    }

    fn drop_text() -> &'static str {
        DROP_STOCK
    }
}

impl SoughtBy<Gtin> for Stock {
    ghost use Rattle.tables.specs.Stock.{stock_of, stock_of_laws};

    ghost asks = { stock_of };

    ghost asked = { stock_of_laws };

    fn asking_text() -> &'static str {
        STOCK_OF
    }
}

impl SoughtBy<LotId> for Stock {
    ghost use Rattle.tables.specs.Stock.{stock_of_lot, stock_of_lot_laws};

    ghost asks = { stock_of_lot };

    ghost asked = { stock_of_lot_laws };

    fn asking_text() -> &'static str {
        STOCK_OF_LOT
    }
}

impl SoughtBy<Name> for Stock {
    ghost use Rattle.tables.specs.Stock.{stock_in, stock_in_laws};

    ghost asks = { stock_in };

    ghost asked = { stock_in_laws };

    fn asking_text() -> &'static str {
        STOCK_IN
    }
}
