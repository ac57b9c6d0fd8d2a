//! The table `shiplines`.

use crate::history_texts::ADD_SHIPLINE;
use commands::ShiplineRow;
use commands::limits::ACTS_MAX;
use keyed_rows::mapped::Mapped;
use table_words::column::{Count, QTY};
use values::{Gtin, Lot, LotId};

/// The table.
pub struct Shiplines;

impl Mapped for Shiplines {
    ghost use Rattle.std.specs.Prelude.{refl};
    ghost use Rattle.table_words.specs.Typed.{shipline_mapping};
    ghost use Rattle.tables.specs.Shiplines.{shiplines, shiplines_laws};

    type Row = ShiplineRow;

    type Key = (u64, LotId);

    type Parts = (Count<ACTS_MAX>, (Gtin, (Lot, Count<QTY>)));

    ghost mapping = { shipline_mapping };

    ghost described = { shiplines };

    ghost mapped = { record { few = refl; cells = λ s. refl; has = λ r. refl; seen = λ r. refl; back = λ s. refl } };

    ghost mapped_laws = { shiplines_laws };

    fn parts(row: &ShiplineRow) -> Self::Parts {
        let number = Count { number: row.number };
        let qty = Count { number: row.qty };
        (number, (row.lot.gtin, (row.lot.lot, qty)))
    }

    fn of((number, (gtin, (lot, qty))): Self::Parts) -> ShiplineRow {
        ShiplineRow {
            number: number.number,
            lot: LotId { gtin, lot },
            qty: qty.number,
        }
    }

    fn add_text() -> &'static str {
        ADD_SHIPLINE
    }
}
