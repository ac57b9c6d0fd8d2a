//! The table `lots`.

use crate::goods_texts::{ADD_LOT, ALL_LOTS, CHANGE_LOT, LOT_OF, LOTS_OF};
use commands::LotRow;
use commands::limits::ACTS_MAX;
use keyed_rows::mapped::Mapped;
use keyed_rows::reading::{All, SoughtBy};
use keyed_rows::table::Changing;
use table_words::column::{Count, Expiry};
use values::{Gtin, Lot, LotId};

/// The table.
pub struct Lots;

impl Mapped for Lots {
    ghost use Rattle.std.specs.Prelude.{refl};
    ghost use Rattle.table_words.specs.Typed.{lot_mapping};
    ghost use Rattle.tables.specs.Lots.{lots, lots_laws};

    type Row = LotRow;

    type Key = LotId;

    type Parts = (Gtin, (Lot, (Expiry, (Count<ACTS_MAX>, bool))));

    ghost mapping = { lot_mapping };

    ghost described = { lots };

    ghost mapped = { record { few = refl; cells = λ s. refl; has = λ r. refl; seen = λ r. refl; back = λ s. refl } };

    ghost mapped_laws = { lots_laws };

    fn parts(row: &LotRow) -> Self::Parts {
        let expiry = Expiry { day: row.expiry };
        let came = Count { number: row.came };
        (row.lot.gtin, (row.lot.lot, (expiry, (came, row.held))))
    }

    fn of((gtin, (lot, (expiry, (came, held)))): Self::Parts) -> LotRow {
        LotRow {
            lot: LotId { gtin, lot },
            expiry: expiry.day,
            came: came.number,
            held,
        }
    }

    fn add_text() -> &'static str {
        ADD_LOT
    }
}

impl Changing for Lots {
    ghost use Rattle.tables.specs.Lots.{change_lot, change_lot_laws};

    ghost change = { change_lot };

    ghost change_laws = { change_lot_laws };

    fn change_text() -> &'static str {
        CHANGE_LOT
    }
}

impl SoughtBy<Gtin> for Lots {
    ghost use Rattle.tables.specs.Lots.{lots_of, lots_of_laws};

    ghost asks = { lots_of };

    ghost asked = { lots_of_laws };

    fn asking_text() -> &'static str {
        LOTS_OF
    }
}

impl SoughtBy<LotId> for Lots {
    ghost use Rattle.tables.specs.Lots.{lot_of, lot_of_laws};

    ghost asks = { lot_of };

    ghost asked = { lot_of_laws };

    fn asking_text() -> &'static str {
        LOT_OF
    }
}

impl SoughtBy<All> for Lots {
    ghost use Rattle.tables.specs.Lots.{all_lots, all_lots_laws};

    ghost asks = { all_lots };

    ghost asked = { all_lots_laws };

    fn asking_text() -> &'static str {
        ALL_LOTS
    }
}
