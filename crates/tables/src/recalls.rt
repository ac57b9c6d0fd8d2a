//! The table `recalls`.

use crate::goods_texts::{ADD_RECALL, RECALLS_OF};
use commands::RecallRow;
use commands::limits::ACTS_MAX;
use keyed_rows::mapped::Mapped;
use keyed_rows::reading::SoughtBy;
use table_words::column::Count;
use values::{Gtin, Lot, LotId};

/// The table.
pub struct Recalls;

impl Mapped for Recalls {
    ghost use Rattle.std.specs.Prelude.{refl};
    ghost use Rattle.table_words.specs.Typed.{recall_mapping};
    ghost use Rattle.tables.specs.Recalls.{recalls, recalls_laws};

    type Row = RecallRow;

    type Key = LotId;

    type Parts = (Gtin, (Lot, Count<ACTS_MAX>));

    ghost mapping = { recall_mapping };

    ghost described = { recalls };

    ghost mapped = { record { few = refl; cells = λ s. refl; has = λ r. refl; seen = λ r. refl; back = λ s. refl } };

    ghost mapped_laws = { recalls_laws };

    fn parts(row: &RecallRow) -> Self::Parts {
        (row.lot.gtin, (row.lot.lot, Count { number: row.act }))
    }

    fn of((gtin, (lot, act)): Self::Parts) -> RecallRow {
        RecallRow {
            lot: LotId { gtin, lot },
            act: act.number,
        }
    }

    fn add_text() -> &'static str {
        ADD_RECALL
    }
}

impl SoughtBy<Gtin> for Recalls {
    ghost use Rattle.tables.specs.Recalls.{recalls_of, recalls_of_laws};

    ghost asks = { recalls_of };

    ghost asked = { recalls_of_laws };

    fn asking_text() -> &'static str {
        RECALLS_OF
    }
}
