//! The table `reserved`.

use crate::order_texts::{
    ADD_RESERVED, ALL_RESERVED, CHANGE_RESERVED, DROP_RESERVED, RESERVED_OF_ITEM, RESERVED_OF_ORDER,
};
use commands::ReservedRow;
use keyed_rows::mapped::Mapped;
use keyed_rows::reading::{All, SoughtBy};
use keyed_rows::table::{Changing, Losing};
use table_words::column::{Count, QTY};
use values::{Gtin, Lot, LotId, Name};

/// The table.
pub struct Reserved;

impl Mapped for Reserved {
    ghost use Rattle.std.specs.Prelude.{refl};
    ghost use Rattle.table_words.specs.Typed.{reserved_mapping};
    ghost use Rattle.tables.specs.Reserved.{reserved, reserved_laws};

    type Row = ReservedRow;

    type Key = (Name, LotId);

    type Parts = (Name, (Gtin, (Lot, Count<QTY>)));

    ghost mapping = { reserved_mapping };

    ghost described = { reserved };

    ghost mapped = { record { few = refl; cells = λ s. refl; has = λ r. refl; seen = λ r. refl; back = λ s. refl } };

    ghost mapped_laws = { reserved_laws };

    fn parts(row: &ReservedRow) -> Self::Parts {
        let qty = Count { number: row.qty };
        (row.order, (row.lot.gtin, (row.lot.lot, qty)))
    }

    fn of((order, (gtin, (lot, qty))): Self::Parts) -> ReservedRow {
        ReservedRow {
            order,
            lot: LotId { gtin, lot },
            qty: qty.number,
        }
    }

    fn add_text() -> &'static str {
        ADD_RESERVED
    }
}

impl Changing for Reserved {
    ghost use Rattle.tables.specs.Reserved.{change_reserved, change_reserved_laws};

    ghost change = { change_reserved };

    ghost change_laws = { change_reserved_laws };

    fn change_text() -> &'static str {
        CHANGE_RESERVED
    }
}

impl Losing for Reserved {
    ghost use Rattle.std.specs.Prelude.{refl};
    ghost use Rattle.tables.specs.declared.order_texts.TheConstants.{DROP_RESERVED};
    ghost use Rattle.table_words.specs.Typed.{reserved_key};
    ghost use Rattle.tables.specs.Reserved.{drop_is};

    type Keys = (Name, LotId);

    ghost keys = { reserved_key };

    ghost drop = { DROP_RESERVED.now };

    ghost keyed = { record { few = refl; fits = λ s. refl; cells = λ s. refl } };

    ghost drop_laws = { drop_is };

    fn keys(row: &ReservedRow) -> (Name, LotId) {
        (row.order, row.lot)
    }

    fn drop_text() -> &'static str {
        DROP_RESERVED
    }
}

impl SoughtBy<Gtin> for Reserved {
    ghost use Rattle.tables.specs.Reserved.{reserved_of_item, reserved_of_item_laws};

    ghost asks = { reserved_of_item };

    ghost asked = { reserved_of_item_laws };

    fn asking_text() -> &'static str {
        RESERVED_OF_ITEM
    }
}

impl SoughtBy<Name> for Reserved {
    ghost use Rattle.tables.specs.Reserved.{reserved_of_order, reserved_of_order_laws};

    ghost asks = { reserved_of_order };

    ghost asked = { reserved_of_order_laws };

    fn asking_text() -> &'static str {
        RESERVED_OF_ORDER
    }
}

impl SoughtBy<All> for Reserved {
    ghost use Rattle.tables.specs.Reserved.{all_reserved, all_reserved_laws};

    ghost asks = { all_reserved };

    ghost asked = { all_reserved_laws };

    fn asking_text() -> &'static str {
        ALL_RESERVED
    }
}
