//! The table `staged`.

ghost use Rattle.std.specs.Prelude.{◌≡◌};
ghost use Rattle.sqlite.specs.Held.{state};
ghost use Rattle.keyed_rows.specs.Writes.{Writes, Spares};
ghost use Rattle.tables.specs.Staged.{without_stage};

use crate::order_texts::{
    ADD_STAGED, ALL_STAGED, CHANGE_STAGED, DROP_STAGE, DROP_STAGED, STAGED_OF_ITEM, STAGED_OF_ORDER,
};
use commands::StagedRow;
use keyed_rows::mapped::Mapped;
use keyed_rows::reading::{All, SoughtBy};
use keyed_rows::running::count;
use keyed_rows::table::{Changing, Losing};
use sqlite::{Alter, Transaction};
use table_words::column::{Column, Count, QTY};
use table_words::error::TableFault;
use values::{Gtin, Lot, LotId, Name};

/// The table.
pub struct Staged;

impl Mapped for Staged {
    ghost use Rattle.std.specs.Prelude.{refl};
    ghost use Rattle.table_words.specs.Typed.{staged_mapping};
    ghost use Rattle.tables.specs.Staged.{staged, staged_laws};

    type Row = StagedRow;

    type Key = (Name, LotId);

    type Parts = (Name, (Gtin, (Lot, Count<QTY>)));

    ghost mapping = { staged_mapping };

    ghost described = { staged };

    ghost mapped = { record { few = refl; cells = λ s. refl; has = λ r. refl; seen = λ r. refl; back = λ s. refl } };

    ghost mapped_laws = { staged_laws };

    fn parts(row: &StagedRow) -> Self::Parts {
        let qty = Count { number: row.qty };
        (row.order, (row.lot.gtin, (row.lot.lot, qty)))
    }

    fn of((order, (gtin, (lot, qty))): Self::Parts) -> StagedRow {
        StagedRow {
            order,
            lot: LotId { gtin, lot },
            qty: qty.number,
        }
    }

    fn add_text() -> &'static str {
        ADD_STAGED
    }
}

impl Changing for Staged {
    ghost use Rattle.tables.specs.Staged.{change_staged, change_staged_laws};

    ghost change = { change_staged };

    ghost change_laws = { change_staged_laws };

    fn change_text() -> &'static str {
        CHANGE_STAGED
    }
}

impl Losing for Staged {
    ghost use Rattle.std.specs.Prelude.{refl};
    ghost use Rattle.tables.specs.declared.order_texts.TheConstants.{DROP_STAGED};
    ghost use Rattle.table_words.specs.Typed.{staged_key};
    ghost use Rattle.tables.specs.Staged.{drop_is};

    type Keys = (Name, LotId);

    ghost keys = { staged_key };

    ghost drop = { DROP_STAGED.now };

    ghost keyed = { record { few = refl; fits = λ s. refl; cells = λ s. refl } };

    ghost drop_laws = { drop_is };

    fn keys(row: &StagedRow) -> (Name, LotId) {
        (row.order, row.lot)
    }

    fn drop_text() -> &'static str {
        DROP_STAGED
    }
}

impl SoughtBy<Gtin> for Staged {
    ghost use Rattle.tables.specs.Staged.{staged_of_item, staged_of_item_laws};

    ghost asks = { staged_of_item };

    ghost asked = { staged_of_item_laws };

    fn asking_text() -> &'static str {
        STAGED_OF_ITEM
    }
}

impl SoughtBy<Name> for Staged {
    ghost use Rattle.tables.specs.Staged.{staged_of_order, staged_of_order_laws};

    ghost asks = { staged_of_order };

    ghost asked = { staged_of_order_laws };

    fn asking_text() -> &'static str {
        STAGED_OF_ORDER
    }
}

impl SoughtBy<All> for Staged {
    ghost use Rattle.tables.specs.Staged.{all_staged, all_staged_laws};

    ghost asks = { all_staged };

    ghost asked = { all_staged_laws };

    fn asking_text() -> &'static str {
        ALL_STAGED
    }
}

/// Drops all that is staged for the order, by one statement.
pub fn empty_stage<S: Alter>(tx: &mut Transaction<'_, S>, order: &Name) -> Result<(), TableFault>
    ensures same_reference { tx.new.conn.ghost_name ≡ tx.old.conn.ghost_name }
    ensures writes { Writes (without_stage order.now) (state S.Store tx.old.conn.now) (state S.Store tx.new.conn.now) result }
    ensures refused { Spares (state S.Store tx.old.conn.now) (state S.Store tx.new.conn.now) result }
{
    match count(tx, DROP_STAGE, &[order.value()]) {
        Ok(_) => Ok(()),
        Err(fault) => Err(fault),
    }
}
