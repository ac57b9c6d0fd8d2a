//! The table `shipments`.

use crate::history_texts::{ADD_SHIPMENT, SHIPMENTS_OF};
use commands::ShipmentRow;
use commands::limits::ACTS_MAX;
use keyed_rows::mapped::Mapped;
use keyed_rows::reading::{Sought, query_rows};
use label::BusinessDay;
use sqlite::{Alter, Transaction};
use std::alloc::Global;
use table_words::column::{Column, Count, Number};
use table_words::error::TableFault;
use values::Name;

/// The table.
pub struct Shipments;

impl Mapped for Shipments {
    ghost use Rattle.std.specs.Prelude.{refl};
    ghost use Rattle.table_words.specs.Typed.{shipment_mapping};
    ghost use Rattle.tables.specs.Shipments.{shipments, shipments_laws};

    type Row = ShipmentRow;

    type Key = u64;

    type Parts = (Count<ACTS_MAX>, (Count<ACTS_MAX>, (BusinessDay, Name)));

    ghost mapping = { shipment_mapping };

    ghost described = { shipments };

    ghost mapped = { record { few = refl; cells = λ s. refl; has = λ r. refl; seen = λ r. refl; back = λ s. refl } };

    ghost mapped_laws = { shipments_laws };

    fn parts(row: &ShipmentRow) -> Self::Parts {
        let number = Count { number: row.number };
        let act = Count { number: row.act };
        (number, (act, (row.day, row.order)))
    }

    fn of((number, (act, (day, order))): Self::Parts) -> ShipmentRow {
        ShipmentRow {
            number: number.number,
            act: act.number,
            day,
            order,
        }
    }

    fn add_text() -> &'static str {
        ADD_SHIPMENT
    }
}

impl Sought<u64> for Shipments {
    ghost use Rattle.tables.specs.Shipments.{shipments_of, AreShipmentsOf, shipments_of_laws};

    ghost query = { shipments_of };

    ghost are_of = { AreShipmentsOf };

    ghost query_laws = { shipments_of_laws };

    fn query_text(_: &u64) -> &'static str {
        SHIPMENTS_OF
    }

    fn run_query<S: Alter>(
        alloc: Global,
        tx: &mut Transaction<'_, S>,
        sql: &str,
        number: &u64,
    ) -> Result<Vec<ShipmentRow>, TableFault> {
        let sought = Number::<ACTS_MAX> { number: *number };
        query_rows::<Shipments, S>(alloc, tx, sql, &[sought.value()])
    }
}
