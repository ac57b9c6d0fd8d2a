//! The table `orders`.

use crate::order_texts::{ADD_ORDER, CHANGE_ORDER, OPEN_ORDERS, ORDERS_OF};
use commands::limits::ACTS_MAX;
use commands::{OrderRow, OrderState};
use keyed_rows::mapped::Mapped;
use keyed_rows::reading::{Sought, SoughtBy, query_rows};
use keyed_rows::table::Changing;
use sqlite::{Alter, Transaction};
use std::alloc::Global;
use table_words::column::{Column, Count};
use table_words::error::TableFault;
use values::{Name, Title};

/// The table.
pub struct Orders;

impl Mapped for Orders {
    ghost use Rattle.std.specs.Prelude.{refl};
    ghost use Rattle.table_words.specs.Typed.{order_mapping};
    ghost use Rattle.tables.specs.Orders.{orders, orders_laws};

    type Row = OrderRow;

    type Key = Name;

    type Parts = (Name, (Count<ACTS_MAX>, (Title, OrderState)));

    ghost mapping = { order_mapping };

    ghost described = { orders };

    ghost mapped = { record { few = refl; cells = λ s. refl; has = λ r. refl; seen = λ r. refl; back = λ s. refl } };

    ghost mapped_laws = { orders_laws };

    fn parts(row: &OrderRow) -> Self::Parts {
        let act = Count { number: row.act };
        (row.order, (act, (row.customer, row.state)))
    }

    fn of((order, (act, (customer, state))): Self::Parts) -> OrderRow {
        OrderRow {
            order,
            act: act.number,
            customer,
            state,
        }
    }

    fn add_text() -> &'static str {
        ADD_ORDER
    }
}

impl Changing for Orders {
    ghost use Rattle.tables.specs.Orders.{change_order, change_order_laws};

    ghost change = { change_order };

    ghost change_laws = { change_order_laws };

    fn change_text() -> &'static str {
        CHANGE_ORDER
    }
}

impl SoughtBy<Name> for Orders {
    ghost use Rattle.tables.specs.Orders.{orders_of, orders_of_laws};

    ghost asks = { orders_of };

    ghost asked = { orders_of_laws };

    fn asking_text() -> &'static str {
        ORDERS_OF
    }
}

/// What the open orders are sought by.
pub struct Open;

impl Sought<Open> for Orders {
    ghost use Rattle.tables.specs.Orders.{open_orders, AreOpenOrders, open_orders_laws};

    ghost query = { open_orders };

    ghost are_of = { AreOpenOrders };

    ghost query_laws = { open_orders_laws };

    fn query_text(_: &Open) -> &'static str {
        OPEN_ORDERS
    }

    fn run_query<S: Alter>(
        alloc: Global,
        tx: &mut Transaction<'_, S>,
        sql: &str,
        _: &Open,
    ) -> Result<Vec<OrderRow>, TableFault> {
        query_rows::<Orders, S>(alloc, tx, sql, &[OrderState::Open.value()])
    }
}
