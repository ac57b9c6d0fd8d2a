//! The rows that the shipment of an order is decided by.

ghost use Rattle.std.specs.Prelude.{◌≡◌};
ghost use Rattle.sqlite.specs.Held.{state};
ghost use Rattle.slices.specs.Reading.{IsRead};
ghost use Rattle.slices.specs.Remembering.{Learning};
ghost use Rattle.slices.specs.Slicing.{AreShipped};

use crate::known_followed::{seek_staged, seek_stock_of_lots};
use crate::order_slices::read_named;
use crate::rows_known::RowsKnown;
use rows_in_memory::command_names::items_of_rows;
use rows_in_memory::item_rows::of_shipment;
use rows_in_memory::lots_held::lots_on_stage;
use rules::Rows;
use sqlite::{Alter, Transaction};
use std::alloc::Global;
use table_words::error::TableFault;
use values::Name;

/// The order with its lines, what is staged of their items, and the stock of the lots that are staged for the order. No
/// plan changes, so nothing is read of the items' other lots and open orders.
pub fn read_shipment<S: Alter>(
    alloc: Global,
    tx: &mut Transaction<'_, S>,
    rows: &mut RowsKnown,
    order: &Name,
) -> Result<Rows, TableFault>
    ensures same_reference { tx.new.conn.ghost_name ≡ tx.old.conn.ghost_name }
    ensures read { IsRead (Learning rows.old rows.new (λ t found. AreShipped order.now t found)) (state S.Store tx.old.conn.now) (state S.Store tx.new.conn.now) result }
{
    let named = [*order];
    let (orders, lines) = read_named(alloc, tx, rows, &named)?;
    let gtins = items_of_rows(alloc, lines.as_slice())?;
    let staged = seek_staged(alloc, tx, rows, gtins.as_slice())?;
    let lots = lots_on_stage(alloc, order, staged.as_slice())?;
    let stock = seek_stock_of_lots(alloc, tx, rows, lots.as_slice())?;
    Ok(of_shipment(alloc, stock, orders, lines, staged))
}
