//! What the rows of a slice tell of an order.

ghost use Rattle.std.specs.Prelude.{◌≡◌, IfOk};
ghost use Rattle.row_rules.specs.SeenOrders.{order_row_seen as order_row_seen_lem, sees_order as sees_order_lem, is_open_row as is_open_row_lem, sees_open as sees_open_lem, line_row_seen as line_row_seen_lem, sees_line as sees_line_lem, staged_for_seen as staged_for_seen_lem, lines_seen as lines_seen_lem, items_seen as items_seen_lem};

use crate::Slice;
use crate::demands::is_open;
use crate::row_search::{find_row, rows_with, units_with, values_of};
use commands::{LineRow, OrderRow};
use std::alloc::{AllocError, Global};
use values::{Gtin, Name};

/// The row of an order.
pub fn order_row_seen(slice: &Slice, order: &Name) -> Option<OrderRow>
    ensures { result ≡ order_row_seen_lem slice.now order.now }
{
    find_row(slice.rows.orders.as_slice(), order)
}

/// Whether the slice has the order.
pub fn sees_order(slice: &Slice, order: &Name) -> bool
    ensures { result ≡ sees_order_lem slice.now order.now }
{
    order_row_seen(slice, order).is_some()
}

/// Whether the slice has the order, and it is open.
pub fn sees_open(slice: &Slice, order: &Name) -> bool
    ensures { result ≡ sees_open_lem slice.now order.now }
{
    is_open_row(order_row_seen(slice, order))
}

/// Whether there is a row of the order, and it is open.
pub fn is_open_row(row: Option<OrderRow>) -> bool
    ensures { result ≡ is_open_row_lem row }
{
    match row {
        None => false,
        Some(r) => is_open(r.state),
    }
}

/// The line of an order for an item.
pub fn line_row_seen(slice: &Slice, order: &Name, gtin: &Gtin) -> Option<LineRow>
    ensures { result ≡ line_row_seen_lem slice.now order.now gtin.now }
{
    find_row(slice.rows.lines.as_slice(), &(*order, *gtin))
}

/// Whether the slice has a line of the order for the item.
pub fn sees_line(slice: &Slice, order: &Name, gtin: &Gtin) -> bool
    ensures { result ≡ sees_line_lem slice.now order.now gtin.now }
{
    line_row_seen(slice, order, gtin).is_some()
}

/// The units that are staged for an order.
pub fn staged_for_seen(slice: &Slice, order: &Name) -> u64
    ensures { result ≡ staged_for_seen_lem slice.now order.now }
{
    units_with(slice.rows.staged.as_slice(), order)
}

/// The items of the lines of an order.
pub fn items_seen(alloc: Global, slice: &Slice, order: &Name) -> Result<Vec<Gtin>, AllocError>
    ensures { IfOk result (λ v. v.items ≡ items_seen_lem slice.now order.now) }
{
    let lines = lines_seen(alloc, slice, order)?;
    values_of(alloc, lines.as_slice())
}

/// The lines of an order.
pub fn lines_seen(alloc: Global, slice: &Slice, order: &Name) -> Result<Vec<LineRow>, AllocError>
    ensures { IfOk result (λ v. v.items ≡ lines_seen_lem slice.now order.now) }
{
    rows_with(alloc, slice.rows.lines.as_slice(), order)
}
