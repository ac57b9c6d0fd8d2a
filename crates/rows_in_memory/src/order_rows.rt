//! Which rows of orders a slice has.

ghost use Rattle.std.specs.Prelude.{◌≡◌, IfOk};
ghost use Rattle.rows_in_memory.specs.Parts.{others as others_lem, with_lines as with_lines_lem, has_line_in};

use commands::{LineRow, OrderRow};
use row_rules::row_search::rows_not_among;
use row_rules::rows_by_key::{RowsByKey, by_key};
use std::alloc::{AllocError, Global};
use values::Name;

/// The orders that are not named.
pub fn others(
    alloc: Global,
    orders: &[OrderRow],
    named: &[Name],
) -> Result<Vec<OrderRow>, AllocError>
    ensures { IfOk result (λ rows. rows.items ≡ others_lem named.now orders.now) }
{
    rows_not_among::<Name, OrderRow, Name>(alloc, orders, named)
}

// Whether one of the lines is the order's.
fn has_line(lines: &RowsByKey<'_, Name, LineRow>, order: &Name) -> bool
    ensures { result ≡ has_line_in lines.now order.now }
{
    lines.has(order)
}

/// The orders that have one of the lines.
pub fn with_lines(
    alloc: Global,
    orders: &[OrderRow],
    lines: &[LineRow],
) -> Result<Vec<OrderRow>, AllocError>
    ensures { IfOk result (λ rows. rows.items ≡ with_lines_lem lines.now orders.now) }
{
    let own = by_key::<Name, LineRow>(alloc, lines, orders.len())?;
    with_own_lines(alloc, orders, &own)
}

fn with_own_lines(
    alloc: Global,
    orders: &[OrderRow],
    lines: &RowsByKey<'_, Name, LineRow>,
) -> Result<Vec<OrderRow>, AllocError>
    ensures { IfOk result (λ rows. rows.items ≡ with_lines_lem lines.now orders.now) }
{
    let mut rows = Vec::new(alloc);
    for order in orders {
        if has_line(lines, &order.order) {
            rows.push(*order)?;
        }
    }
    Ok(rows)
}
