//! Which orders are urgent, as far as a slice asks for it.

ghost use Rattle.std.specs.Prelude.{◌≡◌, filter, map, IfOk};
ghost use Rattle.rows_in_memory.specs.Parts.{is_among, has_urgent_row as has_urgent_row_lem, urgent_lines as urgent_lines_lem, names_among as names_among_lem};

use crate::order_names::orders_of;
use commands::{LineRow, OrderRow, UrgentRow};
use row_rules::row_search::values_of;
use row_rules::rows_by_key::{RowsByKey, by_key};
use std::alloc::{AllocError, Global};
use values::Name;

// Whether one of the rows is of the order.
fn has_urgent_row(urgents: &RowsByKey<'_, Name, UrgentRow>, order: &Name) -> bool
    ensures { result ≡ has_urgent_row_lem urgents.now order.now }
{
    urgents.has(order)
}

// Whether it is one of the names.
fn is_named(names: &RowsByKey<'_, Name, Name>, order: &Name) -> bool
    ensures { result ≡ is_among names.now order.now }
{
    names.has(order)
}

/// The lines of urgent orders.
pub fn urgent_lines(
    alloc: Global,
    lines: &[LineRow],
    urgents: &[UrgentRow],
) -> Result<Vec<LineRow>, AllocError>
    ensures { IfOk result (λ rows. rows.items ≡ urgent_lines_lem urgents.now lines.now) }
{
    let own = by_key::<Name, UrgentRow>(alloc, urgents, lines.len())?;
    with_own_urgents(alloc, lines, &own)
}

fn with_own_urgents(
    alloc: Global,
    lines: &[LineRow],
    urgents: &RowsByKey<'_, Name, UrgentRow>,
) -> Result<Vec<LineRow>, AllocError>
    ensures { IfOk result (λ rows. rows.items ≡ urgent_lines_lem urgents.now lines.now) }
{
    let mut rows = Vec::new(alloc);
    for line in lines {
        if has_urgent_row(urgents, &line.order) {
            rows.push(*line)?;
        }
    }
    Ok(rows)
}

/// The orders that have one of these names.
fn rows_among(
    alloc: Global,
    names: &[Name],
    orders: &[OrderRow],
) -> Result<Vec<OrderRow>, AllocError>
    ensures { IfOk result (λ rows. rows.items ≡ filter (λ r. is_among names.now r.order) orders.now) }
{
    let own = by_key::<Name, Name>(alloc, names, orders.len())?;
    with_own_names(alloc, &own, orders)
}

fn with_own_names(
    alloc: Global,
    names: &RowsByKey<'_, Name, Name>,
    orders: &[OrderRow],
) -> Result<Vec<OrderRow>, AllocError>
    ensures { IfOk result (λ rows. rows.items ≡ filter (λ r. is_among names.now r.order) orders.now) }
{
    let mut rows = Vec::new(alloc);
    for order in orders {
        if is_named(names, &order.order) {
            rows.push(*order)?;
        }
    }
    Ok(rows)
}

/// The names of these that orders of the rows have.
pub fn names_among(
    alloc: Global,
    names: &[Name],
    orders: &[OrderRow],
) -> Result<Vec<Name>, AllocError>
    ensures { IfOk result (λ found. found.items ≡ names_among_lem names.now orders.now) }
{
    let rows = rows_among(alloc, names, orders)?;
    orders_of(alloc, rows.as_slice())
}

/// The orders of rows of urgent ones.
pub fn urgent_names(alloc: Global, rows: &[UrgentRow]) -> Result<Vec<Name>, AllocError>
    ensures { IfOk result (λ names. names.items ≡ map (λ r. r.order) rows.now) }
{
    values_of(alloc, rows)
}
