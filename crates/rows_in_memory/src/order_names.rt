//! The names of orders, of which a slice has the rows.

ghost use Rattle.std.specs.Prelude.{◌≡◌, not, [], filter, map, IfOk};
ghost use Rattle.machine.specs.Planning.{is_open_state};
ghost use Rattle.rows_in_memory.specs.Parts.{with_names, other_names as other_names_lem};

use crate::name_list::NameList;
use commands::{LineRow, OrderRow};
use row_rules::demands::is_open;
use row_rules::row_search::{rows_not_among, values_of};
use std::alloc::{AllocError, Global};
use values::Name;

/// The orders that are not named.
pub fn other_names(alloc: Global, orders: &[Name], named: &[Name]) -> Result<Vec<Name>, AllocError>
    ensures { IfOk result (λ names. names.items ≡ other_names_lem named.now orders.now) }
{
    rows_not_among::<Name, Name, Name>(alloc, orders, named)
}

/// The orders of rows.
pub fn orders_of(alloc: Global, rows: &[OrderRow]) -> Result<Vec<Name>, AllocError>
    ensures { IfOk result (λ names. names.items ≡ map (λ r. r.order) rows.now) }
{
    values_of(alloc, rows)
}

/// The rows of open orders among these.
pub fn open_rows(alloc: Global, rows: &[OrderRow]) -> Result<Vec<OrderRow>, AllocError>
    ensures { IfOk result (λ kept. kept.items ≡ filter (λ r. is_open_state r.state) rows.now) }
{
    let mut open_rows = Vec::new(alloc);
    for row in rows {
        if is_open(row.state) {
            open_rows.push(*row)?;
        }
    }
    Ok(open_rows)
}

/// The orders of rows of lines, each once.
pub fn orders_of_lines(alloc: Global, lines: &[LineRow]) -> Result<Vec<Name>, AllocError>
    ensures { IfOk result (λ names. names.items ≡ with_names (λ r. r.order) lines.now []) }
{
    let mut list = NameList::new(alloc);
    list.add_all(lines)?;
    Ok(list.into_values())
}
