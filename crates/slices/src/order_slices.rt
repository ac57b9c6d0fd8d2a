//! The rows of orders and of their lines that a slice has.

ghost use Rattle.std.specs.Prelude.{◌≡◌, ◌++◌, OnOk};
ghost use Rattle.sqlite.specs.Held.{state};
ghost use Rattle.tables.specs.Lines.{AreLinesOfOrder};
ghost use Rattle.slices.specs.Reading.{IsRead};
ghost use Rattle.slices.specs.Remembering.{Learning};
ghost use Rattle.slices.specs.Slicing.{listed, AreLined, AreNamed};

use crate::known_lists::{seek_lines_of, seek_order};
use crate::rows_known::RowsKnown;
use commands::{LineRow, OrderRow};
use sqlite::{Alter, Transaction};
use std::alloc::{AllocError, Global};
use table_words::error::TableFault;
use values::Name;

/// One line more, where there is one.
pub fn add_line(found: &mut Vec<LineRow>, row: Option<LineRow>) -> Result<(), AllocError>
    ensures { OnOk result (found.new.items ≡ found.old.items ++ listed row) }
{
    if let Some(row) = row {
        found.push(row)?;
    }
    Ok(())
}

// The row of an order and its lines. The row is not sought where there are no lines.
fn read_lined<S: Alter>(
    alloc: Global,
    tx: &mut Transaction<'_, S>,
    rows: &mut RowsKnown,
    order: &Name,
) -> Result<(Vec<OrderRow>, Vec<LineRow>), TableFault>
    ensures same_reference { tx.new.conn.ghost_name ≡ tx.old.conn.ghost_name }
    ensures read { IsRead (Learning rows.old rows.new (λ t found. AreLined order.now t found.0.items × AreLinesOfOrder order.now t found.1.items)) (state S.Store tx.old.conn.now) (state S.Store tx.new.conn.now) result }
{
    let lines = seek_lines_of(alloc, tx, rows, order)?;
    if lines.is_empty() {
        return Ok((Vec::new(alloc), lines));
    }
    let orders = seek_order(alloc, tx, rows, order)?;
    Ok((orders, lines))
}

/// The orders named that have lines, and those lines.
pub fn read_named<S: Alter>(
    alloc: Global,
    tx: &mut Transaction<'_, S>,
    rows: &mut RowsKnown,
    named: &[Name],
) -> Result<(Vec<OrderRow>, Vec<LineRow>), TableFault>
    ensures same_reference { tx.new.conn.ghost_name ≡ tx.old.conn.ghost_name }
    ensures read { IsRead (Learning rows.old rows.new (λ t found. AreNamed named.now t found.0.items found.1.items)) (state S.Store tx.old.conn.now) (state S.Store tx.new.conn.now) result }
{
    let mut orders = Vec::new(alloc);
    let mut lines = Vec::new(alloc);
    for order in named {
        let (own, own_lines) = read_lined(alloc, tx, rows, order)?;
        orders.extend_from_slice(own.as_slice())?;
        lines.extend_from_slice(own_lines.as_slice())?;
    }
    Ok((orders, lines))
}
