//! What is known of the books, as it is read from their tables.

ghost use Rattle.std.specs.Prelude.{◌≡◌, [], IfOk};
ghost use Rattle.sqlite.specs.Held.{state};
ghost use Rattle.rows_in_memory.specs.OpenLines.{Gains, has_line_row};
ghost use Rattle.rows_in_memory.specs.Parts.{urgent_lines as urgent_lines_lem};
ghost use Rattle.tables.specs.Orders.{AreOpenOrders};
ghost use Rattle.slices.specs.Reading.{IsRead};
ghost use Rattle.slices.specs.Remembering.{Learning};
ghost use Rattle.slices.specs.Slicing.{AreOpenLines, HoldsOf};

use crate::knowing::{Bounds, Known};
use crate::known_lists::{seek_lines, seek_urgents};
use crate::rows_known::RowsKnown;
use crate::sought::keep_each;
use crate::sought_rows::read_rows;
use commands::{LineRow, OrderRow, UrgentRow};
use rows_in_memory::OpenLines;
use rows_in_memory::order_names::orders_of;
use rows_in_memory::urgent_rows::urgent_lines;
use sqlite::{Alter, Transaction};
use std::alloc::{AllocError, Global};
use table_words::error::TableFault;
use tables::orders::{Open, Orders};
use values::{Name, TextKey};

/// The orders of lines, by their items.
fn open_lines_of(alloc: Global, lines: &[LineRow]) -> Result<OpenLines, AllocError>
    ensures { IfOk result (λ known. Gains (has_line_row lines.now) [] known) }
{
    let mut known = OpenLines::new(alloc);
    known.add_rows(lines)?;
    Ok(known)
}

/// The urgent ones of these orders, by the items of their lines.
fn urgent_lines_of(
    alloc: Global,
    lines: &[LineRow],
    urgents: &[UrgentRow],
) -> Result<OpenLines, AllocError>
    ensures { IfOk result (λ known. Gains (has_line_row (urgent_lines_lem urgents.now lines.now)) [] known) }
{
    let own = urgent_lines(alloc, lines, urgents)?;
    open_lines_of(alloc, own.as_slice())
}

// The rows of the open orders. Each is known by its name from then on, if there is memory for it.
fn read_open<S: Alter>(
    alloc: Global,
    tx: &mut Transaction<'_, S>,
    rows: &mut RowsKnown,
) -> Result<Vec<OrderRow>, TableFault>
    ensures same_reference { tx.new.conn.ghost_name ≡ tx.old.conn.ghost_name }
    ensures read { IsRead (Learning rows.old rows.new (λ t found. AreOpenOrders (record {}) t found.items)) (state S.Store tx.old.conn.now) (state S.Store tx.new.conn.now) result }
{
    let orders = read_rows::<Orders, Open, S>(alloc, tx, &Open)?;
    keep_each::<Name, TextKey, OrderRow>(alloc, &mut rows.followed.orders, orders.as_slice());
    Ok(orders)
}

/// The open orders, by the items of their lines; and the urgent ones of them. The rows that are read are known by their orders
/// from then on.
fn read_open_orders<S: Alter>(
    alloc: Global,
    tx: &mut Transaction<'_, S>,
    rows: &mut RowsKnown,
) -> Result<(OpenLines, OpenLines), TableFault>
    ensures same_reference { tx.new.conn.ghost_name ≡ tx.old.conn.ghost_name }
    ensures read { IsRead (Learning rows.old rows.new (λ t known. AreOpenLines t known.0 known.1)) (state S.Store tx.old.conn.now) (state S.Store tx.new.conn.now) result }
{
    let orders = read_open(alloc, tx, rows)?;
    let names = orders_of(alloc, orders.as_slice())?;
    let found = seek_lines(alloc, tx, rows, names.as_slice())?;
    let urgents = seek_urgents(alloc, tx, rows, names.as_slice())?;
    let urgent = urgent_lines_of(alloc, found.as_slice(), urgents.as_slice())?;
    let lines = open_lines_of(alloc, found.as_slice())?;
    Ok((lines, urgent))
}

impl Known {
    /// What is known of the books first: the open orders and the urgent ones of them, by the items of their lines, and the rows
    /// that this was read from. The items and bins are counted where a command is judged by their number. It changes nothing.
    /// `Foreign` where a row that is read breaks a rule of its values.
    pub fn read<S: Alter>(alloc: Global, tx: &mut Transaction<'_, S>) -> Result<Known, TableFault>
        ensures same_reference { tx.new.conn.ghost_name ≡ tx.old.conn.ghost_name }
        ensures read { IsRead (λ t known. HoldsOf known t) (state S.Store tx.old.conn.now) (state S.Store tx.new.conn.now) result }
    {
        let mut rows = RowsKnown::new(alloc);
        let (lines, urgent) = read_open_orders(alloc, tx, &mut rows)?;
        Ok(Known {
            lines,
            urgent,
            bounds: Bounds::unknown(),
            rows,
        })
    }
}
