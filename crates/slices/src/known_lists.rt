//! Orders, lines and rows of urgent orders that are sought, from what is known of them, and from the tables where nothing is.

ghost use Rattle.std.specs.Prelude.{◌≡◌, ⊤};
ghost use Rattle.sqlite.specs.Held.{state};
ghost use Rattle.tables.specs.Lines.{AreLineOf, AreLinesOfOrder};
ghost use Rattle.tables.specs.Orders.{AreOrdersOf};
ghost use Rattle.commands.specs.Tables.{Tables};
ghost use Rattle.slices.specs.Following.{KnowsLines, KnowsLinesAt, KnowsUrgents};
ghost use Rattle.slices.specs.Reading.{IsRead, Knowing};
ghost use Rattle.slices.specs.Remembering.{Learning};
ghost use Rattle.slices.specs.Slicing.{AreAllLines, AreOrders, AreUrgents};

use crate::rows_known::RowsKnown;
use crate::sought_rows::read_rows;
use crate::{seek_all_known, seek_known};
use commands::{LineRow, OrderRow, UrgentRow};
use keyed_rows::reading::All;
use row_rules::row_search::rows_with;
use rows_in_memory::{KnownRows, LineKey};
use sqlite::{Alter, Transaction};
use std::alloc::Global;
use table_words::error::TableFault;
use tables::lines::Lines;
use tables::orders::Orders;
use tables::urgents::Urgents;
use values::{Gtin, Name, TextKey};

/// The row of an order.
pub fn seek_order<S: Alter>(
    alloc: Global,
    tx: &mut Transaction<'_, S>,
    rows: &mut RowsKnown,
    order: &Name,
) -> Result<Vec<OrderRow>, TableFault>
    ensures same_reference { tx.new.conn.ghost_name ≡ tx.old.conn.ghost_name }
    ensures read { IsRead (Learning rows.old rows.new (λ t found. AreOrdersOf order.now t found.items)) (state S.Store tx.old.conn.now) (state S.Store tx.new.conn.now) result }
{
    seek_known::<Orders, Name, TextKey, S>(alloc, tx, &mut rows.followed.orders, order)
}

/// The rows of orders, one after another.
pub fn seek_orders<S: Alter>(
    alloc: Global,
    tx: &mut Transaction<'_, S>,
    rows: &mut RowsKnown,
    orders: &[Name],
) -> Result<Vec<OrderRow>, TableFault>
    ensures same_reference { tx.new.conn.ghost_name ≡ tx.old.conn.ghost_name }
    ensures read { IsRead (Learning rows.old rows.new (λ t found. AreOrders orders.now t found.items)) (state S.Store tx.old.conn.now) (state S.Store tx.new.conn.now) result }
{
    seek_all_known::<Orders, Name, TextKey, S>(alloc, tx, &mut rows.followed.orders, orders)
}

/// All lines of an order.
pub fn seek_lines_of<S: Alter>(
    alloc: Global,
    tx: &mut Transaction<'_, S>,
    rows: &mut RowsKnown,
    order: &Name,
) -> Result<Vec<LineRow>, TableFault>
    ensures same_reference { tx.new.conn.ghost_name ≡ tx.old.conn.ghost_name }
    ensures read { IsRead (Learning rows.old rows.new (λ t found. AreLinesOfOrder order.now t found.items)) (state S.Store tx.old.conn.now) (state S.Store tx.new.conn.now) result }
{
    seek_known::<Lines, Name, TextKey, S>(alloc, tx, &mut rows.followed.lines, order)
}

/// All lines of orders, one order after another.
pub fn seek_lines<S: Alter>(
    alloc: Global,
    tx: &mut Transaction<'_, S>,
    rows: &mut RowsKnown,
    orders: &[Name],
) -> Result<Vec<LineRow>, TableFault>
    ensures same_reference { tx.new.conn.ghost_name ≡ tx.old.conn.ghost_name }
    ensures read { IsRead (Learning rows.old rows.new (λ t found. AreAllLines orders.now t found.items)) (state S.Store tx.old.conn.now) (state S.Store tx.new.conn.now) result }
{
    seek_all_known::<Lines, Name, TextKey, S>(alloc, tx, &mut rows.followed.lines, orders)
}

// Where all lines of an order are known, its line for an item is known by both too, if there is memory for it.
fn know_line(
    alloc: Global,
    lines: &KnownRows<Name, TextKey, LineRow>,
    lines_at: &mut KnownRows<(Name, Gtin), LineKey, LineRow>,
    line: &(Name, Gtin),
)
    ensures { (t : Tables) → KnowsLines t lines.now.rows → KnowsLinesAt t lines_at.old.rows → KnowsLinesAt t lines_at.new.rows }
{
    if lines_at.rows_of(line).is_some() {
        return;
    }
    let Some(known) = lines.rows_of(&line.0) else {
        return;
    };
    if let Ok(own) = rows_with(alloc, known, line) {
        lines_at.keep(line, own);
    }
}

/// The line of an order for an item, where there is one: it is among all lines of the order, where these are known.
pub fn seek_line<S: Alter>(
    alloc: Global,
    tx: &mut Transaction<'_, S>,
    rows: &mut RowsKnown,
    line: &(Name, Gtin),
) -> Result<Vec<LineRow>, TableFault>
    ensures same_reference { tx.new.conn.ghost_name ≡ tx.old.conn.ghost_name }
    ensures read { IsRead (Learning rows.old rows.new (λ t found. AreLineOf line.now t found.items)) (state S.Store tx.old.conn.now) (state S.Store tx.new.conn.now) result }
{
    know_line(
        alloc,
        &rows.followed.lines,
        &mut rows.followed.lines_at,
        line,
    );
    seek_known::<Lines, (Name, Gtin), LineKey, S>(alloc, tx, &mut rows.followed.lines_at, line)
}

// All urgent orders are known by their names from then on, if they are not too many.
fn know_urgents<S: Alter>(
    alloc: Global,
    tx: &mut Transaction<'_, S>,
    urgents: &mut KnownRows<Name, TextKey, UrgentRow>,
) -> Result<(), TableFault>
    ensures same_reference { tx.new.conn.ghost_name ≡ tx.old.conn.ghost_name }
    ensures read { IsRead (Knowing (λ t. KnowsUrgents t urgents.old.rows) (λ t. KnowsUrgents t urgents.new.rows) (λ t u. ⊤)) (state S.Store tx.old.conn.now) (state S.Store tx.new.conn.now) result }
{
    if urgents.wants_all() {
        let found = read_rows::<Urgents, All, S>(alloc, tx, &All)?;
        urgents.keep_all(found.as_slice());
    }
    Ok(())
}

/// The rows of the urgent ones among these orders. All urgent orders are read first, at once, where that is worth it.
pub fn urgents_among<S: Alter>(
    alloc: Global,
    tx: &mut Transaction<'_, S>,
    urgents: &mut KnownRows<Name, TextKey, UrgentRow>,
    orders: &[Name],
) -> Result<Vec<UrgentRow>, TableFault>
    ensures same_reference { tx.new.conn.ghost_name ≡ tx.old.conn.ghost_name }
    ensures read { IsRead (Knowing (λ t. KnowsUrgents t urgents.old.rows) (λ t. KnowsUrgents t urgents.new.rows) (λ t found. AreUrgents orders.now t found.items)) (state S.Store tx.old.conn.now) (state S.Store tx.new.conn.now) result }
{
    know_urgents(alloc, tx, urgents)?;
    seek_all_known::<Urgents, Name, TextKey, S>(alloc, tx, urgents, orders)
}

/// The rows of the urgent ones among these orders.
pub fn seek_urgents<S: Alter>(
    alloc: Global,
    tx: &mut Transaction<'_, S>,
    rows: &mut RowsKnown,
    orders: &[Name],
) -> Result<Vec<UrgentRow>, TableFault>
    ensures same_reference { tx.new.conn.ghost_name ≡ tx.old.conn.ghost_name }
    ensures read { IsRead (Learning rows.old rows.new (λ t found. AreUrgents orders.now t found.items)) (state S.Store tx.old.conn.now) (state S.Store tx.new.conn.now) result }
{
    urgents_among(alloc, tx, &mut rows.followed.urgents, orders)
}
