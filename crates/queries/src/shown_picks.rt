//! The rows by which a pick list is shown, with the items of its lines.

ghost use Rattle.std.specs.Prelude.{◌≡◌, []};
ghost use Rattle.sqlite.specs.Held.{state};
ghost use Rattle.slices.specs.Reading.{IsRead};
ghost use Rattle.slices.specs.Remembering.{Learning};
ghost use Rattle.slices.specs.Slicing.{with_names};
ghost use Rattle.queries.specs.ShownPicks.{AreItemRows, AreOfPicks};

use crate::query::Query;
use crate::reading::order_row;
use crate::shown_orders::read_rows_of;
use commands::{ItemRow, LineRow, OrderRow, Refusal};
use label::BusinessDay;
use overviews::PicksView;
use rows_in_memory::command_names::items_of_rows;
use rules::Rows;
use slices::{Known, RowsKnown, seek_items};
use sqlite::{Alter, Transaction};
use std::alloc::{AllocError, Global};
use table_words::error::TableFault;
use values::Name;
use views::picks_view;

/// The items of lines.
fn read_line_items<S: Alter>(
    alloc: Global,
    tx: &mut Transaction<'_, S>,
    rows: &mut RowsKnown,
    lines: &[LineRow],
) -> Result<Vec<ItemRow>, TableFault>
    ensures same_reference { tx.new.conn.ghost_name ≡ tx.old.conn.ghost_name }
    ensures read { IsRead (Learning rows.old rows.new (λ t found. AreItemRows (with_names (λ r. r.gtin) lines.now []) t found.items)) (state S.Store tx.old.conn.now) (state S.Store tx.new.conn.now) result }
{
    let gtins = items_of_rows(alloc, lines)?;
    seek_items(alloc, tx, rows, gtins.as_slice())
}

/// The rows by which the order is shown, and the items of its lines.
fn read_picks_of<S: Alter>(
    alloc: Global,
    tx: &mut Transaction<'_, S>,
    rows: &mut RowsKnown,
    order: &Name,
) -> Result<(Rows, Vec<ItemRow>), TableFault>
    ensures same_reference { tx.new.conn.ghost_name ≡ tx.old.conn.ghost_name }
    ensures read { IsRead (Learning rows.old rows.new (λ t found. AreOfPicks order.now t found.0 found.1.items)) (state S.Store tx.old.conn.now) (state S.Store tx.new.conn.now) result }
{
    let found = read_rows_of(alloc, tx, rows, order)?;
    let items = read_line_items(alloc, tx, rows, found.lines.as_slice())?;
    Ok((found, items))
}

/// The pick list of an order, with the names of its items.
#[derive(Clone, Copy)]
pub struct PicksQuery {
    pub order: Name,
}

impl Query for PicksQuery {
    ghost use Rattle.overviews.specs.Picks.{picks_shown};
    ghost use Rattle.queries.specs.ShownPicks.{ArePicksIn, picks_refused};

    type Found = (OrderRow, (Rows, Vec<ItemRow>));

    type View = PicksView;

    ghost is_in = { λ q t found. ArePicksIn q.order t found };

    ghost shown = { λ first acts q. picks_shown first acts q.order };

    ghost refused = { λ first acts q why found. picks_refused first acts q.order why found };

    fn read<S: Alter>(
        &self,
        alloc: Global,
        tx: &mut Transaction<'_, S>,
        _known: Option<&Known>,
        rows: &mut RowsKnown,
    ) -> Result<Result<(OrderRow, (Rows, Vec<ItemRow>)), Refusal>, TableFault> {
        let order = order_row(alloc, tx, rows, &self.order)?;
        match order {
            Some(row) => {
                let found = read_picks_of(alloc, tx, rows, &self.order)?;
                Ok(Ok((row, found)))
            }
            None => Ok(Err(Refusal::UnknownOrder)),
        }
    }

    fn view(
        &self,
        alloc: Global,
        _day: BusinessDay,
        found: (OrderRow, (Rows, Vec<ItemRow>)),
    ) -> Result<PicksView, AllocError> {
        let (row, named) = found;
        let (rows, items) = named;
        let view = picks_view(alloc, &rows, items.as_slice(), &row);
        // A call: dropped at the end of its scope it is dropped field by field (docs/GATE.md).
        drop(rows);
        view
    }
}
