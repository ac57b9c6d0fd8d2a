//! The rows by which the figures of the house are shown.

ghost use Rattle.std.specs.Prelude.{◌≡◌, map};
ghost use Rattle.std.specs.Option.{option_copied};
ghost use Rattle.sqlite.specs.Held.{state};
ghost use Rattle.table_words.specs.Typed.{order_key};
ghost use Rattle.slices.specs.Reading.{IsRead};
ghost use Rattle.slices.specs.Remembering.{Learning};
ghost use Rattle.slices.specs.Slicing.{AreAllLines};
ghost use Rattle.queries.specs.ShownFigures.{AreAllRecalls, AreOpenRows, AreFigures};

use crate::query::Query;
use crate::shown_expiring::{House, read_house};
use crate::shown_open::{read_open_orders, read_urgents_of};
use commands::{LineRow, Listed, MetaRow, OrderRow, RecallRow, Refusal, ReservedRow, UrgentRow};
use keyed_rows::reading::All;
use label::BusinessDay;
use overviews::FiguresView;
use rows_in_memory::item_rows::of_item;
use rows_in_memory::order_names::orders_of;
use rules::Rows;
use slices::{Known, RowsKnown, known_meta, read_rows, seek_lines};
use sqlite::{Alter, Transaction};
use std::alloc::{AllocError, Global};
use table_words::error::TableFault;
use tables::recalls::Recalls;
use tables::reserved::Reserved;
use views::figures_view;
use whole_tables::all_rows;

/// All recalls.
fn read_all_recalls<S: Alter>(
    alloc: Global,
    tx: &mut Transaction<'_, S>,
) -> Result<Vec<RecallRow>, TableFault>
    ensures same_reference { tx.new.conn.ghost_name ≡ tx.old.conn.ghost_name }
    ensures read { IsRead (λ t rows. AreAllRecalls t rows.items) (state S.Store tx.old.conn.now) (state S.Store tx.new.conn.now) result }
{
    all_rows::<Recalls, S>(alloc, tx)
}

/// The lines of orders.
fn read_lines_of<S: Alter>(
    alloc: Global,
    tx: &mut Transaction<'_, S>,
    rows: &mut RowsKnown,
    orders: &[OrderRow],
) -> Result<Vec<LineRow>, TableFault>
    ensures same_reference { tx.new.conn.ghost_name ≡ tx.old.conn.ghost_name }
    ensures read { IsRead (Learning rows.old rows.new (λ t found. AreAllLines (map order_key orders.now) t found.items)) (state S.Store tx.old.conn.now) (state S.Store tx.new.conn.now) result }
{
    let names = orders_of(alloc, orders)?;
    seek_lines(alloc, tx, rows, names.as_slice())
}

/// All open orders, the rows of the urgent ones among them, their lines, and all that is reserved.
#[derive(Drop)]
struct OpenRows {
    orders: Vec<OrderRow>,
    urgents: Vec<UrgentRow>,
    lines: Vec<LineRow>,
    reserved: Vec<ReservedRow>,
}

fn read_open_rows<S: Alter>(
    alloc: Global,
    tx: &mut Transaction<'_, S>,
    known: Option<&Known>,
    rows: &mut RowsKnown,
) -> Result<OpenRows, TableFault>
    ensures same_reference { tx.new.conn.ghost_name ≡ tx.old.conn.ghost_name }
    ensures read { IsRead (Learning rows.old rows.new (λ t found. AreOpenRows (option_copied known.entry) t found.orders.items found.urgents.items found.lines.items found.reserved.items)) (state S.Store tx.old.conn.now) (state S.Store tx.new.conn.now) result }
{
    let orders = read_open_orders(alloc, tx, known, rows)?;
    let urgents = read_urgents_of(alloc, tx, rows, orders.as_slice())?;
    let lines = read_lines_of(alloc, tx, rows, orders.as_slice())?;
    let reserved = read_rows::<Reserved, All, S>(alloc, tx, &All)?;
    Ok(OpenRows {
        orders,
        urgents,
        lines,
        reserved,
    })
}

/// The rows by which the figures are shown.
fn counted_rows(alloc: Global, found: OpenRows, house: House, recalls: Vec<RecallRow>) -> Rows
    ensures same_orders { result.orders ≡ found.orders.items }
    ensures same_urgents { result.urgents ≡ found.urgents.items }
    ensures same_lines { result.lines ≡ found.lines.items }
    ensures same_reserved { result.reserved ≡ found.reserved.items }
    ensures same_lots { result.lots ≡ house.lots.items }
    ensures same_stock { result.stock ≡ house.stock.items }
    ensures same_staged { result.staged ≡ house.staged.items }
    ensures same_recalls { result.recalls ≡ recalls.items }
{
    let OpenRows {
        orders,
        urgents,
        lines,
        reserved,
    } = found;
    let House {
        lots,
        stock,
        staged,
    } = house;
    let rows = of_item(
        alloc,
        lots,
        recalls,
        stock,
        staged,
        reserved,
        Vec::new(alloc),
    );
    Rows {
        orders: Listed::from_vec(orders),
        urgents: Listed::from_vec(urgents),
        lines: Listed::from_vec(lines),
        ..rows
    }
}

/// The rows by which the figures are shown, and how many acts the books are of.
fn read_figures<S: Alter>(
    alloc: Global,
    tx: &mut Transaction<'_, S>,
    known: Option<&Known>,
    rows: &mut RowsKnown,
) -> Result<(MetaRow, Rows), TableFault>
    ensures same_reference { tx.new.conn.ghost_name ≡ tx.old.conn.ghost_name }
    ensures read { IsRead (Learning rows.old rows.new (λ t found. AreFigures (option_copied known.entry) t found.0 found.1)) (state S.Store tx.old.conn.now) (state S.Store tx.new.conn.now) result }
{
    let found = read_open_rows(alloc, tx, known, rows)?;
    let house = read_house(alloc, tx, rows)?;
    let recalls = read_all_recalls(alloc, tx)?;
    let meta = known_meta(alloc, tx, rows)?;
    Ok((meta, counted_rows(alloc, found, house, recalls)))
}

/// The figures of the house.
#[derive(Clone, Copy)]
pub struct FiguresQuery;

impl Query for FiguresQuery {
    ghost use Rattle.overviews.specs.Figures.{figures_shown};
    ghost use Rattle.queries.specs.ShownFigures.{AreFiguresIn, figures_refused};

    type Found = (MetaRow, Rows);

    type View = FiguresView;

    ghost is_in = { λ q t found. AreFiguresIn t found };

    ghost shown = { λ first acts q. figures_shown first acts };

    ghost refused = { λ first acts q why found. figures_refused first acts why found };

    fn read<S: Alter>(
        &self,
        alloc: Global,
        tx: &mut Transaction<'_, S>,
        known: Option<&Known>,
        rows: &mut RowsKnown,
    ) -> Result<Result<(MetaRow, Rows), Refusal>, TableFault> {
        let found = read_figures(alloc, tx, known, rows)?;
        Ok(Ok(found))
    }

    fn view(
        &self,
        alloc: Global,
        day: BusinessDay,
        found: (MetaRow, Rows),
    ) -> Result<FiguresView, AllocError> {
        let (meta, rows) = found;
        let view = figures_view(alloc, meta.acts, day, &rows);
        // A call: dropped at the end of its scope it is dropped field by field (docs/GATE.md).
        drop(rows);
        view
    }
}
