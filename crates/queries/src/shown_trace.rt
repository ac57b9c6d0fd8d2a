//! The rows by which the trace of a lot is shown.

ghost use Rattle.std.specs.Prelude.{◌≡◌, Ok, IfOk, ℤ, List};
ghost use Rattle.sqlite.specs.Held.{state};
ghost use Rattle.machine.specs.Acts.{Act};
ghost use Rattle.machine.specs.Once.{IsHistory};
ghost use Rattle.machine.specs.Standing.{today};
ghost use Rattle.machine.specs.Tables.{tables_of};
ghost use Rattle.slices.specs.Reading.{IsRead};
ghost use Rattle.slices.specs.Remembering.{Learning};
ghost use Rattle.queries.specs.Traced.{trace_head_of as trace_head_of_lem, trace_head_in, orders_staged as orders_staged_lem, AreStanding, AreStages, ArePast, AreOfTrace, whole_trace_shown};

use crate::query::Query;
use crate::reading::{item_row, lot_row};
use crate::shipped::{IsOfShipment, read_card, read_told};
use crate::traced::{deliveries, stages, units_of_kind};
use commands::{
    CardKind, CardRow, ItemRow, LeastRow, Listed, LotRow, MetaRow, OrderRow, RecallRow, Refusal,
    ShippedUnits, StagedRow, StockRow,
};
use label::BusinessDay;
use overviews::TraceView;
use row_rules::loops::passing;
use row_rules::row_search::rows_with;
use row_rules::status::{least_days, lot_status};
use rows_in_memory::key_list::KeyList;
use slices::{
    Known, RowsKnown, known_meta, seek_least_of, seek_orders, seek_recalls_of, seek_staged,
    seek_stock_of,
};
use sqlite::{Alter, Transaction};
use std::alloc::{AllocError, Global};
use table_words::error::TableFault;
use values::{LotId, Name, TextKey};
use views::bins_of_lot;

// The item and the lot

/// An item that is not known is refused, and then a lot that never came.
fn trace_head_of(item: Option<ItemRow>, lot: Option<LotRow>) -> Result<(ItemRow, LotRow), Refusal>
    ensures { result ≡ trace_head_of_lem item lot }
{
    match (item, lot) {
        (None, _) => Err(Refusal::UnknownItem),
        (Some(_), None) => Err(Refusal::UnknownLot),
        (Some(item), Some(lot)) => Ok((item, lot)),
    }
}

fn read_head<S: Alter>(
    alloc: Global,
    tx: &mut Transaction<'_, S>,
    rows: &mut RowsKnown,
    lot: &LotId,
) -> Result<Result<(ItemRow, LotRow), Refusal>, TableFault>
    ensures same_reference { tx.new.conn.ghost_name ≡ tx.old.conn.ghost_name }
    ensures read { IsRead (Learning rows.old rows.new (λ t head. head ≡ trace_head_in t lot.now)) (state S.Store tx.old.conn.now) (state S.Store tx.new.conn.now) result }
{
    let item = item_row(alloc, tx, rows, &lot.gtin)?;
    let lot = lot_row(alloc, tx, rows, lot)?;
    Ok(trace_head_of(item, lot))
}

// How the lot stands

/// The row of the books, what the lot's item asks for, and its recalls.
#[derive(Drop)]
struct Standing {
    meta: MetaRow,
    least: Vec<LeastRow>,
    recalls: Vec<RecallRow>,
}

fn read_standing<S: Alter>(
    alloc: Global,
    tx: &mut Transaction<'_, S>,
    rows: &mut RowsKnown,
    lot: &LotId,
) -> Result<Standing, TableFault>
    ensures same_reference { tx.new.conn.ghost_name ≡ tx.old.conn.ghost_name }
    ensures read { IsRead (Learning rows.old rows.new (λ t found. AreStanding lot.now.gtin t found.meta found.least.items found.recalls.items)) (state S.Store tx.old.conn.now) (state S.Store tx.new.conn.now) result }
{
    let meta = known_meta(alloc, tx, rows)?;
    let least = seek_least_of(alloc, tx, rows, &lot.gtin)?;
    let recalls = seek_recalls_of(alloc, tx, rows, &lot.gtin)?;
    Ok(Standing {
        meta,
        least,
        recalls,
    })
}

// What is staged

/// The orders of rows, each once.
fn orders_staged(alloc: Global, staged: &[StagedRow]) -> Result<Vec<Name>, AllocError>
    ensures { IfOk result (λ names. names.items ≡ orders_staged_lem staged.now) }
{
    let mut list = KeyList::<Name, TextKey>::new(alloc);
    list.add_all(staged)?;
    Ok(list.into_values())
}

/// What is staged of the lot, and the orders for which it is.
#[derive(Drop)]
struct Stages {
    staged: Vec<StagedRow>,
    orders: Vec<OrderRow>,
}

fn read_stages<S: Alter>(
    alloc: Global,
    tx: &mut Transaction<'_, S>,
    rows: &mut RowsKnown,
    lot: &LotId,
) -> Result<Stages, TableFault>
    ensures same_reference { tx.new.conn.ghost_name ≡ tx.old.conn.ghost_name }
    ensures read { IsRead (Learning rows.old rows.new (λ t found. AreStages lot.now t found.staged.items found.orders.items)) (state S.Store tx.old.conn.now) (state S.Store tx.new.conn.now) result }
{
    let of_item = seek_staged(alloc, tx, rows, &[lot.gtin])?;
    let staged = rows_with(alloc, of_item.as_slice(), lot)?;
    let names = orders_staged(alloc, staged.as_slice())?;
    let orders = seek_orders(alloc, tx, rows, names.as_slice())?;
    Ok(Stages { staged, orders })
}

// What came and what went

/// The lines of the lot's card, and what is told of those that are of shipments.
#[derive(Drop)]
struct Past {
    cards: Vec<CardRow>,
    // `None` where a line of the card tells of no shipment, as in no books.
    shipments: Option<Vec<ShippedUnits>>,
}

fn read_past<S: Alter>(
    alloc: Global,
    tx: &mut Transaction<'_, S>,
    lot: &LotId,
) -> Result<Past, TableFault>
    ensures same_reference { tx.new.conn.ghost_name ≡ tx.old.conn.ghost_name }
    ensures read { IsRead (λ t found. ArePast lot.now t found.cards.items found.shipments) (state S.Store tx.old.conn.now) (state S.Store tx.new.conn.now) result }
{
    let cards = read_card(alloc, tx, lot)?;
    let shipped = passing(alloc, cards.as_slice(), &IsOfShipment)?;
    let shipments = read_told(alloc, tx, shipped.as_slice())?;
    Ok(Past { cards, shipments })
}

// The trace

/// What the trace of a lot is shown by.
#[derive(Drop)]
pub struct TraceRows {
    item: ItemRow,
    lot: LotRow,
    meta: MetaRow,
    least: Vec<LeastRow>,
    recalls: Vec<RecallRow>,
    stock: Vec<StockRow>,
    staged: Vec<StagedRow>,
    orders: Vec<OrderRow>,
    cards: Vec<CardRow>,
    shipments: Option<Vec<ShippedUnits>>,
}

fn read_traced<S: Alter>(
    alloc: Global,
    tx: &mut Transaction<'_, S>,
    rows: &mut RowsKnown,
    item: ItemRow,
    lot: LotRow,
    of: &LotId,
) -> Result<TraceRows, TableFault>
    ensures same_reference { tx.new.conn.ghost_name ≡ tx.old.conn.ghost_name }
    ensures read { IsRead (Learning rows.old rows.new (λ t found. (Ok (item, lot) ≡ trace_head_in t of.now) → AreOfTrace of.now t found)) (state S.Store tx.old.conn.now) (state S.Store tx.new.conn.now) result }
{
    let standing = read_standing(alloc, tx, rows, of)?;
    let stock = seek_stock_of(alloc, tx, rows, of)?;
    let stages = read_stages(alloc, tx, rows, of)?;
    let past = read_past(alloc, tx, of)?;
    let Standing {
        meta,
        least,
        recalls,
    } = standing;
    let Stages { staged, orders } = stages;
    let Past { cards, shipments } = past;
    Ok(TraceRows {
        item,
        lot,
        meta,
        least,
        recalls,
        stock,
        staged,
        orders,
        cards,
        shipments,
    })
}

// The view

/// The trace of a lot by these rows. `None` where rows that they refer to are gone, as in no books.
fn trace_view(
    alloc: Global,
    day: BusinessDay,
    of: &LotId,
    found: TraceRows,
) -> Result<Option<TraceView>, AllocError>
    ensures { (first : ℤ) (acts : List Act) → IsHistory first acts → today first acts ≡ day → AreOfTrace of.now (tables_of first acts) found → IfOk result (λ view. whole_trace_shown first acts of.now ≡ Ok view) }
{
    let TraceRows {
        item,
        lot,
        meta,
        least,
        recalls,
        stock,
        staged,
        orders,
        cards,
        shipments,
    } = found;
    let bins = bins_of_lot(alloc, stock.as_slice(), of)?;
    let stages = stages(alloc, orders.as_slice(), staged.as_slice())?;
    let deliveries = deliveries(alloc, cards.as_slice())?;
    let days = least_days(least.as_slice(), &of.gtin);
    let status = lot_status(day, days, recalls.as_slice(), &lot);
    match (deliveries, shipments, stages) {
        (Some(deliveries), Some(shipments), Some(staged)) => Ok(Some(TraceView {
            act: meta.acts,
            bins: Listed::from_vec(bins),
            deliveries: Listed::from_vec(deliveries),
            expiry: lot.expiry,
            item,
            lot: of.lot,
            off: units_of_kind(CardKind::WriteOff, cards.as_slice()),
            on: units_of_kind(CardKind::WriteOn, cards.as_slice()),
            received: units_of_kind(CardKind::Receipt, cards.as_slice()),
            shipments: Listed::from_vec(shipments),
            staged: Listed::from_vec(staged),
            status,
        })),
        (None, _, _) => Ok(None),
        (Some(_), None, _) => Ok(None),
        (Some(_), Some(_), None) => Ok(None),
    }
}

/// The trace of a lot. `None` where rows that a line of the lot's card or a stage refers to are gone, as in no books.
#[derive(Clone, Copy)]
pub struct TraceQuery {
    pub lot: LotId,
}

impl Query for TraceQuery {
    ghost use Rattle.queries.specs.Traced.{IsTraceIn, whole_trace_shown};
    ghost use Rattle.queries.specs.TraceRefused.{trace_refused};

    type Found = TraceRows;

    type View = Option<TraceView>;

    ghost is_in = { λ q t found. IsTraceIn q.lot t found };

    ghost shown = { λ first acts q. whole_trace_shown first acts q.lot };

    ghost refused = { λ first acts q why found. trace_refused first acts q.lot why found };

    fn read<S: Alter>(
        &self,
        alloc: Global,
        tx: &mut Transaction<'_, S>,
        _known: Option<&Known>,
        rows: &mut RowsKnown,
    ) -> Result<Result<TraceRows, Refusal>, TableFault> {
        let head = read_head(alloc, tx, rows, &self.lot)?;
        match head {
            Ok((item, lot)) => {
                let found = read_traced(alloc, tx, rows, item, lot, &self.lot)?;
                Ok(Ok(found))
            }
            Err(why) => Ok(Err(why)),
        }
    }

    fn view(
        &self,
        alloc: Global,
        day: BusinessDay,
        found: TraceRows,
    ) -> Result<Option<TraceView>, AllocError> {
        trace_view(alloc, day, &self.lot, found)
    }
}
