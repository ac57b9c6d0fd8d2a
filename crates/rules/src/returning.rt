//! Staged units of a lot that go to the bin RETURNS, as the lot stops being shippable.

ghost use Rattle.std.specs.Prelude.{◌≡◌, IfOk};
ghost use Rattle.machine.specs.Standing.{RETURNS};
ghost use Rattle.row_rules.specs.Seen.{meta_after, stock_qty, none_put, none_dropped};
ghost use Rattle.row_rules.specs.SeenLots.{stock_found};
ghost use Rattle.rules.specs.DecidedHold.{staged_of_seen, staged_kept as staged_kept_lem, staged_returned as staged_returned_lem, units_in_returns as units_in_returns_lem, staged_among as staged_among_lem, row_returned as row_returned_lem, returned_put as returned_put_lem, stock_with_returned as stock_with_returned_lem, bins_with_returns as bins_with_returns_lem, returns_bin_row as returns_bin_row_lem, returning_replanned as returning_replanned_lem, returned_reply as returned_reply_lem, returning_change as returning_change_lem};

use commands::{
    BinKind, BinRow, Listed, LotRow, RecallRow, ReplyField, Short, StagedRow, StockRow, reply,
};
use row_rules::change_parts::{meta_next, none_dropped, none_put, number_seen};
use row_rules::plans::{DemandRows, ItemRows, SupplyRows, item_rows};
use row_rules::replanning::{Replanned, replan_item};
use row_rules::row_search::{rows_with, rows_without, units_with};
use row_rules::rows_by_key::{RowsByKey, by_key};
use row_rules::stock::{stock_put, stock_rows_with, units_in_bin, units_of};
use row_rules::{Change, Dropped, Put, Slice};
use std::alloc::{AllocError, Global};
use values::{LotId, Name};

/// The bin RETURNS, which is there from the start and is a HOLD bin.
pub fn returns() -> Name
    ensures { result ≡ RETURNS }
{
    Name::new(b"RETURNS").unwrap()
}

fn returns_bin_row() -> BinRow
    ensures { result ≡ returns_bin_row_lem }
{
    BinRow {
        name: returns(),
        kind: BinKind::Hold,
    }
}

/// The rows of bins with that of RETURNS, which units of the lot may come into for the first time.
pub fn bins_with_returns(alloc: Global, slice: &Slice) -> Result<Vec<BinRow>, AllocError>
    ensures { IfOk result (λ v. v.items ≡ bins_with_returns_lem slice.now) }
{
    let mut rows = Vec::new(alloc);
    rows.push(returns_bin_row())?;
    rows.extend_from_slice(slice.rows.bins.as_slice())?;
    Ok(rows)
}

// Staged rows

fn staged_of(slice: &Slice, lot: &LotId) -> u64
    ensures { result ≡ staged_of_seen slice.now lot.now }
{
    units_with(slice.rows.staged.as_slice(), lot)
}

fn staged_kept(alloc: Global, slice: &Slice, lot: &LotId) -> Result<Vec<StagedRow>, AllocError>
    ensures { IfOk result (λ v. v.items ≡ staged_kept_lem slice.now lot.now) }
{
    rows_without(alloc, slice.rows.staged.as_slice(), lot)
}

fn staged_returned(alloc: Global, slice: &Slice, lot: &LotId) -> Result<Vec<StagedRow>, AllocError>
    ensures { IfOk result (λ v. v.items ≡ staged_returned_lem slice.now lot.now) }
{
    rows_with(alloc, slice.rows.staged.as_slice(), lot)
}

// Stock rows

fn units_in_returns(slice: &Slice, lot: &LotId) -> u64
    ensures { result ≡ units_in_returns_lem slice.now lot.now }
{
    let there = units_in_bin(slice, &returns(), lot);
    there.saturating_add(staged_of(slice, lot))
}

/// The stock row of the lot in RETURNS, if anything comes into it.
pub fn returned_put(alloc: Global, slice: &Slice, lot: &LotId) -> Result<Vec<StockRow>, AllocError>
    ensures { IfOk result (λ v. v.items ≡ returned_put_lem slice.now lot.now) }
{
    let rows = &slice.rows;
    let stock = by_key::<(LotId, Name), StockRow>(alloc, rows.stock.as_slice(), 1)?;
    let staged = by_key::<LotId, StagedRow>(alloc, rows.staged.as_slice(), 1)?;
    row_returned(alloc, &stock, &staged, lot)
}

// The units of the lot that are staged, by these rows.
fn staged_among(staged: &RowsByKey<'_, LotId, StagedRow>, lot: &LotId) -> u64
    ensures { result ≡ staged_among_lem staged.now lot.now }
{
    staged.units(lot)
}

// The units of the lot in the bin, by these rows.
fn units_there(stock: &RowsByKey<'_, (LotId, Name), StockRow>, lot: &LotId, bin: &Name) -> u64
    ensures { result ≡ stock_qty (stock_found stock.now lot.now bin.now) }
{
    units_of(stock.find(&(*lot, *bin)))
}

/// The stock row of the lot in RETURNS, if anything comes into it, as these rows tell.
pub fn row_returned(
    alloc: Global,
    stock: &RowsByKey<'_, (LotId, Name), StockRow>,
    staged: &RowsByKey<'_, LotId, StagedRow>,
    lot: &LotId,
) -> Result<Vec<StockRow>, AllocError>
    ensures { IfOk result (λ v. v.items ≡ row_returned_lem stock.now staged.now lot.now) }
{
    let more = staged_among(staged, lot);
    if more == 0 {
        return Ok(Vec::new(alloc));
    }
    let bin = returns();
    let there = units_there(stock, lot, &bin);
    stock_put(alloc, lot, &bin, there.saturating_add(more))
}

fn stock_with_returned(
    alloc: Global,
    slice: &Slice,
    lot: &LotId,
) -> Result<Vec<StockRow>, AllocError>
    ensures { IfOk result (λ v. v.items ≡ stock_with_returned_lem slice.now lot.now) }
{
    let units = units_in_returns(slice, lot);
    stock_rows_with(alloc, slice.rows.stock.as_slice(), lot, &returns(), units)
}

// Reserved rows

/// What changes of the item's reserved rows where what is staged of the lot goes to RETURNS, and these
/// are the rows of lots and recalls after it.
pub fn returning_replanned(
    alloc: Global,
    slice: &Slice,
    lot: &LotId,
    lots: &[LotRow],
    recalls: &[RecallRow],
) -> Result<Replanned, AllocError>
    ensures { IfOk result (λ r. r ≡ returning_replanned_lem slice.now lot.now lots.now recalls.now) }
{
    let staged = staged_kept(alloc, slice, lot)?;
    let bins = bins_with_returns(alloc, slice)?;
    let stock = stock_with_returned(alloc, slice, lot)?;
    let before = item_rows(&slice.rows);
    let demands = DemandRows {
        staged: staged.as_slice(),
        ..before.demands
    };
    let supplies = SupplyRows {
        lots,
        recalls,
        bins: bins.as_slice(),
        stock: stock.as_slice(),
        ..before.supplies
    };
    let rows = ItemRows { demands, supplies };
    replan_item(alloc, slice, &lot.gtin, slice.meta.day, &rows)
}

// The change

/// What changes where a lot stops being shippable, with these rows of lots and recalls put, and
/// these changes of reserved rows.
pub fn returning_change(
    alloc: Global,
    slice: &Slice,
    lot: &LotId,
    lots: Listed<LotRow>,
    recalls: Listed<RecallRow>,
    reserved: Replanned,
) -> Result<Change, AllocError>
    ensures { IfOk result (λ change. change ≡ returning_change_lem slice.now lot.now lots recalls reserved) }
{
    let stock = returned_put(alloc, slice, lot)?;
    let staged = staged_returned(alloc, slice, lot)?;
    let rows = Returned {
        stock,
        staged,
        reserved,
    };
    Ok(change_returning(alloc, slice, lot, lots, recalls, rows))
}

/// The rows besides lots and recalls that change where a lot stops being shippable.
#[derive(Drop)]
struct Returned {
    /// The stock row put in RETURNS, if anything comes into it.
    stock: Vec<StockRow>,
    /// The staged rows dropped.
    staged: Vec<StagedRow>,
    reserved: Replanned,
}

// The change by these rows.
fn change_returning(
    alloc: Global,
    slice: &Slice,
    lot: &LotId,
    lots: Listed<LotRow>,
    recalls: Listed<RecallRow>,
    rows: Returned,
) -> Change
    ensures { result ≡ record { meta = meta_after slice.now; put = record none_put { lots = lots; recalls = recalls; stock = rows.stock.items; reserved = rows.reserved.put }; dropped = record none_dropped { staged = rows.staged.items; reserved = rows.reserved.dropped }; text = returned_reply_lem slice.now lot.now } }
{
    let Returned {
        stock,
        staged,
        reserved,
    } = rows;
    Change {
        meta: meta_next(slice),
        put: Put {
            lots,
            recalls,
            stock: Listed::from_vec(stock),
            reserved: reserved.put,
            ..none_put(alloc)
        },
        dropped: Dropped {
            staged: Listed::from_vec(staged),
            reserved: reserved.dropped,
            ..none_dropped(alloc)
        },
        text: returned_reply(slice, lot),
    }
}

// The reply says how many units were returned.
fn returned_reply(slice: &Slice, lot: &LotId) -> Short
    ensures { result ≡ returned_reply_lem slice.now lot.now }
{
    reply(
        number_seen(slice),
        Some(ReplyField::Returned(staged_of(slice, lot))),
    )
}
