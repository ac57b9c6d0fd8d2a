//! What is shown of the stock of an item.

ghost use Rattle.std.specs.Prelude.{◌≡◌, map, IfOk, ℤ, List};
ghost use Rattle.machine.specs.Acts.{Act};
ghost use Rattle.machine.specs.Once.{IsHistory};
ghost use Rattle.machine.specs.Standing.{today};
ghost use Rattle.machine.specs.Tables.{tables_of};
ghost use Rattle.machine.specs.Views.{stock_view as stock_view_lem};
ghost use Rattle.row_rules.specs.Status.{status_seen};
ghost use Rattle.views.specs.SeenStock.{stock_seen, lot_seen, lot_found, shown_of};
ghost use Rattle.views.specs.ShownStock.{AreStocked};

use crate::bins::bins_of_lot;
use crate::least::least_of;
use crate::lots::lots_of_item;
use commands::{
    ItemRow, Listed, LotRow, LotStatus, LotView, RecallRow, ReservedRow, StagedRow, StockRow,
    StockView,
};
use label::BusinessDay;
use row_rules::loops::{Make, each_made};
use row_rules::rows_by_key::{RowsByKey, by_key};
use row_rules::status::lot_status;
use rules::Rows;
use std::alloc::{AllocError, Global};
use values::{LeastDays, LotId};

/// What is shown on a business day of the stock of an item whose row this is. The rows are that of
/// the days it asks for, and those of its lots, of their recalls and stock, and of what is staged
/// and reserved of these; others may be among them. It fails for want of memory alone.
pub fn stock_view(
    alloc: Global,
    day: BusinessDay,
    rows: &Rows,
    item: &ItemRow,
) -> Result<StockView, AllocError>
    ensures seen { IfOk result (λ view. view ≡ stock_seen day rows.now item.now) }
    ensures shown { (first : ℤ) (acts : List Act) → IsHistory first acts → today first acts ≡ day → AreStocked item.now.gtin (tables_of first acts) rows.now → IfOk result (λ view. view ≡ stock_view_lem first acts item.now) }
{
    let least = least_of(rows.least.as_slice(), &item.gtin);
    let lots = lots_of_item(alloc, rows.lots.as_slice(), &item.gtin)?;
    let views = lot_views(alloc, day, least, rows, lots.as_slice())?;
    Ok(StockView {
        item: *item,
        lots: Listed::from_vec(views),
    })
}

fn lot_views(
    alloc: Global,
    day: BusinessDay,
    least: LeastDays,
    rows: &Rows,
    lots: &[LotRow],
) -> Result<Vec<LotView>, AllocError>
    ensures { IfOk result (λ v. v.items ≡ map (lot_seen day least rows.now) lots.now) }
{
    let shown = lots_shown(alloc, rows, lots.len())?;
    each_made(alloc, lots, &OnDay { day, least, shown })
}

/// The rows by which lots are shown, found by their lots.
#[derive(Drop)]
pub struct LotsShown<'a> {
    pub in_bins: RowsByKey<'a, LotId, StockRow>,
    pub recalls: RowsByKey<'a, LotId, RecallRow>,
    pub reserved: RowsByKey<'a, LotId, ReservedRow>,
    pub staged: RowsByKey<'a, LotId, StagedRow>,
}

/// The rows, to be found for so many lots.
pub fn lots_shown<'a>(
    alloc: Global,
    rows: &'a Rows,
    lots: usize,
) -> Result<LotsShown<'a>, AllocError>
    ensures { IfOk result (λ m. m ≡ shown_of rows.now) }
{
    let in_bins = by_key::<LotId, StockRow>(alloc, rows.stock.as_slice(), lots)?;
    let recalls = by_key::<LotId, RecallRow>(alloc, rows.recalls.as_slice(), lots)?;
    let reserved = by_key::<LotId, ReservedRow>(alloc, rows.reserved.as_slice(), lots)?;
    let staged = by_key::<LotId, StagedRow>(alloc, rows.staged.as_slice(), lots)?;
    Ok(LotsShown {
        in_bins,
        recalls,
        reserved,
        staged,
    })
}

// The view of a lot on a day.
#[derive(Drop)]
struct OnDay<'a> {
    day: BusinessDay,
    least: LeastDays,
    shown: LotsShown<'a>,
}

impl Make<LotRow, LotView> for OnDay<'_> {
    ghost use Rattle.views.specs.SeenStock.{lot_found};

    ghost made = { λ m k. lot_found m.day m.least m.shown k };

    fn make(&self, alloc: Global, lot: &LotRow) -> Result<LotView, AllocError> {
        lot_view(alloc, self.day, self.least, &self.shown, lot)
    }
}

/// What is shown of the stock of a lot.
pub fn lot_view(
    alloc: Global,
    day: BusinessDay,
    least: LeastDays,
    shown: &LotsShown<'_>,
    row: &LotRow,
) -> Result<LotView, AllocError>
    ensures { IfOk result (λ view. view ≡ lot_found day least shown.now row.now) }
{
    let lot = &row.lot;
    let bins = bins_of_lot(alloc, shown.in_bins.candidates(lot), lot)?;
    Ok(LotView {
        bins: Listed::from_vec(bins),
        expiry: row.expiry,
        lot: lot.lot,
        reserved: shown.reserved.units(lot),
        staged: shown.staged.units(lot),
        status: status_of(day, least, &shown.recalls, row),
    })
}

/// How the lot stands, where its item asks for so many days.
pub fn status_of(
    day: BusinessDay,
    least: LeastDays,
    recalls: &RowsByKey<'_, LotId, RecallRow>,
    row: &LotRow,
) -> LotStatus
    ensures { result ≡ status_seen day least recalls.now row.now }
{
    lot_status(day, least.days(), recalls.candidates(&row.lot), row)
}
