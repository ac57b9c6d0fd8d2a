//! What is shown of the lots in a bin.

ghost use Rattle.std.specs.Prelude.{◌≡◌, ◌+◌, ◌++◌, [], map, take, IfOk, OnOk, Some, ℤ, List, Option, length};
ghost use Rattle.std.specs.List.{cons_option};
ghost use Rattle.machine.specs.Acts.{Act};
ghost use Rattle.machine.specs.Once.{IsHistory};
ghost use Rattle.machine.specs.Standing.{KnownLot, today};
ghost use Rattle.row_rules.specs.Seen.{stock_qty};
ghost use Rattle.row_rules.specs.SeenLots.{stock_found};
ghost use Rattle.overviews.specs.Pages.{lots_in_bin, bin_view as bin_view_lem};
ghost use Rattle.views.specs.GivenExpiring.{all_found};
ghost use Rattle.views.specs.GivenBin.{is_in_bin_row, bin_and_more, bin_lot_seen, bin_lot_found, bin_seen};
ghost use Rattle.views.specs.ShownExpiring.{known_row, IsLotSeenLast};
ghost use Rattle.views.specs.ShownBin.{known_bin, AreInBin, AreOfBinPage};

use crate::expiring::ByExpiry;
use crate::least::least_of;
use crate::pages::{first_in_order, is_behind, page_of};
use crate::stock::status_of;
use crate::text_order::is_text_before;
use commands::{BinRow, Listed, LotRow, RecallRow, StockRow};
use label::BusinessDay;
use overviews::{BinLot, BinView, PAGE_MAX};
use row_rules::in_order::Order;
use row_rules::loops::{Test, passing};
use row_rules::row_search::find_row;
use row_rules::rows_by_key::{RowsByKey, by_key};
use row_rules::stock::units_of;
use rules::Rows;
use std::alloc::{AllocError, Global};
use values::{LotId, Name};

/// The order of lots in a bin: by item, and then by expiry and first receipt.
struct ByItem;

impl Order<LotRow> for ByItem {
    ghost use Rattle.views.specs.GivenBin.{first_by_item};

    ghost before = { first_by_item };

    fn is_before(first: &LotRow, second: &LotRow) -> bool {
        let earlier = is_text_before(first.lot.gtin.as_bytes(), second.lot.gtin.as_bytes());
        let later = is_text_before(second.lot.gtin.as_bytes(), first.lot.gtin.as_bytes());
        earlier || (!later && ByExpiry::is_before(first, second))
    }
}

// Which lots

// The units of the lot in the bin, by these rows.
fn units_there(stock: &RowsByKey<'_, (LotId, Name), StockRow>, lot: &LotId, bin: &Name) -> u64
    ensures { result ≡ stock_qty (stock_found stock.now lot.now bin.now) }
{
    units_of(stock.find(&(*lot, *bin)))
}

fn is_in_bin(
    bin: &Name,
    seen: &Option<LotRow>,
    stock: &RowsByKey<'_, (LotId, Name), StockRow>,
    lot: &LotRow,
) -> bool
    ensures { result ≡ is_in_bin_row bin.now seen.now stock.now lot.now }
{
    is_behind::<ByItem, LotRow>(seen, lot) && units_there(stock, &lot.lot, bin) != 0
}

// That a lot is shown of the bin.
#[derive(Drop)]
struct IsInBin<'a> {
    bin: Name,
    seen: Option<LotRow>,
    stock: RowsByKey<'a, (LotId, Name), StockRow>,
}

impl Test<LotRow> for IsInBin<'_> {
    ghost use Rattle.views.specs.GivenBin.{is_in_bin_row};

    ghost test = { λ t k. is_in_bin_row t.bin t.seen t.stock k };

    fn passes(&self, lot: &LotRow) -> bool {
        is_in_bin(&self.bin, &self.seen, &self.stock, lot)
    }
}

/// The lots with units in the bin that stand behind the one that was seen last, by item, expiry and first receipt: as many as
/// a page has, and one more where they go on. The rows are the stock of the bin, and the lots of it; others may be among them.
pub fn bin_page(
    alloc: Global,
    bin: &Name,
    lots: &[LotRow],
    stock: &[StockRow],
    seen: Option<LotRow>,
) -> Result<Vec<LotRow>, AllocError>
    ensures seen { IfOk result (λ v. v.items ≡ bin_and_more bin.now seen stock.now lots.now) }
    ensures shown { (first : ℤ) (acts : List Act) (last : Option KnownLot) → IsHistory first acts → IsLotSeenLast acts last seen → AreInBin first acts bin.now lots.now stock.now
        → IfOk result (λ v. v.items ≡ map (known_row acts) (take (PAGE_MAX + 1) (lots_in_bin first acts bin.now last))) }
{
    let by_cell = by_key::<(LotId, Name), StockRow>(alloc, stock, lots.len())?;
    let by = IsInBin {
        bin: *bin,
        seen,
        stock: by_cell,
    };
    let in_bin = passing(alloc, lots, &by)?;
    first_in_order::<ByItem, LotRow>(alloc, in_bin.as_slice(), PAGE_MAX + 1)
}

// What is shown of them

fn bin_lot(
    day: BusinessDay,
    bin: &Name,
    rows: &Rows,
    stock: &RowsByKey<'_, (LotId, Name), StockRow>,
    recalls: &RowsByKey<'_, LotId, RecallRow>,
    row: &LotRow,
) -> Option<BinLot>
    ensures { result ≡ bin_lot_found day bin.now rows.now stock.now recalls.now row.now }
{
    let lot = &row.lot;
    let item = find_row(rows.items.as_slice(), &lot.gtin)?;
    let least = least_of(rows.least.as_slice(), &lot.gtin);
    Some(BinLot {
        item,
        lot: lot.lot,
        expiry: row.expiry,
        qty: units_there(stock, lot, bin),
        status: status_of(day, least, recalls, row),
    })
}

fn push_found(lots: &mut Vec<BinLot>, found: Option<BinLot>) -> Result<(), AllocError>
    ensures { OnOk result (lots.new.items ≡ lots.old.items ++ cons_option found []) }
{
    if let Some(lot) = found {
        lots.push(lot)?;
    }
    Ok(())
}

fn lots_found(
    alloc: Global,
    day: BusinessDay,
    bin: &Name,
    rows: &Rows,
    stock: &RowsByKey<'_, (LotId, Name), StockRow>,
    recalls: &RowsByKey<'_, LotId, RecallRow>,
    page: &[LotRow],
) -> Result<Vec<BinLot>, AllocError>
    ensures { IfOk result (λ v. v.items ≡ all_found (bin_lot_found day bin.now rows.now stock.now recalls.now) page.now) }
{
    let mut lots = Vec::new(alloc);
    for row in page {
        let found = bin_lot(day, bin, rows, stock, recalls, row);
        push_found(&mut lots, found)?;
    }
    Ok(lots)
}

fn bin_lots(
    alloc: Global,
    day: BusinessDay,
    bin: &Name,
    rows: &Rows,
    page: &[LotRow],
) -> Result<Vec<BinLot>, AllocError>
    ensures { IfOk result (λ v. v.items ≡ all_found (bin_lot_seen day bin.now rows.now) page.now) }
{
    let stock = by_key::<(LotId, Name), StockRow>(alloc, rows.stock.as_slice(), page.len())?;
    let recalls = by_key::<LotId, RecallRow>(alloc, rows.recalls.as_slice(), page.len())?;
    lots_found(alloc, day, bin, rows, &stock, &recalls, page)
}

/// What is shown on a business day of a page of the lots in a bin whose row this is, which has one more where they go on
/// (`bin_page`), after so many acts. The rows are those of the items of the lots, what they ask for, their recalls, and the
/// stock of the bin; others may be among them. It fails for want of memory alone.
pub fn bin_view(
    alloc: Global,
    act: u64,
    day: BusinessDay,
    bin: &BinRow,
    rows: &Rows,
    found: &[LotRow],
) -> Result<BinView, AllocError>
    ensures seen { IfOk result (λ view. view ≡ bin_seen act day bin.now rows.now found.now) }
    ensures shown { (first : ℤ) (acts : List Act) (last : Option KnownLot) → IsHistory first acts → length acts ≡ act → today first acts ≡ day
        → found.now ≡ map (known_row acts) (take (PAGE_MAX + 1) (lots_in_bin first acts bin.now.name last)) → AreOfBinPage first acts bin.now.name last rows.now
        → IfOk result (λ view. view ≡ bin_view_lem first acts (known_bin bin.now) last) }
{
    let lots = bin_lots(alloc, day, &bin.name, rows, page_of(found))?;
    Ok(BinView {
        act,
        bin: bin.name,
        kind: bin.kind,
        lots: Listed::from_vec(lots),
        more: found.len() > PAGE_MAX,
    })
}
