//! What is shown of lots that expire.

ghost use Rattle.std.specs.Prelude.{◌≡◌, ◌+◌, ◌++◌, [], map, take, int_lt, not, option_map, IfOk, OnOk, ℤ, List, Option, length};
ghost use Rattle.std.specs.List.{cons_option};
ghost use Rattle.machine.specs.Acts.{Act};
ghost use Rattle.machine.specs.Once.{IsHistory};
ghost use Rattle.machine.specs.Standing.{KnownLot, today};
ghost use Rattle.row_rules.specs.Seen.{lot_units};
ghost use Rattle.overviews.specs.Pages.{expiring_lots, expiring_view as expiring_view_lem};
ghost use Rattle.views.specs.GivenExpiring.{is_expiring_row, lots_and_more, item_lot_found as item_lot_found_lem, item_lot_seen, all_found, expiring_seen, with_lot};
ghost use Rattle.views.specs.ShownExpiring.{known_row, IsLotSeenLast, AreInHouse, AreOfLotsPage};

use crate::least::least_of;
use crate::pages::{first_in_order, is_behind, page_of};
use crate::stock::{LotsShown, lot_view, lots_shown};
use commands::{ItemRow, Listed, LotRow, LotView, StagedRow, StockRow};
use label::{BusinessDay, Day};
use overviews::{ExpiringView, ItemLot, PAGE_MAX};
use row_rules::in_order::Order;
use row_rules::loops::{Test, passing};
use row_rules::row_search::find_row;
use row_rules::rows_by_key::{RowsByKey, by_key};
use rules::Rows;
use std::alloc::{AllocError, Global};
use values::LotId;

/// The order of lots: by expiry, and then by first receipt.
pub struct ByExpiry;

impl Order<LotRow> for ByExpiry {
    ghost use Rattle.row_rules.specs.Plans.{goes_first};

    ghost before = { goes_first };

    fn is_before(first: &LotRow, second: &LotRow) -> bool {
        let earlier = first.expiry.number() < second.expiry.number();
        let later = second.expiry.number() < first.expiry.number();
        earlier || (!later && first.came < second.came)
    }
}

// Which lots

fn is_up_to(day: Day, expiry: Day) -> bool
    ensures { result ≡ not (int_lt day expiry) }
{
    let later = day.number() < expiry.number();
    !later
}

/// The units of a lot in bins and on stages, by these rows.
pub fn units_in_house(
    lot: &LotId,
    stock: &RowsByKey<'_, LotId, StockRow>,
    staged: &RowsByKey<'_, LotId, StagedRow>,
) -> u64
    ensures { result ≡ lot_units lot.now stock.now staged.now }
{
    let in_bins = stock.units(lot);
    let on_stages = staged.units(lot);
    in_bins.saturating_add(on_stages)
}

fn is_expiring(
    day: Day,
    seen: &Option<LotRow>,
    stock: &RowsByKey<'_, LotId, StockRow>,
    staged: &RowsByKey<'_, LotId, StagedRow>,
    lot: &LotRow,
) -> bool
    ensures { result ≡ is_expiring_row day seen.now stock.now staged.now lot.now }
{
    is_behind::<ByExpiry, LotRow>(seen, lot)
        && is_up_to(day, lot.expiry)
        && units_in_house(&lot.lot, stock, staged) != 0
}

// That a lot is shown as one that expires.
#[derive(Drop)]
struct IsExpiring<'a> {
    day: Day,
    seen: Option<LotRow>,
    stock: RowsByKey<'a, LotId, StockRow>,
    staged: RowsByKey<'a, LotId, StagedRow>,
}

impl Test<LotRow> for IsExpiring<'_> {
    ghost use Rattle.views.specs.GivenExpiring.{is_expiring_row};

    ghost test = { λ t k. is_expiring_row t.day t.seen t.stock t.staged k };

    fn passes(&self, lot: &LotRow) -> bool {
        is_expiring(self.day, &self.seen, &self.stock, &self.staged, lot)
    }
}

/// The lots with units in the house that expire up to a day and stand behind the one that was seen last, by expiry and first
/// receipt: as many as a page has, and one more where they go on. The rows are the whole stock, all that is staged, and the
/// lots of these; others may be among them.
pub fn expiring_page(
    alloc: Global,
    day: Day,
    lots: &[LotRow],
    stock: &[StockRow],
    staged: &[StagedRow],
    seen: Option<LotRow>,
) -> Result<Vec<LotRow>, AllocError>
    ensures seen { IfOk result (λ v. v.items ≡ lots_and_more day seen stock.now staged.now lots.now) }
    ensures shown { (first : ℤ) (acts : List Act) (last : Option KnownLot) → IsHistory first acts → IsLotSeenLast acts last seen → AreInHouse first acts lots.now stock.now staged.now
        → IfOk result (λ v. v.items ≡ map (known_row acts) (take (PAGE_MAX + 1) (expiring_lots first acts day last))) }
{
    let in_bins = by_key::<LotId, StockRow>(alloc, stock, lots.len())?;
    let on_stages = by_key::<LotId, StagedRow>(alloc, staged, lots.len())?;
    let by = IsExpiring {
        day,
        seen,
        stock: in_bins,
        staged: on_stages,
    };
    let expiring = passing(alloc, lots, &by)?;
    first_in_order::<ByExpiry, LotRow>(alloc, expiring.as_slice(), PAGE_MAX + 1)
}

// What is shown of them

fn push_lot(lots: &mut Vec<ItemLot>, item: Option<ItemRow>, lot: LotView) -> Result<(), AllocError>
    ensures { OnOk result (lots.new.items ≡ lots.old.items ++ cons_option (option_map (with_lot lot) item) []) }
{
    if let Some(item) = item {
        lots.push(ItemLot { item, lot })?;
    }
    Ok(())
}

fn add_lot(
    alloc: Global,
    day: BusinessDay,
    rows: &Rows,
    shown: &LotsShown<'_>,
    lots: &mut Vec<ItemLot>,
    row: &LotRow,
) -> Result<(), AllocError>
    ensures { OnOk result (lots.new.items ≡ lots.old.items ++ cons_option (item_lot_found_lem day rows.now shown.now row.now) []) }
{
    let gtin = row.lot.gtin;
    let least = least_of(rows.least.as_slice(), &gtin);
    let lot = lot_view(alloc, day, least, shown, row)?;
    push_lot(lots, find_row(rows.items.as_slice(), &gtin), lot)
}

fn lots_found(
    alloc: Global,
    day: BusinessDay,
    rows: &Rows,
    shown: &LotsShown<'_>,
    page: &[LotRow],
) -> Result<Vec<ItemLot>, AllocError>
    ensures { IfOk result (λ v. v.items ≡ all_found (item_lot_found_lem day rows.now shown.now) page.now) }
{
    let mut lots = Vec::new(alloc);
    for row in page {
        add_lot(alloc, day, rows, shown, &mut lots, row)?;
    }
    Ok(lots)
}

fn item_lots(
    alloc: Global,
    day: BusinessDay,
    rows: &Rows,
    page: &[LotRow],
) -> Result<Vec<ItemLot>, AllocError>
    ensures { IfOk result (λ v. v.items ≡ all_found (item_lot_seen day rows.now) page.now) }
{
    let shown = lots_shown(alloc, rows, page.len())?;
    lots_found(alloc, day, rows, &shown, page)
}

/// What is shown on a business day of a page of lots that expire up to some day, which has one more where they go on
/// (`expiring_page`), after so many acts. The rows are those of the items of the lots, what they ask for, their recalls and
/// stock, and what is staged and reserved of them; others may be among them. It fails for want of memory alone.
pub fn expiring_view(
    alloc: Global,
    act: u64,
    day: BusinessDay,
    rows: &Rows,
    found: &[LotRow],
) -> Result<ExpiringView, AllocError>
    ensures seen { IfOk result (λ view. view ≡ expiring_seen act day rows.now found.now) }
    ensures shown { (first : ℤ) (acts : List Act) (up_to : ℤ) (last : Option KnownLot) → IsHistory first acts → length acts ≡ act → today first acts ≡ day
        → found.now ≡ map (known_row acts) (take (PAGE_MAX + 1) (expiring_lots first acts up_to last)) → AreOfLotsPage first acts up_to last rows.now
        → IfOk result (λ view. view ≡ expiring_view_lem first acts up_to last) }
{
    let lots = item_lots(alloc, day, rows, page_of(found))?;
    Ok(ExpiringView {
        act,
        lots: Listed::from_vec(lots),
        more: found.len() > PAGE_MAX,
    })
}
