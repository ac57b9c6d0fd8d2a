//! The figures of the house.

ghost use Rattle.std.specs.Prelude.{◌≡◌, ◌+◌, count_by, IfOk, ℤ, List, length};
ghost use Rattle.commands.specs.Lists.{total};
ghost use Rattle.machine.specs.Acts.{Act};
ghost use Rattle.machine.specs.Once.{IsHistory};
ghost use Rattle.machine.specs.Standing.{RETURNS, today};
ghost use Rattle.row_rules.specs.Status.{status_seen};
ghost use Rattle.overviews.specs.Figures.{figures_view as figures_view_lem, shows_expired as shows_expired_lem, shows_held as shows_held_lem, shows_recalled as shows_recalled_lem};
ghost use Rattle.views.specs.GivenFigures.{stands, lot_figures_seen, lots_counted as lots_counted_lem, open_figures_seen, orders_counted as orders_counted_lem, units_counted as units_counted_lem, figures_seen};
ghost use Rattle.views.specs.ShownFigures.{AreCounted};

use crate::expiring::units_in_house;
use crate::open_orders::{ServedOrder, orders_listed, orders_shown};
use crate::stock::status_of;
use commands::{LotRow, LotStatus, RecallRow, StagedRow, StockRow, UrgentRow};
use label::BusinessDay;
use overviews::{FiguresView, LotFigures, OpenFigures, OpenOrder, UnitFigures};
use row_rules::having::HasUnits;
use row_rules::loops::{Test, passing};
use row_rules::row_search::rows_with;
use row_rules::rows_by_key::{RowsByKey, by_key};
use rules::Rows;
use std::alloc::{AllocError, Global};
use values::{LeastDays, LotId, Name};

// Lots

fn status_on(day: BusinessDay, recalls: &RowsByKey<'_, LotId, RecallRow>, lot: &LotRow) -> LotStatus
    ensures { result ≡ status_seen day 0 recalls.now lot.now }
{
    status_of(day, LeastDays::new(0).unwrap(), recalls, lot)
}

fn shows_expired(status: LotStatus) -> bool
    ensures { result ≡ shows_expired_lem status }
{
    match status {
        LotStatus::Expired => true,
        LotStatus::Recalled | LotStatus::Held | LotStatus::ShortDated | LotStatus::Free => false,
    }
}

fn shows_held(status: LotStatus) -> bool
    ensures { result ≡ shows_held_lem status }
{
    match status {
        LotStatus::Held => true,
        LotStatus::Recalled | LotStatus::Expired | LotStatus::ShortDated | LotStatus::Free => false,
    }
}

fn shows_recalled(status: LotStatus) -> bool
    ensures { result ≡ shows_recalled_lem status }
{
    match status {
        LotStatus::Recalled => true,
        LotStatus::Held | LotStatus::Expired | LotStatus::ShortDated | LotStatus::Free => false,
    }
}

fn count_expired(
    day: BusinessDay,
    recalls: &RowsByKey<'_, LotId, RecallRow>,
    lots: &[LotRow],
) -> usize
    ensures { result ≡ count_by (stands day shows_expired_lem recalls.now) lots.now }
{
    lots.iter()
        .filter(|lot| shows_expired(status_on(day, recalls, lot)))
        .count()
}

fn count_held(day: BusinessDay, recalls: &RowsByKey<'_, LotId, RecallRow>, lots: &[LotRow]) -> usize
    ensures { result ≡ count_by (stands day shows_held_lem recalls.now) lots.now }
{
    lots.iter()
        .filter(|lot| shows_held(status_on(day, recalls, lot)))
        .count()
}

fn count_recalled(
    day: BusinessDay,
    recalls: &RowsByKey<'_, LotId, RecallRow>,
    lots: &[LotRow],
) -> usize
    ensures { result ≡ count_by (stands day shows_recalled_lem recalls.now) lots.now }
{
    lots.iter()
        .filter(|lot| shows_recalled(status_on(day, recalls, lot)))
        .count()
}

fn lot_figures(
    day: BusinessDay,
    recalls: &RowsByKey<'_, LotId, RecallRow>,
    lots: &[LotRow],
) -> LotFigures
    ensures { result ≡ lot_figures_seen day recalls.now lots.now }
{
    LotFigures {
        expired: count_expired(day, recalls, lots) as u64,
        held: count_held(day, recalls, lots) as u64,
        recalled: count_recalled(day, recalls, lots) as u64,
    }
}

// That the rows have units of a lot.
#[derive(Drop)]
struct IsInHouse<'a> {
    stock: RowsByKey<'a, LotId, StockRow>,
    staged: RowsByKey<'a, LotId, StagedRow>,
}

impl Test<LotRow> for IsInHouse<'_> {
    ghost use Rattle.views.specs.GivenFigures.{is_in_house};

    ghost test = { λ t k. is_in_house t.stock t.staged k };

    fn passes(&self, lot: &LotRow) -> bool {
        units_in_house(&lot.lot, &self.stock, &self.staged) != 0
    }
}

fn lots_counted(alloc: Global, day: BusinessDay, rows: &Rows) -> Result<LotFigures, AllocError>
    ensures { IfOk result (λ figures. figures ≡ lots_counted_lem day rows.now) }
{
    let lots = rows.lots.as_slice();
    let stock = by_key::<LotId, StockRow>(alloc, rows.stock.as_slice(), lots.len())?;
    let staged = by_key::<LotId, StagedRow>(alloc, rows.staged.as_slice(), lots.len())?;
    let recalls = by_key::<LotId, RecallRow>(alloc, rows.recalls.as_slice(), lots.len())?;
    let there = passing(alloc, lots, &IsInHouse { stock, staged })?;
    Ok(lot_figures(day, &recalls, there.as_slice()))
}

// Orders

fn open_figures(shown: &[OpenOrder], orders: &[ServedOrder]) -> OpenFigures
    ensures { result ≡ open_figures_seen shown.now orders.now }
{
    let short = shown.iter().filter(|order| order.short != 0).count();
    let staged = shown.iter().filter(|order| order.staged != 0).count();
    let urgent = orders.iter().filter(|order| order.urgent).count();
    OpenFigures {
        orders: orders.len() as u64,
        short: short as u64,
        staged: staged as u64,
        urgent: urgent as u64,
    }
}

fn orders_counted(alloc: Global, rows: &Rows) -> Result<OpenFigures, AllocError>
    ensures { IfOk result (λ figures. figures ≡ orders_counted_lem rows.now) }
{
    let orders = rows.orders.as_slice();
    let urgents = by_key::<Name, UrgentRow>(alloc, rows.urgents.as_slice(), orders.len())?;
    let listed = orders_listed(alloc, &urgents, &None, orders)?;
    let shown = orders_shown(
        alloc,
        rows.lines.as_slice(),
        rows.staged.as_slice(),
        rows.reserved.as_slice(),
        listed.as_slice(),
    )?;
    Ok(open_figures(shown.as_slice(), listed.as_slice()))
}

// Units. A sum that is no `u64` is taken as want of memory: no books have so many units.

fn added(sum: u64, qty: u64) -> Result<u64, AllocError>
    ensures { IfOk result (λ more. more ≡ sum + qty) }
{
    match sum.checked_add(qty) {
        Some(more) => Ok(more),
        None => Err(AllocError),
    }
}

fn all_units<T: HasUnits>(rows: &[T]) -> Result<u64, AllocError>
    ensures { IfOk result (λ units. units ≡ total T.units rows.now) }
{
    let mut units = 0;
    for row in rows {
        units = added(units, row.units())?;
    }
    Ok(units)
}

fn returns_bin() -> Name
    ensures { result ≡ RETURNS }
{
    Name::new(b"RETURNS").unwrap()
}

fn units_counted(
    alloc: Global,
    stock: &[StockRow],
    staged: &[StagedRow],
) -> Result<UnitFigures, AllocError>
    ensures { IfOk result (λ figures. figures ≡ units_counted_lem stock.now staged.now) }
{
    let in_bins = all_units(stock)?;
    let on_stages = all_units(staged)?;
    let house = added(in_bins, on_stages)?;
    let back = rows_with(alloc, stock, &returns_bin())?;
    let returns = all_units(back.as_slice())?;
    Ok(UnitFigures { house, returns })
}

/// The figures of the house on a business day, after so many acts. The rows are those of the open orders, of `urgents` for
/// these, of their lines, all that is reserved, the whole stock, all that is staged, the lots of these, and all recalls; others
/// may be among them. It fails for want of memory alone.
pub fn figures_view(
    alloc: Global,
    act: u64,
    day: BusinessDay,
    rows: &Rows,
) -> Result<FiguresView, AllocError>
    ensures seen { IfOk result (λ view. view ≡ figures_seen act day rows.now) }
    ensures shown { (first : ℤ) (acts : List Act) → IsHistory first acts → length acts ≡ act → today first acts ≡ day → AreCounted first acts rows.now
        → IfOk result (λ view. view ≡ figures_view_lem first acts) }
{
    let lots = lots_counted(alloc, day, rows)?;
    let open_orders = orders_counted(alloc, rows)?;
    let units = units_counted(alloc, rows.stock.as_slice(), rows.staged.as_slice())?;
    Ok(FiguresView {
        act,
        day,
        lots,
        open_orders,
        units,
    })
}
