//! The plan of an item, and the reserved rows that it changes.

ghost use Rattle.std.specs.Prelude.{◌≡◌, [], ◌∷◌, min, IfOk};
ghost use Rattle.row_rules.specs.Plans.{plan_within, named_row, named_rows as named_rows_lem, has_qty, rows_to_put as rows_to_put_lem, rows_to_drop as rows_to_drop_lem};
ghost use Rattle.row_rules.specs.LookUps.{row_given, rows_named};

use crate::Rows;
use crate::list_parts::push_found;
use crate::loops::{Test, failing, passing};
use crate::row_index::{RowsByNumber, by_number};
use crate::rows_by_key::{RowsByKey, by_key};
use crate::supplies::cut_supplies;
use commands::{
    BinRow, LeastRow, LineRow, LotRow, OrderRow, RecallRow, ReservedRow, StagedRow, StockRow,
    UrgentRow,
};
use plan::{Demand, Plan, Row, SUM_MAX, Supply, whole};
use std::alloc::{AllocError, Global};
use values::{Gtin, LotId, Name};

/// The rows that tell the demands for an item.
#[derive(Clone, Copy)]
pub struct DemandRows<'a> {
    pub orders: &'a [OrderRow],
    pub lines: &'a [LineRow],
    pub staged: &'a [StagedRow],
    pub urgents: &'a [UrgentRow],
}

/// The rows that tell the supplies of an item.
#[derive(Clone, Copy)]
pub struct SupplyRows<'a> {
    pub lots: &'a [LotRow],
    pub recalls: &'a [RecallRow],
    pub bins: &'a [BinRow],
    pub stock: &'a [StockRow],
    pub least: &'a [LeastRow],
}

/// The rows that tell the demands and supplies of an item, some of them as they are after an act.
#[derive(Clone, Copy)]
pub struct ItemRows<'a> {
    pub demands: DemandRows<'a>,
    pub supplies: SupplyRows<'a>,
}

/// The rows as they are before the act.
pub fn item_rows(rows: &Rows) -> ItemRows<'_>
    ensures orders { result.demands.orders.now ≡ rows.now.orders }
    ensures lines { result.demands.lines.now ≡ rows.now.lines }
    ensures staged { result.demands.staged.now ≡ rows.now.staged }
    ensures urgents { result.demands.urgents.now ≡ rows.now.urgents }
    ensures lots { result.supplies.lots.now ≡ rows.now.lots }
    ensures recalls { result.supplies.recalls.now ≡ rows.now.recalls }
    ensures bins { result.supplies.bins.now ≡ rows.now.bins }
    ensures stock { result.supplies.stock.now ≡ rows.now.stock }
    ensures least { result.supplies.least.now ≡ rows.now.least }
{
    let demands = DemandRows {
        orders: rows.orders.as_slice(),
        lines: rows.lines.as_slice(),
        staged: rows.staged.as_slice(),
        urgents: rows.urgents.as_slice(),
    };
    let supplies = SupplyRows {
        lots: rows.lots.as_slice(),
        recalls: rows.recalls.as_slice(),
        bins: rows.bins.as_slice(),
        stock: rows.stock.as_slice(),
        least: rows.least.as_slice(),
    };
    ItemRows { demands, supplies }
}

/// The plan of two demands over supplies, up to the limit of a list's sum: the last is booked behind
/// the one before.
pub fn plan_with_last(
    alloc: Global,
    before: Demand,
    last: Demand,
    supplies: &[Supply],
) -> Result<Plan, AllocError>
    ensures { IfOk result (λ plan. plan ≡ plan_within (before ∷ last ∷ []) supplies.now) }
{
    let offered = cut_supplies(alloc, supplies)?;
    let room = SUM_MAX.saturating_sub(before.need);
    let first = [within(before, SUM_MAX)];
    let mut plan = whole(alloc, &first, offered.as_slice())?;
    plan.book_last(within(last, room), &first, offered.as_slice())?;
    Ok(plan)
}

// A demand, up to this many units.
fn within(demand: Demand, room: u64) -> Demand
    ensures { result ≡ record { booking = demand.booking; need = min demand.need room } }
{
    Demand {
        booking: demand.booking,
        need: demand.need.min(room),
    }
}

/// The plan's rows by the names of orders and lots.
pub fn named_rows(
    alloc: Global,
    orders: &[OrderRow],
    lots: &[LotRow],
    rows: &[Row],
) -> Result<Vec<ReservedRow>, AllocError>
    ensures { IfOk result (λ v. v.items ≡ named_rows_lem orders.now lots.now rows.now) }
{
    let numbered = by_number(alloc, orders, rows.len())?;
    let came = by_number(alloc, lots, rows.len())?;
    name_rows(alloc, &numbered, &came, rows)
}

fn name_rows(
    alloc: Global,
    orders: &RowsByNumber<'_, OrderRow>,
    lots: &RowsByNumber<'_, LotRow>,
    rows: &[Row],
) -> Result<Vec<ReservedRow>, AllocError>
    ensures { IfOk result (λ v. v.items ≡ rows_named (row_given (λ o. o.act) orders.now) (row_given (λ k. k.came) lots.now) rows.now) }
{
    let mut named = Vec::new(alloc);
    for row in rows {
        let order = orders.row_of(row.booking);
        let lot = lots.row_of(row.lot);
        push_found(&mut named, name_row(order, lot, row.qty))?;
    }
    Ok(named)
}

fn name_row(order: Option<OrderRow>, lot: Option<LotRow>, qty: u64) -> Option<ReservedRow>
    ensures { result ≡ named_row order lot qty }
{
    match order {
        None => None,
        Some(o) => match lot {
            None => None,
            Some(k) => Some(ReservedRow {
                order: o.order,
                lot: k.lot,
                qty,
            }),
        },
    }
}

/// The new rows that are not there as they are.
pub fn rows_to_put(
    alloc: Global,
    olds: &[ReservedRow],
    news: &[ReservedRow],
) -> Result<Vec<ReservedRow>, AllocError>
    ensures { IfOk result (λ v. v.items ≡ rows_to_put_lem olds.now news.now) }
{
    let by_share = by_key::<(Name, LotId), ReservedRow>(alloc, olds, news.len())?;
    failing(alloc, news, &IsThere { olds: by_share })
}

// That a row is there as it is.
#[derive(Drop)]
struct IsThere<'a> {
    olds: RowsByKey<'a, (Name, LotId), ReservedRow>,
}

impl Test<ReservedRow> for IsThere<'_> {
    ghost use Rattle.std.specs.Prelude.{find};
    ghost use Rattle.row_rules.specs.Plans.{has_qty, is_share_of};

    ghost test = { λ t n. has_qty (find (is_share_of n) t.olds) n.qty };

    fn passes(&self, row: &ReservedRow) -> bool {
        is_qty(self.olds.find(&(row.order, row.lot)), row.qty)
    }
}

/// The old rows of an item that are there no more.
pub fn rows_to_drop(
    alloc: Global,
    gtin: &Gtin,
    olds: &[ReservedRow],
    news: &[ReservedRow],
) -> Result<Vec<ReservedRow>, AllocError>
    ensures { IfOk result (λ v. v.items ≡ rows_to_drop_lem gtin.now olds.now news.now) }
{
    let by_share = by_key::<(Name, LotId), ReservedRow>(alloc, news, olds.len())?;
    let gone = IsGone {
        gtin: *gtin,
        news: by_share,
    };
    passing(alloc, olds, &gone)
}

// That a row is of the item and there no more.
#[derive(Drop)]
struct IsGone<'a> {
    gtin: Gtin,
    news: RowsByKey<'a, (Name, LotId), ReservedRow>,
}

impl Test<ReservedRow> for IsGone<'_> {
    ghost use Rattle.std.specs.Prelude.{◌&&◌, not};
    ghost use Rattle.std.specs.List.{list_any};
    ghost use Rattle.machine.specs.Postings.{of_item};
    ghost use Rattle.row_rules.specs.Plans.{is_share_of};

    ghost test = { λ t r. of_item t.gtin r.lot && not (list_any (is_share_of r) t.news) };

    fn passes(&self, row: &ReservedRow) -> bool {
        let own = self.gtin == row.lot.gtin;
        let stays = self.news.has(&(row.order, row.lot));
        own && !stays
    }
}

fn is_qty(row: Option<ReservedRow>, qty: u64) -> bool
    ensures { result ≡ has_qty row qty }
{
    match row {
        None => false,
        Some(r) => r.qty == qty,
    }
}
