//! The plans of items changed in place by an act.

ghost use Rattle.std.specs.Prelude.{◌≡◌, ◌≤◌, [], length, flat_map, IfOk};
ghost use Rattle.std.specs.List.{list_any};
ghost use Rattle.machine.specs.Planning.{is_open_state};
ghost use Rattle.plan.specs.Changes.{cut_of};
ghost use Rattle.plan.specs.Limits.{AreSmall};
ghost use Rattle.plan.specs.Overlap.{demand_total, supply_total};
ghost use Rattle.plan.specs.declared.TheConstants.{SUM_MAX};
ghost use Rattle.row_rules.specs.Between.{replanned_between};
ghost use Rattle.row_rules.specs.Replanning.{first_as_one as first_as_one_lem, rows_behind, shares_apart as shares_apart_lem, shares_changed as shares_changed_lem, item_demands, item_supplies, replanned_rows, replanned_from, item_replanned};
ghost use Rattle.row_rules.specs.Status.{earliest_seen};

use crate::Slice;
use crate::demands::is_open;
use crate::indexed::{
    DemandsIndexed, SuppliesIndexed, demands_indexed, demands_of_item, supplies_indexed,
    supplies_of_item,
};
use crate::plan_difference::rows_apart;
use crate::plans::{
    DemandRows, ItemRows, SupplyRows, item_rows, named_rows, rows_to_drop, rows_to_put,
};
use commands::{Listed, LotRow, OrderRow, ReservedRow};
use label::BusinessDay;
use plan::{Demand, Row, Supply, cut, sum_of_needs, whole};
use std::alloc::{AllocError, Global};
use values::Gtin;

/// The reserved rows that are put, and those that are dropped.
#[derive(Drop)]
pub struct Replanned {
    pub put: Listed<ReservedRow>,
    pub dropped: Listed<ReservedRow>,
}

/// What an act changes of the reserved rows of these items, item after item. `rows` are the rows after it.
pub fn replan_items(
    alloc: Global,
    slice: &Slice,
    gtins: &[Gtin],
    day: BusinessDay,
    rows: &ItemRows<'_>,
) -> Result<Replanned, AllocError>
    ensures put { IfOk result (λ r. r.put ≡ flat_map (λ g. (item_replanned slice.now day rows.now.demands.orders.now rows.now.demands.lines.now rows.now.demands.staged.now rows.now.supplies.lots.now rows.now.supplies.recalls.now rows.now.supplies.bins.now rows.now.supplies.stock.now rows.now.supplies.least.now rows.now.demands.urgents.now g).put) gtins.now) }
    ensures dropped { IfOk result (λ r. r.dropped ≡ flat_map (λ g. (item_replanned slice.now day rows.now.demands.orders.now rows.now.demands.lines.now rows.now.demands.staged.now rows.now.supplies.lots.now rows.now.supplies.recalls.now rows.now.supplies.bins.now rows.now.supplies.stock.now rows.now.supplies.least.now rows.now.demands.urgents.now g).dropped) gtins.now) }
{
    let old = item_rows(&slice.rows);
    let wanted = demands_indexed(alloc, &old.demands, gtins.len())?;
    let offered = supplies_indexed(alloc, slice.meta.day, &old.supplies, gtins.len())?;
    let wants = demands_indexed(alloc, &rows.demands, gtins.len())?;
    let offers = supplies_indexed(alloc, day, &rows.supplies, gtins.len())?;
    let before = both_indexed(&wanted, &offered);
    let after = both_indexed(&wants, &offers);
    replan_each(alloc, gtins, &before, &after)
}

/// The same of an act that changes no more than what is needed, as an order does: `rows` are those of the demands after it.
/// The rows of the supplies are indexed once.
pub fn replan_demands(
    alloc: Global,
    slice: &Slice,
    gtins: &[Gtin],
    rows: &DemandRows<'_>,
) -> Result<Replanned, AllocError>
    ensures put { IfOk result (λ r. r.put ≡ flat_map (λ g. (item_replanned slice.now slice.now.meta.day rows.now.orders.now rows.now.lines.now rows.now.staged.now slice.now.rows.lots slice.now.rows.recalls slice.now.rows.bins slice.now.rows.stock slice.now.rows.least rows.now.urgents.now g).put) gtins.now) }
    ensures dropped { IfOk result (λ r. r.dropped ≡ flat_map (λ g. (item_replanned slice.now slice.now.meta.day rows.now.orders.now rows.now.lines.now rows.now.staged.now slice.now.rows.lots slice.now.rows.recalls slice.now.rows.bins slice.now.rows.stock slice.now.rows.least rows.now.urgents.now g).dropped) gtins.now) }
{
    let old = item_rows(&slice.rows);
    let wanted = demands_indexed(alloc, &old.demands, gtins.len())?;
    let wants = demands_indexed(alloc, rows, gtins.len())?;
    let offered = supplies_indexed(alloc, slice.meta.day, &old.supplies, gtins.len())?;
    let before = both_indexed(&wanted, &offered);
    let after = both_indexed(&wants, &offered);
    replan_each(alloc, gtins, &before, &after)
}

// Rows that tell of items, indexed.
#[derive(Clone, Copy)]
struct IndexedRows<'a, 'b> {
    demands: &'a DemandsIndexed<'a>,
    supplies: &'b SuppliesIndexed<'b>,
}

fn both_indexed<'a, 'b>(
    demands: &'a DemandsIndexed<'a>,
    supplies: &'b SuppliesIndexed<'b>,
) -> IndexedRows<'a, 'b>
    ensures demands { result.demands.now ≡ demands.now }
    ensures supplies { result.supplies.now ≡ supplies.now }
{
    IndexedRows { demands, supplies }
}

fn replan_each(
    alloc: Global,
    gtins: &[Gtin],
    before: &IndexedRows<'_, '_>,
    after: &IndexedRows<'_, '_>,
) -> Result<Replanned, AllocError>
    ensures put { IfOk result (λ r. r.put ≡ flat_map (λ g. (replanned_between before.now after.now g).put) gtins.now) }
    ensures dropped { IfOk result (λ r. r.dropped ≡ flat_map (λ g. (replanned_between before.now after.now g).dropped) gtins.now) }
{
    let mut put = Vec::new(alloc);
    let mut dropped = Vec::new(alloc);
    for gtin in gtins {
        let item = replan_between(alloc, gtin, before, after)?;
        put.extend_from_slice(item.put.as_slice())?;
        dropped.extend_from_slice(item.dropped.as_slice())?;
    }
    Ok(Replanned {
        put: Listed::from_vec(put),
        dropped: Listed::from_vec(dropped),
    })
}

// The plan of an item before the act becomes the one after it.
fn replan_between(
    alloc: Global,
    gtin: &Gtin,
    before: &IndexedRows<'_, '_>,
    after: &IndexedRows<'_, '_>,
) -> Result<Replanned, AllocError>
    ensures { IfOk result (λ r. r ≡ replanned_between before.now after.now gtin.now) }
{
    let (needed, had) = (before.demands, before.supplies);
    let (needs, has) = (after.demands, after.supplies);
    let wanted = demands_of_item(alloc, gtin, needed)?;
    let offered = supplies_of_item(alloc, gtin, had)?;
    let wants = demands_of_item(alloc, gtin, needs)?;
    let offers = supplies_of_item(alloc, gtin, has)?;
    let was = Told {
        orders: needed.orders,
        lots: had.lots.all(),
        demands: wanted.as_slice(),
        supplies: offered.as_slice(),
    };
    let will = Told {
        orders: needs.orders,
        lots: has.lots.all(),
        demands: wants.as_slice(),
        supplies: offers.as_slice(),
    };
    replan_told(alloc, gtin, &was, &will)
}

/// What an act changes of the reserved rows of an item. `rows` are the rows after it. Where no order is open, before it or
/// after it, nothing is reserved, and nothing changes, whatever there is of the item.
pub fn replan_item(
    alloc: Global,
    slice: &Slice,
    gtin: &Gtin,
    day: BusinessDay,
    rows: &ItemRows<'_>,
) -> Result<Replanned, AllocError>
    ensures { IfOk result (λ r. r ≡ item_replanned slice.now day rows.now.demands.orders.now rows.now.demands.lines.now rows.now.demands.staged.now rows.now.supplies.lots.now rows.now.supplies.recalls.now rows.now.supplies.bins.now rows.now.supplies.stock.now rows.now.supplies.least.now rows.now.demands.urgents.now gtin.now) }
{
    let was_open = any_open(slice.rows.orders.as_slice());
    let will_be_open = any_open(rows.demands.orders);
    if was_open || will_be_open {
        return replan_open(alloc, slice, gtin, day, rows);
    }
    Ok(none_replanned(alloc))
}

/// The same of an act that changes no more than what there is of the item, as a receipt does: `rows` are those of its supplies
/// after it. What is needed of it is told once.
pub fn replan_supplies(
    alloc: Global,
    slice: &Slice,
    gtin: &Gtin,
    rows: &SupplyRows<'_>,
) -> Result<Replanned, AllocError>
    ensures { IfOk result (λ r. r ≡ item_replanned slice.now slice.now.meta.day slice.now.rows.orders slice.now.rows.lines slice.now.rows.staged rows.now.lots.now rows.now.recalls.now rows.now.bins.now rows.now.stock.now rows.now.least.now slice.now.rows.urgents gtin.now) }
{
    if any_open(slice.rows.orders.as_slice()) {
        return replan_offered(alloc, slice, gtin, rows);
    }
    Ok(none_replanned(alloc))
}

// Whether one of the orders is open.
fn any_open(orders: &[OrderRow]) -> bool
    ensures { result ≡ list_any (λ o. is_open_state o.state) orders.now }
{
    for order in orders {
        if is_open(order.state) {
            return true;
        }
    }
    false
}

// Nothing is put and nothing dropped.
fn none_replanned(alloc: Global) -> Replanned
    ensures { result ≡ record { put = []; dropped = [] } }
{
    Replanned {
        put: Listed::from_vec(Vec::new(alloc)),
        dropped: Listed::from_vec(Vec::new(alloc)),
    }
}

// What rows tell of the demands for one item.
fn demands_on(alloc: Global, gtin: &Gtin, rows: &DemandRows<'_>) -> Result<Vec<Demand>, AllocError>
    ensures told { IfOk result (λ v. v.items ≡ item_demands gtin.now rows.now.lines.now rows.now.staged.now rows.now.urgents.now rows.now.orders.now) }
    ensures small { IfOk result (λ v. demand_total v.items ≤ SUM_MAX) }
{
    let indexed = demands_indexed(alloc, rows, 1)?;
    demands_of_item(alloc, gtin, &indexed)
}

// What rows tell of the supplies of one item on a day.
fn supplies_on(
    alloc: Global,
    day: BusinessDay,
    gtin: &Gtin,
    rows: &SupplyRows<'_>,
) -> Result<Vec<Supply>, AllocError>
    ensures told { IfOk result (λ v. v.items ≡ item_supplies gtin.now (earliest_seen day rows.now.least.now gtin.now) rows.now.recalls.now rows.now.bins.now rows.now.stock.now rows.now.lots.now) }
    ensures small { IfOk result (λ v. supply_total v.items ≤ SUM_MAX) }
{
    let indexed = supplies_indexed(alloc, day, rows, 1)?;
    supplies_of_item(alloc, gtin, &indexed)
}

// The plan before the act becomes the one after it.
fn replan_open(
    alloc: Global,
    slice: &Slice,
    gtin: &Gtin,
    day: BusinessDay,
    rows: &ItemRows<'_>,
) -> Result<Replanned, AllocError>
    ensures { IfOk result (λ r. r ≡ item_replanned slice.now day rows.now.demands.orders.now rows.now.demands.lines.now rows.now.demands.staged.now rows.now.supplies.lots.now rows.now.supplies.recalls.now rows.now.supplies.bins.now rows.now.supplies.stock.now rows.now.supplies.least.now rows.now.demands.urgents.now gtin.now) }
{
    let old = item_rows(&slice.rows);
    let wanted = demands_on(alloc, gtin, &old.demands)?;
    let offered = supplies_on(alloc, slice.meta.day, gtin, &old.supplies)?;
    let wants = demands_on(alloc, gtin, &rows.demands)?;
    let offers = supplies_on(alloc, day, gtin, &rows.supplies)?;
    let before = Told {
        orders: old.demands.orders,
        lots: old.supplies.lots,
        demands: wanted.as_slice(),
        supplies: offered.as_slice(),
    };
    let after = Told {
        orders: rows.demands.orders,
        lots: rows.supplies.lots,
        demands: wants.as_slice(),
        supplies: offers.as_slice(),
    };
    replan_told(alloc, gtin, &before, &after)
}

// The same where no more than what there is of the item changes.
fn replan_offered(
    alloc: Global,
    slice: &Slice,
    gtin: &Gtin,
    rows: &SupplyRows<'_>,
) -> Result<Replanned, AllocError>
    ensures { IfOk result (λ r. r ≡ item_replanned slice.now slice.now.meta.day slice.now.rows.orders slice.now.rows.lines slice.now.rows.staged rows.now.lots.now rows.now.recalls.now rows.now.bins.now rows.now.stock.now rows.now.least.now slice.now.rows.urgents gtin.now) }
{
    let old = item_rows(&slice.rows);
    let wanted = demands_on(alloc, gtin, &old.demands)?;
    let offered = supplies_on(alloc, slice.meta.day, gtin, &old.supplies)?;
    let offers = supplies_on(alloc, slice.meta.day, gtin, rows)?;
    let before = Told {
        orders: old.demands.orders,
        lots: old.supplies.lots,
        demands: wanted.as_slice(),
        supplies: offered.as_slice(),
    };
    let after = Told {
        lots: rows.lots,
        supplies: offers.as_slice(),
        ..before
    };
    replan_told(alloc, gtin, &before, &after)
}

// What there is of an item before an act, or after it: what its orders need, and what its lots have.
#[derive(Clone, Copy)]
struct Told<'a> {
    orders: &'a [OrderRow],
    lots: &'a [LotRow],
    demands: &'a [Demand],
    supplies: &'a [Supply],
}

fn replan_told(
    alloc: Global,
    gtin: &Gtin,
    before: &Told<'_>,
    after: &Told<'_>,
) -> Result<Replanned, AllocError>
    requires before { AreSmall before.now.demands.now before.now.supplies.now }
    requires after { AreSmall after.now.demands.now after.now.supplies.now }
    ensures { IfOk result (λ r. r ≡ replanned_from gtin.now before.now.orders.now before.now.lots.now before.now.demands.now before.now.supplies.now after.now.orders.now after.now.lots.now after.now.demands.now after.now.supplies.now) }
{
    let plans = plans_behind_cut(alloc, before, after)?;
    let olds = plans.before.as_slice();
    let news = plans.after.as_slice();
    replan_rows(alloc, gtin, before, olds, after, news)
}

// The rows of an item's plan before and after, where one demand stands for those of the cut.
#[derive(Drop)]
struct Plans {
    before: Vec<Row>,
    after: Vec<Row>,
}

fn plans_behind_cut(alloc: Global, before: &Told<'_>, after: &Told<'_>) -> Result<Plans, AllocError>
    requires before { AreSmall before.now.demands.now before.now.supplies.now }
    requires after { AreSmall after.now.demands.now after.now.supplies.now }
    ensures before { IfOk result (λ r. r.before.items ≡ rows_behind (cut_of before.now.demands.now before.now.supplies.now after.now.demands.now after.now.supplies.now) before.now.demands.now before.now.supplies.now) }
    ensures after { IfOk result (λ r. r.after.items ≡ rows_behind (cut_of before.now.demands.now before.now.supplies.now after.now.demands.now after.now.supplies.now) after.now.demands.now after.now.supplies.now) }
{
    let wanted = before.demands;
    let offered = before.supplies;
    let wants = after.demands;
    let offers = after.supplies;
    let kept = cut(wanted, offered, wants, offers);
    let old_demands = first_as_one(alloc, kept, wanted)?;
    let demands = first_as_one(alloc, kept, wants)?;
    let mut plan = whole(alloc, old_demands.as_slice(), offered)?;
    let before = rows_of(alloc, plan.rows())?;
    plan.replan(1, demands.as_slice(), offers)?;
    let after = rows_of(alloc, plan.rows())?;
    Ok(Plans { before, after })
}

fn rows_of(alloc: Global, rows: &[Row]) -> Result<Vec<Row>, AllocError>
    ensures { IfOk result (λ v. v.items ≡ rows.now) }
{
    let mut own = Vec::new(alloc);
    own.extend_from_slice(rows)?;
    Ok(own)
}

// What changes of an item's reserved rows where these are the rows of its plan before and after.
fn replan_rows(
    alloc: Global,
    gtin: &Gtin,
    before: &Told<'_>,
    olds: &[Row],
    after: &Told<'_>,
    news: &[Row],
) -> Result<Replanned, AllocError>
    ensures { IfOk result (λ r. r ≡ replanned_rows gtin.now before.now.orders.now before.now.lots.now olds.now after.now.orders.now after.now.lots.now news.now) }
{
    let gone = shares_apart(alloc, before, news, olds)?;
    let come = shares_apart(alloc, after, olds, news)?;
    shares_changed(alloc, gtin, gone.as_slice(), come.as_slice())
}

// The shares of the rows that are not among the others.
fn shares_apart(
    alloc: Global,
    told: &Told<'_>,
    others: &[Row],
    own: &[Row],
) -> Result<Vec<ReservedRow>, AllocError>
    ensures { IfOk result (λ v. v.items ≡ shares_apart_lem told.now.orders.now told.now.lots.now others.now own.now) }
{
    let apart = rows_apart(alloc, others, own)?;
    named_rows(alloc, told.orders, told.lots, apart.as_slice())
}

// The demands with one in the place of the first `count`.
fn first_as_one(alloc: Global, count: usize, demands: &[Demand]) -> Result<Vec<Demand>, AllocError>
    requires place { count ≤ length demands.now }
    requires small { demand_total demands.now ≤ SUM_MAX }
    ensures { IfOk result (λ v. v.items ≡ first_as_one_lem count demands.now) }
{
    let mut behind = Vec::new(alloc);
    behind.push(Demand {
        booking: 0,
        need: sum_of_needs(&demands[..count]),
    })?;
    behind.extend_from_slice(&demands[count..])?;
    Ok(behind)
}

// What changes of the reserved rows where an item has these before and those after.
fn shares_changed(
    alloc: Global,
    gtin: &Gtin,
    olds: &[ReservedRow],
    news: &[ReservedRow],
) -> Result<Replanned, AllocError>
    ensures { IfOk result (λ r. r ≡ shares_changed_lem gtin.now olds.now news.now) }
{
    let put = rows_to_put(alloc, olds, news)?;
    let dropped = rows_to_drop(alloc, gtin, olds, news)?;
    Ok(Replanned {
        put: Listed::from_vec(put),
        dropped: Listed::from_vec(dropped),
    })
}
