//! Rows indexed by their texts, and what they tell of an item.

ghost use Rattle.std.specs.Prelude.{◌≡◌, ◌≤◌, IfOk};
ghost use Rattle.plan.specs.Overlap.{demand_total, supply_total};
ghost use Rattle.plan.specs.declared.TheConstants.{SUM_MAX};
ghost use Rattle.row_rules.specs.Indexed.{demands_of, supplies_of, demands_told, supplies_told};

use crate::demands::{cut_demands, demands_seen};
use crate::plans::{DemandRows, SupplyRows};
use crate::rows_by_key::{RowsByKey, by_key};
use crate::status::earliest_of;
use crate::supplies::{cut_supplies, supplies_seen};
use commands::{
    BinRow, LeastRow, LineRow, LotRow, OrderRow, RecallRow, StagedRow, StockRow, UrgentRow,
};
use label::BusinessDay;
use plan::{Demand, Supply};
use std::alloc::{AllocError, Global};
use values::{Gtin, LotId, Name};

/// The rows that tell the demands for items: lines, staged rows and those of urgent orders by their
/// orders.
#[derive(Drop)]
pub struct DemandsIndexed<'a> {
    pub orders: &'a [OrderRow],
    pub lines: RowsByKey<'a, (Name, Gtin), LineRow>,
    pub staged: RowsByKey<'a, (Name, Gtin), StagedRow>,
    pub urgents: RowsByKey<'a, Name, UrgentRow>,
}

/// The rows that tell the supplies of items on a day: recalls and stock by their lots, bins by their
/// names, lots and what is asked for by their items.
#[derive(Drop)]
pub struct SuppliesIndexed<'a> {
    pub day: BusinessDay,
    pub recalls: RowsByKey<'a, LotId, RecallRow>,
    pub bins: RowsByKey<'a, Name, BinRow>,
    pub stock: RowsByKey<'a, LotId, StockRow>,
    pub lots: RowsByKey<'a, Gtin, LotRow>,
    pub least: RowsByKey<'a, Gtin, LeastRow>,
}

/// The rows of demands indexed, once for as many items.
pub fn demands_indexed<'a>(
    alloc: Global,
    rows: &DemandRows<'a>,
    items: usize,
) -> Result<DemandsIndexed<'a>, AllocError>
    ensures { IfOk result (λ m. m ≡ demands_of rows.now) }
{
    let times = rows.orders.len().saturating_mul(items);
    let lines = by_key::<(Name, Gtin), LineRow>(alloc, rows.lines, times)?;
    let staged = by_key::<(Name, Gtin), StagedRow>(alloc, rows.staged, times)?;
    let urgents = by_key::<Name, UrgentRow>(alloc, rows.urgents, times)?;
    Ok(DemandsIndexed {
        orders: rows.orders,
        lines,
        staged,
        urgents,
    })
}

/// The rows of supplies indexed, once for as many items.
pub fn supplies_indexed<'a>(
    alloc: Global,
    day: BusinessDay,
    rows: &SupplyRows<'a>,
    items: usize,
) -> Result<SuppliesIndexed<'a>, AllocError>
    ensures { IfOk result (λ m. m ≡ supplies_of day rows.now) }
{
    let times = rows.lots.len().saturating_mul(items);
    let recalls = by_key::<LotId, RecallRow>(alloc, rows.recalls, times)?;
    let bins = by_key::<Name, BinRow>(alloc, rows.bins, rows.stock.len())?;
    let stock = by_key::<LotId, StockRow>(alloc, rows.stock, rows.lots.len())?;
    let lots = by_key::<Gtin, LotRow>(alloc, rows.lots, items)?;
    let least = by_key::<Gtin, LeastRow>(alloc, rows.least, items)?;
    Ok(SuppliesIndexed {
        day,
        recalls,
        bins,
        stock,
        lots,
        least,
    })
}

/// What these rows tell of the demands for an item, up to the limit of a list's sum.
pub fn demands_of_item(
    alloc: Global,
    gtin: &Gtin,
    indexed: &DemandsIndexed<'_>,
) -> Result<Vec<Demand>, AllocError>
    ensures told { IfOk result (λ v. v.items ≡ demands_told gtin.now indexed.now) }
    ensures small { IfOk result (λ v. demand_total v.items ≤ SUM_MAX) }
{
    let demands = demands_seen(
        alloc,
        gtin,
        &indexed.lines,
        &indexed.staged,
        &indexed.urgents,
        indexed.orders,
    )?;
    cut_demands(alloc, demands.as_slice())
}

/// What these rows tell of the supplies of an item, up to the limit of a list's sum.
pub fn supplies_of_item(
    alloc: Global,
    gtin: &Gtin,
    indexed: &SuppliesIndexed<'_>,
) -> Result<Vec<Supply>, AllocError>
    ensures told { IfOk result (λ v. v.items ≡ supplies_told gtin.now indexed.now) }
    ensures small { IfOk result (λ v. supply_total v.items ≤ SUM_MAX) }
{
    let from = earliest_of(indexed.day, indexed.least.find(gtin));
    let supplies = supplies_seen(
        alloc,
        gtin,
        from,
        &indexed.recalls,
        &indexed.bins,
        &indexed.stock,
        &indexed.lots,
    )?;
    cut_supplies(alloc, supplies.as_slice())
}
