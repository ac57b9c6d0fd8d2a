//! The units of a lot in a bin, and the stock rows where these have changed.

ghost use Rattle.std.specs.Prelude.{◌≡◌, IfOk};
ghost use Rattle.row_rules.specs.Seen.{stock_qty};
ghost use Rattle.row_rules.specs.SeenLots.{sees_lot as sees_lot_lem, stock_found as stock_found_lem, in_bin_seen, stock_put as stock_put_lem, stock_rows_with as stock_rows_with_lem};

use crate::Slice;
use crate::row_search::{find_row, rows_without};
use commands::StockRow;
use std::alloc::{AllocError, Global};
use values::{LotId, Name};

/// Whether the slice has the lot.
pub fn sees_lot(slice: &Slice, lot: &LotId) -> bool
    ensures { result ≡ sees_lot_lem slice.now lot.now }
{
    find_row(slice.rows.lots.as_slice(), lot).is_some()
}

/// The units of a lot in a bin.
pub fn units_in_bin(slice: &Slice, bin: &Name, lot: &LotId) -> u64
    ensures { result ≡ in_bin_seen slice.now bin.now lot.now }
{
    units_among(slice.rows.stock.as_slice(), lot, bin)
}

/// The units of a lot in a bin, as these rows tell.
pub fn units_among(rows: &[StockRow], lot: &LotId, bin: &Name) -> u64
    ensures { result ≡ stock_qty (stock_found_lem rows.now lot.now bin.now) }
{
    units_of(find_row(rows, &(*lot, *bin)))
}

/// The units of a stock row, if there is one.
pub fn units_of(row: Option<StockRow>) -> u64
    ensures { result ≡ stock_qty row }
{
    match row {
        None => 0,
        Some(r) => r.qty,
    }
}

/// The stock row that is put where a lot has so many units in a bin.
pub fn stock_put(
    alloc: Global,
    lot: &LotId,
    bin: &Name,
    qty: u64,
) -> Result<Vec<StockRow>, AllocError>
    ensures { IfOk result (λ v. v.items ≡ stock_put_lem lot.now bin.now qty) }
{
    let mut put = Vec::new(alloc);
    if qty != 0 {
        put.push(StockRow {
            lot: *lot,
            bin: *bin,
            qty,
        })?;
    }
    Ok(put)
}

/// The stock rows, where a lot has so many units in a bin.
pub fn stock_rows_with(
    alloc: Global,
    rows: &[StockRow],
    lot: &LotId,
    bin: &Name,
    qty: u64,
) -> Result<Vec<StockRow>, AllocError>
    ensures { IfOk result (λ v. v.items ≡ stock_rows_with_lem lot.now bin.now qty rows.now) }
{
    let mut after = stock_put(alloc, lot, bin, qty)?;
    let others = rows_without(alloc, rows, &(*lot, *bin))?;
    after.extend_from_slice(others.as_slice())?;
    Ok(after)
}
