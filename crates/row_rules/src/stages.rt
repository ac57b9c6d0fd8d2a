//! The units of a lot that are staged or reserved for an order.

ghost use Rattle.std.specs.Prelude.{◌≡◌, IfOk};
ghost use Rattle.row_rules.specs.SeenStages.{reserved_qty as reserved_qty_lem, reserved_found as reserved_found_lem, reserved_put as reserved_put_lem, staged_qty as staged_qty_lem, staged_found as staged_found_lem};

use crate::row_search::find_row;
use commands::{ReservedRow, StagedRow};
use std::alloc::{AllocError, Global};
use values::{LotId, Name};

/// The units of a lot that rows have reserved for an order.
pub fn reserved_units(rows: &[ReservedRow], order: &Name, lot: &LotId) -> u64
    ensures { result ≡ reserved_qty_lem (reserved_found_lem rows.now order.now lot.now) }
{
    reserved_qty(find_row(rows, &(*order, *lot)))
}

/// The units of a reserved row, if there is one.
pub fn reserved_qty(row: Option<ReservedRow>) -> u64
    ensures { result ≡ reserved_qty_lem row }
{
    match row {
        None => 0,
        Some(r) => r.qty,
    }
}

/// The reserved row that is put where so many units of a lot stay reserved for an order.
pub fn reserved_put(
    alloc: Global,
    order: &Name,
    lot: &LotId,
    qty: u64,
) -> Result<Vec<ReservedRow>, AllocError>
    ensures { IfOk result (λ v. v.items ≡ reserved_put_lem order.now lot.now qty) }
{
    let mut put = Vec::new(alloc);
    if qty != 0 {
        put.push(ReservedRow {
            order: *order,
            lot: *lot,
            qty,
        })?;
    }
    Ok(put)
}

/// The units of a lot that rows have staged for an order.
pub fn staged_units(rows: &[StagedRow], order: &Name, lot: &LotId) -> u64
    ensures { result ≡ staged_qty_lem (staged_found_lem rows.now order.now lot.now) }
{
    staged_qty(find_row(rows, &(*order, *lot)))
}

/// The units of a staged row, if there is one.
pub fn staged_qty(row: Option<StagedRow>) -> u64
    ensures { result ≡ staged_qty_lem row }
{
    match row {
        None => 0,
        Some(r) => r.qty,
    }
}
