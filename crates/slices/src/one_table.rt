//! The reads of one table each.

ghost use Rattle.std.specs.Prelude.{◌≡◌, Some};
ghost use Rattle.sqlite.specs.Held.{state};
ghost use Rattle.table_words.specs.Typed.{same_item, item_key, same_bin, bin_key};
ghost use Rattle.commands.specs.declared.limits.TheConstants.{ITEMS_MAX, BINS_MAX};
ghost use Rattle.slices.specs.Bounding.{IsToldNumber};
ghost use Rattle.slices.specs.Reading.{IsCount, IsRead};

use crate::sought_rows::{read_row, read_rows};
use commands::limits::{BINS_MAX, ITEMS_MAX};
use commands::{LineRow, MetaRow};
use keyed_rows::reading::All;
use sqlite::{Alter, Transaction};
use std::alloc::Global;
use table_words::error::TableFault;
use tables::bins::Bins;
use tables::items::Items;
use tables::lines::Lines;
use tables::meta::meta_rows;
use values::{Gtin, Name};

/// The row of `meta`; `Foreign` also where there is none.
pub fn meta_row<S: Alter>(alloc: Global, tx: &mut Transaction<'_, S>) -> Result<MetaRow, TableFault>
    ensures same_reference { tx.new.conn.ghost_name ≡ tx.old.conn.ghost_name }
    ensures read { IsRead (λ t row. t.meta ≡ Some row) (state S.Store tx.old.conn.now) (state S.Store tx.new.conn.now) result }
{
    let rows = meta_rows(alloc, tx)?;
    match rows.as_slice().first() {
        Some(row) => Ok(*row),
        None => Err(TableFault::Foreign),
    }
}

/// The number of items.
fn count_items<S: Alter>(alloc: Global, tx: &mut Transaction<'_, S>) -> Result<u64, TableFault>
    ensures same_reference { tx.new.conn.ghost_name ≡ tx.old.conn.ghost_name }
    ensures read { IsRead (λ t count. IsCount same_item item_key t.item count) (state S.Store tx.old.conn.now) (state S.Store tx.new.conn.now) result }
{
    let rows = read_rows::<Items, All, S>(alloc, tx, &All)?;
    Ok(rows.len() as u64)
}

/// The number of bins.
fn count_bins<S: Alter>(alloc: Global, tx: &mut Transaction<'_, S>) -> Result<u64, TableFault>
    ensures same_reference { tx.new.conn.ghost_name ≡ tx.old.conn.ghost_name }
    ensures read { IsRead (λ t count. IsCount same_bin bin_key t.bin count) (state S.Store tx.old.conn.now) (state S.Store tx.new.conn.now) result }
{
    let rows = read_rows::<Bins, All, S>(alloc, tx, &All)?;
    Ok(rows.len() as u64)
}

/// The number of items that is known, where it is below the limit, and else as many as there are.
pub fn told_items<S: Alter>(
    alloc: Global,
    tx: &mut Transaction<'_, S>,
    known: u64,
) -> Result<u64, TableFault>
    ensures same_reference { tx.new.conn.ghost_name ≡ tx.old.conn.ghost_name }
    ensures read { IsRead (λ t n. IsToldNumber same_item item_key t.item ITEMS_MAX known n) (state S.Store tx.old.conn.now) (state S.Store tx.new.conn.now) result }
{
    if known < ITEMS_MAX {
        Ok(known)
    } else {
        count_items(alloc, tx)
    }
}

/// The number of bins that is known, where it is below the limit, and else as many as there are.
pub fn told_bins<S: Alter>(
    alloc: Global,
    tx: &mut Transaction<'_, S>,
    known: u64,
) -> Result<u64, TableFault>
    ensures same_reference { tx.new.conn.ghost_name ≡ tx.old.conn.ghost_name }
    ensures read { IsRead (λ t n. IsToldNumber same_bin bin_key t.bin BINS_MAX known n) (state S.Store tx.old.conn.now) (state S.Store tx.new.conn.now) result }
{
    if known < BINS_MAX {
        Ok(known)
    } else {
        count_bins(alloc, tx)
    }
}

/// The line of an order for an item, if there is one.
pub fn line_row<S: Alter>(
    alloc: Global,
    tx: &mut Transaction<'_, S>,
    order: &Name,
    gtin: &Gtin,
) -> Result<Option<LineRow>, TableFault>
    ensures same_reference { tx.new.conn.ghost_name ≡ tx.old.conn.ghost_name }
    ensures read { IsRead (λ t row. row ≡ t.line order.now gtin.now) (state S.Store tx.old.conn.now) (state S.Store tx.new.conn.now) result }
{
    read_row::<Lines, (Name, Gtin), S>(alloc, tx, &(*order, *gtin))
}
