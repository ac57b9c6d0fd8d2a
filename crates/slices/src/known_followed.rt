//! Rows that follow what is written, from what is known of them, and from the tables where nothing is.

ghost use Rattle.std.specs.Prelude.{◌≡◌, ⊤, Some, filter, IfOk};
ghost use Rattle.sqlite.specs.Held.{state};
ghost use Rattle.table_words.specs.Typed.{same_lot_id};
ghost use Rattle.tables.specs.Stock.{AreStockOf, AreStockOfLot};
ghost use Rattle.tables.specs.Reserved.{AreReservedOf, AreReservedOfItem, AreReservedOfOrder};
ghost use Rattle.tables.specs.Staged.{AreStagedOf, AreStagedOfOrder};
ghost use Rattle.slices.specs.Reading.{Each, IsRead};
ghost use Rattle.slices.specs.Remembering.{Learning};
ghost use Rattle.slices.specs.Slicing.{AreStaged};

use crate::one_table::meta_row;
use crate::rows_known::RowsKnown;
use crate::sought_rows::read_rows;
use crate::{seek_all_known, seek_known};
use commands::{MetaRow, ReservedRow, StagedRow, StockRow};
use keyed_rows::reading::All;
use row_rules::row_search::rows_with;
use sqlite::{Alter, Transaction};
use std::alloc::{AllocError, Global};
use table_words::error::TableFault;
use tables::reserved::Reserved;
use tables::staged::Staged;
use tables::stock::Stock;
use values::{Gtin, LotId, Name, TextKey};

/// The stock of items, one after another.
pub fn seek_stock<S: Alter>(
    alloc: Global,
    tx: &mut Transaction<'_, S>,
    rows: &mut RowsKnown,
    gtins: &[Gtin],
) -> Result<Vec<StockRow>, TableFault>
    ensures same_reference { tx.new.conn.ghost_name ≡ tx.old.conn.ghost_name }
    ensures read { IsRead (Learning rows.old rows.new (λ t found. Each (λ g found_rows. AreStockOf g t found_rows) gtins.now found.items)) (state S.Store tx.old.conn.now) (state S.Store tx.new.conn.now) result }
{
    seek_all_known::<Stock, Gtin, TextKey, S>(alloc, tx, &mut rows.followed.stock, gtins)
}

// The units of a lot among these.
fn units_of(alloc: Global, lot: &LotId, stock: &[StockRow]) -> Result<Vec<StockRow>, AllocError>
    ensures { IfOk result (λ rows. rows.items ≡ filter (λ r. same_lot_id lot.now r.lot) stock.now) }
{
    let mut rows = Vec::new(alloc);
    for row in stock {
        if *lot == row.lot {
            rows.push(*row)?;
        }
    }
    Ok(rows)
}

/// The stock of a lot: that of its item has it, where it is known.
pub fn seek_stock_of<S: Alter>(
    alloc: Global,
    tx: &mut Transaction<'_, S>,
    rows: &RowsKnown,
    lot: &LotId,
) -> Result<Vec<StockRow>, TableFault>
    ensures same_reference { tx.new.conn.ghost_name ≡ tx.old.conn.ghost_name }
    ensures read { IsRead (Learning rows.now rows.now (λ t found. AreStockOfLot lot.now t found.items)) (state S.Store tx.old.conn.now) (state S.Store tx.new.conn.now) result }
{
    if let Some(known) = rows.followed.stock.rows_of(&lot.gtin) {
        let units = units_of(alloc, lot, known)?;
        return Ok(units);
    }
    read_rows::<Stock, LotId, S>(alloc, tx, lot)
}

/// The stock of lots, one after another.
pub fn seek_stock_of_lots<S: Alter>(
    alloc: Global,
    tx: &mut Transaction<'_, S>,
    rows: &RowsKnown,
    lots: &[LotId],
) -> Result<Vec<StockRow>, TableFault>
    ensures same_reference { tx.new.conn.ghost_name ≡ tx.old.conn.ghost_name }
    ensures read { IsRead (Learning rows.now rows.now (λ t found. Each (λ l found_rows. AreStockOfLot l t found_rows) lots.now found.items)) (state S.Store tx.old.conn.now) (state S.Store tx.new.conn.now) result }
{
    let mut found = Vec::new(alloc);
    for lot in lots {
        let units = seek_stock_of(alloc, tx, rows, lot)?;
        found.extend_from_slice(units.as_slice())?;
    }
    Ok(found)
}

// Where it is wanted, all that is staged is known by the item and by the order from then on, if it is not too much.
fn know_staged<S: Alter>(
    alloc: Global,
    tx: &mut Transaction<'_, S>,
    rows: &mut RowsKnown,
    is_wanted: bool,
) -> Result<(), TableFault>
    ensures same_reference { tx.new.conn.ghost_name ≡ tx.old.conn.ghost_name }
    ensures read { IsRead (Learning rows.old rows.new (λ t u. ⊤)) (state S.Store tx.old.conn.now) (state S.Store tx.new.conn.now) result }
{
    if is_wanted {
        let found = read_rows::<Staged, All, S>(alloc, tx, &All)?;
        let all = found.as_slice();
        rows.followed.staged.keep_all(all);
        rows.followed.staged_for.keep_all(all);
    }
    Ok(())
}

/// What is staged of items, one after another: no index serves such reads, so all of it is known first.
pub fn seek_staged<S: Alter>(
    alloc: Global,
    tx: &mut Transaction<'_, S>,
    rows: &mut RowsKnown,
    gtins: &[Gtin],
) -> Result<Vec<StagedRow>, TableFault>
    ensures same_reference { tx.new.conn.ghost_name ≡ tx.old.conn.ghost_name }
    ensures read { IsRead (Learning rows.old rows.new (λ t found. AreStaged gtins.now t found.items)) (state S.Store tx.old.conn.now) (state S.Store tx.new.conn.now) result }
{
    let is_wanted = rows.followed.staged.wants_all();
    know_staged(alloc, tx, rows, is_wanted)?;
    seek_all_known::<Staged, Gtin, TextKey, S>(alloc, tx, &mut rows.followed.staged, gtins)
}

/// What is staged for an order, among all that is staged.
pub fn seek_staged_for<S: Alter>(
    alloc: Global,
    tx: &mut Transaction<'_, S>,
    rows: &mut RowsKnown,
    order: &Name,
) -> Result<Vec<StagedRow>, TableFault>
    ensures same_reference { tx.new.conn.ghost_name ≡ tx.old.conn.ghost_name }
    ensures read { IsRead (Learning rows.old rows.new (λ t found. AreStagedOfOrder order.now t found.items)) (state S.Store tx.old.conn.now) (state S.Store tx.new.conn.now) result }
{
    let is_wanted = rows.followed.staged_for.wants_all();
    know_staged(alloc, tx, rows, is_wanted)?;
    seek_known::<Staged, Name, TextKey, S>(alloc, tx, &mut rows.followed.staged_for, order)
}

/// What is staged of a lot for an order, among all that is staged for the order.
pub fn seek_staged_of<S: Alter>(
    alloc: Global,
    tx: &mut Transaction<'_, S>,
    rows: &mut RowsKnown,
    key: &(Name, LotId),
) -> Result<Vec<StagedRow>, TableFault>
    ensures same_reference { tx.new.conn.ghost_name ≡ tx.old.conn.ghost_name }
    ensures read { IsRead (Learning rows.old rows.new (λ t found. AreStagedOf key.now t found.items)) (state S.Store tx.old.conn.now) (state S.Store tx.new.conn.now) result }
{
    let stage = seek_staged_for(alloc, tx, rows, &key.0)?;
    let own = rows_with(alloc, stage.as_slice(), key)?;
    Ok(own)
}

// Where it is wanted, all that is reserved is known by the item and by the order from then on, if it is not too much.
fn know_reserved<S: Alter>(
    alloc: Global,
    tx: &mut Transaction<'_, S>,
    rows: &mut RowsKnown,
    is_wanted: bool,
) -> Result<(), TableFault>
    ensures same_reference { tx.new.conn.ghost_name ≡ tx.old.conn.ghost_name }
    ensures read { IsRead (Learning rows.old rows.new (λ t u. ⊤)) (state S.Store tx.old.conn.now) (state S.Store tx.new.conn.now) result }
{
    if is_wanted {
        let found = read_rows::<Reserved, All, S>(alloc, tx, &All)?;
        let all = found.as_slice();
        rows.followed.reserved.keep_all(all);
        rows.followed.reserved_for.keep_all(all);
    }
    Ok(())
}

/// What is reserved of items, one after another: no index serves such reads, so all of it is known first.
pub fn seek_reserved<S: Alter>(
    alloc: Global,
    tx: &mut Transaction<'_, S>,
    rows: &mut RowsKnown,
    gtins: &[Gtin],
) -> Result<Vec<ReservedRow>, TableFault>
    ensures same_reference { tx.new.conn.ghost_name ≡ tx.old.conn.ghost_name }
    ensures read { IsRead (Learning rows.old rows.new (λ t found. Each (λ g found_rows. AreReservedOfItem g t found_rows) gtins.now found.items)) (state S.Store tx.old.conn.now) (state S.Store tx.new.conn.now) result }
{
    let is_wanted = rows.followed.reserved.wants_all();
    know_reserved(alloc, tx, rows, is_wanted)?;
    seek_all_known::<Reserved, Gtin, TextKey, S>(alloc, tx, &mut rows.followed.reserved, gtins)
}

/// What is reserved for an order, among all that is reserved.
pub fn seek_reserved_for<S: Alter>(
    alloc: Global,
    tx: &mut Transaction<'_, S>,
    rows: &mut RowsKnown,
    order: &Name,
) -> Result<Vec<ReservedRow>, TableFault>
    ensures same_reference { tx.new.conn.ghost_name ≡ tx.old.conn.ghost_name }
    ensures read { IsRead (Learning rows.old rows.new (λ t found. AreReservedOfOrder order.now t found.items)) (state S.Store tx.old.conn.now) (state S.Store tx.new.conn.now) result }
{
    let is_wanted = rows.followed.reserved_for.wants_all();
    know_reserved(alloc, tx, rows, is_wanted)?;
    seek_known::<Reserved, Name, TextKey, S>(alloc, tx, &mut rows.followed.reserved_for, order)
}

/// What is reserved of a lot for an order, among all that is reserved for the order.
pub fn seek_reserved_of<S: Alter>(
    alloc: Global,
    tx: &mut Transaction<'_, S>,
    rows: &mut RowsKnown,
    key: &(Name, LotId),
) -> Result<Vec<ReservedRow>, TableFault>
    ensures same_reference { tx.new.conn.ghost_name ≡ tx.old.conn.ghost_name }
    ensures read { IsRead (Learning rows.old rows.new (λ t found. AreReservedOf key.now t found.items)) (state S.Store tx.old.conn.now) (state S.Store tx.new.conn.now) result }
{
    let reserved = seek_reserved_for(alloc, tx, rows, &key.0)?;
    let own = rows_with(alloc, reserved.as_slice(), key)?;
    Ok(own)
}

/// The row of `meta`; `Foreign` also where there is none.
pub fn known_meta<S: Alter>(
    alloc: Global,
    tx: &mut Transaction<'_, S>,
    rows: &mut RowsKnown,
) -> Result<MetaRow, TableFault>
    ensures same_reference { tx.new.conn.ghost_name ≡ tx.old.conn.ghost_name }
    ensures read { IsRead (Learning rows.old rows.new (λ t row. t.meta ≡ Some row)) (state S.Store tx.old.conn.now) (state S.Store tx.new.conn.now) result }
{
    if let Some(row) = rows.followed.meta {
        return Ok(row);
    }
    let row = meta_row(alloc, tx)?;
    rows.followed.know_meta(&row);
    Ok(row)
}
