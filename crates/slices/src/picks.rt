//! The rows that a pick is decided by.

ghost use Rattle.std.specs.Prelude.{◌≡◌};
ghost use Rattle.sqlite.specs.Held.{state};
ghost use Rattle.slices.specs.Reading.{IsRead};
ghost use Rattle.slices.specs.Remembering.{Learning};
ghost use Rattle.slices.specs.Slicing.{AreGoodsIn, AreOrderOf, AreSharesOf, ArePicked};

use crate::known_followed::{seek_reserved_of, seek_staged_of, seek_stock_of};
use crate::known_goods::{seek_bin, seek_item, seek_least_of, seek_lot, seek_recalls_of};
use crate::known_lists::{seek_line, seek_order};
use crate::rows_known::RowsKnown;
use crate::slice_rows::{Goods, Ordered, Shares, rows_read};
use commands::Picking;
use rules::Rows;
use sqlite::{Alter, Transaction};
use std::alloc::Global;
use table_words::error::TableFault;
use values::{Gtin, LotId, Name};

/// The item of the lot with the days that it asks for and its recalls, the lot with its stock, and the bin.
fn read_goods<S: Alter>(
    alloc: Global,
    tx: &mut Transaction<'_, S>,
    rows: &mut RowsKnown,
    lot: &LotId,
    bin: &Name,
) -> Result<Goods, TableFault>
    ensures same_reference { tx.new.conn.ghost_name ≡ tx.old.conn.ghost_name }
    ensures read { IsRead (Learning rows.old rows.new (λ t goods. AreGoodsIn lot.now bin.now t goods.items.items goods.least.items goods.bins.items goods.lots.items goods.recalls.items goods.stock.items)) (state S.Store tx.old.conn.now) (state S.Store tx.new.conn.now) result }
{
    let items = seek_item(alloc, tx, rows, &lot.gtin)?;
    let least = seek_least_of(alloc, tx, rows, &lot.gtin)?;
    let lots = seek_lot(alloc, tx, rows, lot)?;
    let recalls = seek_recalls_of(alloc, tx, rows, &lot.gtin)?;
    let stock = seek_stock_of(alloc, tx, rows, lot)?;
    let bins = seek_bin(alloc, tx, rows, bin)?;
    Ok(Goods {
        items,
        least,
        bins,
        lots,
        recalls,
        stock,
    })
}

/// The order, and its line of the item. Whether it is urgent is not asked.
fn read_order<S: Alter>(
    alloc: Global,
    tx: &mut Transaction<'_, S>,
    rows: &mut RowsKnown,
    order: &Name,
    gtin: &Gtin,
) -> Result<Ordered, TableFault>
    ensures same_reference { tx.new.conn.ghost_name ≡ tx.old.conn.ghost_name }
    ensures read { IsRead (Learning rows.old rows.new (λ t ordered. AreOrderOf order.now gtin.now t ordered.orders.items ordered.urgents.items ordered.lines.items)) (state S.Store tx.old.conn.now) (state S.Store tx.new.conn.now) result }
{
    let orders = seek_order(alloc, tx, rows, order)?;
    let lines = seek_line(alloc, tx, rows, &(*order, *gtin))?;
    Ok(Ordered {
        orders,
        urgents: Vec::new(alloc),
        lines,
    })
}

/// What is staged and what is reserved of the lot for the order.
fn read_shares<S: Alter>(
    alloc: Global,
    tx: &mut Transaction<'_, S>,
    rows: &mut RowsKnown,
    order: &Name,
    lot: &LotId,
) -> Result<Shares, TableFault>
    ensures same_reference { tx.new.conn.ghost_name ≡ tx.old.conn.ghost_name }
    ensures read { IsRead (Learning rows.old rows.new (λ t shares. AreSharesOf order.now lot.now t shares.staged.items shares.reserved.items)) (state S.Store tx.old.conn.now) (state S.Store tx.new.conn.now) result }
{
    let key = (*order, *lot);
    let staged = seek_staged_of(alloc, tx, rows, &key)?;
    let reserved = seek_reserved_of(alloc, tx, rows, &key)?;
    Ok(Shares { staged, reserved })
}

/// What the pick names, each by its key. It takes units from its own reservation and changes no plan beside, so nothing
/// is read of the item's other lots and open orders.
pub fn read_pick<S: Alter>(
    alloc: Global,
    tx: &mut Transaction<'_, S>,
    rows: &mut RowsKnown,
    p: &Picking,
) -> Result<Rows, TableFault>
    ensures same_reference { tx.new.conn.ghost_name ≡ tx.old.conn.ghost_name }
    ensures read { IsRead (Learning rows.old rows.new (λ t found. ArePicked p.now t found)) (state S.Store tx.old.conn.now) (state S.Store tx.new.conn.now) result }
{
    let goods = read_goods(alloc, tx, rows, &p.lot, &p.bin)?;
    let ordered = read_order(alloc, tx, rows, &p.order, &p.lot.gtin)?;
    let shares = read_shares(alloc, tx, rows, &p.order, &p.lot)?;
    Ok(rows_read(goods, ordered, shares))
}
