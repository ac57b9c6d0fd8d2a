//! The rows by which the lots in a bin are shown.

ghost use Rattle.std.specs.Prelude.{◌≡◌, IfOk};
ghost use Rattle.sqlite.specs.Held.{state};
ghost use Rattle.slices.specs.Reading.{IsRead};
ghost use Rattle.slices.specs.ByLot.{AreLotsOf};
ghost use Rattle.slices.specs.Remembering.{Learning};
ghost use Rattle.slices.specs.Slicing.{items_of_lots as items_of_lots_lem};
ghost use Rattle.queries.specs.ShownBin.{lots_of_stock as lots_of_stock_lem, AreStockAndLots, AreOfGoods, AreInBinRead, AreBehind};

use crate::query::Query;
use crate::reading::{bin_row, lot_row};
use commands::{BinRow, ItemRow, LeastRow, Listed, LotRow, MetaRow, RecallRow, Refusal, StockRow};
use label::BusinessDay;
use overviews::BinView;
use rows_in_memory::day_opening::items_of_lots;
use rows_in_memory::item_rows::of_item;
use rows_in_memory::key_list::KeyList;
use rules::Rows;
use slices::{
    Known, RowsKnown, known_meta, read_rows, seek_items, seek_least, seek_lots, seek_recalls,
};
use sqlite::{Alter, Transaction};
use std::alloc::{AllocError, Global};
use table_words::error::TableFault;
use tables::stock::Stock;
use values::{LotId, LotKey, Name};
use views::{bin_page, bin_view, page_of};

// What is in the bin

/// The lots of stock, each once.
fn lots_of_stock(alloc: Global, stock: &[StockRow]) -> Result<Vec<LotId>, AllocError>
    ensures { IfOk result (λ lots. lots.items ≡ lots_of_stock_lem stock.now) }
{
    let mut list = KeyList::<LotId, LotKey>::new(alloc);
    list.add_all(stock)?;
    Ok(list.into_values())
}

/// The rows of these lots.
fn read_lots_of<S: Alter>(
    alloc: Global,
    tx: &mut Transaction<'_, S>,
    rows: &mut RowsKnown,
    stock: &[StockRow],
) -> Result<Vec<LotRow>, TableFault>
    ensures same_reference { tx.new.conn.ghost_name ≡ tx.old.conn.ghost_name }
    ensures read { IsRead (Learning rows.old rows.new (λ t found. AreLotsOf (lots_of_stock_lem stock.now) t found.items)) (state S.Store tx.old.conn.now) (state S.Store tx.new.conn.now) result }
{
    let lots = lots_of_stock(alloc, stock)?;
    seek_lots(alloc, tx, rows, lots.as_slice())
}

/// The stock of a bin, and the lots of it.
#[derive(Drop)]
struct InBin {
    lots: Vec<LotRow>,
    stock: Vec<StockRow>,
}

fn read_in_bin<S: Alter>(
    alloc: Global,
    tx: &mut Transaction<'_, S>,
    rows: &mut RowsKnown,
    bin: &Name,
) -> Result<InBin, TableFault>
    ensures same_reference { tx.new.conn.ghost_name ≡ tx.old.conn.ghost_name }
    ensures read { IsRead (Learning rows.old rows.new (λ t found. AreStockAndLots bin.now t found.lots.items found.stock.items)) (state S.Store tx.old.conn.now) (state S.Store tx.new.conn.now) result }
{
    let stock = read_rows::<Stock, Name, S>(alloc, tx, bin)?;
    let lots = read_lots_of(alloc, tx, rows, stock.as_slice())?;
    Ok(InBin { lots, stock })
}

// The page

/// The items of lots, what they ask for, and their recalls.
#[derive(Drop)]
struct Goods {
    items: Vec<ItemRow>,
    least: Vec<LeastRow>,
    recalls: Vec<RecallRow>,
}

fn read_goods_of<S: Alter>(
    alloc: Global,
    tx: &mut Transaction<'_, S>,
    rows: &mut RowsKnown,
    lots: &[LotRow],
) -> Result<Goods, TableFault>
    ensures same_reference { tx.new.conn.ghost_name ≡ tx.old.conn.ghost_name }
    ensures read { IsRead (Learning rows.old rows.new (λ t found. AreOfGoods (items_of_lots_lem lots.now) t found.items.items found.least.items found.recalls.items)) (state S.Store tx.old.conn.now) (state S.Store tx.new.conn.now) result }
{
    let gtins = items_of_lots(alloc, lots)?;
    let items = seek_items(alloc, tx, rows, gtins.as_slice())?;
    let least = seek_least(alloc, tx, rows, gtins.as_slice())?;
    let recalls = seek_recalls(alloc, tx, rows, gtins.as_slice())?;
    Ok(Goods {
        items,
        least,
        recalls,
    })
}

/// The rows by which a page is shown.
fn with_stock(alloc: Global, goods: Goods, stock: Vec<StockRow>) -> Rows
    ensures same_items { result.items ≡ goods.items.items }
    ensures same_least { result.least ≡ goods.least.items }
    ensures same_recalls { result.recalls ≡ goods.recalls.items }
    ensures same_stock { result.stock ≡ stock.items }
{
    let Goods {
        items,
        least,
        recalls,
    } = goods;
    let rows = of_item(
        alloc,
        Vec::new(alloc),
        recalls,
        stock,
        Vec::new(alloc),
        Vec::new(alloc),
        least,
    );
    Rows {
        items: Listed::from_vec(items),
        ..rows
    }
}

/// The lots in a bin that stand behind the one that was seen last, the rows by which they are shown, and how many acts the
/// books are of.
fn read_listed<S: Alter>(
    alloc: Global,
    tx: &mut Transaction<'_, S>,
    rows: &mut RowsKnown,
    bin: &Name,
    seen: Option<LotRow>,
) -> Result<(MetaRow, (Vec<LotRow>, Rows)), TableFault>
    ensures same_reference { tx.new.conn.ghost_name ≡ tx.old.conn.ghost_name }
    ensures read { IsRead (Learning rows.old rows.new (λ t found. AreInBinRead bin.now seen t found.0 found.1.0.items found.1.1)) (state S.Store tx.old.conn.now) (state S.Store tx.new.conn.now) result }
{
    let found = read_in_bin(alloc, tx, rows, bin)?;
    let InBin { lots, stock } = found;
    let page = bin_page(alloc, bin, lots.as_slice(), stock.as_slice(), seen)?;
    let goods = read_goods_of(alloc, tx, rows, page_of(page.as_slice()))?;
    let meta = known_meta(alloc, tx, rows)?;
    Ok((meta, (page, with_stock(alloc, goods, stock))))
}

/// The same with the row of the bin, from the first lot or behind one, or the refusal where that is not known.
fn read_behind<S: Alter>(
    alloc: Global,
    tx: &mut Transaction<'_, S>,
    rows: &mut RowsKnown,
    bin: BinRow,
    behind: Option<LotId>,
) -> Result<Result<(BinRow, (MetaRow, (Vec<LotRow>, Rows))), Refusal>, TableFault>
    ensures same_reference { tx.new.conn.ghost_name ≡ tx.old.conn.ghost_name }
    ensures read { IsRead (Learning rows.old rows.new (λ t found. AreBehind bin behind t found)) (state S.Store tx.old.conn.now) (state S.Store tx.new.conn.now) result }
{
    match behind {
        None => {
            let found = read_listed(alloc, tx, rows, &bin.name, None)?;
            Ok(Ok((bin, found)))
        }
        Some(lot) => {
            let last = lot_row(alloc, tx, rows, &lot)?;
            match last {
                Some(seen) => {
                    let found = read_listed(alloc, tx, rows, &bin.name, Some(seen))?;
                    Ok(Ok((bin, found)))
                }
                None => Ok(Err(Refusal::UnknownLot)),
            }
        }
    }
}

/// The lots in a bin, from their first or behind a lot.
#[derive(Clone, Copy)]
pub struct BinQuery {
    pub bin: Name,
    pub behind: Option<LotId>,
}

impl Query for BinQuery {
    ghost use Rattle.overviews.specs.Shown.{bin_shown};
    ghost use Rattle.queries.specs.ShownBin.{IsBinIn, bin_refused};

    type Found = (BinRow, (MetaRow, (Vec<LotRow>, Rows)));

    type View = BinView;

    ghost is_in = { λ q t found. IsBinIn q.bin q.behind t found };

    ghost shown = { λ first acts q. bin_shown first acts q.bin q.behind };

    ghost refused = { λ first acts q why found. bin_refused first acts q.bin q.behind why found };

    fn read<S: Alter>(
        &self,
        alloc: Global,
        tx: &mut Transaction<'_, S>,
        _known: Option<&Known>,
        rows: &mut RowsKnown,
    ) -> Result<Result<(BinRow, (MetaRow, (Vec<LotRow>, Rows))), Refusal>, TableFault> {
        let found = bin_row(alloc, tx, rows, &self.bin)?;
        match found {
            Some(bin) => read_behind(alloc, tx, rows, bin, self.behind),
            None => Ok(Err(Refusal::UnknownBin)),
        }
    }

    fn view(
        &self,
        alloc: Global,
        day: BusinessDay,
        found: (BinRow, (MetaRow, (Vec<LotRow>, Rows))),
    ) -> Result<BinView, AllocError> {
        let (bin, read) = found;
        let (meta, listed) = read;
        let (page, rows) = listed;
        let view = bin_view(alloc, meta.acts, day, &bin, &rows, page.as_slice());
        // A call: dropped at the end of its scope it is dropped field by field (docs/GATE.md).
        drop(rows);
        view
    }
}
