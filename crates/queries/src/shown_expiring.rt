//! The rows by which lots that expire are shown.

ghost use Rattle.std.specs.Prelude.{◌≡◌, IfOk};
ghost use Rattle.sqlite.specs.Held.{state};
ghost use Rattle.slices.specs.Reading.{IsRead};
ghost use Rattle.slices.specs.ByLot.{AreLotsOf};
ghost use Rattle.slices.specs.Remembering.{Learning};
ghost use Rattle.slices.specs.Slicing.{items_of_lots as items_of_lots_lem};
ghost use Rattle.queries.specs.ShownExpiring.{AreAllStock, lots_in_house as lots_in_house_lem, AreHouse, AreOfItems, AreExpiring};

use crate::query::Query;
use crate::reading::lot_row;
use commands::{
    ItemRow, LeastRow, Listed, LotRow, MetaRow, RecallRow, Refusal, ReservedRow, StagedRow,
    StockRow,
};
use keyed_rows::reading::All;
use label::{BusinessDay, Day};
use overviews::ExpiringView;
use rows_in_memory::day_opening::items_of_lots;
use rows_in_memory::item_rows::of_item;
use rows_in_memory::key_list::KeyList;
use rules::Rows;
use slices::{
    Known, RowsKnown, known_meta, read_rows, seek_items, seek_least, seek_lots, seek_recalls,
    seek_reserved,
};
use sqlite::{Alter, Transaction};
use std::alloc::{AllocError, Global};
use table_words::error::TableFault;
use tables::staged::Staged;
use tables::stock::Stock;
use values::{LotId, LotKey};
use views::{expiring_page, expiring_view, page_of};
use whole_tables::all_rows;

// What is in the house

/// All stock.
fn read_all_stock<S: Alter>(
    alloc: Global,
    tx: &mut Transaction<'_, S>,
) -> Result<Vec<StockRow>, TableFault>
    ensures same_reference { tx.new.conn.ghost_name ≡ tx.old.conn.ghost_name }
    ensures read { IsRead (λ t rows. AreAllStock t rows.items) (state S.Store tx.old.conn.now) (state S.Store tx.new.conn.now) result }
{
    all_rows::<Stock, S>(alloc, tx)
}

/// The lots of stock and of what is staged, each once.
fn lots_in_house(
    alloc: Global,
    stock: &[StockRow],
    staged: &[StagedRow],
) -> Result<Vec<LotId>, AllocError>
    ensures { IfOk result (λ lots. lots.items ≡ lots_in_house_lem stock.now staged.now) }
{
    let mut list = KeyList::<LotId, LotKey>::new(alloc);
    list.add_all(stock)?;
    list.add_all(staged)?;
    Ok(list.into_values())
}

/// The rows of these lots.
fn read_house_lots<S: Alter>(
    alloc: Global,
    tx: &mut Transaction<'_, S>,
    rows: &mut RowsKnown,
    stock: &[StockRow],
    staged: &[StagedRow],
) -> Result<Vec<LotRow>, TableFault>
    ensures same_reference { tx.new.conn.ghost_name ≡ tx.old.conn.ghost_name }
    ensures read { IsRead (Learning rows.old rows.new (λ t found. AreLotsOf (lots_in_house_lem stock.now staged.now) t found.items)) (state S.Store tx.old.conn.now) (state S.Store tx.new.conn.now) result }
{
    let lots = lots_in_house(alloc, stock, staged)?;
    seek_lots(alloc, tx, rows, lots.as_slice())
}

/// All stock, all that is staged, and the lots of these.
#[derive(Drop)]
pub struct House {
    pub lots: Vec<LotRow>,
    pub stock: Vec<StockRow>,
    pub staged: Vec<StagedRow>,
}

pub fn read_house<S: Alter>(
    alloc: Global,
    tx: &mut Transaction<'_, S>,
    rows: &mut RowsKnown,
) -> Result<House, TableFault>
    ensures same_reference { tx.new.conn.ghost_name ≡ tx.old.conn.ghost_name }
    ensures read { IsRead (Learning rows.old rows.new (λ t house. AreHouse t house.lots.items house.stock.items house.staged.items)) (state S.Store tx.old.conn.now) (state S.Store tx.new.conn.now) result }
{
    let stock = read_all_stock(alloc, tx)?;
    let staged = read_rows::<Staged, All, S>(alloc, tx, &All)?;
    let lots = read_house_lots(alloc, tx, rows, stock.as_slice(), staged.as_slice())?;
    Ok(House {
        lots,
        stock,
        staged,
    })
}

// The page

/// The items of lots, what they ask for, their recalls, and what is reserved of them.
#[derive(Drop)]
struct Items {
    items: Vec<ItemRow>,
    least: Vec<LeastRow>,
    recalls: Vec<RecallRow>,
    reserved: Vec<ReservedRow>,
}

fn read_items_of<S: Alter>(
    alloc: Global,
    tx: &mut Transaction<'_, S>,
    rows: &mut RowsKnown,
    lots: &[LotRow],
) -> Result<Items, TableFault>
    ensures same_reference { tx.new.conn.ghost_name ≡ tx.old.conn.ghost_name }
    ensures read { IsRead (Learning rows.old rows.new (λ t found. AreOfItems (items_of_lots_lem lots.now) t found.items.items found.least.items found.recalls.items found.reserved.items)) (state S.Store tx.old.conn.now) (state S.Store tx.new.conn.now) result }
{
    let gtins = items_of_lots(alloc, lots)?;
    let items = seek_items(alloc, tx, rows, gtins.as_slice())?;
    let least = seek_least(alloc, tx, rows, gtins.as_slice())?;
    let recalls = seek_recalls(alloc, tx, rows, gtins.as_slice())?;
    let reserved = seek_reserved(alloc, tx, rows, gtins.as_slice())?;
    Ok(Items {
        items,
        least,
        recalls,
        reserved,
    })
}

/// The rows by which a page is shown.
fn with_house(alloc: Global, items: Items, stock: Vec<StockRow>, staged: Vec<StagedRow>) -> Rows
    ensures same_items { result.items ≡ items.items.items }
    ensures same_least { result.least ≡ items.least.items }
    ensures same_recalls { result.recalls ≡ items.recalls.items }
    ensures same_reserved { result.reserved ≡ items.reserved.items }
    ensures same_stock { result.stock ≡ stock.items }
    ensures same_staged { result.staged ≡ staged.items }
{
    let Items {
        items,
        least,
        recalls,
        reserved,
    } = items;
    let rows = of_item(
        alloc,
        Vec::new(alloc),
        recalls,
        stock,
        staged,
        reserved,
        least,
    );
    Rows {
        items: Listed::from_vec(items),
        ..rows
    }
}

/// The lots that expire up to a day and stand behind the one that was seen last, the rows by which they are shown, and how
/// many acts the books are of.
fn read_expiring<S: Alter>(
    alloc: Global,
    tx: &mut Transaction<'_, S>,
    rows: &mut RowsKnown,
    day: Day,
    seen: Option<LotRow>,
) -> Result<(MetaRow, (Vec<LotRow>, Rows)), TableFault>
    ensures same_reference { tx.new.conn.ghost_name ≡ tx.old.conn.ghost_name }
    ensures read { IsRead (Learning rows.old rows.new (λ t found. AreExpiring day seen t found.0 found.1.0.items found.1.1)) (state S.Store tx.old.conn.now) (state S.Store tx.new.conn.now) result }
{
    let house = read_house(alloc, tx, rows)?;
    let House {
        lots,
        stock,
        staged,
    } = house;
    let page = expiring_page(
        alloc,
        day,
        lots.as_slice(),
        stock.as_slice(),
        staged.as_slice(),
        seen,
    )?;
    let items = read_items_of(alloc, tx, rows, page_of(page.as_slice()))?;
    let meta = known_meta(alloc, tx, rows)?;
    Ok((meta, (page, with_house(alloc, items, stock, staged))))
}

/// The lots that expire up to a day, from their first or behind a lot.
#[derive(Clone, Copy)]
pub struct ExpiringQuery {
    pub day: BusinessDay,
    pub behind: Option<LotId>,
}

impl Query for ExpiringQuery {
    ghost use Rattle.overviews.specs.Shown.{expiring_shown};
    ghost use Rattle.queries.specs.ShownExpiring.{AreExpiringIn, expiring_refused};

    type Found = (MetaRow, (Vec<LotRow>, Rows));

    type View = ExpiringView;

    ghost is_in = { λ q t found. AreExpiringIn q.day q.behind t found };

    ghost shown = { λ first acts q. expiring_shown first acts q.day q.behind };

    ghost refused = { λ first acts q why found. expiring_refused first acts q.day q.behind why found };

    fn read<S: Alter>(
        &self,
        alloc: Global,
        tx: &mut Transaction<'_, S>,
        _known: Option<&Known>,
        rows: &mut RowsKnown,
    ) -> Result<Result<(MetaRow, (Vec<LotRow>, Rows)), Refusal>, TableFault> {
        let day = self.day.day();
        match self.behind {
            None => {
                let found = read_expiring(alloc, tx, rows, day, None)?;
                Ok(Ok(found))
            }
            Some(lot) => {
                let last = lot_row(alloc, tx, rows, &lot)?;
                match last {
                    Some(seen) => {
                        let found = read_expiring(alloc, tx, rows, day, Some(seen))?;
                        Ok(Ok(found))
                    }
                    None => Ok(Err(Refusal::UnknownLot)),
                }
            }
        }
    }

    fn view(
        &self,
        alloc: Global,
        day: BusinessDay,
        found: (MetaRow, (Vec<LotRow>, Rows)),
    ) -> Result<ExpiringView, AllocError> {
        let (meta, listed) = found;
        let (page, rows) = listed;
        let view = expiring_view(alloc, meta.acts, day, &rows, page.as_slice());
        // A call: dropped at the end of its scope it is dropped field by field (docs/GATE.md).
        drop(rows);
        view
    }
}
