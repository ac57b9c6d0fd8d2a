//! The rows by which the recall notice of a lot is shown.

ghost use Rattle.std.specs.Prelude.{◌≡◌, option_map};
ghost use Rattle.sqlite.specs.Held.{state};
ghost use Rattle.commands.specs.declared.rows.LotRow.{LotRow as LotRecord};
ghost use Rattle.slices.specs.Reading.{IsRead};
ghost use Rattle.slices.specs.Remembering.{Learning};
ghost use Rattle.queries.specs.ShownNotice.{head_of as head_of_lem, head_in};

use crate::query::Query;
use crate::reading::{item_row, lot_row};
use crate::shipped::read_shipments;
use commands::{ItemRow, Listed, LotRow, NoticeView, RecallRow, Refusal, ShippedUnits, StockRow};
use label::{BusinessDay, Day};
use row_rules::row_search::find_row;
use slices::{Known, RowsKnown, seek_recalls_of, seek_stock_of};
use sqlite::{Alter, Transaction};
use std::alloc::{AllocError, Global};
use table_words::error::TableFault;
use values::LotId;
use views::bins_of_lot;

// The item, and the day on which the lot expires

/// The recall of a lot, if there is one.
fn recall_row<S: Alter>(
    alloc: Global,
    tx: &mut Transaction<'_, S>,
    rows: &mut RowsKnown,
    lot: &LotId,
) -> Result<Option<RecallRow>, TableFault>
    ensures same_reference { tx.new.conn.ghost_name ≡ tx.old.conn.ghost_name }
    ensures read { IsRead (Learning rows.old rows.new (λ t row. row ≡ t.recall lot.now)) (state S.Store tx.old.conn.now) (state S.Store tx.new.conn.now) result }
{
    let recalls = seek_recalls_of(alloc, tx, rows, &lot.gtin)?;
    Ok(find_row(recalls.as_slice(), lot))
}

/// An item that is not known is refused, and then a lot that is not recalled.
fn head_of(
    item: Option<ItemRow>,
    recall: Option<RecallRow>,
    lot: Option<LotRow>,
) -> Result<(ItemRow, Option<Day>), Refusal>
    ensures { result ≡ head_of_lem item recall lot }
{
    match (item, recall) {
        (None, _) => Err(Refusal::UnknownItem),
        (Some(_), None) => Err(Refusal::NoNotice),
        (Some(item), Some(_)) => Ok((item, expiry_of(lot))),
    }
}

/// The day of expiry of a lot that came.
fn expiry_of(lot: Option<LotRow>) -> Option<Day>
    ensures { result ≡ option_map (λ (row : LotRecord). row.expiry) lot }
{
    match lot {
        Some(row) => Some(row.expiry),
        None => None,
    }
}

fn read_head<S: Alter>(
    alloc: Global,
    tx: &mut Transaction<'_, S>,
    rows: &mut RowsKnown,
    lot: &LotId,
) -> Result<Result<(ItemRow, Option<Day>), Refusal>, TableFault>
    ensures same_reference { tx.new.conn.ghost_name ≡ tx.old.conn.ghost_name }
    ensures read { IsRead (Learning rows.old rows.new (λ t head. head ≡ head_in t lot.now)) (state S.Store tx.old.conn.now) (state S.Store tx.new.conn.now) result }
{
    let item = item_row(alloc, tx, rows, &lot.gtin)?;
    let recall = recall_row(alloc, tx, rows, lot)?;
    let lot = lot_row(alloc, tx, rows, lot)?;
    Ok(head_of(item, recall, lot))
}

// The notice

/// What the recall notice of a lot is shown by.
#[derive(Drop)]
pub struct NoticeRows {
    item: ItemRow,
    expiry: Option<Day>,
    stock: Vec<StockRow>,
    // `None` where a line of the lot's card tells of no shipment, as in no books.
    shipments: Option<Vec<ShippedUnits>>,
}

/// The recall notice of a lot. `None` where rows that a line of the lot's card refers to are gone, as in no books.
#[derive(Clone, Copy)]
pub struct NoticeQuery {
    pub lot: LotId,
}

impl Query for NoticeQuery {
    ghost use Rattle.queries.specs.ShownNotice.{IsNoticeIn, whole_notice_shown};
    ghost use Rattle.queries.specs.Refused.{notice_refused};

    type Found = NoticeRows;

    type View = Option<NoticeView>;

    ghost is_in = { λ q t found. IsNoticeIn q.lot t found };

    ghost shown = { λ first acts q. whole_notice_shown first acts q.lot };

    ghost refused = { λ first acts q why found. notice_refused first acts q.lot why found };

    fn read<S: Alter>(
        &self,
        alloc: Global,
        tx: &mut Transaction<'_, S>,
        _known: Option<&Known>,
        rows: &mut RowsKnown,
    ) -> Result<Result<NoticeRows, Refusal>, TableFault> {
        let head = read_head(alloc, tx, rows, &self.lot)?;
        match head {
            Ok((item, expiry)) => {
                let stock = seek_stock_of(alloc, tx, rows, &self.lot)?;
                let shipments = read_shipments(alloc, tx, &self.lot)?;
                Ok(Ok(NoticeRows {
                    item,
                    expiry,
                    stock,
                    shipments,
                }))
            }
            Err(why) => Ok(Err(why)),
        }
    }

    fn view(
        &self,
        alloc: Global,
        _day: BusinessDay,
        found: NoticeRows,
    ) -> Result<Option<NoticeView>, AllocError> {
        let NoticeRows {
            item,
            expiry,
            stock,
            shipments,
        } = found;
        let bins = bins_of_lot(alloc, stock.as_slice(), &self.lot)?;
        match shipments {
            Some(shipments) => Ok(Some(NoticeView {
                item,
                lot: self.lot.lot,
                expiry,
                bins: Listed::from_vec(bins),
                shipments: Listed::from_vec(shipments),
            })),
            None => Ok(None),
        }
    }
}
