//! What an act changes that posts once at most.

ghost use Rattle.std.specs.Prelude.{◌≡◌, None, IfOk};
ghost use Rattle.rules.specs.Told.{told_once, shelf_of, keys_of};
ghost use Rattle.rules.specs.Shelf.{rows_put as rows_put_lem, rows_gone as rows_gone_lem};
ghost use Rattle.row_rules.specs.Seen.{none_put as none_put_lem};
ghost use Rattle.rules.specs.PostedChanges.{no_facts as no_facts_lem, stock_after, staged_after, replanned_by, changes_by as changes_by_lem, bins_changes};

use crate::posting::{Place, Posting};
use crate::shelf::{Held, keys_posted, rows_gone, rows_posted, rows_put};
use commands::{CardRow, Listed, LotRow, ReservedRow, Short, StagedRow, StockRow};
use row_rules::change_parts::{meta_next, none_put, plain_reply};
use row_rules::plans::{SupplyRows, item_rows};
use row_rules::replanning::{Replanned, replan_supplies};
use row_rules::same::Same;
use row_rules::{Change, Dropped, Put, Slice};
use std::alloc::{AllocError, Global};
use values::{Gtin, LotId, Name};

/// One posting, or none of no units.
pub fn posted_once(lot: &LotId, from: Place, to: Place, qty: u64) -> Option<Posting>
    ensures { result ≡ told_once lot.now from to qty }
{
    if qty == 0 {
        return None;
    }
    Some(Posting {
        lot: *lot,
        from,
        to,
        qty,
    })
}

/// What an act makes known beside its posting.
#[derive(Drop)]
pub struct Facts {
    /// The rows of lots that it puts.
    pub lots: Listed<LotRow>,
    pub cards: Listed<CardRow>,
    /// The reply.
    pub text: Short,
}

/// Nothing but the number in the reply.
pub fn no_facts(alloc: Global, slice: &Slice) -> Facts
    ensures { result ≡ no_facts_lem slice.now }
{
    Facts {
        lots: Listed::from_vec(Vec::new(alloc)),
        cards: Listed::from_vec(Vec::new(alloc)),
        text: plain_reply(slice),
    }
}

/// The stock rows after a posting.
pub fn stock_posted(
    alloc: Global,
    slice: &Slice,
    posting: &Option<Posting>,
) -> Result<Vec<StockRow>, AllocError>
    ensures { IfOk result (λ v. v.items ≡ stock_after slice.now posting.now) }
{
    rows_posted::<(LotId, Name), StockRow>(alloc, slice.rows.stock.as_slice(), posting)
}

/// The staged rows after a posting.
pub fn staged_posted(
    alloc: Global,
    slice: &Slice,
    posting: &Option<Posting>,
) -> Result<Vec<StagedRow>, AllocError>
    ensures { IfOk result (λ v. v.items ≡ staged_after slice.now posting.now) }
{
    rows_posted::<(Name, LotId), StagedRow>(alloc, slice.rows.staged.as_slice(), posting)
}

// The rows put and dropped under the keys that a posting names.
#[derive(Drop)]
struct MovedRows<R: Copy> {
    put: Vec<R>,
    gone: Vec<R>,
}

fn moved<K: Same, R: Held<K>>(
    alloc: Global,
    posting: &Option<Posting>,
    before: &[R],
    after: &[R],
) -> Result<MovedRows<R>, AllocError>
    ensures put { IfOk result (λ m. m.put.items ≡ rows_put_lem (shelf_of K.same R.of_row R.row_of R.units R.key_at) (keys_of (shelf_of K.same R.of_row R.row_of R.units R.key_at) posting.now) after.now) }
    ensures gone { IfOk result (λ m. m.gone.items ≡ rows_gone_lem (shelf_of K.same R.of_row R.row_of R.units R.key_at) (keys_of (shelf_of K.same R.of_row R.row_of R.units R.key_at) posting.now) before.now after.now) }
{
    let keys = keys_posted::<K, R>(alloc, posting)?;
    let put = rows_put(alloc, keys.as_slice(), after)?;
    let gone = rows_gone(alloc, keys.as_slice(), before, after)?;
    Ok(MovedRows { put, gone })
}

// The rows put.
fn rows_of(
    alloc: Global,
    lots: Listed<LotRow>,
    stock: Vec<StockRow>,
    staged: Vec<StagedRow>,
    reserved: Listed<ReservedRow>,
    cards: Listed<CardRow>,
) -> Put
    ensures { result ≡ record none_put_lem { lots = lots; stock = stock.items; staged = staged.items; reserved = reserved; cards = cards } }
{
    Put {
        lots,
        stock: Listed::from_vec(stock),
        staged: Listed::from_vec(staged),
        reserved,
        cards,
        ..none_put(alloc)
    }
}

// The rows dropped.
fn dropped_of(
    stock: Vec<StockRow>,
    staged: Vec<StagedRow>,
    reserved: Listed<ReservedRow>,
) -> Dropped
    ensures { result ≡ record { stock = stock.items; stage = None; staged = staged.items; reserved = reserved } }
{
    Dropped {
        stock: Listed::from_vec(stock),
        stage: None,
        staged: Listed::from_vec(staged),
        reserved,
    }
}

/// The change where these are the stock rows and staged rows after the posting.
pub fn changes_by(
    alloc: Global,
    slice: &Slice,
    posting: &Option<Posting>,
    stock: &[StockRow],
    staged: &[StagedRow],
    reserved: Replanned,
    facts: Facts,
) -> Result<Change, AllocError>
    ensures { IfOk result (λ change. change ≡ changes_by_lem slice.now posting.now stock.now staged.now reserved facts) }
{
    let before = slice.rows.stock.as_slice();
    let in_bins = moved::<(LotId, Name), StockRow>(alloc, posting, before, stock)?;
    let on_stages = moved::<(Name, LotId), StagedRow>(
        alloc,
        posting,
        slice.rows.staged.as_slice(),
        staged,
    )?;
    let Facts { lots, cards, text } = facts;
    Ok(Change {
        meta: meta_next(slice),
        put: rows_of(alloc, lots, in_bins.put, on_stages.put, reserved.put, cards),
        dropped: dropped_of(in_bins.gone, on_stages.gone, reserved.dropped),
        text,
    })
}

/// What changes of the reserved rows of an item with these lot rows and stock rows.
pub fn replanned_in_bins(
    alloc: Global,
    slice: &Slice,
    gtin: &Gtin,
    lots: &[LotRow],
    stock: &[StockRow],
) -> Result<Replanned, AllocError>
    ensures { IfOk result (λ r. r ≡ replanned_by slice.now gtin.now lots.now stock.now slice.now.rows.staged) }
{
    let rows = SupplyRows {
        lots,
        stock,
        ..item_rows(&slice.rows).supplies
    };
    replan_supplies(alloc, slice, gtin, &rows)
}

/// The change where no units go on to a stage or off it, and the item is planned anew, with these lot rows and stock rows.
pub fn change_in_bins(
    alloc: Global,
    slice: &Slice,
    gtin: &Gtin,
    posting: &Option<Posting>,
    lots: &[LotRow],
    stock: &[StockRow],
    facts: Facts,
) -> Result<Change, AllocError>
    ensures { IfOk result (λ change. change ≡ bins_changes slice.now gtin.now posting.now lots.now stock.now facts) }
{
    let reserved = replanned_in_bins(alloc, slice, gtin, lots, stock)?;
    let staged = slice.rows.staged.as_slice();
    changes_by(alloc, slice, posting, stock, staged, reserved, facts)
}
