//! Goods that come in.

ghost use Rattle.std.specs.Prelude.{◌≡◌, IfOk};
ghost use Rattle.machine.specs.Verdict.{first_refusal};
ghost use Rattle.row_rules.specs.Seen.{capped, stock_units, staged_units, units_seen, expires_otherwise_than, is_over as is_over_lem};
ghost use Rattle.rules.specs.DecidedReceive.{receive_seen, receive_told, receive_changes, receive_facts as receive_facts_lem, receive_card as receive_card_lem, lots_put as lots_put_lem, lots_if_new as lots_if_new_lem, new_lot_row as new_lot_row_lem, lot_rows_after as lot_rows_after_lem};

use crate::changes::{Facts, change_in_bins, posted_once, stock_posted};
use crate::posting::{Place, Posting};
use commands::limits::UNITS_MAX;
use commands::{CardKind, CardRow, Key, Listed, LotRow, Receipt, Refusal, StagedRow, StockRow};
use label::Day;
use row_rules::cards::{delivery_note, lot_units};
use row_rules::change_parts::{number_seen, one, plain_reply};
use row_rules::first_refusal::first_of;
use row_rules::goods_seen::{lot_seen, sees_bin, sees_item, sees_recall};
use row_rules::list_parts::push_if;
use row_rules::row_search::units_with;
use row_rules::status::is_expired;
use row_rules::{Change, Slice};
use std::alloc::{AllocError, Global};
use values::Gtin;

/// The refusal of a receipt, if it is refused.
pub fn judge_receive(slice: &Slice, r: &Receipt) -> Option<Refusal>
    ensures { result ≡ first_refusal (receive_seen slice.now r.now) }
{
    let known_item = sees_item(slice, &r.lot.gtin);
    let known_bin = sees_bin(slice, &r.bin);
    let other_expiry = expires_otherwise(lot_seen(slice, &r.lot), r.expiry);
    let recalled = sees_recall(slice, &r.lot);
    let expired = is_expired(slice.meta.day.day(), r.expiry);
    let over = is_over(slice, &r.lot.gtin, u64::from(r.qty.units()));
    first_of(&[
        (!known_item, Refusal::UnknownItem),
        (!known_bin, Refusal::UnknownBin),
        (other_expiry, Refusal::OtherExpiry),
        (recalled, Refusal::LotRecalled),
        (expired, Refusal::LotExpired),
        (over, Refusal::OverUnits),
    ])
}

fn is_over(slice: &Slice, gtin: &Gtin, more: u64) -> bool
    ensures { result ≡ is_over_lem slice.now gtin.now more }
{
    UNITS_MAX < units_in_house(slice, gtin).saturating_add(more)
}

fn expires_otherwise(lot: Option<LotRow>, expiry: Day) -> bool
    ensures { result ≡ expires_otherwise_than lot expiry }
{
    match lot {
        None => false,
        Some(row) => {
            let day = row.expiry.number();
            !(day <= expiry.number() && expiry.number() <= day)
        }
    }
}

fn units_in_bins(stock: &[StockRow], gtin: &Gtin) -> u64
    ensures { result ≡ capped (stock_units gtin.now stock.now) }
{
    units_with(stock, gtin)
}

fn units_on_stages(staged: &[StagedRow], gtin: &Gtin) -> u64
    ensures { result ≡ capped (staged_units gtin.now staged.now) }
{
    units_with(staged, gtin)
}

/// The units of an item in bins or staged.
pub fn units_in_house(slice: &Slice, gtin: &Gtin) -> u64
    ensures { result ≡ units_seen slice.now gtin.now }
{
    let stock = units_in_bins(slice.rows.stock.as_slice(), gtin);
    let staged = units_on_stages(slice.rows.staged.as_slice(), gtin);
    stock.saturating_add(staged)
}

/// What a receipt changes.
pub fn change_receive(
    alloc: Global,
    slice: &Slice,
    key: &Key,
    r: &Receipt,
) -> Result<Change, AllocError>
    ensures { IfOk result (λ change. change ≡ receive_changes slice.now key.now r.now) }
{
    let posting = receive_posted(r);
    let stock = stock_posted(alloc, slice, &posting)?;
    let in_bins = stock.as_slice();
    let lots = lot_rows_after(alloc, slice, r)?;
    let facts = receive_facts(alloc, slice, key, r, in_bins)?;
    let known = lots.as_slice();
    change_in_bins(alloc, slice, &r.lot.gtin, &posting, known, in_bins, facts)
}

// What a receipt posts.
fn receive_posted(r: &Receipt) -> Option<Posting>
    ensures { result ≡ receive_told r.now }
{
    let units = u64::from(r.qty.units());
    posted_once(&r.lot, Place::Supplier, Place::InBin(r.bin), units)
}

// The lot row and the card line of a receipt, after which these are the stock rows.
fn receive_facts(
    alloc: Global,
    slice: &Slice,
    key: &Key,
    r: &Receipt,
    stock: &[StockRow],
) -> Result<Facts, AllocError>
    ensures { IfOk result (λ f. f ≡ receive_facts_lem slice.now key.now r.now stock.now) }
{
    let lots = lots_put(alloc, slice, r)?;
    let cards = one(alloc, receive_card(slice, key, r, stock))?;
    Ok(Facts {
        lots: Listed::from_vec(lots),
        cards,
        text: plain_reply(slice),
    })
}

fn receive_card(slice: &Slice, key: &Key, r: &Receipt, stock: &[StockRow]) -> CardRow
    ensures { result ≡ receive_card_lem slice.now key.now r.now stock.now }
{
    CardRow {
        lot: r.lot,
        act: number_seen(slice),
        day: slice.meta.day,
        kind: CardKind::Receipt,
        note: delivery_note(key),
        qty: i64::from(r.qty.units()),
        rest: lot_units(&r.lot, stock, slice.rows.staged.as_slice()),
    }
}

// The rows of lots with the lot that is received, if it is new.
fn lot_rows_after(alloc: Global, slice: &Slice, r: &Receipt) -> Result<Vec<LotRow>, AllocError>
    ensures { IfOk result (λ v. v.items ≡ lot_rows_after_lem slice.now r.now) }
{
    let mut rows = lots_put(alloc, slice, r)?;
    rows.extend_from_slice(slice.rows.lots.as_slice())?;
    Ok(rows)
}

fn lots_put(alloc: Global, slice: &Slice, r: &Receipt) -> Result<Vec<LotRow>, AllocError>
    ensures { IfOk result (λ v. v.items ≡ lots_put_lem slice.now r.now) }
{
    let known = lot_seen(slice, &r.lot);
    lots_if_new(alloc, known, new_lot_row(slice, r))
}

fn lots_if_new(alloc: Global, known: Option<LotRow>, row: LotRow) -> Result<Vec<LotRow>, AllocError>
    ensures { IfOk result (λ v. v.items ≡ lots_if_new_lem known row) }
{
    let mut rows = Vec::new(alloc);
    let there = known.is_some();
    push_if(&mut rows, !there, row)?;
    Ok(rows)
}

fn new_lot_row(slice: &Slice, r: &Receipt) -> LotRow
    ensures { result ≡ new_lot_row_lem slice.now r.now }
{
    LotRow {
        lot: r.lot,
        expiry: r.expiry,
        came: number_seen(slice),
        held: false,
    }
}
