//! What a bin is found to have of a lot, counted or adjusted.

ghost use Rattle.std.specs.Prelude.{◌≡◌, IfOk};
ghost use Rattle.machine.specs.Verdict.{first_refusal, taken_off as taken_off_lem, put_on as put_on_lem};
ghost use Rattle.row_rules.specs.SeenLots.{in_bin_seen};
ghost use Rattle.rules.specs.DecidedCount.{count_seen, count_changes, adjust_seen, adjust_changes, is_over_without as is_over_without_lem, found_less as found_less_lem, written_told, correction_card as correction_card_lem, correction_cards as correction_cards_lem, change_reply as change_reply_lem, corrections as corrections_lem, correction_facts as correction_facts_lem};

use crate::changes::{Facts, change_in_bins, posted_once, stock_posted};
use crate::goods::units_in_house;
use crate::posting::{Place, Posting};
use commands::limits::{CARD_NOTE_MAX, UNITS_MAX};
use commands::{
    Adjustment, CardKind, CardRow, Listed, Recount, Refusal, ReplyField, Short, StockRow, reply,
};
use row_rules::cards::lot_units;
use row_rules::change_parts::number_seen;
use row_rules::first_refusal::first_of;
use row_rules::goods_seen::{sees_bin, sees_item};
use row_rules::stock::{sees_lot, units_in_bin};
use row_rules::{Change, Slice};
use std::alloc::{AllocError, Global};
use values::{Gtin, LotId, Name, Text};

// Judging

/// The refusal of a count, if it is refused.
pub fn judge_count(slice: &Slice, c: &Recount) -> Option<Refusal>
    ensures { result ≡ first_refusal (count_seen slice.now c.now) }
{
    let known_item = sees_item(slice, &c.lot.gtin);
    let known_bin = sees_bin(slice, &c.bin);
    let known_lot = sees_lot(slice, &c.lot);
    let have = units_in_bin(slice, &c.bin, &c.lot);
    let over = is_over_without(slice, &c.lot.gtin, u64::from(c.qty.units()), have);
    first_of(&[
        (!known_item, Refusal::UnknownItem),
        (!known_bin, Refusal::UnknownBin),
        (!known_lot, Refusal::UnknownLot),
        (over, Refusal::OverUnits),
    ])
}

/// The refusal of an adjustment, if it is refused.
pub fn judge_adjust(slice: &Slice, a: &Adjustment) -> Option<Refusal>
    ensures { result ≡ first_refusal (adjust_seen slice.now a.now) }
{
    let known_item = sees_item(slice, &a.lot.gtin);
    let known_bin = sees_bin(slice, &a.bin);
    let known_lot = sees_lot(slice, &a.lot);
    let have = units_in_bin(slice, &a.bin, &a.lot);
    let more = put_on(a.change.change());
    let fewer = taken_off(a.change.change());
    let over = is_over_without(slice, &a.lot.gtin, more, fewer);
    first_of(&[
        (!known_item, Refusal::UnknownItem),
        (!known_bin, Refusal::UnknownBin),
        (!known_lot, Refusal::UnknownLot),
        (have < fewer, Refusal::NotInBin),
        (over, Refusal::OverUnits),
    ])
}

// Whether the item would exceed its limit with `more` units put in and `fewer` taken out.
fn is_over_without(slice: &Slice, gtin: &Gtin, more: u64, fewer: u64) -> bool
    ensures { result ≡ is_over_without_lem slice.now gtin.now more fewer }
{
    let house = units_in_house(slice, gtin);
    UNITS_MAX < house.saturating_add(more).saturating_sub(fewer)
}

fn put_on(change: i32) -> u64
    ensures { result ≡ put_on_lem change }
{
    if change < 0 {
        return 0;
    }
    u64::from(change.unsigned_abs())
}

fn taken_off(change: i32) -> u64
    ensures { result ≡ taken_off_lem change }
{
    if change < 0 {
        return u64::from(change.unsigned_abs());
    }
    0
}

// Changing

/// Units of a lot that are written on to a bin, or off it.
#[derive(Clone, Copy)]
struct Correction {
    lot: LotId,
    bin: Name,
    /// The units written on, below 0 where they are written off.
    change: i64,
}

/// What a count changes.
pub fn change_count(alloc: Global, slice: &Slice, c: &Recount) -> Result<Change, AllocError>
    ensures { IfOk result (λ change. change ≡ count_changes slice.now c.now) }
{
    let made = counted(slice, c);
    corrections(alloc, slice, &made)
}

/// What an adjustment changes.
pub fn change_adjust(alloc: Global, slice: &Slice, a: &Adjustment) -> Result<Change, AllocError>
    ensures { IfOk result (λ change. change ≡ adjust_changes slice.now a.now) }
{
    let made = adjusted(a);
    corrections(alloc, slice, &made)
}

fn counted(slice: &Slice, c: &Recount) -> Correction
    ensures lot { result.lot ≡ c.now.lot }
    ensures bin { result.bin ≡ c.now.bin }
    ensures change { result.change ≡ found_less_lem c.now.qty (in_bin_seen slice.now c.now.bin c.now.lot) }
{
    let have = units_in_bin(slice, &c.bin, &c.lot);
    Correction {
        lot: c.lot,
        bin: c.bin,
        change: found_less(c.qty.units(), have),
    }
}

fn adjusted(a: &Adjustment) -> Correction
    ensures lot { result.lot ≡ a.now.lot }
    ensures bin { result.bin ≡ a.now.bin }
    ensures change { result.change ≡ a.now.change }
{
    Correction {
        lot: a.lot,
        bin: a.bin,
        change: i64::from(a.change.change()),
    }
}

// What was found less what was there.
fn found_less(found: u32, have: u64) -> i64
    ensures { result ≡ found_less_lem found have }
{
    i64::from(found) - have.min(i64::MAX as u64) as i64
}

// What is posted of units written on or off.
fn written_posted(made: &Correction) -> Option<Posting>
    ensures { result ≡ written_told made.now.lot made.now.bin made.now.change }
{
    let units = made.change.unsigned_abs();
    let bin = Place::InBin(made.bin);
    if made.change < 0 {
        return posted_once(&made.lot, bin, Place::WriteOff, units);
    }
    posted_once(&made.lot, Place::WriteOff, bin, units)
}

fn corrections(alloc: Global, slice: &Slice, made: &Correction) -> Result<Change, AllocError>
    ensures { IfOk result (λ change. change ≡ corrections_lem slice.now made.now.lot made.now.bin made.now.change) }
{
    let posting = written_posted(made);
    let stock = stock_posted(alloc, slice, &posting)?;
    let in_bins = stock.as_slice();
    let facts = correction_facts(alloc, slice, made, in_bins)?;
    let lots = slice.rows.lots.as_slice();
    change_in_bins(alloc, slice, &made.lot.gtin, &posting, lots, in_bins, facts)
}

// The card line and the reply, where these are the stock rows after it.
fn correction_facts(
    alloc: Global,
    slice: &Slice,
    made: &Correction,
    stock: &[StockRow],
) -> Result<Facts, AllocError>
    ensures { IfOk result (λ f. f ≡ correction_facts_lem slice.now made.now.lot made.now.bin made.now.change stock.now) }
{
    let cards = correction_cards(alloc, slice, made, stock)?;
    Ok(Facts {
        lots: Listed::from_vec(Vec::new(alloc)),
        cards,
        text: change_reply(slice, made),
    })
}

// The card line of units written on or off.
fn correction_cards(
    alloc: Global,
    slice: &Slice,
    made: &Correction,
    stock: &[StockRow],
) -> Result<Listed<CardRow>, AllocError>
    ensures { IfOk result (λ v. v ≡ correction_cards_lem slice.now made.now.lot made.now.bin made.now.change stock.now) }
{
    let mut cards = Vec::new(alloc);
    if 0 < made.change {
        cards.push(correction_card(slice, made, CardKind::WriteOn, stock))?;
    } else if made.change < 0 {
        cards.push(correction_card(slice, made, CardKind::WriteOff, stock))?;
    }
    Ok(Listed::from_vec(cards))
}

fn correction_card(slice: &Slice, made: &Correction, kind: CardKind, stock: &[StockRow]) -> CardRow
    ensures { result ≡ correction_card_lem slice.now made.now.lot made.now.bin made.now.change kind stock.now }
{
    CardRow {
        lot: made.lot,
        act: number_seen(slice),
        day: slice.meta.day,
        kind,
        note: bin_note(&made.bin),
        qty: made.change,
        rest: lot_units(&made.lot, stock, slice.rows.staged.as_slice()),
    }
}

// The reference of what is written on or off: the bin.
fn bin_note(bin: &Name) -> Text<CARD_NOTE_MAX>
    ensures { result ≡ bin.now }
{
    Text::new(bin.as_bytes()).unwrap()
}

// The reply with the change.
fn change_reply(slice: &Slice, made: &Correction) -> Short
    ensures { result ≡ change_reply_lem slice.now made.now.change }
{
    reply(number_seen(slice), Some(ReplyField::ChangedBy(made.change)))
}
