//! Lots that are held, released and recalled.

ghost use Rattle.std.specs.Prelude.{◌≡◌, IfOk};
ghost use Rattle.machine.specs.Verdict.{first_refusal};
ghost use Rattle.rules.specs.DecidedHold.{release_seen, release_facts as release_facts_lem, release_changes, hold_seen, hold_changes, hold_replanned as hold_replanned_lem, recall_seen, recall_changes, recall_replanned as recall_replanned_lem, new_recall_row as new_recall_row_lem, recall_rows_after as recall_rows_after_lem, with_hold as with_hold_lem, lot_rows_with_hold as lot_rows_with_hold_lem, lot_put as lot_put_lem};

use crate::changes::{Facts, change_in_bins};
use crate::returning::{returning_change, returning_replanned};
use commands::{Listed, LotRow, RecallRow, Refusal};
use row_rules::change_parts::{number_seen, one, plain_reply};
use row_rules::first_refusal::first_of;
use row_rules::goods_seen::{lot_seen, sees_hold, sees_item, sees_recall};
use row_rules::loops::{Make, each_made};
use row_rules::replanning::Replanned;
use row_rules::same::Same;
use row_rules::stock::sees_lot;
use row_rules::{Change, Slice};
use std::alloc::{AllocError, Global};
use values::LotId;

// Lots

// The row of a lot, held or not if it is this lot's.
fn with_hold(lot: &LotId, held: bool, row: LotRow) -> LotRow
    ensures { result ≡ with_hold_lem lot.now held row }
{
    LotRow {
        lot: row.lot,
        expiry: row.expiry,
        came: row.came,
        held: if lot.is_same(&row.lot) {
            held
        } else {
            row.held
        },
    }
}

// The rows of lots, with this one held or not.
fn lot_rows_with_hold(
    alloc: Global,
    slice: &Slice,
    lot: &LotId,
    held: bool,
) -> Result<Vec<LotRow>, AllocError>
    ensures { IfOk result (λ v. v.items ≡ lot_rows_with_hold_lem slice.now lot.now held) }
{
    let with = WithHold { lot: *lot, held };
    each_made(alloc, slice.rows.lots.as_slice(), &with)
}

// A lot that is held or not.
#[derive(Clone, Copy)]
struct WithHold {
    lot: LotId,
    held: bool,
}

impl Make<LotRow, LotRow> for WithHold {
    ghost use Rattle.rules.specs.DecidedHold.{with_hold};

    ghost made = { λ w k. with_hold w.lot w.held k };

    fn make(&self, _: Global, row: &LotRow) -> Result<LotRow, AllocError> {
        Ok(with_hold(&self.lot, self.held, *row))
    }
}

// The row of the lot, if it is known, held or not.
fn lot_put(
    alloc: Global,
    lot: &LotId,
    held: bool,
    known: Option<LotRow>,
) -> Result<Vec<LotRow>, AllocError>
    ensures { IfOk result (λ v. v.items ≡ lot_put_lem lot.now held known) }
{
    let mut rows = Vec::new(alloc);
    match known {
        None => Ok(rows),
        Some(row) => {
            rows.push(with_hold(lot, held, row))?;
            Ok(rows)
        }
    }
}

// Release

/// The refusal of a release, if it is refused.
pub fn judge_release(slice: &Slice, lot: &LotId) -> Option<Refusal>
    ensures { result ≡ first_refusal (release_seen slice.now lot.now) }
{
    let known_item = sees_item(slice, &lot.gtin);
    let known_lot = sees_lot(slice, lot);
    let recalled = sees_recall(slice, lot);
    let held = sees_hold(slice, lot);
    first_of(&[
        (!known_item, Refusal::UnknownItem),
        (!known_lot, Refusal::UnknownLot),
        (recalled, Refusal::LotRecalled),
        (!held, Refusal::LotNotHeld),
    ])
}

/// What a release changes.
pub fn change_release(alloc: Global, slice: &Slice, lot: &LotId) -> Result<Change, AllocError>
    ensures { IfOk result (λ change. change ≡ release_changes slice.now lot.now) }
{
    let lots = lot_rows_with_hold(alloc, slice, lot, false)?;
    let facts = release_facts(alloc, slice, lot)?;
    let (known, stock) = (lots.as_slice(), slice.rows.stock.as_slice());
    change_in_bins(alloc, slice, &lot.gtin, &None, known, stock, facts)
}

// The lot is no longer held.
fn release_facts(alloc: Global, slice: &Slice, lot: &LotId) -> Result<Facts, AllocError>
    ensures { IfOk result (λ f. f ≡ release_facts_lem slice.now lot.now) }
{
    let put = lot_put(alloc, lot, false, lot_seen(slice, lot))?;
    Ok(Facts {
        lots: Listed::from_vec(put),
        cards: Listed::from_vec(Vec::new(alloc)),
        text: plain_reply(slice),
    })
}

// Hold

/// The refusal of a hold, if it is refused.
pub fn judge_hold(slice: &Slice, lot: &LotId) -> Option<Refusal>
    ensures { result ≡ first_refusal (hold_seen slice.now lot.now) }
{
    let known_item = sees_item(slice, &lot.gtin);
    let known_lot = sees_lot(slice, lot);
    let recalled = sees_recall(slice, lot);
    let held = sees_hold(slice, lot);
    first_of(&[
        (!known_item, Refusal::UnknownItem),
        (!known_lot, Refusal::UnknownLot),
        (recalled, Refusal::LotRecalled),
        (held, Refusal::LotHeld),
    ])
}

/// What a hold changes.
pub fn change_hold(alloc: Global, slice: &Slice, lot: &LotId) -> Result<Change, AllocError>
    ensures { IfOk result (λ change. change ≡ hold_changes slice.now lot.now) }
{
    let reserved = hold_replanned(alloc, slice, lot)?;
    let lots = lot_put(alloc, lot, true, lot_seen(slice, lot))?;
    returning_change(
        alloc,
        slice,
        lot,
        Listed::from_vec(lots),
        Listed::from_vec(Vec::new(alloc)),
        reserved,
    )
}

// What a hold changes of the reserved rows.
fn hold_replanned(alloc: Global, slice: &Slice, lot: &LotId) -> Result<Replanned, AllocError>
    ensures { IfOk result (λ r. r ≡ hold_replanned_lem slice.now lot.now) }
{
    let lots = lot_rows_with_hold(alloc, slice, lot, true)?;
    let recalls = slice.rows.recalls.as_slice();
    returning_replanned(alloc, slice, lot, lots.as_slice(), recalls)
}

// Recall

/// The refusal of a recall, if it is refused.
pub fn judge_recall(slice: &Slice, lot: &LotId) -> Option<Refusal>
    ensures { result ≡ first_refusal (recall_seen slice.now lot.now) }
{
    let known_item = sees_item(slice, &lot.gtin);
    let recalled = sees_recall(slice, lot);
    first_of(&[
        (!known_item, Refusal::UnknownItem),
        (recalled, Refusal::AlreadyRecalled),
    ])
}

/// What a recall changes.
pub fn change_recall(alloc: Global, slice: &Slice, lot: &LotId) -> Result<Change, AllocError>
    ensures { IfOk result (λ change. change ≡ recall_changes slice.now lot.now) }
{
    let reserved = recall_replanned(alloc, slice, lot)?;
    let recalls = one(alloc, new_recall_row(slice, lot))?;
    returning_change(
        alloc,
        slice,
        lot,
        Listed::from_vec(Vec::new(alloc)),
        recalls,
        reserved,
    )
}

fn new_recall_row(slice: &Slice, lot: &LotId) -> RecallRow
    ensures { result ≡ new_recall_row_lem slice.now lot.now }
{
    RecallRow {
        lot: *lot,
        act: number_seen(slice),
    }
}

// The rows of recalls with the lot that is recalled.
fn recall_rows_after(
    alloc: Global,
    slice: &Slice,
    lot: &LotId,
) -> Result<Vec<RecallRow>, AllocError>
    ensures { IfOk result (λ v. v.items ≡ recall_rows_after_lem slice.now lot.now) }
{
    let mut rows = Vec::new(alloc);
    rows.push(new_recall_row(slice, lot))?;
    rows.extend_from_slice(slice.rows.recalls.as_slice())?;
    Ok(rows)
}

// What a recall changes of the reserved rows.
fn recall_replanned(alloc: Global, slice: &Slice, lot: &LotId) -> Result<Replanned, AllocError>
    ensures { IfOk result (λ r. r ≡ recall_replanned_lem slice.now lot.now) }
{
    let recalls = recall_rows_after(alloc, slice, lot)?;
    let lots = slice.rows.lots.as_slice();
    returning_replanned(alloc, slice, lot, lots, recalls.as_slice())
}
