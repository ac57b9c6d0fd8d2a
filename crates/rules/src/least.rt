//! The days that the lots of an item must have left.

ghost use Rattle.std.specs.Prelude.{◌≡◌, IfOk};
ghost use Rattle.std.specs.List.{list_any};
ghost use Rattle.machine.specs.Verdict.{first_refusal};
ghost use Rattle.rules.specs.DecidedLeast.{least_judged, least_row_put as least_row_put_lem, least_rows_after as least_rows_after_lem, least_changes};
ghost use Rattle.rules.specs.KeptPlan.{changes_lot as changes_lot_lem, keeps_plan as keeps_plan_lem, asked_alone};

use crate::expiring::change_on;
use crate::returning::returns;
use commands::{LeastRow, Listed, LotRow, NewLeast, Refusal, ReplyField, reply};
use row_rules::change_parts::{meta_next, none_dropped, none_put, number_seen, one};
use row_rules::first_refusal::first_of;
use row_rules::goods_seen::sees_item;
use row_rules::list_parts::in_front;
use row_rules::status::{earliest, may_ship};
use row_rules::supplies::is_store_bin;
use row_rules::{Change, Put, Slice};
use std::alloc::{AllocError, Global};

/// The refusal of the days that an item asks for, if they are refused.
pub fn judge_least(slice: &Slice, least: &NewLeast) -> Option<Refusal>
    ensures { result ≡ first_refusal (least_judged slice.now least.now) }
{
    let known_item = sees_item(slice, &least.gtin);
    first_of(&[(!known_item, Refusal::UnknownItem)])
}

fn least_row_put(least: &NewLeast) -> LeastRow
    ensures { result ≡ least_row_put_lem least.now }
{
    LeastRow {
        gtin: least.gtin,
        days: least.days,
    }
}

// The rows of `least` after it.
fn least_rows_after(
    alloc: Global,
    slice: &Slice,
    least: &NewLeast,
) -> Result<Vec<LeastRow>, AllocError>
    ensures { IfOk result (λ v. v.items ≡ least_rows_after_lem slice.now least.now) }
{
    in_front(alloc, least_row_put(least), slice.rows.least.as_slice())
}

// Whether the lot starts or stops being shippable, where these rows ask for days in place of those of
// the slice.
fn changes_lot(slice: &Slice, least: &[LeastRow], lot: &LotRow) -> bool
    ensures { result ≡ changes_lot_lem slice.now least.now lot.now }
{
    let day = slice.meta.day;
    let recalls = slice.rows.recalls.as_slice();
    let asked = slice.rows.least.as_slice();
    let before = may_ship(earliest(day, asked, &lot.lot.gtin), recalls, lot);
    let after = may_ship(earliest(day, least, &lot.lot.gtin), recalls, lot);
    if before { !after } else { after }
}

fn changes_any(slice: &Slice, least: &[LeastRow], lots: &[LotRow]) -> bool
    ensures { result ≡ list_any (changes_lot_lem slice.now least.now) lots.now }
{
    for lot in lots {
        if changes_lot(slice, least, lot) {
            return true;
        }
    }
    false
}

// Whether nothing is staged and no lot starts or stops being shippable: then nothing is returned, and
// the plan stays.
fn keeps_plan(slice: &Slice, least: &[LeastRow]) -> bool
    ensures { result ≡ keeps_plan_lem slice.now least.now }
{
    let staged = slice.rows.staged.as_slice().len();
    let stored = is_store_bin(slice.rows.bins.as_slice(), &returns());
    let changed = changes_any(slice, least, slice.rows.lots.as_slice());
    staged == 0 && !stored && !changed
}

// The change where the plan stays.
fn change_asked(alloc: Global, slice: &Slice, asked: Listed<LeastRow>) -> Change
    ensures { result ≡ asked_alone slice.now asked }
{
    Change {
        meta: meta_next(slice),
        put: Put {
            least: asked,
            ..none_put(alloc)
        },
        dropped: none_dropped(alloc),
        text: reply(number_seen(slice), Some(ReplyField::Returned(0))),
    }
}

/// What changes where the lots of an item must have so many days left.
pub fn change_least(alloc: Global, slice: &Slice, least: &NewLeast) -> Result<Change, AllocError>
    ensures { IfOk result (λ change. change ≡ least_changes slice.now least.now) }
{
    let rows = least_rows_after(alloc, slice, least)?;
    let asked = one(alloc, least_row_put(least))?;
    if keeps_plan(slice, rows.as_slice()) {
        return Ok(change_asked(alloc, slice, asked));
    }
    change_on(alloc, slice, slice.meta.day, rows.as_slice(), asked)
}
