//! Units that go from a bin onto the stage of an order, and back.

ghost use Rattle.std.specs.Prelude.{◌≡◌, ◌-◌, ◌==◌, [], if◌then◌else◌, IfOk};
ghost use Rattle.std.specs.List.{cons_option};
ghost use Rattle.machine.specs.Verdict.{first_refusal};
ghost use Rattle.row_rules.specs.SeenStages.{reserved_qty as reserved_qty_lem, reserved_put as reserved_put_lem};
ghost use Rattle.rules.specs.PostedChanges.{replanned_by};
ghost use Rattle.rules.specs.DecidedPick.{pick_seen, unpick_seen, pick_told, unpick_told, pick_changes, unpick_changes, IsLeftInPlan};

use crate::changes::{changes_by, no_facts, posted_once, staged_posted, stock_posted};
use crate::pick_seen::PickSeen;
use crate::posting::{Place, Posting};
use commands::{Listed, Picking, Refusal, ReservedRow, StagedRow, StockRow};
use row_rules::first_refusal::first_of;
use row_rules::goods_seen::{is_held_row, sees_recall};
use row_rules::list_parts::row_gone;
use row_rules::orders_seen::is_open_row;
use row_rules::plans::{DemandRows, ItemRows, SupplyRows, item_rows};
use row_rules::replanning::{Replanned, replan_item};
use row_rules::row_search::find_row;
use row_rules::stages::{reserved_put, reserved_qty, staged_qty};
use row_rules::status::{is_below, is_past, least_days};
use row_rules::stock::units_of;
use row_rules::supplies::is_store;
use row_rules::{Change, Slice};
use std::alloc::{AllocError, Global};
use values::{Gtin, Qty};

/// The refusal of a picking, if it is refused.
pub fn judge_pick(slice: &Slice, p: &Picking) -> Option<Refusal>
    ensures { result ≡ first_refusal (pick_seen slice.now p.now) }
{
    let seen = PickSeen::of(slice, p);
    let known_bin = seen.bin.is_some();
    let known_lot = seen.lot.is_some();
    let known_order = seen.order.is_some();
    let recalled = sees_recall(slice, &p.lot);
    let past = is_past(seen.lot, slice.meta.day.day());
    let days = least_days(slice.rows.least.as_slice(), &p.lot.gtin);
    let below = is_below(seen.lot, slice.meta.day, days);
    let held = is_held_row(seen.lot);
    let store = is_store(seen.bin);
    let open = is_open_row(seen.order);
    let in_bin = units_of(seen.units.in_bin);
    let reserved = reserved_qty(seen.units.reserved);
    let units = u64::from(p.qty.units());
    first_of(&[
        (!seen.item, Refusal::UnknownItem),
        (!known_bin, Refusal::UnknownBin),
        (!known_lot, Refusal::UnknownLot),
        (!known_order, Refusal::UnknownOrder),
        (!seen.line, Refusal::NoSuchLine),
        (recalled, Refusal::LotRecalled),
        (past, Refusal::LotExpired),
        (below, Refusal::TooFewDays),
        (held, Refusal::LotHeld),
        (!store, Refusal::NotStoreBin),
        (!open, Refusal::OrderClosed),
        (in_bin < units, Refusal::NotInBin),
        (reserved < units, Refusal::OverReserved),
    ])
}

/// The refusal of units put back, if they are refused.
pub fn judge_unpick(slice: &Slice, p: &Picking) -> Option<Refusal>
    ensures { result ≡ first_refusal (unpick_seen slice.now p.now) }
{
    let seen = PickSeen::of(slice, p);
    let known_bin = seen.bin.is_some();
    let known_lot = seen.lot.is_some();
    let known_order = seen.order.is_some();
    let open = is_open_row(seen.order);
    let staged = staged_qty(seen.units.staged);
    let units = u64::from(p.qty.units());
    first_of(&[
        (!seen.item, Refusal::UnknownItem),
        (!known_bin, Refusal::UnknownBin),
        (!known_lot, Refusal::UnknownLot),
        (!known_order, Refusal::UnknownOrder),
        (!seen.line, Refusal::NoSuchLine),
        (!open, Refusal::OrderClosed),
        (staged < units, Refusal::OverStaged),
    ])
}

// What units picked post, and units put back.
fn pick_posted(p: &Picking) -> Option<Posting>
    ensures { result ≡ pick_told p.now }
{
    let units = u64::from(p.qty.units());
    posted_once(&p.lot, Place::InBin(p.bin), Place::Stage(p.order), units)
}

fn unpick_posted(p: &Picking) -> Option<Posting>
    ensures { result ≡ unpick_told p.now }
{
    let units = u64::from(p.qty.units());
    posted_once(&p.lot, Place::Stage(p.order), Place::InBin(p.bin), units)
}

/// What a picking changes.
pub fn change_pick(alloc: Global, slice: &Slice, p: &Picking) -> Result<Change, AllocError>
    ensures { IfOk result (λ change. change ≡ pick_changes slice.now p.now) }
{
    let posting = pick_posted(p);
    let stock = stock_posted(alloc, slice, &posting)?;
    let staged = staged_posted(alloc, slice, &posting)?;
    let own = find_row(slice.rows.reserved.as_slice(), &(p.order, p.lot));
    let reserved = own_row_lowered(alloc, &own, p)?;
    let (in_bins, on_stages) = (stock.as_slice(), staged.as_slice());
    let facts = no_facts(alloc, slice);
    changes_by(alloc, slice, &posting, in_bins, on_stages, reserved, facts)
}

/// What units put back change.
pub fn change_unpick(alloc: Global, slice: &Slice, p: &Picking) -> Result<Change, AllocError>
    ensures { IfOk result (λ change. change ≡ unpick_changes slice.now p.now) }
{
    let posting = unpick_posted(p);
    let stock = stock_posted(alloc, slice, &posting)?;
    let staged = staged_posted(alloc, slice, &posting)?;
    let (in_bins, on_stages) = (stock.as_slice(), staged.as_slice());
    let reserved = replanned_on_stages(alloc, slice, &p.lot.gtin, in_bins, on_stages)?;
    let facts = no_facts(alloc, slice);
    changes_by(alloc, slice, &posting, in_bins, on_stages, reserved, facts)
}

// What changes of the reserved rows of an item with these stock rows and staged rows.
fn replanned_on_stages(
    alloc: Global,
    slice: &Slice,
    gtin: &Gtin,
    stock: &[StockRow],
    staged: &[StagedRow],
) -> Result<Replanned, AllocError>
    ensures { IfOk result (λ r. r ≡ replanned_by slice.now gtin.now slice.now.rows.lots stock.now staged.now) }
{
    let all = item_rows(&slice.rows);
    let demands = DemandRows {
        staged,
        ..all.demands
    };
    let supplies = SupplyRows {
        stock,
        ..all.supplies
    };
    let rows = ItemRows { demands, supplies };
    replan_item(alloc, slice, gtin, slice.meta.day, &rows)
}

fn less(units: u64, qty: Qty) -> u64
    ensures { result ≡ units - qty }
{
    units.saturating_sub(u64::from(qty.units()))
}

// What is left of a reservation from which units are picked: as much as a plan leaves that has it alone.
fn left_of(reserved: u64, qty: Qty) -> u64
    ensures left { result ≡ reserved - qty }
    ensures in_plan { IsLeftInPlan reserved qty result }
{
    less(reserved, qty)
}

// What units that are picked change of the reserved rows: they are taken from their own row.
fn own_row_lowered(
    alloc: Global,
    own: &Option<ReservedRow>,
    p: &Picking,
) -> Result<Replanned, AllocError>
    ensures put { IfOk result (λ r. r.put ≡ reserved_put_lem p.now.order p.now.lot (reserved_qty_lem own.now - p.now.qty)) }
    ensures dropped { IfOk result (λ r. r.dropped ≡ if (reserved_qty_lem own.now - p.now.qty) == 0 then cons_option own.now [] else []) }
{
    let left = left_of(reserved_qty(*own), p.qty);
    let put = reserved_put(alloc, &p.order, &p.lot, left)?;
    let dropped = row_gone(alloc, *own, left)?;
    Ok(Replanned {
        put: Listed::from_vec(put),
        dropped: Listed::from_vec(dropped),
    })
}
