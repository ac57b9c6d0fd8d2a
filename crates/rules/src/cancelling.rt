//! Orders that are cancelled.

ghost use Rattle.std.specs.Prelude.{◌≡◌, IfOk};
ghost use Rattle.machine.specs.Verdict.{first_refusal};
ghost use Rattle.row_rules.specs.Seen.{meta_after, none_put, none_dropped, plain_reply as plain_reply_lem};
ghost use Rattle.rules.specs.DecidedCancel.{cancel_seen, cancel_changes, cancelled_row as cancelled_row_lem, cancel_put, cancel_dropped};

use commands::{Listed, OrderRow, OrderState, Refusal};
use row_rules::change_parts::{meta_next, none_dropped, none_put, plain_reply};
use row_rules::first_refusal::first_of;
use row_rules::orders_seen::{items_seen, order_row_seen, sees_open, sees_order, staged_for_seen};
use row_rules::plans::{DemandRows, item_rows};
use row_rules::replanning::{Replanned, replan_demands};
use row_rules::row_search::rows_without;
use row_rules::{Change, Dropped, Put, Slice};
use std::alloc::{AllocError, Global};
use values::Name;

/// The refusal of the cancelling of an order, if it is refused.
pub fn judge_cancel(slice: &Slice, order: &Name) -> Option<Refusal>
    ensures { result ≡ first_refusal (cancel_seen slice.now order.now) }
{
    let known = sees_order(slice, order);
    let open = sees_open(slice, order);
    let staged = staged_for_seen(slice, order);
    first_of(&[
        (!known, Refusal::UnknownOrder),
        (!open, Refusal::OrderClosed),
        (staged != 0, Refusal::StillStaged),
    ])
}

/// What the cancelling of an order changes.
pub fn change_cancel(alloc: Global, slice: &Slice, order: &Name) -> Result<Change, AllocError>
    ensures { IfOk result (λ change. change ≡ cancel_changes slice.now order.now) }
{
    let row = cancelled_row(alloc, order_row_seen(slice, order))?;
    let reserved = replan_without(alloc, slice, order)?;
    Ok(cancelled(alloc, slice, row, reserved))
}

// The change by these rows.
fn cancelled(alloc: Global, slice: &Slice, row: Vec<OrderRow>, reserved: Replanned) -> Change
    ensures { result ≡ record { meta = meta_after slice.now; put = record none_put { orders = row.items; reserved = reserved.put }; dropped = record none_dropped { reserved = reserved.dropped }; text = plain_reply_lem slice.now } }
{
    Change {
        meta: meta_next(slice),
        put: Put {
            orders: Listed::from_vec(row),
            reserved: reserved.put,
            ..none_put(alloc)
        },
        dropped: Dropped {
            reserved: reserved.dropped,
            ..none_dropped(alloc)
        },
        text: plain_reply(slice),
    }
}

// The row of the order after the act.
fn cancelled_row(alloc: Global, row: Option<OrderRow>) -> Result<Vec<OrderRow>, AllocError>
    ensures { IfOk result (λ v. v.items ≡ cancelled_row_lem row) }
{
    let mut rows = Vec::new(alloc);
    match row {
        None => Ok(rows),
        Some(r) => {
            rows.push(OrderRow {
                state: OrderState::Cancelled,
                ..r
            })?;
            Ok(rows)
        }
    }
}

// What the plans of its items reserve without the order.
fn replan_without(alloc: Global, slice: &Slice, order: &Name) -> Result<Replanned, AllocError>
    ensures put { IfOk result (λ r. r.put ≡ cancel_put slice.now order.now) }
    ensures dropped { IfOk result (λ r. r.dropped ≡ cancel_dropped slice.now order.now) }
{
    let items = items_seen(alloc, slice, order)?;
    let others = rows_without(alloc, slice.rows.orders.as_slice(), order)?;
    let rows = DemandRows {
        orders: others.as_slice(),
        ..item_rows(&slice.rows).demands
    };
    replan_demands(alloc, slice, items.as_slice(), &rows)
}
