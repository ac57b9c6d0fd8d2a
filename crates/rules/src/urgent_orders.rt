//! Urgent orders that come in.

ghost use Rattle.std.specs.Prelude.{◌≡◌, Some, IfOk};
ghost use Rattle.commands.specs.Replies.{reply_text};
ghost use Rattle.commands.specs.declared.replies.ReplyField.TheVariants.{UnitsShort};
ghost use Rattle.row_rules.specs.Seen.{meta_after, none_put, none_dropped, number_seen as number_seen_lem};
ghost use Rattle.rules.specs.DecidedUrgent.{new_urgent_row as new_urgent_row_lem, lines_with as lines_with_lem, urgents_with as urgents_with_lem, units_ordered as units_ordered_lem, short_with as short_with_lem, urgent_put, urgent_dropped, urgent_changes};

use crate::booking::{new_line_rows, new_order_row};
use crate::customer_orders::short_reply;
use commands::{LineRow, Listed, NewOrder, OrderLine, OrderRow, ReservedRow, UrgentRow};
use row_rules::change_parts::{meta_next, none_dropped, none_put, number_seen, one};
use row_rules::list_parts::in_front;
use row_rules::plans::{DemandRows, item_rows};
use row_rules::replanning::{Replanned, replan_demands};
use row_rules::row_search::{units_with, values_of};
use row_rules::{Change, Dropped, Put, Slice};
use std::alloc::{AllocError, Global};

/// What an urgent order changes. It is judged by `judge_order`.
pub fn change_urgent(alloc: Global, slice: &Slice, o: &NewOrder) -> Result<Change, AllocError>
    ensures { IfOk result (λ change. change ≡ urgent_changes slice.now o.now) }
{
    let orders = one(alloc, new_order_row(slice, o))?;
    let lines = new_line_rows(alloc, o)?;
    let urgents = one(alloc, new_urgent_row(slice, o))?;
    let reserved = replan_with(alloc, slice, o)?;
    Ok(urgent_ordered(alloc, slice, o, orders, lines, urgents, reserved))
}

// The change by these rows.
fn urgent_ordered(
    alloc: Global,
    slice: &Slice,
    o: &NewOrder,
    orders: Listed<OrderRow>,
    lines: Vec<LineRow>,
    urgents: Listed<UrgentRow>,
    reserved: Replanned,
) -> Change
    ensures { result ≡ record { meta = meta_after slice.now; put = record none_put { orders = orders; lines = lines.items; urgents = urgents; reserved = reserved.put }; dropped = record none_dropped { reserved = reserved.dropped }; text = reply_text (number_seen_lem slice.now) (Some (UnitsShort (short_with_lem o.now reserved.put))) } }
{
    let short = short_with(o, reserved.put.as_slice());
    Change {
        meta: meta_next(slice),
        put: Put {
            orders,
            lines: Listed::from_vec(lines),
            urgents,
            reserved: reserved.put,
            ..none_put(alloc)
        },
        dropped: Dropped {
            reserved: reserved.dropped,
            ..none_dropped(alloc)
        },
        text: short_reply(slice, short),
    }
}

// The row that tells that the order is urgent.
fn new_urgent_row(slice: &Slice, o: &NewOrder) -> UrgentRow
    ensures { result ≡ new_urgent_row_lem slice.now o.now }
{
    UrgentRow {
        order: o.order,
        act: number_seen(slice),
    }
}

// What the plans of its items reserve with the order.
fn replan_with(alloc: Global, slice: &Slice, o: &NewOrder) -> Result<Replanned, AllocError>
    ensures put { IfOk result (λ r. r.put ≡ urgent_put slice.now o.now) }
    ensures dropped { IfOk result (λ r. r.dropped ≡ urgent_dropped slice.now o.now) }
{
    let items = values_of(alloc, o.lines.as_slice())?;
    let orders = in_front(alloc, new_order_row(slice, o), slice.rows.orders.as_slice())?;
    let lines = lines_with(alloc, slice, o)?;
    let urgents = urgents_with(alloc, slice, o)?;
    let rows = DemandRows {
        orders: orders.as_slice(),
        lines: lines.as_slice(),
        urgents: urgents.as_slice(),
        ..item_rows(&slice.rows).demands
    };
    replan_demands(alloc, slice, items.as_slice(), &rows)
}

// The rows of urgent orders after the act: the order is one of them.
fn urgents_with(alloc: Global, slice: &Slice, o: &NewOrder) -> Result<Vec<UrgentRow>, AllocError>
    ensures { IfOk result (λ v. v.items ≡ urgents_with_lem slice.now o.now) }
{
    let own = new_urgent_row(slice, o);
    in_front(alloc, own, slice.rows.urgents.as_slice())
}

// The lines after the act.
fn lines_with(alloc: Global, slice: &Slice, o: &NewOrder) -> Result<Vec<LineRow>, AllocError>
    ensures { IfOk result (λ v. v.items ≡ lines_with_lem slice.now o.now) }
{
    let mut lines = new_line_rows(alloc, o)?;
    lines.extend_from_slice(slice.rows.lines.as_slice())?;
    Ok(lines)
}

// What the order is short of, where these rows are put.
fn short_with(o: &NewOrder, put: &[ReservedRow]) -> u64
    ensures { result ≡ short_with_lem o.now put.now }
{
    let reserved = units_with(put, &o.order);
    units_ordered(o.lines.as_slice()).saturating_sub(reserved)
}

fn units_ordered(lines: &[OrderLine]) -> u64
    ensures { result ≡ units_ordered_lem lines.now }
{
    let mut sum = 0_u64;
    for line in lines {
        sum = sum.saturating_add(u64::from(line.qty.units()));
    }
    sum
}
