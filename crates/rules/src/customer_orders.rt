//! Orders that come in.

ghost use Rattle.std.specs.Prelude.{◌≡◌, ◌+◌, nat_lt, Some, IfOk};
ghost use Rattle.commands.specs.declared.limits.TheConstants.{OPEN_MAX};
ghost use Rattle.commands.specs.Replies.{reply_text};
ghost use Rattle.commands.specs.declared.replies.ReplyField.TheVariants.{UnitsShort};
ghost use Rattle.machine.specs.Verdict.{first_refusal, names_item_twice as names_item_twice_lem};
ghost use Rattle.row_rules.specs.Seen.{capped, meta_after, none_put, none_dropped, number_seen as number_seen_lem};
ghost use Rattle.rules.specs.DecidedOrder.{order_seen, order_changes, misses_item as misses_item_lem, orders_too_much as orders_too_much_lem};
ghost use Rattle.rules.specs.Booked.{open_units_seen as open_units_seen_lem};

use crate::booking::{Booked, book_order, new_line_rows, new_order_row, open_units_seen};
use commands::limits::OPEN_MAX;
use commands::{LineRow, Listed, NewOrder, OrderLine, OrderRow, Refusal, ReplyField, Short, reply};
use row_rules::change_parts::{meta_next, none_dropped, none_put, number_seen, one};
use row_rules::first_refusal::first_of;
use row_rules::goods_seen::sees_item;
use row_rules::orders_seen::sees_order;
use row_rules::row_search::has_row;
use row_rules::{Change, Put, Slice};
use std::alloc::{AllocError, Global};

/// The refusal of an order, urgent or not, if it is refused.
pub fn judge_order(slice: &Slice, o: &NewOrder) -> Option<Refusal>
    ensures { result ≡ first_refusal (order_seen slice.now o.now) }
{
    let lines = o.lines.as_slice();
    let unknown = misses_item(slice, lines);
    let known = sees_order(slice, &o.order);
    let twice = names_item_twice(lines);
    let over = orders_too_much(slice, lines);
    first_of(&[
        (unknown, Refusal::UnknownItem),
        (known, Refusal::OrderExists),
        (twice, Refusal::ItemTwice),
        (over, Refusal::OverOrdered),
    ])
}

// Whether one of the lines is of an item that the slice does not have.
fn misses_item(slice: &Slice, lines: &[OrderLine]) -> bool
    ensures { result ≡ misses_item_lem slice.now lines.now }
{
    for line in lines {
        if !sees_item(slice, &line.gtin) {
            return true;
        }
    }
    false
}

fn names_item_twice(lines: &[OrderLine]) -> bool
    ensures { result ≡ names_item_twice_lem lines.now }
{
    for (index, line) in lines.iter().enumerate() {
        if has_row(&lines[index + 1..], &line.gtin) {
            return true;
        }
    }
    false
}

// Whether more units of an item would be ordered with one of the lines than the limit.
fn orders_too_much(slice: &Slice, lines: &[OrderLine]) -> bool
    ensures { result ≡ orders_too_much_lem slice.now lines.now }
{
    for line in lines {
        if exceeds_open(slice, line) {
            return true;
        }
    }
    false
}

fn exceeds_open(slice: &Slice, line: &OrderLine) -> bool
    ensures { result ≡ nat_lt OPEN_MAX (capped (open_units_seen_lem slice.now line.now.gtin + line.now.qty)) }
{
    let open = open_units_seen(slice, &line.gtin);
    OPEN_MAX < open.saturating_add(u64::from(line.qty.units()))
}

/// What an order changes that is not urgent.
pub fn change_order(alloc: Global, slice: &Slice, o: &NewOrder) -> Result<Change, AllocError>
    ensures { IfOk result (λ change. change ≡ order_changes slice.now o.now) }
{
    let orders = one(alloc, new_order_row(slice, o))?;
    let lines = new_line_rows(alloc, o)?;
    let booked = book_order(alloc, slice, o)?;
    Ok(ordered(alloc, slice, orders, lines, booked))
}

// The change by these rows.
fn ordered(
    alloc: Global,
    slice: &Slice,
    orders: Listed<OrderRow>,
    lines: Vec<LineRow>,
    booked: Booked,
) -> Change
    ensures { result ≡ record { meta = meta_after slice.now; put = record none_put { orders = orders; lines = lines.items; reserved = booked.put }; dropped = none_dropped; text = reply_text (number_seen_lem slice.now) (Some (UnitsShort booked.short)) } }
{
    Change {
        meta: meta_next(slice),
        put: Put {
            orders,
            lines: Listed::from_vec(lines),
            reserved: booked.put,
            ..none_put(alloc)
        },
        dropped: none_dropped(alloc),
        text: short_reply(slice, booked.short),
    }
}

/// The reply with the units that are short.
pub fn short_reply(slice: &Slice, short: u64) -> Short
    ensures { result ≡ reply_text (number_seen_lem slice.now) (Some (UnitsShort short)) }
{
    reply(number_seen(slice), Some(ReplyField::UnitsShort(short)))
}
