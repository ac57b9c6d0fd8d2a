//! What open orders have ordered of an item and not got.

ghost use Rattle.std.specs.Prelude.{◌≡◌, ◌-◌, is_some};
ghost use Rattle.row_rules.specs.OpenLines.{is_open_among, open_of_line as open_of_line_lem, open_units_among};

use crate::demands::is_open;
use crate::same::Same;
use commands::{LineRow, OrderRow};
use values::{Gtin, Name};

/// The units of an item that open orders have ordered and not got, held at the greatest `u64`.
///
/// The lines of a slice stand in the order of their orders, so each order is looked for from the
/// place of the one before on: where they do, all lines together cost one walk over the orders.
pub fn sum_of_open_units(orders: &[OrderRow], lines: &[LineRow], gtin: &Gtin) -> u64
    ensures { result ≡ open_units_among gtin.now orders.now lines.now }
{
    let mut sum = 0_u64;
    let mut place = 0;
    for line in lines {
        sum = sum.saturating_add(open_of_line(gtin, orders, line, &mut place));
    }
    sum
}

// What is open of a line of the item. Its order is looked for from a place on, which then is its own.
fn open_of_line(gtin: &Gtin, orders: &[OrderRow], line: &LineRow, place: &mut usize) -> u64
    ensures { result ≡ open_of_line_lem gtin.now orders.now line.now }
{
    if !gtin.is_same(&line.gtin) {
        return 0;
    }
    match open_place(orders, *place, &line.order) {
        None => 0,
        Some(found) => {
            *place = found;
            line.ordered.saturating_sub(line.shipped)
        }
    }
}

// Where an open order of the name stands, looked for from a place on, and then before it.
fn open_place(orders: &[OrderRow], from: usize, name: &Name) -> Option<usize>
    ensures { is_some result ≡ is_open_among orders.now name.now }
{
    let from = from.min(orders.len());
    match first_open(&orders[from..], name) {
        Some(place) => Some(from.saturating_add(place)),
        None => first_open(&orders[..from], name),
    }
}

fn first_open(orders: &[OrderRow], name: &Name) -> Option<usize>
    ensures { is_some result ≡ is_open_among orders.now name.now }
{
    for (index, order) in orders.iter().enumerate() {
        if *name == order.order && is_open(order.state) {
            return Some(index);
        }
    }
    None
}
