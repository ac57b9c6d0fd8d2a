//! What the lines of an order reserve.

ghost use Rattle.std.specs.Prelude.{◌≡◌, map, flat_map, IfOk};
ghost use Rattle.commands.specs.Lists.{total};
ghost use Rattle.row_rules.specs.Seen.{capped};
ghost use Rattle.rules.specs.DecidedOrder.{new_order_row as new_order_row_lem, new_line_rows as new_line_rows_lem, order_rows_to_put, short_seen};
ghost use Rattle.rules.specs.Booked.{IsIndexOf, open_units_seen as open_units_seen_lem, needs_seen as needs_seen_lem, demand_before as demand_before_lem, demand_booked as demand_booked_lem, plan_booked as plan_booked_lem, line_put, line_short};

use commands::{LineRow, Listed, NewOrder, OrderLine, OrderRow, OrderState, ReservedRow};
use plan::{Demand, Plan};
use row_rules::Slice;
use row_rules::change_parts::number_seen;
use row_rules::indexed::{SuppliesIndexed, supplies_indexed, supplies_of_item};
use row_rules::open_lines::sum_of_open_units;
use row_rules::plans::{item_rows, named_rows, plan_with_last};
use row_rules::row_search::units_with;
use std::alloc::{AllocError, Global};
use values::{Gtin, Name};

/// The reserved rows that lines put, and the units that they are short of.
#[derive(Drop)]
pub struct Booked {
    pub put: Listed<ReservedRow>,
    pub short: u64,
}

/// What the lines of an order reserve and are short of. No other order's rows change.
pub fn book_order(alloc: Global, slice: &Slice, o: &NewOrder) -> Result<Booked, AllocError>
    ensures put { IfOk result (λ b. b.put ≡ order_rows_to_put slice.now o.now o.now.lines) }
    ensures short { IfOk result (λ b. b.short ≡ short_seen slice.now o.now.lines) }
{
    book_lines(alloc, slice, &new_order_row(slice, o), o.lines.as_slice())
}

/// The row of a new order.
pub fn new_order_row(slice: &Slice, o: &NewOrder) -> OrderRow
    ensures { result ≡ new_order_row_lem slice.now o.now }
{
    OrderRow {
        order: o.order,
        act: number_seen(slice),
        customer: o.customer,
        state: OrderState::Open,
    }
}

/// The rows of its lines.
pub fn new_line_rows(alloc: Global, o: &NewOrder) -> Result<Vec<LineRow>, AllocError>
    ensures { IfOk result (λ v. v.items ≡ new_line_rows_lem o.now) }
{
    line_rows(alloc, &o.order, o.lines.as_slice())
}

fn line_rows(alloc: Global, order: &Name, lines: &[OrderLine]) -> Result<Vec<LineRow>, AllocError>
    ensures { IfOk result (λ v. v.items ≡ map (λ l. record { order = order.now; gtin = l.gtin; ordered = l.qty; shipped = 0 }) lines.now) }
{
    let mut rows = Vec::new(alloc);
    for line in lines {
        rows.push(LineRow {
            order: *order,
            gtin: line.gtin,
            ordered: u64::from(line.qty.units()),
            shipped: 0,
        })?;
    }
    Ok(rows)
}

// What these lines of an order reserve and are short of. The rows that tell what there
// is of their items are indexed once for all lines.
fn book_lines(
    alloc: Global,
    slice: &Slice,
    order: &OrderRow,
    lines: &[OrderLine],
) -> Result<Booked, AllocError>
    ensures put { IfOk result (λ b. b.put ≡ flat_map (line_put slice.now order.now) lines.now) }
    ensures short { IfOk result (λ b. b.short ≡ capped (total (line_short slice.now) lines.now)) }
{
    let rows = item_rows(&slice.rows).supplies;
    let indexed = supplies_indexed(alloc, slice.meta.day, &rows, lines.len())?;
    book_each(alloc, slice, &indexed, order, lines)
}

fn book_each(
    alloc: Global,
    slice: &Slice,
    indexed: &SuppliesIndexed<'_>,
    order: &OrderRow,
    lines: &[OrderLine],
) -> Result<Booked, AllocError>
    requires { IsIndexOf slice.now indexed.now }
    ensures put { IfOk result (λ b. b.put ≡ flat_map (line_put slice.now order.now) lines.now) }
    ensures short { IfOk result (λ b. b.short ≡ capped (total (line_short slice.now) lines.now)) }
{
    let mut put = Vec::new(alloc);
    let mut short = 0_u64;
    for line in lines {
        let booked = book_line(alloc, slice, indexed, order, line)?;
        put.extend_from_slice(booked.put.as_slice())?;
        short = short.saturating_add(booked.short);
    }
    Ok(Booked {
        put: Listed::from_vec(put),
        short,
    })
}

fn book_line(
    alloc: Global,
    slice: &Slice,
    indexed: &SuppliesIndexed<'_>,
    order: &OrderRow,
    line: &OrderLine,
) -> Result<Booked, AllocError>
    requires { IsIndexOf slice.now indexed.now }
    ensures put { IfOk result (λ b. b.put ≡ line_put slice.now order.now line.now) }
    ensures short { IfOk result (λ b. b.short ≡ line_short slice.now line.now) }
{
    let plan = plan_booked(alloc, slice, indexed, line)?;
    let shares = named_rows(alloc, &[*order], slice.rows.lots.as_slice(), plan.rows())?;
    Ok(Booked {
        put: Listed::from_vec(shares),
        short: plan.short(demand_booked(slice, line)),
    })
}

// The plan of a line's item, in which the line is booked behind what the other orders need.
fn plan_booked(
    alloc: Global,
    slice: &Slice,
    indexed: &SuppliesIndexed<'_>,
    line: &OrderLine,
) -> Result<Plan, AllocError>
    requires { IsIndexOf slice.now indexed.now }
    ensures { IfOk result (λ plan. plan ≡ plan_booked_lem slice.now line.now) }
{
    let supplies = supplies_of_item(alloc, &line.gtin, indexed)?;
    let before = demand_before(slice, &line.gtin);
    plan_with_last(
        alloc,
        before,
        demand_booked(slice, line),
        supplies.as_slice(),
    )
}

/// What open orders of the slice have ordered of an item and not got.
pub fn open_units_seen(slice: &Slice, gtin: &Gtin) -> u64
    ensures { result ≡ open_units_seen_lem slice.now gtin.now }
{
    let rows = &slice.rows;
    sum_of_open_units(rows.orders.as_slice(), rows.lines.as_slice(), gtin)
}

// What they still need: all but what is staged for them.
fn needs_seen(slice: &Slice, gtin: &Gtin) -> u64
    ensures { result ≡ needs_seen_lem slice.now gtin.now }
{
    let staged = units_with(slice.rows.staged.as_slice(), gtin);
    open_units_seen(slice, gtin).saturating_sub(staged)
}

// One demand for all that the orders of the slice need of an item; no act has its number.
fn demand_before(slice: &Slice, gtin: &Gtin) -> Demand
    ensures { result ≡ demand_before_lem slice.now gtin.now }
{
    Demand {
        booking: 0,
        need: needs_seen(slice, gtin),
    }
}

// The demand of a line.
fn demand_booked(slice: &Slice, line: &OrderLine) -> Demand
    ensures { result ≡ demand_booked_lem slice.now line.now }
{
    Demand {
        booking: number_seen(slice),
        need: u64::from(line.qty.units()),
    }
}
