ghost use Rattle.std.specs.Prelude.{◌≡◌, ◌≢◌, Some, None, IfOk, IfErr};
ghost use Rattle.serde_json.specs.View.{view, items_view};
ghost use Rattle.requests.specs.Bodies.{item_of as item_of_lem, bin_of as bin_of_lem, scan_of as scan_of_lem, move_of as move_of_lem, count_of as count_of_lem, adjustment_of as adjustment_of_lem, day_of as day_of_lem, least_of as least_of_lem, line_of as line_of_lem, lines_of as lines_of_lem, lines_at as lines_at_lem, lot_of as lot_of_lem, new_order_of as new_order_of_lem, order_of as order_of_lem, picking_of as picking_of_lem, command_of as command_of_lem, body_of as body_of_lem};

use crate::fields::{
    array_at, business_day_at, counted_at, delta_at, gtin_at, is_object_of, kind_at, least_days_at,
    line_at, lot_id_at, name_at, qty_at, text_at, title_at,
};
use crate::routes::Posted;
use crate::{Ask, WireFault};
use commands::{
    Adjustment, Command, Key, Lines, Listed, Movement, NewBin, NewItem, NewLeast, NewOrder,
    OrderLine, Picking, Recount,
};
use label::BusinessDay;
use serde_json::Value;
use std::alloc::Global;
use values::{LotId, Name};

fn item_of(value: &Value) -> Option<NewItem>
    ensures { result ≡ item_of_lem (view value.now) }
{
    if !is_object_of(value, 3) {
        return None;
    }
    let gtin = gtin_at(value, "gtin")?;
    let name = title_at(value, "name")?;
    Some(NewItem { gtin, name })
}

fn bin_of(value: &Value) -> Option<NewBin>
    ensures { result ≡ bin_of_lem (view value.now) }
{
    if !is_object_of(value, 3) {
        return None;
    }
    let bin = name_at(value, "bin")?;
    let kind = kind_at(value, "kind")?;
    Some(NewBin { bin, kind })
}

fn move_of(value: &Value) -> Option<Movement>
    ensures { result ≡ move_of_lem (view value.now) }
{
    if !is_object_of(value, 6) {
        return None;
    }
    let lot = lot_id_at(value)?;
    let from = name_at(value, "from")?;
    let to = name_at(value, "to")?;
    let qty = qty_at(value, "qty")?;
    Some(Movement { lot, from, to, qty })
}

fn count_of(value: &Value) -> Option<Recount>
    ensures { result ≡ count_of_lem (view value.now) }
{
    if !is_object_of(value, 5) {
        return None;
    }
    let lot = lot_id_at(value)?;
    let bin = name_at(value, "bin")?;
    let qty = counted_at(value, "qty")?;
    Some(Recount { lot, bin, qty })
}

fn adjustment_of(value: &Value) -> Option<Adjustment>
    ensures { result ≡ adjustment_of_lem (view value.now) }
{
    if !is_object_of(value, 5) {
        return None;
    }
    let lot = lot_id_at(value)?;
    let bin = name_at(value, "bin")?;
    let change = delta_at(value, "change")?;
    Some(Adjustment { lot, bin, change })
}

fn day_of(value: &Value) -> Option<BusinessDay>
    ensures { result ≡ day_of_lem (view value.now) }
{
    if !is_object_of(value, 2) {
        return None;
    }
    business_day_at(value, "day")
}

fn least_of(value: &Value) -> Option<NewLeast>
    ensures { result ≡ least_of_lem (view value.now) }
{
    if !is_object_of(value, 3) {
        return None;
    }
    let gtin = gtin_at(value, "gtin")?;
    let days = least_days_at(value, "days")?;
    Some(NewLeast { gtin, days })
}

fn line_of(value: &Value) -> Option<OrderLine>
    ensures { result ≡ line_of_lem (view value.now) }
{
    if !is_object_of(value, 2) {
        return None;
    }
    let gtin = gtin_at(value, "gtin")?;
    let qty = qty_at(value, "qty")?;
    Some(OrderLine { gtin, qty })
}

fn scan_of(alloc: Global, value: &Value) -> Result<Ask, WireFault>
    ensures ok { IfOk result (λ a. scan_of_lem (view value.now) ≡ Some a) }
    ensures err { IfErr result (λ e. e ≢ WireFault.Memory → (e ≡ WireFault.Field)
        × (scan_of_lem (view value.now) ≡ None)) }
{
    if !is_object_of(value, 5) {
        return Err(WireFault::Field);
    }
    let Some(delivery) = name_at(value, "delivery") else {
        return Err(WireFault::Field);
    };
    let Some(line) = line_at(value, "line") else {
        return Err(WireFault::Field);
    };
    let Some(label) = text_at(value, "label") else {
        return Err(WireFault::Field);
    };
    let Some(bin) = name_at(value, "bin") else {
        return Err(WireFault::Field);
    };
    let Some(qty) = qty_at(value, "qty") else {
        return Err(WireFault::Field);
    };
    let Ok(label) = Vec::from_slice(alloc, label.as_bytes()) else {
        return Err(WireFault::Memory);
    };
    Ok(Ask::Scan {
        delivery,
        line,
        label: Listed::from_vec(label),
        bin,
        qty,
    })
}

// Each item as a line, if each is one.
fn lines_of(alloc: Global, items: &[Value]) -> Result<Vec<OrderLine>, WireFault>
    ensures ok { IfOk result (λ v. lines_of_lem (items_view items.now) ≡ Some v.items) }
    ensures err { IfErr result (λ e. e ≢ WireFault.Memory → (e ≡ WireFault.Field)
        × (lines_of_lem (items_view items.now) ≡ None)) }
{
    let mut found = Vec::new(alloc);
    for item in items {
        let Some(line) = line_of(item) else {
            return Err(WireFault::Field);
        };
        if found.push(line).is_err() {
            return Err(WireFault::Memory);
        }
    }
    Ok(found)
}

// A list of 1 to 200 lines.
fn lines_at(alloc: Global, value: &Value, name: &str) -> Result<Lines, WireFault>
    ensures ok { IfOk result (λ v. lines_at_lem name.now (view value.now) ≡ Some v) }
    ensures err { IfErr result (λ e. e ≢ WireFault.Memory → (e ≡ WireFault.Field)
        × (lines_at_lem name.now (view value.now) ≡ None)) }
{
    let Some(list) = array_at(value, name) else {
        return Err(WireFault::Field);
    };
    match Lines::new(lines_of(alloc, list)?) {
        Some(lines) => Ok(lines),
        None => Err(WireFault::Field),
    }
}

fn new_order_of(alloc: Global, value: &Value) -> Result<NewOrder, WireFault>
    ensures ok { IfOk result (λ a. new_order_of_lem (view value.now) ≡ Some a) }
    ensures err { IfErr result (λ e. e ≢ WireFault.Memory → (e ≡ WireFault.Field)
        × (new_order_of_lem (view value.now) ≡ None)) }
{
    if !is_object_of(value, 4) {
        return Err(WireFault::Field);
    }
    let Some(order) = name_at(value, "order") else {
        return Err(WireFault::Field);
    };
    let Some(customer) = title_at(value, "customer") else {
        return Err(WireFault::Field);
    };
    let lines = lines_at(alloc, value, "lines")?;
    Ok(NewOrder {
        order,
        customer,
        lines,
    })
}

fn lot_of(value: &Value) -> Option<LotId>
    ensures { result ≡ lot_of_lem (view value.now) }
{
    if !is_object_of(value, 3) {
        return None;
    }
    lot_id_at(value)
}

fn order_of(value: &Value) -> Option<Name>
    ensures { result ≡ order_of_lem (view value.now) }
{
    if !is_object_of(value, 2) {
        return None;
    }
    name_at(value, "order")
}

fn picking_of(value: &Value) -> Option<Picking>
    ensures { result ≡ picking_of_lem (view value.now) }
{
    if !is_object_of(value, 6) {
        return None;
    }
    let order = name_at(value, "order")?;
    let lot = lot_id_at(value)?;
    let bin = name_at(value, "bin")?;
    let qty = qty_at(value, "qty")?;
    Some(Picking {
        order,
        lot,
        bin,
        qty,
    })
}

// The commands that are read without memory.
fn plain_command(posted: Posted, value: &Value) -> Option<Command>
    requires { (posted ≢ Posted.Orders) × (posted ≢ Posted.Urgents) }
    ensures { result ≡ command_of_lem posted (view value.now) }
{
    match posted {
        Posted::Items => item_of(value).map(Command::Item),
        Posted::Bins => bin_of(value).map(Command::Bin),
        Posted::Moves => move_of(value).map(Command::Move),
        Posted::Counts => count_of(value).map(Command::Count),
        Posted::Adjustments => adjustment_of(value).map(Command::Adjust),
        Posted::Cancels => order_of(value).map(Command::Cancel),
        Posted::Picks => picking_of(value).map(Command::Pick),
        Posted::Unpicks => picking_of(value).map(Command::Unpick),
        Posted::Shipments => order_of(value).map(Command::Ship),
        Posted::Holds => lot_of(value).map(Command::Hold),
        Posted::Releases => lot_of(value).map(Command::Release),
        Posted::Recalls => lot_of(value).map(Command::Recall),
        Posted::Days => day_of(value).map(Command::OpenDay),
        Posted::Leasts => least_of(value).map(Command::Least),
        _ => None,
    }
}

fn command_of(alloc: Global, posted: Posted, value: &Value) -> Result<Command, WireFault>
    ensures ok { IfOk result (λ c. command_of_lem posted (view value.now) ≡ Some c) }
    ensures err { IfErr result (λ e. e ≢ WireFault.Memory → (e ≡ WireFault.Field)
        × (command_of_lem posted (view value.now) ≡ None)) }
{
    match posted {
        Posted::Orders => Ok(Command::Order(new_order_of(alloc, value)?)),
        Posted::Urgents => Ok(Command::Urgent(new_order_of(alloc, value)?)),
        _ => match plain_command(posted, value) {
            Some(command) => Ok(command),
            None => Err(WireFault::Field),
        },
    }
}

/// What a value posted to a route asks: `W04` where it has not exactly the fields of that route,
/// each within its rule.
pub fn body_of(alloc: Global, posted: Posted, value: &Value) -> Result<Ask, WireFault>
    ensures ok { IfOk result (λ a. body_of_lem posted (view value.now) ≡ Some a) }
    ensures err { IfErr result (λ e. e ≢ WireFault.Memory → (e ≡ WireFault.Field)
        × (body_of_lem posted (view value.now) ≡ None)) }
{
    if let Posted::Receipts = posted {
        return scan_of(alloc, value);
    }
    let Some(key) = name_at(value, "key") else {
        return Err(WireFault::Field);
    };
    let command = command_of(alloc, posted, value)?;
    Ok(Ask::Do(Key::Plain(key), command))
}
