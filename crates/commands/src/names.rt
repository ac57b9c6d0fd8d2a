// What a command names.

ghost use Rattle.std.specs.Prelude.{◌≡◌};
ghost use Rattle.commands.specs.Names.{AreNames, names_of, none_named, lot_named, lot_in_bin, order_named, new_order_named, picking_named, is_cancelled, is_picked, is_shipped};

use crate::{Command, Movement, NewBin, NewItem, NewLeast, NewOrder, OrderLine, Picking};
use label::BusinessDay;
use values::{Gtin, LotId, Name};

/// What is added to the warehouse, of which there may be only so many.
#[derive(Clone, Copy)]
pub enum Added {
    Item,
    Bin,
}

/// What is done with an order.
#[derive(Clone, Copy)]
pub enum OrderStep {
    /// It is taken from the customer.
    Taken,
    /// It is cancelled, with each of its lines.
    Cancelled,
    /// Units are staged for it.
    Picked,
    /// Units that were staged for it are put back.
    Unpicked,
    /// All that is staged for it is shipped.
    Shipped,
}

impl OrderStep {
    /// Whether the order is cancelled.
    pub fn is_cancelled(self) -> bool
        ensures { result ≡ is_cancelled self }
    {
        matches!(self, OrderStep::Cancelled)
    }

    /// Whether units are staged for the order.
    pub fn is_picked(self) -> bool
        ensures { result ≡ is_picked self }
    {
        matches!(self, OrderStep::Picked)
    }

    /// Whether what is staged for the order is shipped.
    pub fn is_shipped(self) -> bool
        ensures { result ≡ is_shipped self }
    {
        matches!(self, OrderStep::Shipped)
    }
}

/// An order, and what is done with it.
#[derive(Clone, Copy)]
pub struct NamedOrder {
    pub order: Name,
    pub step: OrderStep,
}

/// What a command names.
#[derive(Clone, Copy)]
pub struct Names<'a> {
    /// What it adds to the warehouse.
    pub adds: Option<Added>,
    /// The item, or that of the lot.
    pub item: Option<Gtin>,
    /// The lines of an order that is taken.
    pub lines: &'a [OrderLine],
    pub lot: Option<LotId>,
    /// The bin, and of two the one from which units go.
    pub bin: Option<Name>,
    /// The bin to which units go from another.
    pub other_bin: Option<Name>,
    pub order: Option<NamedOrder>,
    /// The business day that it opens.
    pub day: Option<BusinessDay>,
}

impl Command {
    /// What the command names. It takes no memory.
    pub fn names(&self) -> Names<'_>
        ensures adds { result.adds ≡ (names_of self.now).adds }
        ensures item { result.item ≡ (names_of self.now).item }
        ensures lines { result.lines.now ≡ (names_of self.now).lines }
        ensures lot { result.lot ≡ (names_of self.now).lot }
        ensures bin { result.bin ≡ (names_of self.now).bin }
        ensures other_bin { result.other_bin ≡ (names_of self.now).other_bin }
        ensures order { result.order ≡ (names_of self.now).order }
        ensures day { result.day ≡ (names_of self.now).day }
    {
        match self {
            Command::Item(item) => of_item(item),
            Command::Bin(bin) => of_bin(bin),
            Command::Receive(receipt) => of_lot_in(&receipt.lot, &receipt.bin),
            Command::Move(movement) => of_movement(movement),
            Command::Count(recount) => of_lot_in(&recount.lot, &recount.bin),
            Command::Adjust(adjustment) => of_lot_in(&adjustment.lot, &adjustment.bin),
            Command::Order(order) | Command::Urgent(order) => of_new_order(order),
            Command::Cancel(order) => of_order(order, OrderStep::Cancelled),
            Command::Pick(picking) => of_picking(picking, OrderStep::Picked),
            Command::Unpick(picking) => of_picking(picking, OrderStep::Unpicked),
            Command::Ship(order) => of_order(order, OrderStep::Shipped),
            Command::Hold(lot) | Command::Release(lot) | Command::Recall(lot) => of_lot(lot),
            Command::OpenDay(day) => of_day(*day),
            Command::Least(least) => of_least(least),
        }
    }
}

fn of_nothing() -> Names<'static>
    ensures { AreNames result none_named }
{
    Names {
        adds: None,
        item: None,
        lines: &[],
        lot: None,
        bin: None,
        other_bin: None,
        order: None,
        day: None,
    }
}

fn of_item(item: &NewItem) -> Names<'_>
    ensures { AreNames result (names_of (Command.Item item.now)) }
{
    Names {
        adds: Some(Added::Item),
        item: Some(item.gtin),
        ..of_nothing()
    }
}

fn of_bin(bin: &NewBin) -> Names<'_>
    ensures { AreNames result (names_of (Command.Bin bin.now)) }
{
    Names {
        adds: Some(Added::Bin),
        bin: Some(bin.bin),
        ..of_nothing()
    }
}

fn of_lot(lot: &LotId) -> Names<'_>
    ensures { AreNames result (lot_named lot.now) }
{
    Names {
        item: Some(lot.gtin),
        lot: Some(*lot),
        ..of_nothing()
    }
}

fn of_lot_in<'a>(lot: &'a LotId, bin: &'a Name) -> Names<'a>
    ensures { AreNames result (lot_in_bin lot.now bin.now) }
{
    Names {
        bin: Some(*bin),
        ..of_lot(lot)
    }
}

fn of_movement(movement: &Movement) -> Names<'_>
    ensures { AreNames result (names_of (Command.Move movement.now)) }
{
    Names {
        other_bin: Some(movement.to),
        ..of_lot_in(&movement.lot, &movement.from)
    }
}

fn of_order(order: &Name, step: OrderStep) -> Names<'_>
    ensures { AreNames result (order_named order.now step) }
{
    Names {
        order: Some(NamedOrder {
            order: *order,
            step,
        }),
        ..of_nothing()
    }
}

fn of_new_order(order: &NewOrder) -> Names<'_>
    ensures { AreNames result (new_order_named order.now) }
{
    Names {
        lines: order.lines.as_slice(),
        ..of_order(&order.order, OrderStep::Taken)
    }
}

fn of_picking(picking: &Picking, step: OrderStep) -> Names<'_>
    ensures { AreNames result (picking_named picking.now step) }
{
    Names {
        order: Some(NamedOrder {
            order: picking.order,
            step,
        }),
        ..of_lot_in(&picking.lot, &picking.bin)
    }
}

fn of_day(day: BusinessDay) -> Names<'static>
    ensures { AreNames result (names_of (Command.OpenDay day)) }
{
    Names {
        day: Some(day),
        ..of_nothing()
    }
}

fn of_least(least: &NewLeast) -> Names<'_>
    ensures { AreNames result (names_of (Command.Least least.now)) }
{
    Names {
        item: Some(least.gtin),
        ..of_nothing()
    }
}
