ghost use Rattle.std.specs.Prelude.{◌≡◌, IsTrue};
ghost use Rattle.values.specs.Values.{checked};
ghost use Rattle.commands.specs.Limits.{has_order_lines};

use crate::Listed;
use crate::limits::ORDER_LINES_MAX;
use label::{BusinessDay, Day};
use std::marker::Model;
use values::{Counted, Delta, Gtin, LeastDays, LotId, Name, Qty, Title};

/// What a bin is for: units in a STORE bin may be picked, those in a HOLD bin may not.
#[derive(Clone, Copy)]
pub enum BinKind {
    Store,
    Hold,
}

/// An item that is taken into the range.
#[derive(Clone, Copy)]
pub struct NewItem {
    pub gtin: Gtin,
    pub name: Title,
}

/// A bin that is set up.
#[derive(Clone, Copy)]
pub struct NewBin {
    pub bin: Name,
    pub kind: BinKind,
}

/// Units of a lot that a delivery brings into a bin.
#[derive(Clone, Copy)]
pub struct Receipt {
    pub lot: LotId,
    pub expiry: Day,
    pub bin: Name,
    pub qty: Qty,
}

/// Units of a lot that go from one bin to another.
#[derive(Clone, Copy)]
pub struct Movement {
    pub lot: LotId,
    pub from: Name,
    pub to: Name,
    pub qty: Qty,
}

/// How many units of a lot were found in a bin.
#[derive(Clone, Copy)]
pub struct Recount {
    pub lot: LotId,
    pub bin: Name,
    pub qty: Counted,
}

/// Units of a lot that are written on or off in a bin.
#[derive(Clone, Copy)]
pub struct Adjustment {
    pub lot: LotId,
    pub bin: Name,
    pub change: Delta,
}

/// How many units of an item a customer orders.
#[derive(Clone, Copy)]
pub struct OrderLine {
    pub gtin: Gtin,
    pub qty: Qty,
}

/// The 1 to 200 lines of an order.
#[derive(Drop)]
pub struct Lines {
    lines: Listed<OrderLine>,
}

impl Model for Lines {
    ghost use Rattle.std.specs.Prelude.{List, length, IsTrue};
    ghost use Rattle.values.specs.Values.{is_between};
    ghost use Rattle.commands.specs.Limits.{ORDER_LINES_MAX};
    ghost use Rattle.commands.specs.declared.command.OrderLine.{OrderLine};

    ghost Value = { List OrderLine };

    ghost view = { λ l. l.lines };

    ghost invariant = { λ l. IsTrue (is_between 1 ORDER_LINES_MAX (length l.lines)) };
}

impl Lines {
    /// The lines, if there are 1 to 200.
    pub fn new(lines: Vec<OrderLine>) -> Option<Lines>
        ensures { result ≡ checked has_order_lines lines.items }
    {
        if lines.is_empty() || lines.len() > ORDER_LINES_MAX {
            return None;
        }
        Some(Lines {
            lines: Listed::from_vec(lines),
        })
    }

    /// The vector back. It takes no memory.
    pub fn into_vec(self) -> Vec<OrderLine>
        ensures { result.items ≡ self }
    {
        let Lines { lines } = self;
        lines.into_vec()
    }

    /// The lines in the order given.
    pub fn as_slice(&self) -> &[OrderLine]
        ensures value { result.now ≡ self.now }
        ensures rule { IsTrue (has_order_lines self.now) }
    {
        self.lines.as_slice()
    }
}

/// A customer's order.
#[derive(Drop)]
pub struct NewOrder {
    pub order: Name,
    pub customer: Title,
    pub lines: Lines,
}

/// How many days the lots of an item must have left to be shipped.
#[derive(Clone, Copy)]
pub struct NewLeast {
    pub gtin: Gtin,
    pub days: LeastDays,
}

/// Units of a lot for an order, from or to a bin.
#[derive(Clone, Copy)]
pub struct Picking {
    pub order: Name,
    pub lot: LotId,
    pub bin: Name,
    pub qty: Qty,
}

/// What the warehouse is told to book.
#[derive(Drop)]
pub enum Command {
    /// Takes an item into the range.
    Item(NewItem),
    /// Sets up a bin.
    Bin(NewBin),
    /// Receives units of a lot into a bin.
    Receive(Receipt),
    /// Moves units of a lot from bin to bin.
    Move(Movement),
    /// Counts the units of a lot in a bin.
    Count(Recount),
    /// Writes units of a lot on or off.
    Adjust(Adjustment),
    /// Takes a customer's order.
    Order(NewOrder),
    /// Cancels an order.
    Cancel(Name),
    /// Stages units of a lot for an order.
    Pick(Picking),
    /// Puts staged units back into a bin.
    Unpick(Picking),
    /// Ships all that is staged for an order.
    Ship(Name),
    /// Holds a lot.
    Hold(LotId),
    /// Releases a held lot.
    Release(LotId),
    /// Recalls a lot, for good.
    Recall(LotId),
    /// Opens a later business day.
    OpenDay(BusinessDay),
    /// Says how many days the lots of an item must have left.
    Least(NewLeast),
    /// Takes a customer's order that is served before those that are not urgent.
    Urgent(NewOrder),
}
