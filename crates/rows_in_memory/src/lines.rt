//! The orders that may be open, by the items of their lines.

ghost use Rattle.std.specs.Prelude.{◌≡◌, ◌&&◌, true, [], OnOk, OnErr, IfOk};
ghost use Rattle.values.specs.Values.{same_text};
ghost use Rattle.rows_in_memory.specs.OpenLines.{all_names, orders_at, are_apart, with_order, without_order, ChangesAt, IsSame, Gains, Loses, Keeps, has_line_row, is_closed_state, has_closed_row};

use crate::name_set::NameSet;
use commands::{LineRow, OrderRow, OrderState};
use std::alloc::{AllocError, Global};
use std::collections::BTreeMap;
use std::marker::Model;
use values::{Gtin, Name, TextKey};

/// For each item the orders that may be open and have a line of it, each once. What reads them looks at their rows: an
/// order that is closed, or is none, may stand here too.
#[derive(Drop)]
pub struct OpenLines {
    orders: BTreeMap<TextKey, NameSet>,
    alloc: Global,
}

impl Model for OpenLines {
    ghost use Rattle.std.specs.Prelude.{map, reverse};
    ghost use Rattle.rows_in_memory.specs.OpenLines.{Entries};

    ghost Value = { Entries };

    ghost view = { λ s. map (λ e. (reverse e.0, e.1)) s.orders.entries };
}

fn is_closed(state: OrderState) -> bool
    ensures { result ≡ is_closed_state state }
{
    match state {
        OrderState::Open => false,
        OrderState::Done | OrderState::Cancelled => true,
    }
}

impl OpenLines {
    /// No orders.
    pub fn new(alloc: Global) -> Self
        ensures { result ≡ [] }
    {
        OpenLines {
            orders: BTreeMap::new(alloc),
            alloc,
        }
    }

    /// The orders that may be open and have a line of the item.
    pub fn orders_of(&self, gtin: &Gtin) -> &[Name]
        ensures orders { result.now ≡ orders_at self.now gtin.now }
        ensures once { are_apart result.now ≡ true }
    {
        match self.orders.get(&TextKey::of_gtin(gtin)) {
            Some(orders) => orders.as_slice(),
            None => &[],
        }
    }

    /// The orders that may be open, one item after another: an order once for each item that it stands with.
    pub fn all(&self) -> Result<Vec<Name>, AllocError>
        ensures { IfOk result (λ names. names.items ≡ all_names self.now) }
    {
        let mut names = Vec::new(self.alloc);
        for (_gtin, orders) in self.orders.iter() {
            names.extend_from_slice(orders.as_slice())?;
        }
        Ok(names)
    }

    /// One order more with the item; for want of memory they stay as they were.
    fn add(&mut self, gtin: Gtin, order: Name) -> Result<(), AllocError>
        ensures added { OnOk result (ChangesAt gtin (with_order order) self.old self.new) }
        ensures refused { OnErr result (IsSame self.old self.new) }
    {
        match self.orders.get_mut(&TextKey::of_gtin(&gtin)) {
            Some(orders) => orders.add(order),
            None => {
                let mut orders = NameSet::new(self.alloc);
                orders.add(order)?;
                self.orders.insert(TextKey::of_gtin(&gtin), orders)?;
                Ok(())
            }
        }
    }

    /// One order fewer with the item. It takes no memory.
    fn remove(&mut self, gtin: &Gtin, order: &Name)
        ensures { ChangesAt gtin.now (without_order order.now) self.old self.new }
    {
        if let Some(orders) = self.orders.get_mut(&TextKey::of_gtin(gtin)) {
            orders.remove(order);
        }
    }

    /// The orders of the rows stand with their items. For want of memory some do.
    pub fn add_rows(&mut self, rows: &[LineRow]) -> Result<(), AllocError>
        ensures added { OnOk result (Gains (has_line_row rows.now) self.old self.new) }
        ensures kept { Keeps self.old self.new }
    {
        for row in rows {
            self.add(row.gtin, row.order)?;
        }
        Ok(())
    }

    // The order, if the line is its.
    fn forget_line(&mut self, order: &Name, line: &LineRow)
        ensures { Loses (λ g o. same_text o order.now && (same_text o line.now.order && same_text g line.now.gtin)) self.old self.new }
    {
        if *order == line.order {
            self.remove(&line.gtin, order);
        }
    }

    fn forget_order(&mut self, order: &Name, lines: &[LineRow])
        ensures { Loses (λ g o. same_text o order.now && has_line_row lines.now g o) self.old self.new }
    {
        for line in lines {
            self.forget_line(order, line);
        }
    }

    // The order, if it is closed.
    fn forget_if_closed(&mut self, order: &OrderRow, lines: &[LineRow])
        ensures { Loses (λ g o. (same_text o order.now.order && is_closed_state order.now.state) && has_line_row lines.now g o) self.old self.new }
    {
        if is_closed(order.state) {
            self.forget_order(&order.order, lines);
        }
    }

    /// The orders of which a row tells that they are closed do not stand with the items of these lines any more. It takes
    /// no memory.
    pub fn forget_closed(&mut self, orders: &[OrderRow], lines: &[LineRow])
        ensures { Loses (λ g o. has_closed_row orders.now o && has_line_row lines.now g o) self.old self.new }
    {
        for order in orders {
            self.forget_if_closed(order, lines);
        }
    }
}
