//! What is shown of the open orders.

ghost use Rattle.std.specs.Prelude.{◌≡◌, ◌+◌, ◌++◌, [], ◌∷◌, map, take, if◌then◌else◌, IfOk, OnOk, ℤ, List, Option, length};
ghost use Rattle.values.specs.Values.{same_text};
ghost use Rattle.machine.specs.Acts.{Act};
ghost use Rattle.machine.specs.Once.{IsHistory};
ghost use Rattle.machine.specs.Standing.{Placed};
ghost use Rattle.overviews.specs.Pages.{open_orders, open_orders_view as open_orders_view_lem};
ghost use Rattle.views.specs.ShownOpen.{AreOpen, AreOfPage, IsSeenLast, served_order};
ghost use Rattle.views.specs.GivenOpen.{served as served_lem, is_listed as is_listed_lem, listed as listed_lem, page_and_more, line_units as line_units_lem, no_units as no_units_lem, with_units as with_units_lem, order_units as order_units_lem, class_of as class_of_lem, open_order_told, open_orders_told};

use crate::line_short::short_found;
use crate::pages::{first_in_order, is_behind, page_of};
use commands::{LineRow, Listed, OrderClass, OrderRow, ReservedRow, StagedRow, UrgentRow};
use overviews::{OpenOrder, OpenOrdersView, PAGE_MAX};
use row_rules::demands::is_open;
use row_rules::having::Has;
use row_rules::in_order::Order;
use row_rules::loops::{Make, each_made};
use row_rules::rows_by_key::{RowsByKey, by_key};
use rules::Rows;
use std::alloc::{AllocError, Global};
use values::{Gtin, Name};

/// An order, and whether it is urgent.
#[derive(Clone, Copy)]
pub struct ServedOrder {
    pub urgent: bool,
    pub row: OrderRow,
}

impl Has<Name> for ServedOrder {
    ghost of_row = { λ s. s.row.order };

    fn value(&self) -> Name {
        self.row.order
    }
}

/// The order of service: urgent orders before all others, and those of one class by number.
struct ByService;

impl Order<ServedOrder> for ByService {
    ghost use Rattle.views.specs.GivenOpen.{is_before as is_before_lem};

    ghost before = { is_before_lem };

    fn is_before(first: &ServedOrder, second: &ServedOrder) -> bool {
        if first.urgent == second.urgent {
            first.row.act < second.row.act
        } else {
            first.urgent
        }
    }
}

// Which orders

fn served(urgents: &RowsByKey<'_, Name, UrgentRow>, order: &OrderRow) -> ServedOrder
    ensures { result ≡ served_lem urgents.now order.now }
{
    ServedOrder {
        urgent: urgents.has(&order.order),
        row: *order,
    }
}

fn is_listed(seen: &Option<ServedOrder>, order: &ServedOrder) -> bool
    ensures { result ≡ is_listed_lem seen.now order.now }
{
    is_open(order.row.state) && is_behind::<ByService, ServedOrder>(seen, order)
}

fn push_listed(
    listed: &mut Vec<ServedOrder>,
    seen: &Option<ServedOrder>,
    order: ServedOrder,
) -> Result<(), AllocError>
    ensures { OnOk result (listed.new.items ≡ listed.old.items ++ (if is_listed_lem seen.now order then order ∷ [] else [])) }
{
    if is_listed(seen, &order) {
        listed.push(order)?;
    }
    Ok(())
}

/// The open orders behind the one that was seen last.
pub fn orders_listed(
    alloc: Global,
    urgents: &RowsByKey<'_, Name, UrgentRow>,
    seen: &Option<ServedOrder>,
    orders: &[OrderRow],
) -> Result<Vec<ServedOrder>, AllocError>
    ensures { IfOk result (λ v. v.items ≡ listed_lem urgents.now seen.now orders.now) }
{
    let mut listed = Vec::new(alloc);
    for order in orders {
        push_listed(&mut listed, seen, served(urgents, order))?;
    }
    Ok(listed)
}

/// The open orders behind the one that was seen last, in the order of service: as many as a page has, and one more where
/// they go on. The rows are those of all open orders, and of `urgents` for these; others may be among them.
pub fn open_page(
    alloc: Global,
    orders: &[OrderRow],
    urgents: &[UrgentRow],
    seen: Option<ServedOrder>,
) -> Result<Vec<ServedOrder>, AllocError>
    ensures seen { IfOk result (λ v. v.items ≡ page_and_more urgents.now seen orders.now) }
    ensures shown { (first : ℤ) (acts : List Act) (last : Option Placed) → IsHistory first acts → IsSeenLast first acts last seen → AreOpen first acts orders.now urgents.now
        → IfOk result (λ v. v.items ≡ map (served_order first acts) (take (PAGE_MAX + 1) (open_orders first acts last))) }
{
    let by_name = by_key::<Name, UrgentRow>(alloc, urgents, orders.len())?;
    let listed = orders_listed(alloc, &by_name, &seen, orders)?;
    first_in_order::<ByService, ServedOrder>(alloc, listed.as_slice(), PAGE_MAX + 1)
}

// Their units

/// Units of lines of an order.
#[derive(Clone, Copy)]
pub struct OrderUnits {
    pub ordered: u64,
    pub reserved: u64,
    pub shipped: u64,
    pub short: u64,
    pub staged: u64,
}

fn no_units() -> OrderUnits
    ensures { result ≡ no_units_lem }
{
    OrderUnits {
        ordered: 0,
        reserved: 0,
        shipped: 0,
        short: 0,
        staged: 0,
    }
}

fn line_units(
    staged: &RowsByKey<'_, (Name, Gtin), StagedRow>,
    reserved: &RowsByKey<'_, (Name, Gtin), ReservedRow>,
    order: &OrderRow,
    line: &LineRow,
) -> OrderUnits
    ensures { result ≡ line_units_lem staged.now reserved.now order.now line.now }
{
    OrderUnits {
        ordered: line.ordered,
        reserved: reserved.units(&(order.order, line.gtin)),
        shipped: line.shipped,
        short: short_found(staged, reserved, order, line),
        staged: staged.units(&(order.order, line.gtin)),
    }
}

// The sums are held at the greatest `u64`.
fn with_units(some: &OrderUnits, more: &OrderUnits) -> OrderUnits
    ensures { result ≡ with_units_lem some.now more.now }
{
    OrderUnits {
        ordered: some.ordered.saturating_add(more.ordered),
        reserved: some.reserved.saturating_add(more.reserved),
        shipped: some.shipped.saturating_add(more.shipped),
        short: some.short.saturating_add(more.short),
        staged: some.staged.saturating_add(more.staged),
    }
}

fn with_line(
    units: &OrderUnits,
    staged: &RowsByKey<'_, (Name, Gtin), StagedRow>,
    reserved: &RowsByKey<'_, (Name, Gtin), ReservedRow>,
    order: &OrderRow,
    line: &LineRow,
) -> OrderUnits
    ensures { result ≡ (if same_text order.now.order line.now.order then with_units_lem units.now (line_units_lem staged.now reserved.now order.now line.now) else units.now) }
{
    if order.order == line.order {
        with_units(units, &line_units(staged, reserved, order, line))
    } else {
        *units
    }
}

// The units of the lines of the order.
fn order_units(
    lines: &[LineRow],
    staged: &RowsByKey<'_, (Name, Gtin), StagedRow>,
    reserved: &RowsByKey<'_, (Name, Gtin), ReservedRow>,
    order: &OrderRow,
) -> OrderUnits
    ensures { result ≡ order_units_lem lines.now staged.now reserved.now order.now }
{
    let mut units = no_units();
    for line in lines {
        units = with_line(&units, staged, reserved, order, line);
    }
    units
}

// What is shown

fn class_of(urgent: bool) -> OrderClass
    ensures { result ≡ class_of_lem urgent }
{
    if urgent {
        OrderClass::Urgent
    } else {
        OrderClass::Normal
    }
}

fn open_order(
    lines: &RowsByKey<'_, Name, LineRow>,
    staged: &RowsByKey<'_, (Name, Gtin), StagedRow>,
    reserved: &RowsByKey<'_, (Name, Gtin), ReservedRow>,
    order: &ServedOrder,
) -> OpenOrder
    ensures { result ≡ open_order_told lines.now staged.now reserved.now order.now }
{
    let own = lines.candidates(&order.row.order);
    let units = order_units(own, staged, reserved, &order.row);
    OpenOrder {
        class: class_of(order.urgent),
        customer: order.row.customer,
        order: order.row.order,
        ordered: units.ordered,
        reserved: units.reserved,
        shipped: units.shipped,
        short: units.short,
        staged: units.staged,
    }
}

// An open order, by these rows.
#[derive(Drop)]
struct OrderShown<'a> {
    lines: RowsByKey<'a, Name, LineRow>,
    staged: RowsByKey<'a, (Name, Gtin), StagedRow>,
    reserved: RowsByKey<'a, (Name, Gtin), ReservedRow>,
}

impl Make<ServedOrder, OpenOrder> for OrderShown<'_> {
    ghost use Rattle.views.specs.GivenOpen.{open_order_told};

    ghost made = { λ m o. open_order_told m.lines m.staged m.reserved o };

    fn make(&self, _: Global, order: &ServedOrder) -> Result<OpenOrder, AllocError> {
        Ok(open_order(&self.lines, &self.staged, &self.reserved, order))
    }
}

/// What is shown of orders, by these rows.
pub fn orders_shown(
    alloc: Global,
    lines: &[LineRow],
    staged: &[StagedRow],
    reserved: &[ReservedRow],
    orders: &[ServedOrder],
) -> Result<Vec<OpenOrder>, AllocError>
    ensures { IfOk result (λ v. v.items ≡ map (open_order_told lines.now staged.now reserved.now) orders.now) }
{
    let lines = by_key::<Name, LineRow>(alloc, lines, orders.len())?;
    let staged = by_key::<(Name, Gtin), StagedRow>(alloc, staged, orders.len())?;
    let reserved = by_key::<(Name, Gtin), ReservedRow>(alloc, reserved, orders.len())?;
    let shown = OrderShown {
        lines,
        staged,
        reserved,
    };
    each_made(alloc, orders, &shown)
}

/// What is shown of a page of open orders, which has one more where they go on (`open_page`), after so many acts. The rows
/// are those of the lines of the orders, and of what is staged and reserved for them; others may be among them. It fails for
/// want of memory alone.
pub fn open_orders_view(
    alloc: Global,
    act: u64,
    rows: &Rows,
    found: &[ServedOrder],
) -> Result<OpenOrdersView, AllocError>
    ensures seen { IfOk result (λ view. view ≡ open_orders_told act rows.now.lines rows.now.staged rows.now.reserved found.now) }
    ensures shown { (first : ℤ) (acts : List Act) (last : Option Placed) → IsHistory first acts → length acts ≡ act → found.now ≡ map (served_order first acts) (take (PAGE_MAX + 1) (open_orders first acts last))
        → AreOfPage first acts last rows.now → IfOk result (λ view. view ≡ open_orders_view_lem first acts last) }
{
    let orders = orders_shown(
        alloc,
        rows.lines.as_slice(),
        rows.staged.as_slice(),
        rows.reserved.as_slice(),
        page_of(found),
    )?;
    Ok(OpenOrdersView {
        act,
        orders: Listed::from_vec(orders),
        more: found.len() > PAGE_MAX,
    })
}
