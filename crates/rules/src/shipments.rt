//! Orders that are shipped.

ghost use Rattle.std.specs.Prelude.{◌≡◌, ◌-◌, map, min, pos, neg_ℤ, decimal, IfOk};
ghost use Rattle.std.specs.List.{list_any};
ghost use Rattle.commands.specs.declared.limits.TheConstants.{UNITS_MAX};
ghost use Rattle.machine.specs.Verdict.{first_refusal};
ghost use Rattle.row_rules.specs.Seen.{none_put};
ghost use Rattle.rules.specs.DecidedShip.{ship_seen, ship_changes, shipment_seen as shipment_seen_lem, meta_shipped as meta_shipped_lem, rows_shipped as rows_shipped_lem, lines_shipped as lines_shipped_lem, line_shipped as line_shipped_lem, lacks_units as lacks_units_lem, order_put as order_put_lem, done_row as done_row_lem, shipment_put as shipment_put_lem, shipline as shipline_lem, ship_card as ship_card_lem, ship_reply as ship_reply_lem};

use commands::limits::{CARD_NOTE_MAX, UNITS_MAX};
use commands::{
    Buffer, CardKind, CardRow, LineRow, Listed, MetaRow, OrderRow, OrderState, Refusal, ReplyField,
    ShiplineRow, ShipmentRow, Short, StagedRow, StockRow, reply,
};
use row_rules::change_parts::{none_dropped, none_put, number_seen, one};
use row_rules::first_refusal::first_of;
use row_rules::list_parts::push_if;
use row_rules::loops::{Make, each_made};
use row_rules::orders_seen::{lines_seen, order_row_seen, sees_open, sees_order, staged_for_seen};
use row_rules::row_search::rows_with;
use row_rules::rows_by_key::{RowsByKey, by_key};
use row_rules::{Change, Dropped, Put, Slice};
use std::alloc::{AllocError, Global};
use values::{Gtin, LotId, Name, Text};

/// The refusal of the shipping of an order, if it is refused.
pub fn judge_ship(slice: &Slice, order: &Name) -> Option<Refusal>
    ensures { result ≡ first_refusal (ship_seen slice.now order.now) }
{
    let known = sees_order(slice, order);
    let open = sees_open(slice, order);
    let staged = staged_for_seen(slice, order);
    first_of(&[
        (!known, Refusal::UnknownOrder),
        (!open, Refusal::OrderClosed),
        (staged == 0, Refusal::NothingStaged),
    ])
}

/// What the shipping of an order changes.
pub fn change_ship(alloc: Global, slice: &Slice, order: &Name) -> Result<Change, AllocError>
    ensures { IfOk result (λ change. change ≡ ship_changes slice.now order.now) }
{
    let staged = rows_with(alloc, slice.rows.staged.as_slice(), order)?;
    let put = ship_put(alloc, slice, order, staged.as_slice())?;
    Ok(Change {
        meta: meta_shipped(slice),
        put,
        dropped: Dropped {
            stage: Some(*order),
            ..none_dropped(alloc)
        },
        text: ship_reply(slice),
    })
}

// The rows that are put, where these are the rows of what is shipped.
fn ship_put(
    alloc: Global,
    slice: &Slice,
    order: &Name,
    staged: &[StagedRow],
) -> Result<Put, AllocError>
    ensures { IfOk result (λ rows. staged.now ≡ rows_shipped_lem order.now slice.now.rows.staged → rows ≡ (ship_changes slice.now order.now).put) }
{
    let lines = lines_shipped(alloc, slice, order)?;
    let lacking = any_lacks_units(lines.as_slice());
    let orders = order_put(alloc, order_row_seen(slice, order), lacking)?;
    let shiplines = shiplines(alloc, shipment_seen(slice), staged)?;
    let cards = ship_cards(alloc, slice, staged)?;
    let shipments = one(alloc, shipment_put(slice, order))?;
    Ok(rows_of(alloc, orders, lines, shipments, shiplines, cards))
}

// These rows and no others.
fn rows_of(
    alloc: Global,
    orders: Vec<OrderRow>,
    lines: Vec<LineRow>,
    shipments: Listed<ShipmentRow>,
    shiplines: Vec<ShiplineRow>,
    cards: Vec<CardRow>,
) -> Put
    ensures { result ≡ record none_put { orders = orders.items; lines = lines.items; shipments = shipments; shiplines = shiplines.items; cards = cards.items } }
{
    Put {
        orders: Listed::from_vec(orders),
        lines: Listed::from_vec(lines),
        shipments,
        shiplines: Listed::from_vec(shiplines),
        cards: Listed::from_vec(cards),
        ..none_put(alloc)
    }
}

// The number of the shipment.
fn shipment_seen(slice: &Slice) -> u64
    ensures { result ≡ shipment_seen_lem slice.now }
{
    slice.meta.shipments.saturating_add(1)
}

fn meta_shipped(slice: &Slice) -> MetaRow
    ensures { result ≡ meta_shipped_lem slice.now }
{
    MetaRow {
        day: slice.meta.day,
        acts: number_seen(slice),
        shipments: shipment_seen(slice),
    }
}

// The lines of the order after the act.
fn lines_shipped(alloc: Global, slice: &Slice, order: &Name) -> Result<Vec<LineRow>, AllocError>
    ensures { IfOk result (λ v. v.items ≡ lines_shipped_lem slice.now order.now) }
{
    let lines = lines_seen(alloc, slice, order)?;
    ship_lines(alloc, lines.as_slice(), slice.rows.staged.as_slice())
}

fn ship_lines(
    alloc: Global,
    rows: &[LineRow],
    staged: &[StagedRow],
) -> Result<Vec<LineRow>, AllocError>
    ensures { IfOk result (λ v. v.items ≡ map (line_shipped_lem staged.now) rows.now) }
{
    let by_line = by_key::<(Gtin, Name), StagedRow>(alloc, staged, rows.len())?;
    each_made(alloc, rows, &LineShipped { staged: by_line })
}

// A line with what was staged of its item.
#[derive(Drop)]
struct LineShipped<'a> {
    staged: RowsByKey<'a, (Gtin, Name), StagedRow>,
}

impl Make<LineRow, LineRow> for LineShipped<'_> {
    ghost use Rattle.rules.specs.DecidedShip.{line_shipped};

    ghost made = { λ m r. line_shipped m.staged r };

    fn make(&self, _: Global, row: &LineRow) -> Result<LineRow, AllocError> {
        Ok(line_shipped(&self.staged, row))
    }
}

fn line_shipped(staged: &RowsByKey<'_, (Gtin, Name), StagedRow>, row: &LineRow) -> LineRow
    ensures { result ≡ line_shipped_lem staged.now row.now }
{
    let more = staged.units(&(row.gtin, row.order));
    LineRow {
        order: row.order,
        gtin: row.gtin,
        ordered: row.ordered,
        shipped: row.shipped.saturating_add(more),
    }
}

// Whether a line is not shipped in full.
fn any_lacks_units(rows: &[LineRow]) -> bool
    ensures { result ≡ list_any lacks_units_lem rows.now }
{
    for row in rows {
        if row.shipped != row.ordered {
            return true;
        }
    }
    false
}

// The order's row, where it is done.
fn order_put(
    alloc: Global,
    row: Option<OrderRow>,
    lacking: bool,
) -> Result<Vec<OrderRow>, AllocError>
    ensures { IfOk result (λ v. v.items ≡ order_put_lem row lacking) }
{
    let mut rows = Vec::new(alloc);
    match row {
        None => Ok(rows),
        Some(r) => {
            push_if(&mut rows, !lacking, done_row(&r))?;
            Ok(rows)
        }
    }
}

fn done_row(row: &OrderRow) -> OrderRow
    ensures { result ≡ done_row_lem row.now }
{
    OrderRow {
        order: row.order,
        act: row.act,
        customer: row.customer,
        state: OrderState::Done,
    }
}

fn shipment_put(slice: &Slice, order: &Name) -> ShipmentRow
    ensures { result ≡ shipment_put_lem slice.now order.now }
{
    ShipmentRow {
        number: shipment_seen(slice),
        act: number_seen(slice),
        day: slice.meta.day,
        order: *order,
    }
}

fn shiplines(alloc: Global, number: u64, rows: &[StagedRow]) -> Result<Vec<ShiplineRow>, AllocError>
    ensures { IfOk result (λ v. v.items ≡ map (shipline_lem number) rows.now) }
{
    each_made(alloc, rows, &LineOf { number })
}

// A line of the shipment of this number.
#[derive(Clone, Copy)]
struct LineOf {
    number: u64,
}

impl Make<StagedRow, ShiplineRow> for LineOf {
    ghost use Rattle.rules.specs.DecidedShip.{shipline};

    ghost made = { λ m r. shipline m.number r };

    fn make(&self, _: Global, row: &StagedRow) -> Result<ShiplineRow, AllocError> {
        Ok(ShiplineRow {
            number: self.number,
            lot: row.lot,
            qty: row.qty,
        })
    }
}

fn ship_cards(alloc: Global, slice: &Slice, rows: &[StagedRow]) -> Result<Vec<CardRow>, AllocError>
    ensures { IfOk result (λ v. v.items ≡ map (ship_card_lem slice.now) rows.now) }
{
    let all = &slice.rows;
    let stock = by_key::<LotId, StockRow>(alloc, all.stock.as_slice(), rows.len())?;
    let staged = by_key::<LotId, StagedRow>(alloc, all.staged.as_slice(), rows.len())?;
    let card = CardShipped {
        slice,
        stock,
        staged,
    };
    each_made(alloc, rows, &card)
}

// The card line of what is shipped of a lot, where these rows tell the units of lots.
#[derive(Drop)]
struct CardShipped<'a> {
    slice: &'a Slice,
    stock: RowsByKey<'a, LotId, StockRow>,
    staged: RowsByKey<'a, LotId, StagedRow>,
}

impl Make<StagedRow, CardRow> for CardShipped<'_> {
    ghost use Rattle.std.specs.Prelude.{◌-◌};
    ghost use Rattle.row_rules.specs.Seen.{lot_units};
    ghost use Rattle.rules.specs.DecidedShip.{ship_card};

    ghost made = { λ m r. record (ship_card m.slice.now r) { rest = lot_units r.lot m.stock m.staged - r.qty } };

    fn make(&self, _: Global, row: &StagedRow) -> Result<CardRow, AllocError> {
        let in_bins = self.stock.units(&row.lot);
        let on_stages = self.staged.units(&row.lot);
        let units = in_bins.saturating_add(on_stages);
        Ok(ship_card(self.slice, row, units))
    }
}

// The card line of what is shipped of a lot, where the lot has so many units before it.
fn ship_card(slice: &Slice, row: &StagedRow, units: u64) -> CardRow
    ensures { result ≡ record (ship_card_lem slice.now row.now) { rest = units - row.now.qty } }
{
    CardRow {
        lot: row.lot,
        act: number_seen(slice),
        day: slice.meta.day,
        kind: CardKind::Shipment,
        note: shipment_note(shipment_seen(slice)),
        qty: units_gone(row.qty),
        rest: units.saturating_sub(row.qty),
    }
}

fn shipment_note(number: u64) -> Text<CARD_NOTE_MAX>
    ensures { result ≡ decimal number }
{
    let mut text = Buffer::<CARD_NOTE_MAX>::new();
    text.push_decimal(number);
    text.text()
}

// Units as a card shows that they went: below 0.
fn units_gone(units: u64) -> i64
    ensures { result ≡ neg_ℤ (pos (min units UNITS_MAX)) }
{
    let units = units.min(UNITS_MAX) as i64;
    -units
}

// The reply with the shipment's number.
fn ship_reply(slice: &Slice) -> Short
    ensures { result ≡ ship_reply_lem slice.now }
{
    reply(
        number_seen(slice),
        Some(ReplyField::ShipmentNumber(shipment_seen(slice))),
    )
}
