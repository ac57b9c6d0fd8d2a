//! What the trace of a lot shows of its rows.

ghost use Rattle.std.specs.Prelude.{◌≡◌, ℕ, List, true, IfOk, [], Some, filter};
ghost use Rattle.values.specs.Values.{is_name, is_line_no};
ghost use Rattle.commands.specs.declared.key.Key.TheVariants.{Line};
ghost use Rattle.machine.specs.Cards.{delivery_note};
ghost use Rattle.row_rules.specs.Plans.{inserted};
ghost use Rattle.row_rules.specs.Seen.{capped};
ghost use Rattle.machine.specs.Laws.{is_kind as is_kind_lem};
ghost use Rattle.overviews.specs.Traces.{units_of_kind as units_of_kind_lem};
ghost use Rattle.overviews.specs.declared.trace.Delivery.{Delivery as Delivered};
ghost use Rattle.overviews.specs.declared.trace.StagedUnits.{StagedUnits as Staged};
ghost use Rattle.queries.specs.Telling.{AreToldOf};
ghost use Rattle.queries.specs.Traced.{before_slash as before_slash_lem, behind_slash as behind_slash_lem, delivery_with as delivery_with_lem, is_receipt, IsDelivery, IsStaged, order_before};

use crate::shipline::number_of;
use commands::{CardKind, CardRow, OrderRow, StagedRow};
use overviews::{Delivery, StagedUnits};
use row_rules::in_order::{Order, in_order};
use row_rules::loops::{Test, passing};
use row_rules::rows_by_key::{RowsByKey, by_key};
use std::alloc::{AllocError, Global};
use values::{LineNo, Name};

// The units of a kind

fn is_kind(kind: CardKind, other: CardKind) -> bool
    ensures { result ≡ is_kind_lem kind other }
{
    match (kind, other) {
        (CardKind::Receipt, CardKind::Receipt) => true,
        (CardKind::WriteOn, CardKind::WriteOn) => true,
        (CardKind::WriteOff, CardKind::WriteOff) => true,
        (CardKind::Shipment, CardKind::Shipment) => true,
        _ => false,
    }
}

/// The units that lines of a card show of one kind, held at the greatest `u64`.
pub fn units_of_kind(kind: CardKind, cards: &[CardRow]) -> u64
    ensures { result ≡ capped (units_of_kind_lem kind cards.now) }
{
    let mut sum = 0_u64;
    for card in cards {
        if is_kind(kind, card.kind) {
            sum = sum.saturating_add(card.qty.unsigned_abs());
        }
    }
    sum
}

// The deliveries

fn before_slash(text: &[u8]) -> &[u8]
    ensures { result.now ≡ before_slash_lem text.now }
{
    for i in 0..text.len() {
        if text[i] == b'/' {
            let (front, _) = text.split_at(i);
            return front;
        }
    }
    text
}

fn behind_slash(text: &[u8]) -> &[u8]
    ensures { result.now ≡ behind_slash_lem text.now }
{
    for i in 0..text.len() {
        if text[i] == b'/' {
            let (_, rest) = text.split_at(i + 1);
            return rest;
        }
    }
    &[]
}

/// The delivery that the reference of a receipt names.
fn delivery_named(note: &[u8]) -> Option<Name>
    ensures { (d : List ℕ) → (n : ℕ) → note.now ≡ delivery_note (Line d n) → is_name d ≡ true → result ≡ Some d }
{
    Name::new(before_slash(note))
}

/// The line of the delivery that it names.
fn line_named(note: &[u8]) -> Option<LineNo>
    ensures { (d : List ℕ) → (n : ℕ) → note.now ≡ delivery_note (Line d n) → is_name d ≡ true → is_line_no n ≡ true → result ≡ Some n }
{
    match number_of(behind_slash(note)) {
        Some(number) => LineNo::new(number),
        None => None,
    }
}

fn delivery_with(card: &CardRow, delivery: Option<Name>, line: Option<LineNo>) -> Option<Delivery>
    ensures { result ≡ delivery_with_lem card.now delivery line }
{
    match (delivery, line) {
        (None, _) => None,
        (Some(_), None) => None,
        (Some(delivery), Some(line)) => Some(Delivery {
            act: card.act,
            day: card.day,
            delivery,
            line,
            qty: card.qty.unsigned_abs(),
        }),
    }
}

/// The receipt that a line of a card tells of. `None` where its reference is none of a receipt, as in no books.
fn delivery_of(card: &CardRow) -> Option<Delivery>
    ensures { (d : Delivered) → IsDelivery card.now d → result ≡ Some d }
{
    let note = card.note.as_bytes();
    delivery_with(card, delivery_named(note), line_named(note))
}

/// The receipts that lines of a card tell of, in their order. `None` where one of them tells of none.
pub fn deliveries_of(alloc: Global, cards: &[CardRow]) -> Result<Option<Vec<Delivery>>, AllocError>
    ensures { IfOk result (λ told. AreToldOf IsDelivery cards.now told) }
{
    let mut told = Vec::new(alloc);
    for card in cards {
        match delivery_of(card) {
            Some(delivery) => told.push(delivery)?,
            None => return Ok(None),
        }
    }
    Ok(Some(told))
}

/// That a line is of a receipt.
struct IsOfReceipt;

impl Test<CardRow> for IsOfReceipt {
    ghost use Rattle.queries.specs.Traced.{is_receipt};

    ghost test = { λ t c. is_receipt c };

    fn passes(&self, card: &CardRow) -> bool {
        is_kind(CardKind::Receipt, card.kind)
    }
}

/// The receipts of the lot whose card this is.
pub fn deliveries(alloc: Global, cards: &[CardRow]) -> Result<Option<Vec<Delivery>>, AllocError>
    ensures { IfOk result (λ told. AreToldOf IsDelivery (filter is_receipt cards.now) told) }
{
    let receipts = passing(alloc, cards, &IsOfReceipt)?;
    deliveries_of(alloc, receipts.as_slice())
}

// What is staged

/// By the names of their orders.
struct ByOrder;

impl Order<StagedRow> for ByOrder {
    ghost use Rattle.queries.specs.Traced.{order_before};

    ghost before = { order_before };

    fn is_before(first: &StagedRow, second: &StagedRow) -> bool {
        first.order.as_bytes().cmp(second.order.as_bytes()).is_lt()
    }
}

/// The units of a row, with the customer of its order. `None` where the order is not among these.
fn stage_of(orders: &RowsByKey<'_, Name, OrderRow>, row: &StagedRow) -> Option<StagedUnits>
    ensures { (u : Staged) → IsStaged orders.now row.now u → result ≡ Some u }
{
    match orders.find(&row.order) {
        Some(order) => Some(StagedUnits {
            customer: order.customer,
            order: row.order,
            qty: row.qty,
        }),
        None => None,
    }
}

/// The units of each row, in their order. `None` where the order of one of them is missing, as in no books.
fn stages_of(
    alloc: Global,
    orders: &RowsByKey<'_, Name, OrderRow>,
    staged: &[StagedRow],
) -> Result<Option<Vec<StagedUnits>>, AllocError>
    ensures { IfOk result (λ told. AreToldOf (IsStaged orders.now) staged.now told) }
{
    let mut told = Vec::new(alloc);
    for row in staged {
        match stage_of(orders, row) {
            Some(units) => told.push(units)?,
            None => return Ok(None),
        }
    }
    Ok(Some(told))
}

/// The units of each row, by the names of their orders.
pub fn stages(
    alloc: Global,
    orders: &[OrderRow],
    staged: &[StagedRow],
) -> Result<Option<Vec<StagedUnits>>, AllocError>
    ensures { IfOk result (λ told. AreToldOf (IsStaged orders.now) (inserted order_before [] staged.now) told) }
{
    let sorted = in_order::<ByOrder, StagedRow>(alloc, staged)?;
    let found = by_key::<Name, OrderRow>(alloc, orders, sorted.len())?;
    stages_of(alloc, &found, sorted.as_slice())
}
