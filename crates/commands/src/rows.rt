// The rows of the tables of the books.

use crate::limits::{CARD_NOTE_MAX, KEY_TEXT_MAX};
use crate::{BinKind, Listed, Short};
use label::{BusinessDay, Day};
use values::{Gtin, LeastDays, LotId, Name, Text, Title};

/// The row of `meta`, less its mark and schema number, which are constants.
#[derive(Clone, Copy)]
pub struct MetaRow {
    /// The business day.
    pub day: BusinessDay,
    /// The acts so far.
    pub acts: u64,
    /// The shipments so far.
    pub shipments: u64,
}

/// A row of `items`: an item.
#[derive(Clone, Copy)]
pub struct ItemRow {
    pub gtin: Gtin,
    pub name: Title,
}

/// A row of `least`: how many days the lots of an item must have left. Each item has one.
#[derive(Clone, Copy)]
pub struct LeastRow {
    pub gtin: Gtin,
    pub days: LeastDays,
}

/// A row of `bins`: a bin, RETURNS too.
#[derive(Clone, Copy)]
pub struct BinRow {
    pub name: Name,
    pub kind: BinKind,
}

/// A row of `lots`: a lot that was received.
#[derive(Clone, Copy)]
pub struct LotRow {
    pub lot: LotId,
    /// The expiry of its first receipt.
    pub expiry: Day,
    /// The act of its first receipt.
    pub came: u64,
    pub held: bool,
}

/// A row of `recalls`: a recall.
#[derive(Clone, Copy)]
pub struct RecallRow {
    pub lot: LotId,
    /// The act of the recall.
    pub act: u64,
}

/// A row of `stock`: the units of a lot in a bin, where there are any.
#[derive(Clone, Copy)]
pub struct StockRow {
    pub lot: LotId,
    pub bin: Name,
    pub qty: u64,
}

/// When an order is served.
#[derive(Clone, Copy)]
pub enum OrderClass {
    Normal,
    /// Before all that are normal.
    Urgent,
}

/// How an order stands.
#[derive(Clone, Copy)]
pub enum OrderState {
    Open,
    /// Every line is shipped in full.
    Done,
    Cancelled,
}

/// A row of `orders`: an order.
#[derive(Clone, Copy)]
pub struct OrderRow {
    pub order: Name,
    /// The act by which it was taken.
    pub act: u64,
    pub customer: Title,
    pub state: OrderState,
}

/// A row of `urgents`: an urgent order.
#[derive(Clone, Copy)]
pub struct UrgentRow {
    pub order: Name,
    /// The act by which it was taken.
    pub act: u64,
}

/// A row of `lines`: a line of an order.
#[derive(Clone, Copy)]
pub struct LineRow {
    pub order: Name,
    pub gtin: Gtin,
    pub ordered: u64,
    pub shipped: u64,
}

/// A row of `staged`: the units of a lot staged for an order, where there are any.
#[derive(Clone, Copy)]
pub struct StagedRow {
    pub order: Name,
    pub lot: LotId,
    pub qty: u64,
}

/// A row of `reserved`: the units of a lot reserved for an order, where there are any.
#[derive(Clone, Copy)]
pub struct ReservedRow {
    pub order: Name,
    pub lot: LotId,
    pub qty: u64,
}

/// A row of `shipments`: a shipment.
#[derive(Clone, Copy)]
pub struct ShipmentRow {
    /// Its number, from 1.
    pub number: u64,
    pub act: u64,
    pub day: BusinessDay,
    pub order: Name,
}

/// A row of `shiplines`: the units of a lot in a shipment, where there are any.
#[derive(Clone, Copy)]
pub struct ShiplineRow {
    /// The shipment's number.
    pub number: u64,
    pub lot: LotId,
    pub qty: u64,
}

/// What a line of a stock card tells of.
#[derive(Clone, Copy)]
pub enum CardKind {
    Receipt,
    WriteOn,
    WriteOff,
    Shipment,
}

/// A row of `cards`: a line of a lot's stock card.
#[derive(Clone, Copy)]
pub struct CardRow {
    pub lot: LotId,
    pub act: u64,
    /// The day of the act.
    pub day: BusinessDay,
    pub kind: CardKind,
    /// The reference: delivery and line of a receipt, the bin of a write-on or write-off, the
    /// shipment's number.
    pub note: Text<CARD_NOTE_MAX>,
    /// The units that came, below 0 where they went.
    pub qty: i64,
    /// The units of the lot in the house after the act.
    pub rest: u64,
}

/// A row of `repeats`: the key, the command and the answer of an act.
#[derive(Drop)]
pub struct RepeatRow {
    /// The text of the key.
    pub k: Text<KEY_TEXT_MAX>,
    pub act: u64,
    /// The spelling of the command.
    pub spell: Listed<u8>,
    pub reply: Short,
}
