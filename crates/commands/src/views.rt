// The records that queries answer.

use crate::{CardRow, ItemRow, Listed, OrderClass, OrderState};
use label::{BusinessDay, Day};
use values::{Gtin, LeastDays, Lot, Name, Title};

/// Units of a lot in a bin.
#[derive(Clone, Copy)]
pub struct BinUnits {
    pub bin: Name,
    pub qty: u64,
}

/// Units of a lot that a shipment took to a customer.
#[derive(Clone, Copy)]
pub struct ShippedUnits {
    /// The shipment's number.
    pub number: u64,
    /// The day of the shipment.
    pub day: BusinessDay,
    pub qty: u64,
    pub order: Name,
    pub customer: Title,
}

/// What a recall notice says.
#[derive(Drop)]
pub struct NoticeView {
    pub item: ItemRow,
    pub lot: Lot,
    /// None for a lot that was never received.
    pub expiry: Option<Day>,
    /// The bins with units of the lot, by name.
    pub bins: Listed<BinUnits>,
    /// The shipments with units of the lot, by number.
    pub shipments: Listed<ShippedUnits>,
}

/// What the stock card of a lot says.
#[derive(Drop)]
pub struct CardView {
    pub item: ItemRow,
    pub lot: Lot,
    pub expiry: Day,
    /// The lines, by act.
    pub lines: Listed<CardRow>,
    /// The units of the lot in the house.
    pub in_house: u64,
}

/// Units of a lot that are reserved for an order, and where they may be taken.
#[derive(Drop)]
pub struct ReservedLot {
    pub lot: Lot,
    pub expiry: Day,
    pub qty: u64,
    /// The STORE bins with units of the lot, by name, with all that they have of it.
    pub bins: Listed<BinUnits>,
}

/// Units of a lot that are staged for an order.
#[derive(Clone, Copy)]
pub struct StagedLot {
    pub lot: Lot,
    pub qty: u64,
}

/// A line of an order.
#[derive(Drop)]
pub struct LineView {
    pub gtin: Gtin,
    pub ordered: u64,
    /// By expiry and first receipt.
    pub reserved: Listed<ReservedLot>,
    pub shipped: u64,
    pub short: u64,
    /// By expiry and first receipt.
    pub staged: Listed<StagedLot>,
    /// How many days the lots of the item must have left.
    pub least: LeastDays,
}

/// An order.
#[derive(Drop)]
pub struct OrderView {
    pub class: OrderClass,
    pub customer: Title,
    /// The lines, by GTIN.
    pub lines: Listed<LineView>,
    pub order: Name,
    pub state: OrderState,
}

/// How a lot stands: recalled before held before expired before short-dated.
#[derive(Clone, Copy)]
pub enum LotStatus {
    Recalled,
    Held,
    Expired,
    /// It has fewer days left than its item asks for.
    ShortDated,
    Free,
}

/// The stock of a lot.
#[derive(Drop)]
pub struct LotView {
    /// The bins with units of the lot, by name.
    pub bins: Listed<BinUnits>,
    pub expiry: Day,
    pub lot: Lot,
    pub reserved: u64,
    pub staged: u64,
    pub status: LotStatus,
}

/// The stock of an item.
#[derive(Drop)]
pub struct StockView {
    pub item: ItemRow,
    /// The known lots, by expiry and first receipt.
    pub lots: Listed<LotView>,
}

/// What an order is short of an item.
#[derive(Clone, Copy)]
pub struct ShortLine {
    pub order: Name,
    pub qty: u64,
    pub customer: Title,
}

/// The bookings of an item that are short.
#[derive(Drop)]
pub struct ShortView {
    pub item: ItemRow,
    /// In the order in which they are served.
    pub lines: Listed<ShortLine>,
}
