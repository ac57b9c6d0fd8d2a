// The record of the trace of a lot: where its units came from, and where they are or went.

use commands::{BinUnits, ItemRow, Listed, LotStatus, ShippedUnits};
use label::{BusinessDay, Day};
use values::{LineNo, Lot, Name, Title};

/// A receipt of a lot.
#[derive(Clone, Copy)]
pub struct Delivery {
    pub act: u64,
    /// The day of the act.
    pub day: BusinessDay,
    pub delivery: Name,
    /// The line of the delivery.
    pub line: LineNo,
    pub qty: u64,
}

/// Units of a lot that are staged for an order.
#[derive(Clone, Copy)]
pub struct StagedUnits {
    pub customer: Title,
    pub order: Name,
    pub qty: u64,
}

/// The trace of a lot.
#[derive(Drop)]
pub struct TraceView {
    /// The number of the last act.
    pub act: u64,
    /// The bins with units of the lot, by name.
    pub bins: Listed<BinUnits>,
    /// The receipts of the lot, by act.
    pub deliveries: Listed<Delivery>,
    pub expiry: Day,
    pub item: ItemRow,
    pub lot: Lot,
    /// The units that were written off.
    pub off: u64,
    /// The units that were written on.
    pub on: u64,
    /// The units that were received.
    pub received: u64,
    /// The shipments with units of the lot, by number.
    pub shipments: Listed<ShippedUnits>,
    /// The orders with staged units of the lot, by name.
    pub staged: Listed<StagedUnits>,
    pub status: LotStatus,
}
