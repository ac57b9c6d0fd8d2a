// What is picked for an order: its lines, with the names of their items.

use commands::{ItemRow, Listed, OrderState, ReservedLot};
use values::{LeastDays, Name, Title};

/// A line of an order, with what to take for it.
#[derive(Drop)]
pub struct PickLine {
    pub item: ItemRow,
    /// How many days the lots of the item must have left.
    pub least: LeastDays,
    pub ordered: u64,
    pub shipped: u64,
    pub short: u64,
    pub staged: u64,
    /// The lots to take and the bins that have them, by expiry and first receipt.
    pub take: Listed<ReservedLot>,
}

/// The pick list of an order.
#[derive(Drop)]
pub struct PicksView {
    pub customer: Title,
    /// The lines, by GTIN.
    pub lines: Listed<PickLine>,
    pub order: Name,
    pub state: OrderState,
}
