// The records of lists of which one answer shows a page.

use commands::{BinKind, ItemRow, Listed, LotStatus, LotView, OrderClass};
use label::{BusinessDay, Day};
use values::{LeastDays, Lot, Name, Title};

/// What one answer has of a list, at most.
pub const PAGE_MAX: usize = 100;

/// What one answer has of the items, at most.
pub const NAMES_MAX: usize = 1_000;

/// The books.
#[derive(Clone, Copy)]
pub struct BooksView {
    /// The number of the last act.
    pub act: u64,
    /// The business day.
    pub day: BusinessDay,
}

/// An open order, with the units of all its lines together.
#[derive(Clone, Copy)]
pub struct OpenOrder {
    pub class: OrderClass,
    pub customer: Title,
    pub order: Name,
    pub ordered: u64,
    pub reserved: u64,
    pub shipped: u64,
    pub short: u64,
    pub staged: u64,
}

/// Open orders.
#[derive(Drop)]
pub struct OpenOrdersView {
    /// The number of the last act.
    pub act: u64,
    /// In the order in which they are served, so many at most as a page has.
    pub orders: Listed<OpenOrder>,
    /// Whether more come behind them.
    pub more: bool,
}

/// A lot, with its item.
#[derive(Drop)]
pub struct ItemLot {
    pub item: ItemRow,
    pub lot: LotView,
}

/// Lots that expire.
#[derive(Drop)]
pub struct ExpiringView {
    /// The number of the last act.
    pub act: u64,
    /// By expiry and first receipt, so many at most as a page has.
    pub lots: Listed<ItemLot>,
    /// Whether more come behind them.
    pub more: bool,
}

/// An item, with what it asks for.
#[derive(Clone, Copy)]
pub struct NamedItem {
    pub item: ItemRow,
    /// How many days its lots must have left.
    pub least: LeastDays,
}

/// Items.
#[derive(Drop)]
pub struct ItemNamesView {
    /// The number of the last act.
    pub act: u64,
    /// By GTIN, so many at most as an answer has of items.
    pub items: Listed<NamedItem>,
    /// Whether more come behind them.
    pub more: bool,
}

/// Units of a lot in the bin that is shown.
#[derive(Clone, Copy)]
pub struct BinLot {
    pub item: ItemRow,
    pub lot: Lot,
    pub expiry: Day,
    pub qty: u64,
    pub status: LotStatus,
}

/// What is in a bin.
#[derive(Drop)]
pub struct BinView {
    /// The number of the last act.
    pub act: u64,
    pub bin: Name,
    pub kind: BinKind,
    /// By item, expiry and first receipt, so many at most as a page has.
    pub lots: Listed<BinLot>,
    /// Whether more come behind them.
    pub more: bool,
}
