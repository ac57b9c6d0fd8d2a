// The limits of the warehouse, and the marks of its tables.

/// The lines of an order, at most.
pub const ORDER_LINES_MAX: usize = 200;

/// The items, at most.
pub const ITEMS_MAX: u64 = 10_000;

/// The bins, at most; RETURNS counts.
pub const BINS_MAX: u64 = 10_000;

/// The units of one item in the house, at most.
pub const UNITS_MAX: u64 = 10_000_000_000;

/// The units of one item that open orders still want, at most.
pub const OPEN_MAX: u64 = 10_000_000_000;

/// The acts, at most.
pub const ACTS_MAX: u64 = 1_000_000_000_000;

/// The bytes of an answer to a command, at most.
pub const SHORT_MAX: usize = 96;

/// The bytes of a key's text, at most: `D/`, a delivery of 20, `/` and a line of 4.
pub const KEY_TEXT_MAX: usize = 27;

/// The bytes of a card line's reference, at most: a delivery of 20, `/` and a line of 4.
pub const CARD_NOTE_MAX: usize = 25;

/// The mark of the books in the table `meta`.
pub const MARK: &str = "LOTSTOCK";

/// The schema number in the table `meta`.
pub const SCHEMA_VERSION: u64 = 4;
