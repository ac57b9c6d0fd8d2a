//! The texts of the statements that read a table whole and that no act runs. They are run once each, so they are not among
//! those whose plans a connection keeps.

pub(crate) const ALL_META: &str =
    "SELECT id, mark, version, day, acts, shipments FROM meta ORDER BY rowid";

pub(crate) const ALL_LEAST: &str = "SELECT gtin, days FROM least ORDER BY rowid";

pub(crate) const ALL_RECALLS: &str = "SELECT gtin, lot, act FROM recalls ORDER BY rowid";

pub(crate) const ALL_STOCK: &str = "SELECT gtin, lot, bin, qty FROM stock ORDER BY rowid";

pub(crate) const ALL_ORDERS: &str = "SELECT ord, act, customer, state FROM orders ORDER BY rowid";

pub(crate) const ALL_LINES: &str = "SELECT ord, gtin, ordered, shipped FROM lines ORDER BY rowid";

pub(crate) const ALL_RESERVED: &str = "SELECT ord, gtin, lot, qty FROM reserved ORDER BY rowid";

pub(crate) const ALL_SHIPMENTS: &str = "SELECT number, act, day, ord FROM shipments ORDER BY rowid";

pub(crate) const ALL_SHIPLINES: &str =
    "SELECT number, gtin, lot, qty FROM shiplines ORDER BY rowid";

pub(crate) const ALL_CARDS: &str =
    "SELECT gtin, lot, act, day, kind, note, qty, rest FROM cards ORDER BY rowid";

pub(crate) const ALL_REPEATS: &str = "SELECT k, act, spell, reply FROM repeats ORDER BY rowid";

pub(crate) const LOWER_STOCK: &str =
    "SELECT gtin, lot, bin, qty FROM stock WHERE rowid <= ?1 ORDER BY rowid";

pub(crate) const UPPER_STOCK: &str =
    "SELECT gtin, lot, bin, qty FROM stock WHERE rowid > ?1 ORDER BY rowid";

pub(crate) const LOWER_LINES: &str =
    "SELECT ord, gtin, ordered, shipped FROM lines WHERE rowid <= ?1 ORDER BY rowid";

pub(crate) const UPPER_LINES: &str =
    "SELECT ord, gtin, ordered, shipped FROM lines WHERE rowid > ?1 ORDER BY rowid";

pub(crate) const LOWER_RESERVED: &str =
    "SELECT ord, gtin, lot, qty FROM reserved WHERE rowid <= ?1 ORDER BY rowid";

pub(crate) const UPPER_RESERVED: &str =
    "SELECT ord, gtin, lot, qty FROM reserved WHERE rowid > ?1 ORDER BY rowid";

pub(crate) const LOWER_SHIPLINES: &str =
    "SELECT number, gtin, lot, qty FROM shiplines WHERE rowid <= ?1 ORDER BY rowid";

pub(crate) const UPPER_SHIPLINES: &str =
    "SELECT number, gtin, lot, qty FROM shiplines WHERE rowid > ?1 ORDER BY rowid";

pub(crate) const LOWER_CARDS: &str =
    "SELECT gtin, lot, act, day, kind, note, qty, rest FROM cards WHERE rowid <= ?1 ORDER BY rowid";

pub(crate) const UPPER_CARDS: &str =
    "SELECT gtin, lot, act, day, kind, note, qty, rest FROM cards WHERE rowid > ?1 ORDER BY rowid";

pub(crate) const LOWER_REPEATS: &str =
    "SELECT k, act, spell, reply FROM repeats WHERE rowid <= ?1 ORDER BY rowid";

pub(crate) const UPPER_REPEATS: &str =
    "SELECT k, act, spell, reply FROM repeats WHERE rowid > ?1 ORDER BY rowid";
