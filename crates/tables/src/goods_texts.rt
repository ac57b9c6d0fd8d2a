//! The texts of the statements, one for each call on a table.

pub(crate) const ADD_BIN: &str = "INSERT INTO bins (name, kind) VALUES (?1, ?2)";

pub(crate) const BINS_OF: &str = "SELECT name, kind FROM bins WHERE name = ?1 ORDER BY rowid";

pub(crate) const ALL_BINS: &str = "SELECT name, kind FROM bins ORDER BY rowid";

pub(crate) const ADD_ITEM: &str = "INSERT INTO items (gtin, name) VALUES (?1, ?2)";

pub(crate) const ITEMS_OF: &str = "SELECT gtin, name FROM items WHERE gtin = ?1 ORDER BY rowid";

pub(crate) const ALL_ITEMS: &str = "SELECT gtin, name FROM items ORDER BY rowid";

pub(crate) const CHANGE_LEAST: &str = "UPDATE least SET gtin = ?1, days = ?2 WHERE gtin = ?1";

pub(crate) const ADD_LEAST: &str = "INSERT INTO least (gtin, days) VALUES (?1, ?2)";

pub(crate) const LEAST_OF: &str = "SELECT gtin, days FROM least WHERE gtin = ?1 ORDER BY rowid";

pub(crate) const ASKING_LEAST: &str = "SELECT gtin, days FROM least WHERE days > ?1 ORDER BY rowid";

pub(crate) const CHANGE_LOT: &str =
    "UPDATE lots SET gtin = ?1, lot = ?2, expiry = ?3, came = ?4, held = ?5 WHERE gtin = ?1 AND lot = ?2";

pub(crate) const ADD_LOT: &str =
    "INSERT INTO lots (gtin, lot, expiry, came, held) VALUES (?1, ?2, ?3, ?4, ?5)";

pub(crate) const LOTS_OF: &str =
    "SELECT gtin, lot, expiry, came, held FROM lots WHERE gtin = ?1 ORDER BY rowid";

pub(crate) const LOT_OF: &str =
    "SELECT gtin, lot, expiry, came, held FROM lots WHERE gtin = ?1 AND lot = ?2 ORDER BY rowid";

pub(crate) const ALL_LOTS: &str = "SELECT gtin, lot, expiry, came, held FROM lots ORDER BY rowid";

pub(crate) const CHANGE_META: &str =
    "UPDATE meta SET mark = ?2, version = ?3, day = ?4, acts = ?5, shipments = ?6 WHERE id = ?1";

pub(crate) const ADD_META: &str =
    "INSERT INTO meta (id, mark, version, day, acts, shipments) VALUES (?1, ?2, ?3, ?4, ?5, ?6)";

pub(crate) const META_ROWS: &str =
    "SELECT id, mark, version, day, acts, shipments FROM meta WHERE id = ?1";

pub(crate) const ADD_RECALL: &str = "INSERT INTO recalls (gtin, lot, act) VALUES (?1, ?2, ?3)";

pub(crate) const RECALLS_OF: &str =
    "SELECT gtin, lot, act FROM recalls WHERE gtin = ?1 ORDER BY rowid";

pub(crate) const DROP_STOCK: &str = "DELETE FROM stock WHERE gtin = ?1 AND lot = ?2 AND bin = ?3";

pub(crate) const CHANGE_STOCK: &str =
    "UPDATE stock SET gtin = ?1, lot = ?2, bin = ?3, qty = ?4 WHERE gtin = ?1 AND lot = ?2 AND bin = ?3";

pub(crate) const ADD_STOCK: &str =
    "INSERT INTO stock (gtin, lot, bin, qty) VALUES (?1, ?2, ?3, ?4)";

pub(crate) const STOCK_OF: &str =
    "SELECT gtin, lot, bin, qty FROM stock WHERE gtin = ?1 ORDER BY rowid";

pub(crate) const STOCK_OF_LOT: &str =
    "SELECT gtin, lot, bin, qty FROM stock WHERE gtin = ?1 AND lot = ?2 ORDER BY rowid";

pub(crate) const STOCK_IN: &str =
    "SELECT gtin, lot, bin, qty FROM stock WHERE bin = ?1 ORDER BY rowid";

/// All of them. A connection keeps the plans of its last 64 texts, so the tables together have at most 60.
pub const TEXTS: &[&str] = &[
    ADD_BIN,
    BINS_OF,
    ALL_BINS,
    ADD_ITEM,
    ITEMS_OF,
    ALL_ITEMS,
    CHANGE_LEAST,
    ADD_LEAST,
    LEAST_OF,
    ASKING_LEAST,
    CHANGE_LOT,
    ADD_LOT,
    LOTS_OF,
    LOT_OF,
    ALL_LOTS,
    CHANGE_META,
    ADD_META,
    META_ROWS,
    ADD_RECALL,
    RECALLS_OF,
    DROP_STOCK,
    CHANGE_STOCK,
    ADD_STOCK,
    STOCK_OF,
    STOCK_OF_LOT,
    STOCK_IN,
];
