//! The texts of the statements, one for each call on a table.

pub(crate) const CHANGE_LINE: &str =
    "UPDATE lines SET ord = ?1, gtin = ?2, ordered = ?3, shipped = ?4 WHERE ord = ?1 AND gtin = ?2";

pub(crate) const FILL_LINES: &str =
    "UPDATE lines SET shipped = ordered WHERE ord = ?1 AND shipped >= 0 AND shipped <= ?2";

pub(crate) const ADD_LINE: &str =
    "INSERT INTO lines (ord, gtin, ordered, shipped) VALUES (?1, ?2, ?3, ?4)";

pub(crate) const LINES_OF_ORDER: &str =
    "SELECT ord, gtin, ordered, shipped FROM lines WHERE ord = ?1 ORDER BY rowid";

pub(crate) const LINE_OF: &str =
    "SELECT ord, gtin, ordered, shipped FROM lines WHERE ord = ?1 AND gtin = ?2 ORDER BY rowid";

pub(crate) const CHANGE_ORDER: &str =
    "UPDATE orders SET ord = ?1, act = ?2, customer = ?3, state = ?4 WHERE ord = ?1";

pub(crate) const ADD_ORDER: &str =
    "INSERT INTO orders (ord, act, customer, state) VALUES (?1, ?2, ?3, ?4)";

pub(crate) const ORDERS_OF: &str =
    "SELECT ord, act, customer, state FROM orders WHERE ord = ?1 ORDER BY rowid";

pub(crate) const OPEN_ORDERS: &str =
    "SELECT ord, act, customer, state FROM orders WHERE state = ?1 ORDER BY rowid";

pub(crate) const DROP_RESERVED: &str =
    "DELETE FROM reserved WHERE ord = ?1 AND gtin = ?2 AND lot = ?3";

pub(crate) const CHANGE_RESERVED: &str =
    "UPDATE reserved SET ord = ?1, gtin = ?2, lot = ?3, qty = ?4 WHERE ord = ?1 AND gtin = ?2 AND lot = ?3";

pub(crate) const ADD_RESERVED: &str =
    "INSERT INTO reserved (ord, gtin, lot, qty) VALUES (?1, ?2, ?3, ?4)";

pub(crate) const RESERVED_OF_ITEM: &str =
    "SELECT ord, gtin, lot, qty FROM reserved WHERE gtin = ?1 ORDER BY rowid";

pub(crate) const RESERVED_OF_ORDER: &str =
    "SELECT ord, gtin, lot, qty FROM reserved WHERE ord = ?1 ORDER BY rowid";

pub(crate) const ALL_RESERVED: &str = "SELECT ord, gtin, lot, qty FROM reserved ORDER BY rowid";

pub(crate) const DROP_STAGED: &str = "DELETE FROM staged WHERE ord = ?1 AND gtin = ?2 AND lot = ?3";

pub(crate) const DROP_STAGE: &str = "DELETE FROM staged WHERE ord = ?1";

pub(crate) const CHANGE_STAGED: &str =
    "UPDATE staged SET ord = ?1, gtin = ?2, lot = ?3, qty = ?4 WHERE ord = ?1 AND gtin = ?2 AND lot = ?3";

pub(crate) const ADD_STAGED: &str =
    "INSERT INTO staged (ord, gtin, lot, qty) VALUES (?1, ?2, ?3, ?4)";

pub(crate) const STAGED_OF_ITEM: &str =
    "SELECT ord, gtin, lot, qty FROM staged WHERE gtin = ?1 ORDER BY rowid";

pub(crate) const STAGED_OF_ORDER: &str =
    "SELECT ord, gtin, lot, qty FROM staged WHERE ord = ?1 ORDER BY rowid";

pub(crate) const ALL_STAGED: &str = "SELECT ord, gtin, lot, qty FROM staged ORDER BY rowid";

pub(crate) const ADD_URGENT: &str = "INSERT INTO urgents (ord, act) VALUES (?1, ?2)";

pub(crate) const URGENTS_OF: &str = "SELECT ord, act FROM urgents WHERE ord = ?1 ORDER BY rowid";

pub(crate) const ALL_URGENTS: &str = "SELECT ord, act FROM urgents ORDER BY rowid";

/// All of them. A connection keeps the plans of its last 64 texts, so the tables together have at most 60.
pub const TEXTS: &[&str] = &[
    CHANGE_LINE,
    FILL_LINES,
    ADD_LINE,
    LINES_OF_ORDER,
    LINE_OF,
    CHANGE_ORDER,
    ADD_ORDER,
    ORDERS_OF,
    OPEN_ORDERS,
    DROP_RESERVED,
    CHANGE_RESERVED,
    ADD_RESERVED,
    RESERVED_OF_ITEM,
    RESERVED_OF_ORDER,
    ALL_RESERVED,
    DROP_STAGED,
    DROP_STAGE,
    CHANGE_STAGED,
    ADD_STAGED,
    STAGED_OF_ITEM,
    STAGED_OF_ORDER,
    ALL_STAGED,
    ADD_URGENT,
    URGENTS_OF,
];
