//! The texts of the statements, one for each call on a table.

pub(crate) const ADD_CARD: &str =
    "INSERT INTO cards (gtin, lot, act, day, kind, note, qty, rest) VALUES (?1, ?2, ?3, ?4, ?5, ?6, ?7, ?8)";

pub(crate) const CARDS_BY_ACT: &str =
    "SELECT gtin, lot, act, day, kind, note, qty, rest FROM cards WHERE gtin = ?1 AND lot = ?2 ORDER BY act";

pub(crate) const CARDS_OF: &str =
    "SELECT gtin, lot, act, day, kind, note, qty, rest FROM cards WHERE gtin = ?1 AND lot = ?2 ORDER BY rowid";

pub(crate) const ADD_REPEAT: &str =
    "INSERT INTO repeats (k, act, spell, reply) VALUES (?1, ?2, ?3, ?4)";

pub(crate) const REPEATS_OF: &str =
    "SELECT k, act, spell, reply FROM repeats WHERE k = ?1 ORDER BY rowid";

pub(crate) const ADD_SHIPLINE: &str =
    "INSERT INTO shiplines (number, gtin, lot, qty) VALUES (?1, ?2, ?3, ?4)";

pub(crate) const ADD_SHIPMENT: &str =
    "INSERT INTO shipments (number, act, day, ord) VALUES (?1, ?2, ?3, ?4)";

pub(crate) const SHIPMENTS_OF: &str =
    "SELECT number, act, day, ord FROM shipments WHERE number = ?1";

/// All of them. A connection keeps the plans of its last 64 texts, so the tables together have at most 60.
pub const TEXTS: &[&str] = &[
    ADD_CARD,
    CARDS_BY_ACT,
    CARDS_OF,
    ADD_REPEAT,
    REPEATS_OF,
    ADD_SHIPLINE,
    ADD_SHIPMENT,
    SHIPMENTS_OF,
];
