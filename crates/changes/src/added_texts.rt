//! The texts of the statements that add five rows.

pub(crate) const ADD_LINES: &str =
    "INSERT INTO lines (ord, gtin, ordered, shipped) VALUES (?1, ?2, ?3, ?4), (?5, ?6, ?7, ?8), (?9, ?10, ?11, ?12), (?13, ?14, ?15, ?16), (?17, ?18, ?19, ?20)";

pub(crate) const ADD_RESERVED_ROWS: &str =
    "INSERT INTO reserved (ord, gtin, lot, qty) VALUES (?1, ?2, ?3, ?4), (?5, ?6, ?7, ?8), (?9, ?10, ?11, ?12), (?13, ?14, ?15, ?16), (?17, ?18, ?19, ?20)";

pub(crate) const ADD_SHIPLINES: &str =
    "INSERT INTO shiplines (number, gtin, lot, qty) VALUES (?1, ?2, ?3, ?4), (?5, ?6, ?7, ?8), (?9, ?10, ?11, ?12), (?13, ?14, ?15, ?16), (?17, ?18, ?19, ?20)";

pub(crate) const ADD_CARDS: &str =
    "INSERT INTO cards (gtin, lot, act, day, kind, note, qty, rest) VALUES (?1, ?2, ?3, ?4, ?5, ?6, ?7, ?8), (?9, ?10, ?11, ?12, ?13, ?14, ?15, ?16), (?17, ?18, ?19, ?20, ?21, ?22, ?23, ?24), (?25, ?26, ?27, ?28, ?29, ?30, ?31, ?32), (?33, ?34, ?35, ?36, ?37, ?38, ?39, ?40)";

/// All of them, beside those of the tables.
pub const TEXTS: &[&str] = &[ADD_LINES, ADD_RESERVED_ROWS, ADD_SHIPLINES, ADD_CARDS];
