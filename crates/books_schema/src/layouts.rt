//! The tables of the books: what makes each one, and what it has to be.

use sqlite_schema::schema::Kind;

/// A table: what makes it, and what it has to be. It is STRICT, and each column is NOT NULL.
#[derive(Drop)]
pub struct TableLayout {
    /// The statement that makes it.
    pub text: &'static str,
    pub tree: u32,
    pub name: &'static [u8],
    pub columns: &'static [(&'static [u8], Kind)],
    /// The places of the PRIMARY KEY; not read where the first column is the rowid.
    pub places: &'static [usize],
    /// Whether the first column is the rowid.
    pub has_id: bool,
}

/// The index of a key, as it has to be: its name, the tree of its table, and its columns, in plain order.
pub struct IndexLayout {
    pub name: &'static [u8],
    pub table: u32,
    pub columns: &'static [usize],
}

/// The tables of all steps, in their order.
pub const ALL_TABLES: &[TableLayout] = &[
    META, ITEMS, BINS, LOTS, RECALLS, STOCK, ORDERS, LINES, STAGED, RESERVED, SHIPMENTS, SHIPLINES,
    CARDS, REPEATS, LEAST, URGENTS,
];

/// The tables of schema 1, in their order.
pub const FIRST_TABLES: &[TableLayout] = &[
    META, ITEMS, BINS, LOTS, RECALLS, STOCK, ORDERS, LINES, STAGED, RESERVED, SHIPMENTS, SHIPLINES,
    CARDS, REPEATS,
];

/// A table whose PRIMARY KEY is not the rowid: what makes it, its tree, its name, the places of the key, and its columns.
macro_rules! keyed_table {
    ($text:ident, $tree:literal, $name:literal, [$($place:literal),+]; $($kind:ident $column:literal),+) => {
        TableLayout {
            text: $text,
            tree: $tree,
            name: $name,
            columns: &[$(($column, Kind::$kind)),+],
            places: &[$($place),+],
            has_id: false,
        }
    };
}

/// A table whose first column is the rowid.
macro_rules! id_table {
    ($text:ident, $tree:literal, $name:literal; $($kind:ident $column:literal),+) => {
        TableLayout {
            text: $text,
            tree: $tree,
            name: $name,
            columns: &[$(($column, Kind::$kind)),+],
            places: &[0],
            has_id: true,
        }
    };
}

/// The index of the key of a table: its name, the tree of the table, and the places of the key.
macro_rules! key {
    ($name:literal, $table:literal, [$($place:literal),+]) => {
        IndexLayout {
            name: $name,
            table: $table,
            columns: &[$($place),+],
        }
    };
}

const CREATE_META: &str =
    "CREATE TABLE meta (id INTEGER NOT NULL, mark TEXT NOT NULL, version INTEGER NOT NULL, day INTEGER NOT NULL, acts INTEGER NOT NULL, shipments INTEGER NOT NULL, PRIMARY KEY (id)) STRICT";

const META: TableLayout = id_table!(CREATE_META, 0, b"meta";
    Integer b"id", Text b"mark", Integer b"version", Integer b"day", Integer b"acts", Integer b"shipments");

const CREATE_ITEMS: &str =
    "CREATE TABLE items (gtin TEXT NOT NULL, name TEXT NOT NULL, PRIMARY KEY (gtin)) STRICT";

const ITEMS: TableLayout = keyed_table!(CREATE_ITEMS, 1, b"items", [1]; Text b"gtin", Text b"name");

const CREATE_BINS: &str =
    "CREATE TABLE bins (name TEXT NOT NULL, kind TEXT NOT NULL, PRIMARY KEY (name)) STRICT";

const BINS: TableLayout = keyed_table!(CREATE_BINS, 3, b"bins", [1]; Text b"name", Text b"kind");

const CREATE_LOTS: &str =
    "CREATE TABLE lots (gtin TEXT NOT NULL, lot TEXT NOT NULL, expiry INTEGER NOT NULL, came INTEGER NOT NULL, held INTEGER NOT NULL, PRIMARY KEY (gtin, lot)) STRICT";

const LOTS: TableLayout = keyed_table!(CREATE_LOTS, 5, b"lots", [1, 2];
    Text b"gtin", Text b"lot", Integer b"expiry", Integer b"came", Integer b"held");

const CREATE_RECALLS: &str =
    "CREATE TABLE recalls (gtin TEXT NOT NULL, lot TEXT NOT NULL, act INTEGER NOT NULL, PRIMARY KEY (gtin, lot)) STRICT";

const RECALLS: TableLayout = keyed_table!(CREATE_RECALLS, 7, b"recalls", [1, 2];
    Text b"gtin", Text b"lot", Integer b"act");

const CREATE_STOCK: &str =
    "CREATE TABLE stock (gtin TEXT NOT NULL, lot TEXT NOT NULL, bin TEXT NOT NULL, qty INTEGER NOT NULL, PRIMARY KEY (gtin, lot, bin)) STRICT";

const STOCK: TableLayout = keyed_table!(CREATE_STOCK, 9, b"stock", [1, 2, 3];
    Text b"gtin", Text b"lot", Text b"bin", Integer b"qty");

const CREATE_ORDERS: &str =
    "CREATE TABLE orders (ord TEXT NOT NULL, act INTEGER NOT NULL, customer TEXT NOT NULL, state TEXT NOT NULL, PRIMARY KEY (ord)) STRICT";

const ORDERS: TableLayout = keyed_table!(CREATE_ORDERS, 11, b"orders", [1];
    Text b"ord", Integer b"act", Text b"customer", Text b"state");

const CREATE_LINES: &str =
    "CREATE TABLE lines (ord TEXT NOT NULL, gtin TEXT NOT NULL, ordered INTEGER NOT NULL, shipped INTEGER NOT NULL, PRIMARY KEY (ord, gtin)) STRICT";

const LINES: TableLayout = keyed_table!(CREATE_LINES, 13, b"lines", [1, 2];
    Text b"ord", Text b"gtin", Integer b"ordered", Integer b"shipped");

const CREATE_STAGED: &str =
    "CREATE TABLE staged (ord TEXT NOT NULL, gtin TEXT NOT NULL, lot TEXT NOT NULL, qty INTEGER NOT NULL, PRIMARY KEY (ord, gtin, lot)) STRICT";

const STAGED: TableLayout = keyed_table!(CREATE_STAGED, 15, b"staged", [1, 2, 3];
    Text b"ord", Text b"gtin", Text b"lot", Integer b"qty");

const CREATE_RESERVED: &str =
    "CREATE TABLE reserved (ord TEXT NOT NULL, gtin TEXT NOT NULL, lot TEXT NOT NULL, qty INTEGER NOT NULL, PRIMARY KEY (ord, gtin, lot)) STRICT";

const RESERVED: TableLayout = keyed_table!(CREATE_RESERVED, 17, b"reserved", [1, 2, 3];
    Text b"ord", Text b"gtin", Text b"lot", Integer b"qty");

const CREATE_SHIPMENTS: &str =
    "CREATE TABLE shipments (number INTEGER NOT NULL, act INTEGER NOT NULL, day INTEGER NOT NULL, ord TEXT NOT NULL, PRIMARY KEY (number)) STRICT";

const SHIPMENTS: TableLayout = id_table!(CREATE_SHIPMENTS, 19, b"shipments";
    Integer b"number", Integer b"act", Integer b"day", Text b"ord");

const CREATE_SHIPLINES: &str =
    "CREATE TABLE shiplines (number INTEGER NOT NULL, gtin TEXT NOT NULL, lot TEXT NOT NULL, qty INTEGER NOT NULL, PRIMARY KEY (number, gtin, lot)) STRICT";

const SHIPLINES: TableLayout = keyed_table!(CREATE_SHIPLINES, 20, b"shiplines", [1, 2, 3];
    Integer b"number", Text b"gtin", Text b"lot", Integer b"qty");

const CREATE_CARDS: &str =
    "CREATE TABLE cards (gtin TEXT NOT NULL, lot TEXT NOT NULL, act INTEGER NOT NULL, day INTEGER NOT NULL, kind TEXT NOT NULL, note TEXT NOT NULL, qty INTEGER NOT NULL, rest INTEGER NOT NULL, PRIMARY KEY (gtin, lot, act)) STRICT";

const CARDS: TableLayout = keyed_table!(CREATE_CARDS, 22, b"cards", [1, 2, 3];
    Text b"gtin", Text b"lot", Integer b"act", Integer b"day", Text b"kind", Text b"note", Integer b"qty", Integer b"rest");

const CREATE_REPEATS: &str =
    "CREATE TABLE repeats (k TEXT NOT NULL, act INTEGER NOT NULL, spell TEXT NOT NULL, reply TEXT NOT NULL, PRIMARY KEY (k)) STRICT";

const REPEATS: TableLayout = keyed_table!(CREATE_REPEATS, 24, b"repeats", [1];
    Text b"k", Integer b"act", Text b"spell", Text b"reply");

const CREATE_LEAST: &str =
    "CREATE TABLE least (gtin TEXT NOT NULL, days INTEGER NOT NULL, PRIMARY KEY (gtin)) STRICT";

pub const LEAST: TableLayout = keyed_table!(CREATE_LEAST, 26, b"least", [1];
    Text b"gtin", Integer b"days");

const CREATE_URGENTS: &str =
    "CREATE TABLE urgents (ord TEXT NOT NULL, act INTEGER NOT NULL, PRIMARY KEY (ord)) STRICT";

pub const URGENTS: TableLayout = keyed_table!(CREATE_URGENTS, 28, b"urgents", [1];
    Text b"ord", Integer b"act");

/// The number of the keys of schema 2 that are not the rowid.
pub const OLDER_KEY_COUNT: usize = 13;

/// The indexes of the keys of schema 2, in their order; those of schema 1 are the first of them. Each is UNIQUE, and stands
/// one tree behind its table.
pub const OLDER_KEYS: [IndexLayout; OLDER_KEY_COUNT] = [
    key!(b"sqlite_autoindex_items_1", 1, [1]),
    key!(b"sqlite_autoindex_bins_1", 3, [1]),
    key!(b"sqlite_autoindex_lots_1", 5, [1, 2]),
    key!(b"sqlite_autoindex_recalls_1", 7, [1, 2]),
    key!(b"sqlite_autoindex_stock_1", 9, [1, 2, 3]),
    key!(b"sqlite_autoindex_orders_1", 11, [1]),
    key!(b"sqlite_autoindex_lines_1", 13, [1, 2]),
    key!(b"sqlite_autoindex_staged_1", 15, [1, 2, 3]),
    key!(b"sqlite_autoindex_reserved_1", 17, [1, 2, 3]),
    key!(b"sqlite_autoindex_shiplines_1", 20, [1, 2, 3]),
    key!(b"sqlite_autoindex_cards_1", 22, [1, 2, 3]),
    key!(b"sqlite_autoindex_repeats_1", 24, [1]),
    key!(b"sqlite_autoindex_least_1", 26, [1]),
];
