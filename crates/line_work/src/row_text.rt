//! The text of a row of the books: its table, and the columns of its primary key.

ghost use Rattle.std.specs.Prelude.{◌≡◌, ◌+◌, ◌≤◌, length, map};
ghost use Rattle.whole_tables.specs.Differing.{table_of};
ghost use Rattle.line_work.specs.Rows.{two_parted, three_parted, key_text, shown_byte as shown_byte_lem, table_text as table_text_lem};

use command_line::{ROW_KEY_MAX, TABLE_NAME_MAX};
use commands::limits::KEY_TEXT_MAX;
use commands::{Buffer, decimal_text};
use values::{Gtin, Lot, LotId, Name, Text};
use whole_tables::{RowKey, TableName};

/// The name of a table.
pub(crate) fn table_text(name: TableName) -> Text<TABLE_NAME_MAX>
    ensures { result ≡ table_text_lem name }
{
    Text::new(table_name(name)).unwrap()
}

fn table_name(name: TableName) -> &'static [u8]
    ensures text { result.now ≡ table_text_lem name }
    ensures size { length result.now ≤ TABLE_NAME_MAX }
{
    match name {
        TableName::Meta => b"meta",
        TableName::Items => b"items",
        TableName::Least => b"least",
        TableName::Bins => b"bins",
        TableName::Lots => b"lots",
        TableName::Recalls => b"recalls",
        TableName::Stock => b"stock",
        TableName::Orders => b"orders",
        TableName::Urgents => b"urgents",
        TableName::Lines => b"lines",
        TableName::Staged => b"staged",
        TableName::Reserved => b"reserved",
        TableName::Shipments => b"shipments",
        TableName::Shiplines => b"shiplines",
        TableName::Cards => b"cards",
        TableName::Repeats => b"repeats",
    }
}

/// The table of a row, and the columns of its primary key, parted by a space. A byte of an act's key that is no visible
/// ASCII is `?`.
pub(crate) fn place_text(row: &RowKey) -> (TableName, Text<ROW_KEY_MAX>)
    ensures { result ≡ (table_of row.now, key_text row.now) }
{
    match row {
        RowKey::Meta => (TableName::Meta, one(decimal_text(1).as_bytes())),
        RowKey::Item(gtin) => (TableName::Items, one(gtin_bytes(gtin))),
        RowKey::Least(gtin) => (TableName::Least, one(gtin_bytes(gtin))),
        RowKey::Bin(name) => (TableName::Bins, one(name_bytes(name))),
        RowKey::Lot(lot) => (TableName::Lots, as_lot(lot)),
        RowKey::Recall(lot) => (TableName::Recalls, as_lot(lot)),
        RowKey::Stock(lot, bin) => (TableName::Stock, of_lot(lot, name_bytes(bin))),
        RowKey::Order(order) => (TableName::Orders, one(name_bytes(order))),
        RowKey::Urgent(order) => (TableName::Urgents, one(name_bytes(order))),
        RowKey::Line(order, gtin) => (TableName::Lines, two(name_bytes(order), gtin_bytes(gtin))),
        RowKey::Staged(order, lot) => (TableName::Staged, with_lot(name_bytes(order), lot)),
        RowKey::Reserved(order, lot) => (TableName::Reserved, with_lot(name_bytes(order), lot)),
        RowKey::Shipment(number) => (TableName::Shipments, one(decimal_text(*number).as_bytes())),
        RowKey::Shipline(number, lot) => (
            TableName::Shiplines,
            with_lot(decimal_text(*number).as_bytes(), lot),
        ),
        RowKey::Card(lot, act) => (TableName::Cards, of_lot(lot, decimal_text(*act).as_bytes())),
        RowKey::Repeat(key) => (TableName::Repeats, shown(key)),
    }
}

/// A lot alone.
fn as_lot(lot: &LotId) -> Text<ROW_KEY_MAX>
    ensures { result ≡ two_parted lot.now.gtin lot.now.lot }
{
    two(gtin_bytes(&lot.gtin), lot_bytes(&lot.lot))
}

/// A lot, and a column behind it.
fn of_lot(lot: &LotId, column: &[u8]) -> Text<ROW_KEY_MAX>
    requires { length column.now ≤ 20 }
    ensures { result ≡ three_parted lot.now.gtin lot.now.lot column.now }
{
    three(gtin_bytes(&lot.gtin), lot_bytes(&lot.lot), column)
}

/// A column, and a lot behind it.
fn with_lot(column: &[u8], lot: &LotId) -> Text<ROW_KEY_MAX>
    requires { length column.now ≤ 20 }
    ensures { result ≡ three_parted column.now lot.now.gtin lot.now.lot }
{
    three(column, gtin_bytes(&lot.gtin), lot_bytes(&lot.lot))
}

fn one(column: &[u8]) -> Text<ROW_KEY_MAX>
    requires { length column.now ≤ ROW_KEY_MAX }
    ensures { result ≡ column.now }
{
    Text::new(column).unwrap()
}

fn two(first: &[u8], second: &[u8]) -> Text<ROW_KEY_MAX>
    requires { length first.now + length second.now + 1 ≤ ROW_KEY_MAX }
    ensures { result ≡ two_parted first.now second.now }
{
    let mut text = Buffer::<ROW_KEY_MAX>::new();
    text.push_all(first);
    text.push_all(b" ");
    text.push_all(second);
    text.text()
}

fn three(first: &[u8], second: &[u8], third: &[u8]) -> Text<ROW_KEY_MAX>
    requires { length first.now + length second.now + length third.now + 2 ≤ ROW_KEY_MAX }
    ensures { result ≡ three_parted first.now second.now third.now }
{
    let mut text = Buffer::<ROW_KEY_MAX>::new();
    text.push_all(first);
    text.push_all(b" ");
    text.push_all(second);
    text.push_all(b" ");
    text.push_all(third);
    text.text()
}

fn name_bytes(name: &Name) -> &[u8]
    ensures text { result.now ≡ name.now }
    ensures size { length result.now ≤ 20 }
{
    name.as_bytes()
}

fn gtin_bytes(gtin: &Gtin) -> &[u8]
    ensures text { result.now ≡ gtin.now }
    ensures size { length result.now ≡ 14 }
{
    gtin.as_bytes()
}

fn lot_bytes(lot: &Lot) -> &[u8]
    ensures text { result.now ≡ lot.now }
    ensures size { length result.now ≤ 20 }
{
    lot.as_bytes()
}

/// The key of an act, which may be any text where another program wrote it.
fn shown(key: &Text<KEY_TEXT_MAX>) -> Text<ROW_KEY_MAX>
    ensures { result ≡ map shown_byte_lem key.now }
{
    let _size = key.len();
    let mut text = Buffer::<ROW_KEY_MAX>::new();
    let bytes = key.as_bytes();
    for byte in bytes {
        text.push(shown_byte(*byte));
    }
    text.text()
}

fn shown_byte(byte: u8) -> u8
    ensures { result ≡ shown_byte_lem byte }
{
    if 32 < byte && byte < 127 { byte } else { b'?' }
}
