ghost use Rattle.std.specs.Prelude.{◌≡◌, IsTrue};
ghost use Rattle.label.specs.Days.{is_business_day};
ghost use Rattle.csv.specs.Records.{fields_of};
ghost use Rattle.goodsin.specs.Rows.{command_of as command_of_lem, expiry_at, gtin_at, has_text as has_text_lem, is_header as is_header_lem, is_number as is_number_lem, key_of as key_of_lem, line_at, lot_of as lot_of_lem, lot_text_at, name_at, number_at, number_of as number_of_lem, qty_at, receipt_of as receipt_of_lem};

use commands::{Command, Key, Receipt};
use csv::ByteRecord;
use label::{Day, expiry_of};
use values::{Gtin, LineNo, Lot, LotId, Name, Qty, are_digits, written_number};

/// The record is `delivery`, `line`, `gtin`, `lot`, `expiry`, `bin`, `qty`.
pub(crate) fn is_header(fields: &ByteRecord) -> bool
    ensures { result ≡ is_header_lem (fields_of fields.now) }
{
    fields.len() == 7
        && has_text(fields, 0, b"delivery")
        && has_text(fields, 1, b"line")
        && has_text(fields, 2, b"gtin")
        && has_text(fields, 3, b"lot")
        && has_text(fields, 4, b"expiry")
        && has_text(fields, 5, b"bin")
        && has_text(fields, 6, b"qty")
}

/// The command of a row under its key, if each field keeps its rule.
pub(crate) fn command_of(fields: &ByteRecord, today: Day) -> Option<(Key, Command)>
    requires { IsTrue (is_business_day today) }
    ensures { result ≡ command_of_lem today (fields_of fields.now) }
{
    let key = key_of(fields)?;
    let receipt = receipt_of(fields, today)?;
    Some((key, Command::Receive(receipt)))
}

fn has_text(fields: &ByteRecord, at: usize, text: &[u8]) -> bool
    ensures { result ≡ has_text_lem at text.now (fields_of fields.now) }
{
    match fields.get(at) {
        Some(field) => field == text,
        None => false,
    }
}

fn key_of(fields: &ByteRecord) -> Option<Key>
    ensures { result ≡ key_of_lem (fields_of fields.now) }
{
    let delivery = name(fields, 0)?;
    let line = line(fields, 1)?;
    Some(Key::Line(delivery, line))
}

fn receipt_of(fields: &ByteRecord, today: Day) -> Option<Receipt>
    requires { IsTrue (is_business_day today) }
    ensures { result ≡ receipt_of_lem today (fields_of fields.now) }
{
    let lot = lot_of(fields)?;
    let expiry = expiry(fields, 4, today)?;
    let bin = name(fields, 5)?;
    let qty = qty(fields, 6)?;
    Some(Receipt {
        lot,
        expiry,
        bin,
        qty,
    })
}

fn lot_of(fields: &ByteRecord) -> Option<LotId>
    ensures { result ≡ lot_of_lem (fields_of fields.now) }
{
    let gtin = gtin(fields, 2)?;
    let lot = lot_text(fields, 3)?;
    Some(LotId { gtin, lot })
}

fn name(fields: &ByteRecord, at: usize) -> Option<Name>
    ensures { result ≡ name_at at (fields_of fields.now) }
{
    Name::new(fields.get(at)?)
}

fn gtin(fields: &ByteRecord, at: usize) -> Option<Gtin>
    ensures { result ≡ gtin_at at (fields_of fields.now) }
{
    Gtin::new(fields.get(at)?).ok()
}

fn lot_text(fields: &ByteRecord, at: usize) -> Option<Lot>
    ensures { result ≡ lot_text_at at (fields_of fields.now) }
{
    Lot::new(fields.get(at)?).ok()
}

fn expiry(fields: &ByteRecord, at: usize, today: Day) -> Option<Day>
    requires { IsTrue (is_business_day today) }
    ensures { result ≡ expiry_at today at (fields_of fields.now) }
{
    expiry_of(fields.get(at)?, today).ok()
}

fn line(fields: &ByteRecord, at: usize) -> Option<LineNo>
    ensures { result ≡ line_at at (fields_of fields.now) }
{
    LineNo::new(number_in(fields, at)?)
}

fn qty(fields: &ByteRecord, at: usize) -> Option<Qty>
    ensures { result ≡ qty_at at (fields_of fields.now) }
{
    Qty::new(number_in(fields, at)?)
}

fn number_in(fields: &ByteRecord, at: usize) -> Option<u64>
    ensures { result ≡ number_at at (fields_of fields.now) }
{
    number_of(fields.get(at)?)
}

fn number_of(text: &[u8]) -> Option<u64>
    ensures { result ≡ number_of_lem text.now }
{
    if is_number(text) {
        Some(written_number(text))
    } else {
        None
    }
}

fn is_number(text: &[u8]) -> bool
    ensures { result ≡ is_number_lem text.now }
{
    match text {
        [] => false,
        [first, ..] => text.len() <= 7 && are_digits(text) && *first != b'0',
    }
}
