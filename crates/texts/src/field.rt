// The values that fields are read as.

ghost use Rattle.std.specs.Prelude.{◌≡◌, ◌<◌, ◌^◌, map, IfSome};
ghost use Rattle.values.specs.Values.{checked, is_gtin, is_lot_text, is_title, is_name};
ghost use Rattle.texts.specs.Reading.{field_at, number_read, qty_read, counted_read, least_days_read, line_no_read, rise_read, fall_read, delta_read, business_day_read, lot_read};

use crate::pieces::field;
use label::{BusinessDay, Day};
use values::{
    Counted, Delta, Gtin, LeastDays, LineNo, Lot, LotId, Name, Qty, Title, written_number,
};

pub(crate) fn name(fields: &[&[u8]], at: usize) -> Option<Name>
    ensures { result ≡ checked is_name (field_at at (map (λ f. f.now) fields.now)) }
{
    Name::new(field(fields, at))
}

pub(crate) fn title(fields: &[&[u8]], at: usize) -> Option<Title>
    ensures { result ≡ checked is_title (field_at at (map (λ f. f.now) fields.now)) }
{
    Title::new(field(fields, at))
}

/// The GTIN at a place, and the lot behind it.
pub(crate) fn lot(fields: &[&[u8]], at: usize) -> Option<LotId>
    requires { at < 10 }
    ensures { result ≡ lot_read at (map (λ f. f.now) fields.now) }
{
    let gtin = gtin(field(fields, at))?;
    let lot = lot_text(field(fields, at + 1))?;
    Some(LotId { gtin, lot })
}

pub(crate) fn gtin(text: &[u8]) -> Option<Gtin>
    ensures { result ≡ checked is_gtin text.now }
{
    match Gtin::new(text) {
        Ok(gtin) => Some(gtin),
        Err(_) => None,
    }
}

fn lot_text(text: &[u8]) -> Option<Lot>
    ensures { result ≡ checked is_lot_text text.now }
{
    Lot::new(text).ok()
}

pub(crate) fn qty(text: &[u8]) -> Option<Qty>
    ensures { result ≡ qty_read text.now }
{
    match number(text) {
        Some(units) => Qty::new(units),
        None => None,
    }
}

pub(crate) fn counted(text: &[u8]) -> Option<Counted>
    ensures { result ≡ counted_read text.now }
{
    match number(text) {
        Some(units) => Counted::new(units),
        None => None,
    }
}

pub(crate) fn least_days(text: &[u8]) -> Option<LeastDays>
    ensures { result ≡ least_days_read text.now }
{
    match number(text) {
        Some(days) => LeastDays::new(days),
        None => None,
    }
}

pub(crate) fn line_no(text: &[u8]) -> Option<LineNo>
    ensures { result ≡ line_no_read text.now }
{
    match number(text) {
        Some(line) => LineNo::new(line),
        None => None,
    }
}

/// With `-` where units go.
pub(crate) fn delta(text: &[u8]) -> Option<Delta>
    ensures { result ≡ delta_read text.now }
{
    match text {
        [b'-', units @ ..] => fall(units),
        _ => rise(text),
    }
}

fn rise(units: &[u8]) -> Option<Delta>
    ensures { result ≡ rise_read units.now }
{
    match number(units) {
        Some(units) => Delta::new(units as i64),
        None => None,
    }
}

fn fall(units: &[u8]) -> Option<Delta>
    ensures { result ≡ fall_read units.now }
{
    match number(units) {
        Some(units) => Delta::new(-(units as i64)),
        None => None,
    }
}

pub(crate) fn business_day(text: &[u8]) -> Option<BusinessDay>
    ensures { result ≡ business_day_read text.now }
{
    match Day::parse(text) {
        Some(day) => BusinessDay::new(day),
        None => None,
    }
}

// No number of a command has more than 7 digits.
fn number(text: &[u8]) -> Option<u64>
    ensures value { result ≡ number_read text.now }
    ensures small { IfSome result (λ n. n < 2 ^ 32) }
{
    if text.len() <= 7 {
        Some(written_number(text))
    } else {
        None
    }
}
