ghost use Rattle.std.specs.Prelude.{◌≡◌, Some, None, IfOk, IfErr, ◌≢◌, option_map, option_and_then};
ghost use Rattle.serde_json.specs.View.{view, items_view};
ghost use Rattle.serde_json.specs.Find.{get, as_array};
ghost use Rattle.values.specs.Values.{checked, is_gtin, is_lot_text};
ghost use Rattle.label.specs.Days.{is_business_day, parsed_day};
ghost use Rattle.requests.specs.Fields.{json, is_object_of as is_object_of_lem, text_at as text_at_lem, whole_at as whole_at_lem, signed_at as signed_at_lem, name_at as name_at_lem, title_at as title_at_lem, gtin_at as gtin_at_lem, lot_at as lot_at_lem, qty_at as qty_at_lem, counted_at as counted_at_lem, delta_at as delta_at_lem, line_at as line_at_lem, business_day_at as business_day_at_lem, kind_at as kind_at_lem, lot_id_at as lot_id_at_lem, least_days_at as least_days_at_lem};

use crate::WireFault;
use commands::BinKind;
use label::{BusinessDay, Day};
use serde_json::Value;
use std::alloc::Global;
use values::{Counted, Delta, Gtin, LeastDays, LineNo, Lot, LotId, Name, Qty, Title};

/// The value that a body is, or `W03` where it is no JSON.
pub fn json_value(alloc: Global, body: &[u8]) -> Result<Value, WireFault>
    ensures ok { IfOk result (λ v. json body.now ≡ Some (view v)) }
    ensures err { IfErr result (λ e. e ≢ WireFault.Memory → (e ≡ WireFault.Json)
        × (json body.now ≡ None)) }
{
    match Value::from_slice(alloc, body) {
        Ok(value) => Ok(value),
        Err(e) => if e.is_memory() {
            Err(WireFault::Memory)
        } else {
            Err(WireFault::Json)
        },
    }
}

/// Whether a value is an object of that many members.
pub fn is_object_of(value: &Value, size: usize) -> bool
    ensures { result ≡ is_object_of_lem size (view value.now) }
{
    match value.as_object() {
        Some(members) => members.len() == size,
        None => false,
    }
}

/// The text under a name.
pub fn text_at<'v>(value: &'v Value, name: &str) -> Option<&'v str>
    ensures { option_map (λ s. s.now) result ≡ text_at_lem name.now (view value.now) }
{
    value.get(name)?.as_str()
}

/// The items of the list under a name.
pub fn array_at<'v>(value: &'v Value, name: &str) -> Option<&'v [Value]>
    ensures { option_map (λ s. items_view s.now) result
        ≡ option_and_then as_array (get name.now (view value.now)) }
{
    match value.get(name)?.as_array() {
        Some(list) => Some(list.as_slice()),
        None => None,
    }
}

fn whole_at(value: &Value, name: &str) -> Option<u64>
    ensures { result ≡ whole_at_lem name.now (view value.now) }
{
    value.get(name)?.as_u64()
}

fn signed_at(value: &Value, name: &str) -> Option<i64>
    ensures { result ≡ signed_at_lem name.now (view value.now) }
{
    value.get(name)?.as_i64()
}

/// The GTIN that a text is.
pub fn gtin_of(text: &[u8]) -> Option<Gtin>
    ensures { result ≡ checked is_gtin text.now }
{
    match Gtin::new(text) {
        Ok(gtin) => Some(gtin),
        Err(_) => None,
    }
}

/// The lot that a text is.
pub fn lot_of(text: &[u8]) -> Option<Lot>
    ensures { result ≡ checked is_lot_text text.now }
{
    match Lot::new(text) {
        Ok(lot) => Some(lot),
        Err(_) => None,
    }
}

/// The business day that a text is.
pub fn business_day_of(text: &[u8]) -> Option<BusinessDay>
    ensures { result ≡ option_and_then (checked is_business_day) (parsed_day text.now) }
{
    BusinessDay::new(Day::parse(text)?)
}

pub fn name_at(value: &Value, name: &str) -> Option<Name>
    ensures { result ≡ name_at_lem name.now (view value.now) }
{
    Name::new(text_at(value, name)?.as_bytes())
}

pub fn title_at(value: &Value, name: &str) -> Option<Title>
    ensures { result ≡ title_at_lem name.now (view value.now) }
{
    Title::new(text_at(value, name)?.as_bytes())
}

pub fn gtin_at(value: &Value, name: &str) -> Option<Gtin>
    ensures { result ≡ gtin_at_lem name.now (view value.now) }
{
    gtin_of(text_at(value, name)?.as_bytes())
}

fn lot_at(value: &Value, name: &str) -> Option<Lot>
    ensures { result ≡ lot_at_lem name.now (view value.now) }
{
    lot_of(text_at(value, name)?.as_bytes())
}

/// The lot that the fields `gtin` and `lot` name.
pub fn lot_id_at(value: &Value) -> Option<LotId>
    ensures { result ≡ lot_id_at_lem (view value.now) }
{
    let gtin = gtin_at(value, "gtin")?;
    let lot = lot_at(value, "lot")?;
    Some(LotId { gtin, lot })
}

pub fn qty_at(value: &Value, name: &str) -> Option<Qty>
    ensures { result ≡ qty_at_lem name.now (view value.now) }
{
    Qty::new(whole_at(value, name)?)
}

pub fn counted_at(value: &Value, name: &str) -> Option<Counted>
    ensures { result ≡ counted_at_lem name.now (view value.now) }
{
    Counted::new(whole_at(value, name)?)
}

pub fn delta_at(value: &Value, name: &str) -> Option<Delta>
    ensures { result ≡ delta_at_lem name.now (view value.now) }
{
    Delta::new(signed_at(value, name)?)
}

pub fn line_at(value: &Value, name: &str) -> Option<LineNo>
    ensures { result ≡ line_at_lem name.now (view value.now) }
{
    LineNo::new(whole_at(value, name)?)
}

pub fn least_days_at(value: &Value, name: &str) -> Option<LeastDays>
    ensures { result ≡ least_days_at_lem name.now (view value.now) }
{
    LeastDays::new(whole_at(value, name)?)
}

pub fn business_day_at(value: &Value, name: &str) -> Option<BusinessDay>
    ensures { result ≡ business_day_at_lem name.now (view value.now) }
{
    business_day_of(text_at(value, name)?.as_bytes())
}

/// The kind of bin under a name: `STORE` or `HOLD`.
pub fn kind_at(value: &Value, name: &str) -> Option<BinKind>
    ensures { result ≡ kind_at_lem name.now (view value.now) }
{
    BinKind::from_word(text_at(value, name)?.as_bytes())
}
