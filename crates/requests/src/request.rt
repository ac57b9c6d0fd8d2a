ghost use Rattle.std.specs.Prelude.{◌≡◌, ◌≢◌, ◌≤◌, Some, None, Ok, Err, IfOk, IfErr, IsUtf8, length, take};
ghost use Rattle.percent_encoding.specs.Percent.{percent_decode as percent_decode_lem};
ghost use Rattle.requests.specs.Requests.{after_slash as after_slash_lem, before_slash as before_slash_lem, second_segment as second_segment_lem, third_segment as third_segment_lem, inner_segment as inner_segment_lem, fourth_segment as fourth_segment_lem, gtin_in as gtin_in_lem, name_in as name_in_lem, day_in as day_in_lem, lot_named as lot_named_lem, lot_in as lot_in_lem, lot_behind as lot_behind_lem, query_of as query_of_lem, posted as posted_lem, read_route as read_route_lem, read_ask as read_ask_lem, answered as answered_lem, after_head as after_head_lem, IsReading};
ghost use Rattle.requests.specs.Head.{HEAD_MAX};

use crate::bodies::body_of;
use crate::fields::{business_day_of, gtin_of, json_value, lot_of};
use crate::head::{Head, LONGEST_HEAD, head_end, read_head};
use crate::routes::{Posted, Route, RouteTable, Shown, method_of};
use crate::{Ask, Query, WireFault};
use commands::Listed;
use label::BusinessDay;
use percent_encoding::percent_decode;
use std::alloc::Global;
use values::{Gtin, LotId, Name};

/// What a text is read as.
#[derive(Drop)]
pub enum Read {
    /// More bytes are needed. If there are none the fault is this one: `W01` within the head,
    /// `W02` within the body.
    Need(WireFault),
    /// The text is no request.
    Bad(WireFault),
    /// The text is a request, or begins with one.
    Request(Ask),
}

fn after_slash(text: &[u8]) -> &[u8]
    ensures { result.now ≡ after_slash_lem text.now }
{
    for i in 0..text.len() {
        if text[i] == b'/' {
            let (_, rest) = text.split_at(i + 1);
            return rest;
        }
    }
    &[]
}

fn before_slash(text: &[u8]) -> &[u8]
    ensures { result.now ≡ before_slash_lem text.now }
{
    for i in 0..text.len() {
        if text[i] == b'/' {
            let (front, _) = text.split_at(i);
            return front;
        }
    }
    text
}

fn decoded(alloc: Global, text: &[u8]) -> Result<Vec<u8>, WireFault>
    ensures ok { IfOk result (λ v. v.items ≡ percent_decode_lem text.now) }
    ensures err { IfErr result (λ e. e ≡ WireFault.Memory) }
{
    let mut out = Vec::new(alloc);
    match percent_decode(text).append_to(&mut out) {
        Ok(()) => Ok(out),
        Err(_) => Err(WireFault::Memory),
    }
}

fn second_segment(alloc: Global, target: &[u8]) -> Result<Vec<u8>, WireFault>
    ensures ok { IfOk result (λ v. v.items ≡ second_segment_lem target.now) }
    ensures err { IfErr result (λ e. e ≡ WireFault.Memory) }
{
    decoded(alloc, before_slash(after_slash(after_slash(target))))
}

fn third_segment(alloc: Global, target: &[u8]) -> Result<Vec<u8>, WireFault>
    ensures ok { IfOk result (λ v. v.items ≡ third_segment_lem target.now) }
    ensures err { IfErr result (λ e. e ≡ WireFault.Memory) }
{
    decoded(alloc, after_slash(after_slash(after_slash(target))))
}

fn inner_segment(alloc: Global, target: &[u8]) -> Result<Vec<u8>, WireFault>
    ensures ok { IfOk result (λ v. v.items ≡ inner_segment_lem target.now) }
    ensures err { IfErr result (λ e. e ≡ WireFault.Memory) }
{
    decoded(
        alloc,
        before_slash(after_slash(after_slash(after_slash(target)))),
    )
}

fn fourth_segment(alloc: Global, target: &[u8]) -> Result<Vec<u8>, WireFault>
    ensures ok { IfOk result (λ v. v.items ≡ fourth_segment_lem target.now) }
    ensures err { IfErr result (λ e. e ≡ WireFault.Memory) }
{
    decoded(
        alloc,
        after_slash(after_slash(after_slash(after_slash(target)))),
    )
}

fn gtin_in(alloc: Global, target: &[u8]) -> Result<Gtin, WireFault>
    ensures ok { IfOk result (λ v. gtin_in_lem target.now ≡ Some v) }
    ensures err { IfErr result (λ e. e ≢ WireFault.Memory → (e ≡ WireFault.Field)
        × (gtin_in_lem target.now ≡ None)) }
{
    let part = second_segment(alloc, target)?;
    gtin_of(part.as_slice()).ok_or(WireFault::Field)
}

fn name_in(alloc: Global, target: &[u8]) -> Result<Name, WireFault>
    ensures ok { IfOk result (λ v. name_in_lem target.now ≡ Some v) }
    ensures err { IfErr result (λ e. e ≢ WireFault.Memory → (e ≡ WireFault.Field)
        × (name_in_lem target.now ≡ None)) }
{
    let part = second_segment(alloc, target)?;
    Name::new(part.as_slice()).ok_or(WireFault::Field)
}

fn day_in(alloc: Global, target: &[u8]) -> Result<BusinessDay, WireFault>
    ensures ok { IfOk result (λ v. day_in_lem target.now ≡ Some v) }
    ensures err { IfErr result (λ e. e ≢ WireFault.Memory → (e ≡ WireFault.Field)
        × (day_in_lem target.now ≡ None)) }
{
    let part = second_segment(alloc, target)?;
    business_day_of(part.as_slice()).ok_or(WireFault::Field)
}

fn lot_named(gtin: &[u8], lot: &[u8]) -> Option<LotId>
    ensures { result ≡ lot_named_lem gtin.now lot.now }
{
    let gtin = gtin_of(gtin)?;
    let lot = lot_of(lot)?;
    Some(LotId { gtin, lot })
}

fn lot_in(alloc: Global, target: &[u8]) -> Result<LotId, WireFault>
    ensures ok { IfOk result (λ v. lot_in_lem target.now ≡ Some v) }
    ensures err { IfErr result (λ e. e ≢ WireFault.Memory → (e ≡ WireFault.Field)
        × (lot_in_lem target.now ≡ None)) }
{
    let gtin = second_segment(alloc, target)?;
    let lot = third_segment(alloc, target)?;
    lot_named(gtin.as_slice(), lot.as_slice()).ok_or(WireFault::Field)
}

fn lot_behind(alloc: Global, target: &[u8]) -> Result<LotId, WireFault>
    ensures ok { IfOk result (λ v. lot_behind_lem target.now ≡ Some v) }
    ensures err { IfErr result (λ e. e ≢ WireFault.Memory → (e ≡ WireFault.Field)
        × (lot_behind_lem target.now ≡ None)) }
{
    let gtin = inner_segment(alloc, target)?;
    let lot = fourth_segment(alloc, target)?;
    lot_named(gtin.as_slice(), lot.as_slice()).ok_or(WireFault::Field)
}

// Lists behind what was seen last

fn open_orders_behind(alloc: Global, target: &[u8]) -> Result<Query, WireFault>
    ensures ok { IfOk result (λ q. query_of_lem Shown.OpenOrdersBehind target.now ≡ Some q) }
    ensures err { IfErr result (λ e. e ≢ WireFault.Memory → (e ≡ WireFault.Field)
        × (query_of_lem Shown.OpenOrdersBehind target.now ≡ None)) }
{
    let order = name_in(alloc, target)?;
    Ok(Query::OpenOrders(Some(order)))
}

fn item_names_behind(alloc: Global, target: &[u8]) -> Result<Query, WireFault>
    ensures ok { IfOk result (λ q. query_of_lem Shown.ItemNamesBehind target.now ≡ Some q) }
    ensures err { IfErr result (λ e. e ≢ WireFault.Memory → (e ≡ WireFault.Field)
        × (query_of_lem Shown.ItemNamesBehind target.now ≡ None)) }
{
    let gtin = gtin_in(alloc, target)?;
    Ok(Query::ItemNames(Some(gtin)))
}

fn expiring(alloc: Global, target: &[u8]) -> Result<Query, WireFault>
    ensures ok { IfOk result (λ q. query_of_lem Shown.Expiring target.now ≡ Some q) }
    ensures err { IfErr result (λ e. e ≢ WireFault.Memory → (e ≡ WireFault.Field)
        × (query_of_lem Shown.Expiring target.now ≡ None)) }
{
    let day = day_in(alloc, target)?;
    Ok(Query::Expiring(day, None))
}

fn expiring_behind(alloc: Global, target: &[u8]) -> Result<Query, WireFault>
    ensures ok { IfOk result (λ q. query_of_lem Shown.ExpiringBehind target.now ≡ Some q) }
    ensures err { IfErr result (λ e. e ≢ WireFault.Memory → (e ≡ WireFault.Field)
        × (query_of_lem Shown.ExpiringBehind target.now ≡ None)) }
{
    let day = day_in(alloc, target)?;
    let lot = lot_behind(alloc, target)?;
    Ok(Query::Expiring(day, Some(lot)))
}

fn bin(alloc: Global, target: &[u8]) -> Result<Query, WireFault>
    ensures ok { IfOk result (λ q. query_of_lem Shown.Bin target.now ≡ Some q) }
    ensures err { IfErr result (λ e. e ≢ WireFault.Memory → (e ≡ WireFault.Field)
        × (query_of_lem Shown.Bin target.now ≡ None)) }
{
    let bin = name_in(alloc, target)?;
    Ok(Query::Bin(bin, None))
}

fn bin_behind(alloc: Global, target: &[u8]) -> Result<Query, WireFault>
    ensures ok { IfOk result (λ q. query_of_lem Shown.BinBehind target.now ≡ Some q) }
    ensures err { IfErr result (λ e. e ≢ WireFault.Memory → (e ≡ WireFault.Field)
        × (query_of_lem Shown.BinBehind target.now ≡ None)) }
{
    let bin = name_in(alloc, target)?;
    let lot = lot_behind(alloc, target)?;
    Ok(Query::Bin(bin, Some(lot)))
}

/// What a path shows: `W04` where a value in it breaks its rule. The only other fault is `W90`, for
/// want of memory.
pub fn query_of(alloc: Global, shown: Shown, target: &[u8]) -> Result<Query, WireFault>
    ensures ok { IfOk result (λ q. query_of_lem shown target.now ≡ Some q) }
    ensures err { IfErr result (λ e. e ≢ WireFault.Memory → (e ≡ WireFault.Field)
        × (query_of_lem shown target.now ≡ None)) }
{
    match shown {
        Shown::Books => Ok(Query::Books),
        Shown::OpenOrders => Ok(Query::OpenOrders(None)),
        Shown::OpenOrdersBehind => open_orders_behind(alloc, target),
        Shown::ItemNames => Ok(Query::ItemNames(None)),
        Shown::ItemNamesBehind => item_names_behind(alloc, target),
        Shown::Expiring => expiring(alloc, target),
        Shown::ExpiringBehind => expiring_behind(alloc, target),
        Shown::Bin => bin(alloc, target),
        Shown::BinBehind => bin_behind(alloc, target),
        Shown::Stock => gtin_in(alloc, target).map(Query::Stock),
        Shown::Order => name_in(alloc, target).map(Query::Order),
        Shown::PickList => name_in(alloc, target).map(Query::PickList),
        Shown::Shortages => gtin_in(alloc, target).map(Query::Shortages),
        Shown::Card => lot_in(alloc, target).map(Query::Card),
        Shown::Notice => lot_in(alloc, target).map(Query::Notice),
        Shown::Trace => lot_in(alloc, target).map(Query::Trace),
        Shown::Picks => name_in(alloc, target).map(Query::Picks),
        Shown::Figures => Ok(Query::Figures),
    }
}

fn read_post(alloc: Global, route: Posted, body: &[u8]) -> Result<Ask, WireFault>
    ensures ok { IfOk result (λ a. posted_lem route body.now ≡ Ok a) }
    ensures err { IfErr result (λ e. e ≢ WireFault.Memory → posted_lem route body.now ≡ Err e) }
{
    if let Posted::GoodsIn = route {
        return match Vec::from_slice(alloc, body) {
            Ok(file) => Ok(Ask::GoodsIn(Listed::from_vec(file))),
            Err(_) => Err(WireFault::Memory),
        };
    }
    let value = json_value(alloc, body)?;
    body_of(alloc, route, &value)
}

fn read_route(alloc: Global, route: Route, target: &[u8], body: &[u8]) -> Result<Ask, WireFault>
    ensures ok { IfOk result (λ a. read_route_lem route target.now body.now ≡ Ok a) }
    ensures err { IfErr result (λ e. e ≢ WireFault.Memory
        → read_route_lem route target.now body.now ≡ Err e) }
{
    match route {
        Route::Post(route) => read_post(alloc, route, body),
        Route::Get(shown) => match query_of(alloc, shown, target) {
            Ok(query) => Ok(Ask::Show(query)),
            Err(e) => Err(e),
        },
    }
}

fn read_ask(
    alloc: Global,
    routes: &mut RouteTable,
    method: &[u8],
    target: &[u8],
    body: &[u8],
) -> Result<Ask, WireFault>
    requires { IsUtf8 target.now }
    ensures ok { IfOk result (λ a. read_ask_lem method.now target.now body.now ≡ Ok a) }
    ensures err { IfErr result (λ e. e ≢ WireFault.Memory
        → read_ask_lem method.now target.now body.now ≡ Err e) }
{
    let route = routes.route_of(alloc, target)?;
    let wanted = method_of(route);
    if method != wanted.name().as_bytes() {
        return Err(WireFault::Method(wanted));
    }
    read_route(alloc, route, target, body)
}

// The reading of a text, by what it asks.
fn reading_of(asked: Result<Ask, WireFault>) -> Read
    ensures { result ≡ answered_lem asked }
{
    match asked {
        Ok(ask) => Read::Request(ask),
        Err(e) => Read::Bad(e),
    }
}

fn after_head(alloc: Global, routes: &mut RouteTable, head: Head, rest: &[u8]) -> Read
    requires { IsUtf8 head.target.now }
    ensures { result ≢ Read.Bad WireFault.Memory
        → (result ≡ after_head_lem head.entry.method.now head.entry.target.now head.entry.length rest.now) }
{
    match head.length {
        Err(e) => Read::Bad(e),
        Ok(n) => {
            if (rest.len() as u64) < n {
                return Read::Need(WireFault::Length);
            }
            let (body, _) = rest.split_at(n as usize);
            reading_of(read_ask(alloc, routes, head.method, head.target, body))
        }
    }
}

/// The bytes that a head may stand in.
fn head_room(text: &[u8]) -> &[u8]
    ensures value { result.now ≡ take HEAD_MAX text.now }
    ensures bound { length result.now ≤ length text.now }
{
    if text.len() <= LONGEST_HEAD {
        return text;
    }
    let (front, _) = text.split_at(LONGEST_HEAD);
    front
}

/// What a text is read as. It is judged in this order: the end of the head within 8,192 bytes
/// (`W01`, `W08`), the head (`W01`), the length of the body (`W02`, `W08`), the body (`W02`), the
/// path (`W06`), the method (`W07`), JSON (`W03`), the values (`W04`). What follows the body is not
/// looked at. `W90` is answered only for want of memory. The table of routes is made where it is first needed.
pub fn read_request(alloc: Global, routes: &mut RouteTable, text: &[u8]) -> Read
    ensures { result ≢ Read.Bad WireFault.Memory → IsReading text.now result }
{
    let Some(end) = head_end(head_room(text)) else {
        return if text.len() > LONGEST_HEAD {
            Read::Bad(WireFault::TooLarge)
        } else {
            Read::Need(WireFault::Head)
        };
    };
    let (head, rest) = text.split_at(end);
    match read_head(head) {
        Ok(head) => after_head(alloc, routes, head, rest),
        Err(_) => Read::Bad(WireFault::Head),
    }
}
