ghost use Rattle.std.specs.Prelude.{◌≡◌, OnOk, IfOk};
ghost use Rattle.serde_json.specs.Written.{compact_text};
ghost use Rattle.wire.specs.Tokens.{Adds, data_tokens};
ghost use Rattle.wire.specs.Traces.{delivery_data, shipped_data, staged_units_data, trace_data};

use crate::members::{Member, put_count, put_list, put_text};
use crate::text::{gtin_text, lot_text, name_text, readable, title_text};
use commands::ShippedUnits;
use json::Writer;
use overviews::{Delivery, StagedUnits, TraceView};
use std::alloc::{AllocError, Global};

#[tactic(auto, using(crate::proofs::Texts::day_is_utf8))]
fn put_delivery(out: &mut Writer, shown: &Delivery) -> Result<(), AllocError>
    ensures { OnOk result (Adds out.old out.new (data_tokens (delivery_data shown.now))) }
{
    let day = shown.day.day().text();
    out.begin_object()?;
    put_count(out, "act", shown.act)?;
    put_text(out, "day", readable(day.as_slice()))?;
    put_text(out, "delivery", name_text(&shown.delivery))?;
    put_count(out, "line", u64::from(shown.line.number()))?;
    put_count(out, "qty", shown.qty)?;
    out.end_object()
}

impl Member for Delivery {
    ghost use Rattle.wire.specs.Traces.{delivery_data};

    ghost shown = { delivery_data };

    fn put(&self, out: &mut Writer) -> Result<(), AllocError> {
        put_delivery(out, self)
    }
}

#[tactic(auto, using(crate::proofs::Texts::day_is_utf8))]
fn put_shipped(out: &mut Writer, shown: &ShippedUnits) -> Result<(), AllocError>
    ensures { OnOk result (Adds out.old out.new (data_tokens (shipped_data shown.now))) }
{
    let day = shown.day.day().text();
    let written = readable(day.as_slice());
    out.begin_object()?;
    put_text(out, "customer", title_text(&shown.customer))?;
    put_text(out, "day", written)?;
    put_count(out, "number", shown.number)?;
    put_text(out, "order", name_text(&shown.order))?;
    put_count(out, "qty", shown.qty)?;
    out.end_object()
}

impl Member for ShippedUnits {
    ghost use Rattle.wire.specs.Traces.{shipped_data};

    ghost shown = { shipped_data };

    fn put(&self, out: &mut Writer) -> Result<(), AllocError> {
        put_shipped(out, self)
    }
}

fn put_staged(out: &mut Writer, shown: &StagedUnits) -> Result<(), AllocError>
    ensures { OnOk result (Adds out.old out.new (data_tokens (staged_units_data shown.now))) }
{
    out.begin_object()?;
    put_text(out, "customer", title_text(&shown.customer))?;
    put_text(out, "order", name_text(&shown.order))?;
    put_count(out, "qty", shown.qty)?;
    out.end_object()
}

impl Member for StagedUnits {
    ghost use Rattle.wire.specs.Traces.{staged_units_data};

    ghost shown = { staged_units_data };

    fn put(&self, out: &mut Writer) -> Result<(), AllocError> {
        put_staged(out, self)
    }
}

#[tactic(auto, using(crate::proofs::Texts::day_is_utf8))]
fn put_trace(out: &mut Writer, shown: &TraceView) -> Result<(), AllocError>
    ensures { OnOk result (Adds out.old out.new (data_tokens (trace_data shown.now))) }
{
    let expiry = shown.expiry.text();
    out.begin_object()?;
    put_count(out, "act", shown.act)?;
    put_list(out, "bins", shown.bins.as_slice())?;
    put_list(out, "deliveries", shown.deliveries.as_slice())?;
    put_text(out, "expiry", readable(expiry.as_slice()))?;
    put_text(out, "gtin", gtin_text(&shown.item.gtin))?;
    put_text(out, "lot", lot_text(&shown.lot))?;
    put_text(out, "name", title_text(&shown.item.name))?;
    put_count(out, "off", shown.off)?;
    put_count(out, "on", shown.on)?;
    put_count(out, "received", shown.received)?;
    put_list(out, "shipments", shown.shipments.as_slice())?;
    put_list(out, "staged", shown.staged.as_slice())?;
    put_text(out, "status", shown.status.word())?;
    out.end_object()
}

/// The trace of a lot as compact JSON.
pub fn trace_json(alloc: Global, shown: &TraceView) -> Result<Vec<u8>, AllocError>
    ensures { IfOk result (λ b. b.items ≡ compact_text (trace_data shown.now)) }
{
    let mut out = Writer::new(Vec::new(alloc));
    put_trace(&mut out, shown)?;
    Ok(out.into_inner())
}
