ghost use Rattle.std.specs.Prelude.{◌≡◌, OnOk, IfOk};
ghost use Rattle.serde_json.specs.Written.{compact_text};
ghost use Rattle.wire.specs.Tokens.{Adds, data_tokens};
ghost use Rattle.wire.specs.Views.{lot_data, line_data, order_data};

use crate::members::{Member, put_count, put_list, put_text};
use crate::text::{gtin_text, lot_text, name_text, title_text};
use commands::{LineView, OrderView, ReservedLot, StagedLot};
use json::Writer;
use std::alloc::{AllocError, Global};

/// Units of a lot.
fn put_lot(out: &mut Writer, lot: &str, qty: u64) -> Result<(), AllocError>
    ensures { OnOk result (Adds out.old out.new (data_tokens (lot_data lot.now qty))) }
{
    out.begin_object()?;
    put_text(out, "lot", lot)?;
    put_count(out, "qty", qty)?;
    out.end_object()
}

impl Member for ReservedLot {
    ghost use Rattle.wire.specs.Views.{reserved_data};

    ghost shown = { reserved_data };

    fn put(&self, out: &mut Writer) -> Result<(), AllocError> {
        put_lot(out, lot_text(&self.lot), self.qty)
    }
}

impl Member for StagedLot {
    ghost use Rattle.wire.specs.Views.{staged_data};

    ghost shown = { staged_data };

    fn put(&self, out: &mut Writer) -> Result<(), AllocError> {
        put_lot(out, lot_text(&self.lot), self.qty)
    }
}

fn put_line(out: &mut Writer, line: &LineView) -> Result<(), AllocError>
    ensures { OnOk result (Adds out.old out.new (data_tokens (line_data line.now))) }
{
    out.begin_object()?;
    put_text(out, "gtin", gtin_text(&line.gtin))?;
    put_count(out, "ordered", line.ordered)?;
    put_list(out, "reserved", line.reserved.as_slice())?;
    put_count(out, "shipped", line.shipped)?;
    put_count(out, "short", line.short)?;
    put_list(out, "staged", line.staged.as_slice())?;
    out.end_object()
}

impl Member for LineView {
    ghost use Rattle.wire.specs.Views.{line_data};

    ghost shown = { line_data };

    fn put(&self, out: &mut Writer) -> Result<(), AllocError> {
        put_line(out, self)
    }
}

fn put_order(out: &mut Writer, shown: &OrderView) -> Result<(), AllocError>
    ensures { OnOk result (Adds out.old out.new (data_tokens (order_data shown.now))) }
{
    out.begin_object()?;
    put_text(out, "class", shown.class.word())?;
    put_text(out, "customer", title_text(&shown.customer))?;
    put_list(out, "lines", shown.lines.as_slice())?;
    put_text(out, "order", name_text(&shown.order))?;
    put_text(out, "state", shown.state.word())?;
    out.end_object()
}

/// An order as compact JSON.
pub fn order_json(alloc: Global, shown: &OrderView) -> Result<Vec<u8>, AllocError>
    ensures { IfOk result (λ b. b.items ≡ compact_text (order_data shown.now)) }
{
    let mut out = Writer::new(Vec::new(alloc));
    put_order(&mut out, shown)?;
    Ok(out.into_inner())
}
