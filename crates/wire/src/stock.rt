ghost use Rattle.std.specs.Prelude.{◌≡◌, OnOk, IfOk};
ghost use Rattle.serde_json.specs.Written.{compact_text};
ghost use Rattle.wire.specs.Tokens.{Adds, data_tokens};
ghost use Rattle.wire.specs.Views.{bin_data, lot_stock_data, stock_data};

use crate::members::{Member, put_count, put_list, put_text};
use crate::text::{gtin_text, lot_text, name_text, readable, title_text};
use commands::{BinUnits, LotView, StockView};
use json::Writer;
use std::alloc::{AllocError, Global};

fn put_bin(out: &mut Writer, bin: &BinUnits) -> Result<(), AllocError>
    ensures { OnOk result (Adds out.old out.new (data_tokens (bin_data bin.now))) }
{
    out.begin_object()?;
    put_text(out, "bin", name_text(&bin.bin))?;
    put_count(out, "qty", bin.qty)?;
    out.end_object()
}

impl Member for BinUnits {
    ghost use Rattle.wire.specs.Views.{bin_data};

    ghost shown = { bin_data };

    fn put(&self, out: &mut Writer) -> Result<(), AllocError> {
        put_bin(out, self)
    }
}

#[tactic(auto, using(crate::proofs::Texts::day_is_utf8))]
fn put_lot(out: &mut Writer, lot: &LotView) -> Result<(), AllocError>
    ensures { OnOk result (Adds out.old out.new (data_tokens (lot_stock_data lot.now))) }
{
    let expiry = lot.expiry.text();
    out.begin_object()?;
    put_list(out, "bins", lot.bins.as_slice())?;
    put_text(out, "expiry", readable(expiry.as_slice()))?;
    put_text(out, "lot", lot_text(&lot.lot))?;
    put_count(out, "reserved", lot.reserved)?;
    put_count(out, "staged", lot.staged)?;
    put_text(out, "status", lot.status.word())?;
    out.end_object()
}

impl Member for LotView {
    ghost use Rattle.wire.specs.Views.{lot_stock_data};

    ghost shown = { lot_stock_data };

    fn put(&self, out: &mut Writer) -> Result<(), AllocError> {
        put_lot(out, self)
    }
}

fn put_stock(out: &mut Writer, shown: &StockView) -> Result<(), AllocError>
    ensures { OnOk result (Adds out.old out.new (data_tokens (stock_data shown.now))) }
{
    out.begin_object()?;
    put_text(out, "gtin", gtin_text(&shown.item.gtin))?;
    put_list(out, "lots", shown.lots.as_slice())?;
    put_text(out, "name", title_text(&shown.item.name))?;
    out.end_object()
}

/// The stock of an item as compact JSON.
pub fn stock_json(alloc: Global, shown: &StockView) -> Result<Vec<u8>, AllocError>
    ensures { IfOk result (λ b. b.items ≡ compact_text (stock_data shown.now)) }
{
    let mut out = Writer::new(Vec::new(alloc));
    put_stock(&mut out, shown)?;
    Ok(out.into_inner())
}
