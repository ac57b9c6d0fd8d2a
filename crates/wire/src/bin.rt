ghost use Rattle.std.specs.Prelude.{◌≡◌, OnOk, IfOk};
ghost use Rattle.serde_json.specs.Written.{compact_text};
ghost use Rattle.wire.specs.Tokens.{Adds, data_tokens};
ghost use Rattle.wire.specs.Lists.{bin_lot_data, bin_view_data};

use crate::members::{Member, put_count, put_flag, put_list, put_text};
use crate::text::{gtin_text, lot_text, name_text, readable, title_text};
use json::Writer;
use overviews::{BinLot, BinView};
use std::alloc::{AllocError, Global};

#[tactic(auto, using(crate::proofs::Texts::day_is_utf8))]
fn put_bin_lot(out: &mut Writer, shown: &BinLot) -> Result<(), AllocError>
    ensures { OnOk result (Adds out.old out.new (data_tokens (bin_lot_data shown.now))) }
{
    let expiry = shown.expiry.text();
    out.begin_object()?;
    put_text(out, "expiry", readable(expiry.as_slice()))?;
    put_text(out, "gtin", gtin_text(&shown.item.gtin))?;
    put_text(out, "lot", lot_text(&shown.lot))?;
    put_text(out, "name", title_text(&shown.item.name))?;
    put_count(out, "qty", shown.qty)?;
    put_text(out, "status", shown.status.word())?;
    out.end_object()
}

impl Member for BinLot {
    ghost use Rattle.wire.specs.Lists.{bin_lot_data};

    ghost shown = { bin_lot_data };

    fn put(&self, out: &mut Writer) -> Result<(), AllocError> {
        put_bin_lot(out, self)
    }
}

fn put_bin_view(out: &mut Writer, shown: &BinView) -> Result<(), AllocError>
    ensures { OnOk result (Adds out.old out.new (data_tokens (bin_view_data shown.now))) }
{
    out.begin_object()?;
    put_count(out, "act", shown.act)?;
    put_text(out, "bin", name_text(&shown.bin))?;
    put_text(out, "kind", shown.kind.word())?;
    put_list(out, "lots", shown.lots.as_slice())?;
    put_flag(out, "more", shown.more)?;
    out.end_object()
}

/// What is in a bin as compact JSON.
pub fn bin_json(alloc: Global, shown: &BinView) -> Result<Vec<u8>, AllocError>
    ensures { IfOk result (λ b. b.items ≡ compact_text (bin_view_data shown.now)) }
{
    let mut out = Writer::new(Vec::new(alloc));
    put_bin_view(&mut out, shown)?;
    Ok(out.into_inner())
}
