ghost use Rattle.std.specs.Prelude.{◌≡◌, OnOk, IfOk};
ghost use Rattle.serde_json.specs.Written.{compact_text};
ghost use Rattle.wire.specs.Tokens.{Adds, data_tokens};
ghost use Rattle.wire.specs.Lists.{item_lot_data, expiring_data};

use crate::members::{Member, put_count, put_flag, put_list, put_text};
use crate::text::{gtin_text, lot_text, readable, title_text};
use json::Writer;
use overviews::{ExpiringView, ItemLot};
use std::alloc::{AllocError, Global};

#[tactic(auto, using(crate::proofs::Texts::day_is_utf8))]
fn put_item_lot(out: &mut Writer, shown: &ItemLot) -> Result<(), AllocError>
    ensures { OnOk result (Adds out.old out.new (data_tokens (item_lot_data shown.now))) }
{
    let expiry = shown.lot.expiry.text();
    out.begin_object()?;
    put_list(out, "bins", shown.lot.bins.as_slice())?;
    put_text(out, "expiry", readable(expiry.as_slice()))?;
    put_text(out, "gtin", gtin_text(&shown.item.gtin))?;
    put_text(out, "lot", lot_text(&shown.lot.lot))?;
    put_text(out, "name", title_text(&shown.item.name))?;
    put_count(out, "reserved", shown.lot.reserved)?;
    put_count(out, "staged", shown.lot.staged)?;
    put_text(out, "status", shown.lot.status.word())?;
    out.end_object()
}

impl Member for ItemLot {
    ghost use Rattle.wire.specs.Lists.{item_lot_data};

    ghost shown = { item_lot_data };

    fn put(&self, out: &mut Writer) -> Result<(), AllocError> {
        put_item_lot(out, self)
    }
}

fn put_expiring(out: &mut Writer, shown: &ExpiringView) -> Result<(), AllocError>
    ensures { OnOk result (Adds out.old out.new (data_tokens (expiring_data shown.now))) }
{
    out.begin_object()?;
    put_count(out, "act", shown.act)?;
    put_list(out, "lots", shown.lots.as_slice())?;
    put_flag(out, "more", shown.more)?;
    out.end_object()
}

/// Lots that expire as compact JSON.
pub fn expiring_json(alloc: Global, shown: &ExpiringView) -> Result<Vec<u8>, AllocError>
    ensures { IfOk result (λ b. b.items ≡ compact_text (expiring_data shown.now)) }
{
    let mut out = Writer::new(Vec::new(alloc));
    put_expiring(&mut out, shown)?;
    Ok(out.into_inner())
}
