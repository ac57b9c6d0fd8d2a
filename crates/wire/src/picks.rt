ghost use Rattle.std.specs.Prelude.{◌≡◌, ◌∷◌, ◌++◌, [], codes, flat_map, map, OnOk, IfOk};
ghost use Rattle.json.specs.Token.{key, end_array};
ghost use Rattle.serde_json.specs.Data.{array};
ghost use Rattle.serde_json.specs.View.{items_of};
ghost use Rattle.serde_json.specs.Written.{compact_text};
ghost use Rattle.wire.specs.Tokens.{Adds, data_tokens};
ghost use Rattle.wire.specs.Picks.{take_data, pick_line_data, picks_data};

use crate::members::{Member, put_count, put_list, put_text};
use crate::text::{gtin_text, lot_text, name_text, readable, title_text};
use commands::ReservedLot;
use json::Writer;
use overviews::{PickLine, PicksView};
use std::alloc::{AllocError, Global};

/// A lot to take, and the bins that have it.
#[tactic(auto, using(crate::proofs::Texts::day_is_utf8))]
fn put_take(out: &mut Writer, lot: &ReservedLot) -> Result<(), AllocError>
    ensures { OnOk result (Adds out.old out.new (data_tokens (take_data lot.now))) }
{
    let expiry = lot.expiry.text();
    out.begin_object()?;
    put_list(out, "bins", lot.bins.as_slice())?;
    put_text(out, "expiry", readable(expiry.as_slice()))?;
    put_text(out, "lot", lot_text(&lot.lot))?;
    put_count(out, "qty", lot.qty)?;
    out.end_object()
}

fn put_each_take(out: &mut Writer, lots: &[ReservedLot]) -> Result<(), AllocError>
    ensures { OnOk result (Adds out.old out.new (flat_map (λ x. data_tokens (take_data x)) lots.now)) }
{
    for lot in lots {
        put_take(out, lot)?;
    }
    Ok(())
}

fn put_rest_of_takes(out: &mut Writer, lots: &[ReservedLot]) -> Result<(), AllocError>
    ensures { OnOk result (Adds out.old out.new (flat_map (λ x. data_tokens (take_data x)) lots.now ++ end_array ∷ [])) }
{
    put_each_take(out, lots)?;
    out.end_array()
}

fn put_takes(out: &mut Writer, lots: &[ReservedLot]) -> Result<(), AllocError>
    ensures { OnOk result (Adds out.old out.new (key (codes "take") ∷ data_tokens (array (items_of (map take_data lots.now))))) }
{
    out.key("take")?;
    out.begin_array()?;
    put_rest_of_takes(out, lots)
}

fn put_pick_line(out: &mut Writer, line: &PickLine) -> Result<(), AllocError>
    ensures { OnOk result (Adds out.old out.new (data_tokens (pick_line_data line.now))) }
{
    out.begin_object()?;
    put_text(out, "gtin", gtin_text(&line.item.gtin))?;
    put_count(out, "least", u64::from(line.least.days()))?;
    put_text(out, "name", title_text(&line.item.name))?;
    put_count(out, "ordered", line.ordered)?;
    put_count(out, "shipped", line.shipped)?;
    put_count(out, "short", line.short)?;
    put_count(out, "staged", line.staged)?;
    put_takes(out, line.take.as_slice())?;
    out.end_object()
}

impl Member for PickLine {
    ghost use Rattle.wire.specs.Picks.{pick_line_data};

    ghost shown = { pick_line_data };

    fn put(&self, out: &mut Writer) -> Result<(), AllocError> {
        put_pick_line(out, self)
    }
}

fn put_picks(out: &mut Writer, shown: &PicksView) -> Result<(), AllocError>
    ensures { OnOk result (Adds out.old out.new (data_tokens (picks_data shown.now))) }
{
    out.begin_object()?;
    put_text(out, "customer", title_text(&shown.customer))?;
    put_list(out, "lines", shown.lines.as_slice())?;
    put_text(out, "order", name_text(&shown.order))?;
    put_text(out, "state", shown.state.word())?;
    out.end_object()
}

/// A pick list as compact JSON.
pub fn picks_json(alloc: Global, shown: &PicksView) -> Result<Vec<u8>, AllocError>
    ensures { IfOk result (λ b. b.items ≡ compact_text (picks_data shown.now)) }
{
    let mut out = Writer::new(Vec::new(alloc));
    put_picks(&mut out, shown)?;
    Ok(out.into_inner())
}
