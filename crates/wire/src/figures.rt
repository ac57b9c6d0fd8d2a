ghost use Rattle.std.specs.Prelude.{◌≡◌, OnOk, IfOk};
ghost use Rattle.serde_json.specs.Written.{compact_text};
ghost use Rattle.wire.specs.Tokens.{Adds, data_tokens};
ghost use Rattle.wire.specs.Figures.{lot_figures_data, open_figures_data, unit_figures_data, figures_data};

use crate::members::{put_count, put_text};
use crate::text::readable;
use json::Writer;
use overviews::{FiguresView, LotFigures, OpenFigures, UnitFigures};
use std::alloc::{AllocError, Global};

fn put_lots(out: &mut Writer, figures: &LotFigures) -> Result<(), AllocError>
    ensures { OnOk result (Adds out.old out.new (data_tokens (lot_figures_data figures.now))) }
{
    out.begin_object()?;
    put_count(out, "expired", figures.expired)?;
    put_count(out, "held", figures.held)?;
    put_count(out, "recalled", figures.recalled)?;
    out.end_object()
}

fn put_open(out: &mut Writer, figures: &OpenFigures) -> Result<(), AllocError>
    ensures { OnOk result (Adds out.old out.new (data_tokens (open_figures_data figures.now))) }
{
    out.begin_object()?;
    put_count(out, "orders", figures.orders)?;
    put_count(out, "short", figures.short)?;
    put_count(out, "staged", figures.staged)?;
    put_count(out, "urgent", figures.urgent)?;
    out.end_object()
}

fn put_units(out: &mut Writer, figures: &UnitFigures) -> Result<(), AllocError>
    ensures { OnOk result (Adds out.old out.new (data_tokens (unit_figures_data figures.now))) }
{
    out.begin_object()?;
    put_count(out, "house", figures.house)?;
    put_count(out, "returns", figures.returns)?;
    out.end_object()
}

#[tactic(auto, using(crate::proofs::Texts::day_is_utf8))]
fn put_figures(out: &mut Writer, shown: &FiguresView) -> Result<(), AllocError>
    ensures { OnOk result (Adds out.old out.new (data_tokens (figures_data shown.now))) }
{
    let day = shown.day.day().text();
    out.begin_object()?;
    put_count(out, "act", shown.act)?;
    put_text(out, "day", readable(day.as_slice()))?;
    out.key("lots")?;
    put_lots(out, &shown.lots)?;
    out.key("open")?;
    put_open(out, &shown.open_orders)?;
    out.key("units")?;
    put_units(out, &shown.units)?;
    out.end_object()
}

/// The figures of the house as compact JSON.
pub fn figures_json(alloc: Global, shown: &FiguresView) -> Result<Vec<u8>, AllocError>
    ensures { IfOk result (λ b. b.items ≡ compact_text (figures_data shown.now)) }
{
    let mut out = Writer::new(Vec::new(alloc));
    put_figures(&mut out, shown)?;
    Ok(out.into_inner())
}
