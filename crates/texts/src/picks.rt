ghost use Rattle.std.specs.Prelude.{flat_map};
ghost use Rattle.texts.specs.PickList.{pick_list_text, pick_list_start, item_lines, item_line, take_lines, take_line, from_line};
ghost use Rattle.texts.specs.Writing.{Writes};

use crate::TextFault;
use crate::lines::put_line;
use crate::totals::staged_units;
use commands::{BinUnits, LineView, OrderView, ReservedLot, decimal_text};
use std::io::Write;

/// Writes the pick list of an order. After a fault, which is also met where staged units add up to no `u64`, a beginning
/// of it stands.
pub fn pick_list<W: Write>(order: &OrderView, out: &mut W) -> Result<(), TextFault>
    ensures { Writes result (W.contents out.old) (W.contents out.new) (pick_list_text order.now) }
{
    put_start(order, out)?;
    put_lines(order.lines.as_slice(), out)
}

fn put_start<W: Write>(order: &OrderView, out: &mut W) -> Result<(), TextFault>
    ensures { Writes result (W.contents out.old) (W.contents out.new) (pick_list_start order.now) }
{
    put_line(b"PICK LIST", &[order.order.as_bytes()], out)?;
    put_line(b"CUSTOMER", &[order.customer.as_bytes()], out)?;
    put_line(b"STATE", &[order.state.word().as_bytes()], out)
}

fn put_lines<W: Write>(lines: &[LineView], out: &mut W) -> Result<(), TextFault>
    ensures { Writes result (W.contents out.old) (W.contents out.new) (flat_map item_lines lines.now) }
{
    for line in lines {
        put_item(line, out)?;
    }
    Ok(())
}

fn put_item<W: Write>(line: &LineView, out: &mut W) -> Result<(), TextFault>
    ensures { Writes result (W.contents out.old) (W.contents out.new) (item_lines line.now) }
{
    let staged = staged_units(line.staged.as_slice())?;
    put_item_line(line, staged, out)?;
    put_lots(line.reserved.as_slice(), out)
}

fn put_item_line<W: Write>(line: &LineView, staged: u64, out: &mut W) -> Result<(), TextFault>
    ensures { Writes result (W.contents out.old) (W.contents out.new) (item_line line.now staged) }
{
    put_line(
        b"ITEM",
        &[
            line.gtin.as_bytes(),
            b"ORDERED",
            decimal_text(line.ordered).as_bytes(),
            b"STAGED",
            decimal_text(staged).as_bytes(),
            b"SHIPPED",
            decimal_text(line.shipped).as_bytes(),
            b"SHORT",
            decimal_text(line.short).as_bytes(),
            b"LEAST",
            decimal_text(line.least.days() as u64).as_bytes(),
        ],
        out,
    )
}

fn put_lots<W: Write>(lots: &[ReservedLot], out: &mut W) -> Result<(), TextFault>
    ensures { Writes result (W.contents out.old) (W.contents out.new) (flat_map take_lines lots.now) }
{
    for lot in lots {
        put_lot(lot, out)?;
    }
    Ok(())
}

fn put_lot<W: Write>(lot: &ReservedLot, out: &mut W) -> Result<(), TextFault>
    ensures { Writes result (W.contents out.old) (W.contents out.new) (take_lines lot.now) }
{
    put_take(lot, out)?;
    put_bins(lot.bins.as_slice(), out)
}

fn put_take<W: Write>(lot: &ReservedLot, out: &mut W) -> Result<(), TextFault>
    ensures { Writes result (W.contents out.old) (W.contents out.new) (take_line lot.now) }
{
    put_line(
        b"TAKE",
        &[
            lot.lot.as_bytes(),
            &lot.expiry.text(),
            decimal_text(lot.qty).as_bytes(),
        ],
        out,
    )
}

fn put_bins<W: Write>(bins: &[BinUnits], out: &mut W) -> Result<(), TextFault>
    ensures { Writes result (W.contents out.old) (W.contents out.new) (flat_map from_line bins.now) }
{
    for units in bins {
        put_from(units, out)?;
    }
    Ok(())
}

fn put_from<W: Write>(units: &BinUnits, out: &mut W) -> Result<(), TextFault>
    ensures { Writes result (W.contents out.old) (W.contents out.new) (from_line units.now) }
{
    put_line(
        b"FROM",
        &[units.bin.as_bytes(), decimal_text(units.qty).as_bytes()],
        out,
    )
}
