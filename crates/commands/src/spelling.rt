#![tactic(auto, using(crate::proofs::Appending::appended, crate::proofs::Appending::joined_word), unfolding(crate::specs::Spelling::spelling))]

ghost use Rattle.std.specs.Prelude.{◌≡◌, ◌++◌, ◌∷◌, [], IfOk, OnOk, decimal, map};
ghost use Rattle.std.specs.Fmt.{signed_decimal};
ghost use Rattle.std.specs.List.{join_with_byte};
ghost use Rattle.commands.specs.Words.{bin_kind_word};
ghost use Rattle.commands.specs.Spelling.{spelling, lines_fields, order_fields, picking_fields, with_line_feeds};

use crate::buffer::{Buffer, decimal_text, signed_text};
use crate::{
    Adjustment, BinKind, Command, Movement, NewBin, NewItem, NewLeast, NewOrder, OrderLine,
    Picking, Receipt, Recount,
};
use label::BusinessDay;
use std::alloc::{AllocError, Global};
use values::{Delta, LotId, Name};

/// The text of a command, by which a repeated command is known again: its word and its fields,
/// joined by single line feeds. No two commands have one text.
pub fn spell(alloc: Global, command: &Command) -> Result<Vec<u8>, AllocError>
    ensures { IfOk result (λ text. text.items ≡ spelling command.now) }
{
    match command {
        Command::Item(item) => spell_item(alloc, item),
        Command::Bin(bin) => spell_bin(alloc, bin),
        Command::Receive(receipt) => spell_receipt(alloc, receipt),
        Command::Move(movement) => spell_movement(alloc, movement),
        Command::Count(recount) => spell_recount(alloc, recount),
        Command::Adjust(adjustment) => spell_adjustment(alloc, adjustment),
        Command::Order(order) => spell_order(alloc, b"ORDER", order),
        Command::Cancel(order) => spell_name(alloc, b"CANCEL", order),
        Command::Pick(picking) => spell_picking(alloc, b"PICK", picking),
        Command::Unpick(picking) => spell_picking(alloc, b"UNPICK", picking),
        Command::Ship(order) => spell_name(alloc, b"SHIP", order),
        Command::Hold(lot) => spell_lot(alloc, b"HOLD", lot),
        Command::Release(lot) => spell_lot(alloc, b"RELEASE", lot),
        Command::Recall(lot) => spell_lot(alloc, b"RECALL", lot),
        Command::OpenDay(day) => spell_day(alloc, *day),
        Command::Least(least) => spell_least(alloc, least),
        Command::Urgent(order) => spell_order(alloc, b"URGENT", order),
    }
}

// The word and the fields, joined by single line feeds.
fn joined(alloc: Global, word: &[u8], fields: &[&[u8]]) -> Result<Vec<u8>, AllocError>
    ensures { IfOk result (λ text. text.items ≡ join_with_byte 10 (word.now ∷ map (λ f. f.now) fields.now)) }
{
    let mut text = word.to_vec(alloc)?;
    add_fields(&mut text, fields)?;
    Ok(text)
}

// The fields, each behind a line feed.
fn add_fields(text: &mut Vec<u8>, fields: &[&[u8]]) -> Result<(), AllocError>
    ensures { OnOk result (text.new.items ≡ text.old.items ++ with_line_feeds (map (λ f. f.now) fields.now)) }
{
    for field in fields {
        add_field(text, field)?;
    }
    Ok(())
}

// A line feed and a field.
fn add_field(text: &mut Vec<u8>, field: &[u8]) -> Result<(), AllocError>
    ensures { OnOk result (text.new.items ≡ text.old.items ++ 10 ∷ field.now) }
{
    text.push(b'\n')?;
    text.extend_from_slice(field)
}

// The word of a kind, for as long as the kind is lent, as the other fields are.
fn kind_word(kind: &BinKind) -> &[u8]
    ensures { result.now ≡ bin_kind_word kind.now }
{
    kind.word().as_bytes()
}

fn number_text(n: u32) -> Buffer<20>
    ensures { result ≡ decimal n }
{
    decimal_text(u64::from(n))
}

fn change_text(delta: Delta) -> Buffer<21>
    ensures { result ≡ signed_decimal delta }
{
    signed_text(i64::from(delta.change()))
}

fn spell_item(alloc: Global, item: &NewItem) -> Result<Vec<u8>, AllocError>
    ensures { IfOk result (λ text. text.items ≡ spelling (Command.Item item.now)) }
{
    joined(
        alloc,
        b"ITEM",
        &[item.gtin.as_bytes(), item.name.as_bytes()],
    )
}

fn spell_bin(alloc: Global, bin: &NewBin) -> Result<Vec<u8>, AllocError>
    ensures { IfOk result (λ text. text.items ≡ spelling (Command.Bin bin.now)) }
{
    joined(alloc, b"BIN", &[bin.bin.as_bytes(), kind_word(&bin.kind)])
}

fn spell_receipt(alloc: Global, receipt: &Receipt) -> Result<Vec<u8>, AllocError>
    ensures { IfOk result (λ text. text.items ≡ spelling (Command.Receive receipt.now)) }
{
    joined(
        alloc,
        b"RECEIVE",
        &[
            receipt.lot.gtin.as_bytes(),
            receipt.lot.lot.as_bytes(),
            &receipt.expiry.text(),
            receipt.bin.as_bytes(),
            number_text(receipt.qty.units()).as_bytes(),
        ],
    )
}

fn spell_movement(alloc: Global, movement: &Movement) -> Result<Vec<u8>, AllocError>
    ensures { IfOk result (λ text. text.items ≡ spelling (Command.Move movement.now)) }
{
    joined(
        alloc,
        b"MOVE",
        &[
            movement.lot.gtin.as_bytes(),
            movement.lot.lot.as_bytes(),
            movement.from.as_bytes(),
            movement.to.as_bytes(),
            number_text(movement.qty.units()).as_bytes(),
        ],
    )
}

fn spell_recount(alloc: Global, recount: &Recount) -> Result<Vec<u8>, AllocError>
    ensures { IfOk result (λ text. text.items ≡ spelling (Command.Count recount.now)) }
{
    joined(
        alloc,
        b"COUNT",
        &[
            recount.lot.gtin.as_bytes(),
            recount.lot.lot.as_bytes(),
            recount.bin.as_bytes(),
            number_text(recount.qty.units()).as_bytes(),
        ],
    )
}

fn spell_adjustment(alloc: Global, adjustment: &Adjustment) -> Result<Vec<u8>, AllocError>
    ensures { IfOk result (λ text. text.items ≡ spelling (Command.Adjust adjustment.now)) }
{
    joined(
        alloc,
        b"ADJUST",
        &[
            adjustment.lot.gtin.as_bytes(),
            adjustment.lot.lot.as_bytes(),
            adjustment.bin.as_bytes(),
            change_text(adjustment.change).as_bytes(),
        ],
    )
}

fn spell_order(alloc: Global, word: &[u8], order: &NewOrder) -> Result<Vec<u8>, AllocError>
    ensures { IfOk result (λ text. text.items ≡ join_with_byte 10 (word.now ∷ order_fields order.now)) }
{
    let mut text = joined(
        alloc,
        word,
        &[order.order.as_bytes(), order.customer.as_bytes()],
    )?;
    add_lines(&mut text, order.lines.as_slice())?;
    Ok(text)
}

// The lines in the order given, each as its GTIN and its quantity.
fn add_lines(text: &mut Vec<u8>, lines: &[OrderLine]) -> Result<(), AllocError>
    ensures { OnOk result (text.new.items ≡ text.old.items ++ with_line_feeds (lines_fields lines.now)) }
{
    for line in lines {
        add_field(text, line.gtin.as_bytes())?;
        add_field(text, number_text(line.qty.units()).as_bytes())?;
    }
    Ok(())
}

fn spell_picking(alloc: Global, word: &[u8], picking: &Picking) -> Result<Vec<u8>, AllocError>
    ensures { IfOk result (λ text. text.items ≡ join_with_byte 10 (word.now ∷ picking_fields picking.now)) }
{
    joined(
        alloc,
        word,
        &[
            picking.order.as_bytes(),
            picking.lot.gtin.as_bytes(),
            picking.lot.lot.as_bytes(),
            picking.bin.as_bytes(),
            number_text(picking.qty.units()).as_bytes(),
        ],
    )
}

fn spell_name(alloc: Global, word: &[u8], name: &Name) -> Result<Vec<u8>, AllocError>
    ensures { IfOk result (λ text. text.items ≡ join_with_byte 10 (word.now ∷ name.now ∷ [])) }
{
    joined(alloc, word, &[name.as_bytes()])
}

fn spell_lot(alloc: Global, word: &[u8], lot: &LotId) -> Result<Vec<u8>, AllocError>
    ensures { IfOk result (λ text. text.items ≡ join_with_byte 10 (word.now ∷ lot.now.gtin ∷ lot.now.lot ∷ [])) }
{
    joined(alloc, word, &[lot.gtin.as_bytes(), lot.lot.as_bytes()])
}

fn spell_day(alloc: Global, day: BusinessDay) -> Result<Vec<u8>, AllocError>
    ensures { IfOk result (λ text. text.items ≡ spelling (Command.OpenDay day)) }
{
    joined(alloc, b"OPENDAY", &[&day.day().text()])
}

fn spell_least(alloc: Global, least: &NewLeast) -> Result<Vec<u8>, AllocError>
    ensures { IfOk result (λ text. text.items ≡ spelling (Command.Least least.now)) }
{
    joined(
        alloc,
        b"LEAST",
        &[
            least.gtin.as_bytes(),
            number_text(u32::from(least.days.days())).as_bytes(),
        ],
    )
}
