// The command that the fields of a text are read as.

ghost use Rattle.std.specs.Prelude.{◌≡◌, ◌<◌, length, map, drop, IfOk};
ghost use Rattle.std.specs.Option.{option_map};
ghost use Rattle.texts.specs.Reading.{item_read, bin_read, receipt_read, movement_read, recount_read, adjustment_read, least_read, order_read, picking_read, line_at, lines_read, lot_command_read, shipping_command_read, stock_command_read, plain_command_read, command_read};

use crate::field::{business_day, counted, delta, gtin, least_days, lot, name, qty, title};
use crate::pieces::field;
use commands::{
    Adjustment, BinKind, Command, Lines, Movement, NewBin, NewItem, NewLeast, NewOrder, OrderLine,
    Picking, Receipt, Recount,
};
use label::Day;
use std::alloc::{AllocError, Global};

/// The command, if the word and each value can be read.
#[tactic(auto, unfolding(crate::specs::Reading::command_read))]
pub(crate) fn command(alloc: Global, fields: &[&[u8]]) -> Result<Option<Command>, AllocError>
    ensures { IfOk result (λ found. found ≡ command_read (map (λ f. f.now) fields.now)) }
{
    let word = field(fields, 0);
    if word == "ORDER".as_bytes() {
        return Ok(order(alloc, fields)?.map(Command::Order));
    }
    if word == "URGENT".as_bytes() {
        return Ok(order(alloc, fields)?.map(Command::Urgent));
    }
    Ok(plain_command(word, fields))
}

fn plain_command(word: &[u8], fields: &[&[u8]]) -> Option<Command>
    ensures { result ≡ plain_command_read word.now (map (λ f. f.now) fields.now) }
{
    if word == "ITEM".as_bytes() {
        return item(fields);
    }
    if word == "BIN".as_bytes() {
        return bin(fields);
    }
    if word == "LEAST".as_bytes() {
        return least(fields);
    }
    stock_command(word, fields)
}

fn stock_command(word: &[u8], fields: &[&[u8]]) -> Option<Command>
    ensures { result ≡ stock_command_read word.now (map (λ f. f.now) fields.now) }
{
    if word == "RECEIVE".as_bytes() {
        return receipt(fields);
    }
    if word == "MOVE".as_bytes() {
        return movement(fields);
    }
    if word == "COUNT".as_bytes() {
        return recount(fields);
    }
    if word == "ADJUST".as_bytes() {
        return adjustment(fields);
    }
    shipping_command(word, fields)
}

fn shipping_command(word: &[u8], fields: &[&[u8]]) -> Option<Command>
    ensures { result ≡ shipping_command_read word.now (map (λ f. f.now) fields.now) }
{
    if word == "CANCEL".as_bytes() {
        return Some(Command::Cancel(name(fields, 1)?));
    }
    if word == "PICK".as_bytes() {
        return Some(Command::Pick(picking(fields)?));
    }
    if word == "UNPICK".as_bytes() {
        return Some(Command::Unpick(picking(fields)?));
    }
    if word == "SHIP".as_bytes() {
        return Some(Command::Ship(name(fields, 1)?));
    }
    lot_command(word, fields)
}

fn lot_command(word: &[u8], fields: &[&[u8]]) -> Option<Command>
    ensures { result ≡ lot_command_read word.now (map (λ f. f.now) fields.now) }
{
    if word == "HOLD".as_bytes() {
        return Some(Command::Hold(lot(fields, 1)?));
    }
    if word == "RELEASE".as_bytes() {
        return Some(Command::Release(lot(fields, 1)?));
    }
    if word == "RECALL".as_bytes() {
        return Some(Command::Recall(lot(fields, 1)?));
    }
    if word == "OPENDAY".as_bytes() {
        return Some(Command::OpenDay(business_day(field(fields, 1))?));
    }
    None
}

fn item(fields: &[&[u8]]) -> Option<Command>
    ensures { result ≡ item_read (map (λ f. f.now) fields.now) }
{
    let gtin = gtin(field(fields, 1))?;
    let name = title(fields, 2)?;
    Some(Command::Item(NewItem { gtin, name }))
}

fn bin(fields: &[&[u8]]) -> Option<Command>
    ensures { result ≡ bin_read (map (λ f. f.now) fields.now) }
{
    let bin = name(fields, 1)?;
    let kind = BinKind::from_word(field(fields, 2))?;
    Some(Command::Bin(NewBin { bin, kind }))
}

fn receipt(fields: &[&[u8]]) -> Option<Command>
    ensures { result ≡ receipt_read (map (λ f. f.now) fields.now) }
{
    let lot = lot(fields, 1)?;
    let expiry = Day::parse(field(fields, 3))?;
    let bin = name(fields, 4)?;
    let qty = qty(field(fields, 5))?;
    Some(Command::Receive(Receipt {
        lot,
        expiry,
        bin,
        qty,
    }))
}

fn movement(fields: &[&[u8]]) -> Option<Command>
    ensures { result ≡ movement_read (map (λ f. f.now) fields.now) }
{
    let lot = lot(fields, 1)?;
    let from = name(fields, 3)?;
    let to = name(fields, 4)?;
    let qty = qty(field(fields, 5))?;
    Some(Command::Move(Movement { lot, from, to, qty }))
}

fn recount(fields: &[&[u8]]) -> Option<Command>
    ensures { result ≡ recount_read (map (λ f. f.now) fields.now) }
{
    let lot = lot(fields, 1)?;
    let bin = name(fields, 3)?;
    let qty = counted(field(fields, 4))?;
    Some(Command::Count(Recount { lot, bin, qty }))
}

fn adjustment(fields: &[&[u8]]) -> Option<Command>
    ensures { result ≡ adjustment_read (map (λ f. f.now) fields.now) }
{
    let lot = lot(fields, 1)?;
    let bin = name(fields, 3)?;
    let change = delta(field(fields, 4))?;
    Some(Command::Adjust(Adjustment { lot, bin, change }))
}

fn least(fields: &[&[u8]]) -> Option<Command>
    ensures { result ≡ least_read (map (λ f. f.now) fields.now) }
{
    let gtin = gtin(field(fields, 1))?;
    let days = least_days(field(fields, 2))?;
    Some(Command::Least(NewLeast { gtin, days }))
}

fn picking(fields: &[&[u8]]) -> Option<Picking>
    ensures { result ≡ picking_read (map (λ f. f.now) fields.now) }
{
    let order = name(fields, 1)?;
    let lot = lot(fields, 2)?;
    let bin = name(fields, 4)?;
    let qty = qty(field(fields, 5))?;
    Some(Picking {
        order,
        lot,
        bin,
        qty,
    })
}

fn order(alloc: Global, fields: &[&[u8]]) -> Result<Option<NewOrder>, AllocError>
    ensures { IfOk result (λ found. found ≡ order_read (map (λ f. f.now) fields.now)) }
{
    let Some(order) = name(fields, 1) else {
        return Ok(None);
    };
    let Some(customer) = title(fields, 2) else {
        return Ok(None);
    };
    let Some(lines) = order_lines(alloc, fields)? else {
        return Ok(None);
    };
    let Some(lines) = Lines::new(lines) else {
        return Ok(None);
    };
    Ok(Some(NewOrder {
        order,
        customer,
        lines,
    }))
}

// The lines behind the word, the order and the customer, each as its GTIN and its quantity.
fn order_lines(alloc: Global, fields: &[&[u8]]) -> Result<Option<Vec<OrderLine>>, AllocError>
    ensures { IfOk result (λ found. option_map (λ v. v.items) found ≡ lines_read (drop 3 (map (λ f. f.now) fields.now))) }
{
    let mut lines = Vec::new(alloc);
    let mut at = 3;
    while at < fields.len() {
        let Some(line) = order_line(fields, at) else {
            return Ok(None);
        };
        lines.push(line)?;
        at += 2;
    }
    Ok(Some(lines))
}

fn order_line(fields: &[&[u8]], at: usize) -> Option<OrderLine>
    requires { at < length fields.now }
    ensures { result ≡ line_at at (map (λ f. f.now) fields.now) }
{
    let gtin = gtin(field(fields, at))?;
    let qty = qty(field(fields, at + 1))?;
    Some(OrderLine { gtin, qty })
}
