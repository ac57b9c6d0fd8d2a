ghost use Rattle.std.specs.Prelude.{◌≡◌, OnOk, OnErr, IfOk};
ghost use Rattle.texts.specs.Card.{card_start, card_line, card_end};
ghost use Rattle.texts.specs.Writing.{Writes};

use crate::TextFault;
use crate::fields::{
    ACT_WIDTH, QTY_WIDTH, REST_WIDTH, kind_field, note_field, number_field, signed_field,
};
use crate::heads::{put_head, put_lot};
use crate::lines::put_line;
use commands::{CardRow, ItemRow, decimal_text};
use label::Day;
use std::io::Write;
use std::marker::Model;
use values::Lot;

/// A stock card that is being written: the start, then the lines by act, then the end.
///
/// Contracts see the units in the house after the last line.
#[derive(Drop)]
pub struct CardText {
    in_house: u64,
}

impl Model for CardText {
    ghost use Rattle.std.specs.Prelude.{ℕ};

    ghost Value = { ℕ };

    ghost view = { λ v. v.in_house };
}

impl CardText {
    /// Writes whose card it is. After a fault a beginning of that stands.
    pub fn start<W: Write>(
        item: &ItemRow,
        lot: &Lot,
        expiry: Day,
        out: &mut W,
    ) -> Result<CardText, TextFault>
        ensures written { Writes result (W.contents out.old) (W.contents out.new) (card_start item.now lot.now expiry) }
        ensures none { IfOk result (λ card. card ≡ 0) }
    {
        put_head(b"STOCK CARD", item, out)?;
        put_lot(lot, Some(expiry), out)?;
        Ok(CardText { in_house: 0 })
    }

    /// Writes one line. After a fault a beginning of it stands.
    pub fn line<W: Write>(&mut self, row: &CardRow, out: &mut W) -> Result<(), TextFault>
        ensures written { Writes result (W.contents out.old) (W.contents out.new) (card_line row.now) }
        ensures rest { OnOk result (self.new ≡ row.now.rest) }
        ensures err { OnErr result (self.new ≡ self.old) }
    {
        put_card_line(row, out)?;
        self.in_house = row.rest;
        Ok(())
    }

    /// Writes how many units are in the house after the last line. After a fault a beginning of that stands.
    pub fn end<W: Write>(self, out: &mut W) -> Result<(), TextFault>
        ensures { Writes result (W.contents out.old) (W.contents out.new) (card_end self) }
    {
        put_line(b"IN HOUSE", &[decimal_text(self.in_house).as_bytes()], out)
    }
}

fn put_card_line<W: Write>(row: &CardRow, out: &mut W) -> Result<(), TextFault>
    ensures { Writes result (W.contents out.old) (W.contents out.new) (card_line row.now) }
{
    let act = number_field(ACT_WIDTH, row.act);
    put_line(
        act.as_bytes(),
        &[
            &row.day.day().text(),
            kind_field(row.kind).as_bytes(),
            note_field(&row.note).as_bytes(),
            signed_field(QTY_WIDTH, row.qty).as_bytes(),
            number_field(REST_WIDTH, row.rest).as_bytes(),
        ],
        out,
    )
}
