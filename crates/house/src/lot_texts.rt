//! The stock card of a lot, written row by row: no call takes memory that grows with its rows. And the recall notice of a
//! lot, which is read as a whole, of one moment, and then written.

ghost use Rattle.std.specs.Prelude.{◌≡◌, ℤ, List, ◌++◌, flat_map};
ghost use Rattle.commands.specs.Cards.{rest_after};
ghost use Rattle.machine.specs.Acts.{Act};
ghost use Rattle.machine.specs.Once.{IsHistory};
ghost use Rattle.machine.specs.Queries.{card_shown, notice_shown};
ghost use Rattle.machine.specs.Views.{card_of_lot};
ghost use Rattle.texts.specs.Card.{card_text, card_line, card_end};
ghost use Rattle.texts.specs.Notice.{notice_text};
ghost use Rattle.store.specs.Books.{IsClean, HoldsBooks, AreAsBefore};
ghost use Rattle.house.specs.LotTexts.{Puts, Tells, stopped_at};

use sqlite::Alter;
use std::io::Write;
use store::{Books, EachFault};
use texts::{CardLines, CardText, TextFault, recall_notice};
use values::LotId;

/// Writes the stock card of a lot: all of it at `Ok`. An item that is not known is refused (U01), and then a lot that
/// never came (U03), and nothing is written. `Store` where memory or the disk did not suffice, and `Stopped` where the
/// writer failed: a beginning of the card then stands. `Foreign` never on books of a history. Nothing is changed.
pub fn write_card<S: Alter, W: Write>(
    books: &mut Books<S>,
    lot: &LotId,
    out: W,
) -> (W, Result<(), EachFault>)
    ensures clean { IsClean S.Store books.new → IsClean S.Store books.old }
    ensures as_before { IsClean S.Store books.new → AreAsBefore S.Store books.old books.new }
    ensures told { IsClean S.Store books.new → (first : ℤ) (acts : List Act) → IsHistory first acts → HoldsBooks S.Store first acts books.old
        → Tells S.Store first acts card_text (card_shown first acts lot.now) books.old books.new (W.contents out) (W.contents result.0) result.1 }
{
    let mut out = out;
    match books.card_head(lot) {
        Ok((item, expiry)) => match CardText::start(&item, &lot.lot, expiry, &mut out) {
            Ok(text) => put_card(books, lot, text, out),
            Err(_) => (out, Err(EachFault::Stopped)),
        },
        Err(fault) => (out, Err(EachFault::Fault(fault))),
    }
}

// The lines and the end.
fn put_card<S: Alter, W: Write>(
    books: &mut Books<S>,
    lot: &LotId,
    text: CardText,
    out: W,
) -> (W, Result<(), EachFault>)
    ensures clean { IsClean S.Store books.new → IsClean S.Store books.old }
    ensures as_before { IsClean S.Store books.new → AreAsBefore S.Store books.old books.new }
    ensures put { IsClean S.Store books.new → (first : ℤ) (acts : List Act) → IsHistory first acts → HoldsBooks S.Store first acts books.old
        → Puts S.Store first acts (flat_map card_line (card_of_lot first acts lot.now) ++ card_end (rest_after text (card_of_lot first acts lot.now))) books.old books.new
        (W.contents out) (W.contents result.0) result.1 }
{
    let mut lines = CardLines { text, out };
    let handed = books.each_card(lot, &mut lines);
    let CardLines { text, mut out } = lines;
    match handed {
        Ok(()) => {
            let end = text_end(text.end(&mut out));
            (out, end)
        }
        Err(fault) => (out, Err(fault)),
    }
}

/// Writes the recall notice of a lot: all of it at `Ok`. An item that is not known is refused (U01), and then a lot that
/// is not recalled (N01), and nothing is written. `Store` where memory or the disk did not suffice, and `Stopped` where
/// the writer failed: a beginning of the notice then stands. `Foreign` never on books of a history. Nothing is changed.
pub fn write_notice<S: Alter, W: Write>(
    books: &mut Books<S>,
    lot: &LotId,
    out: W,
) -> (W, Result<(), EachFault>)
    ensures clean { IsClean S.Store books.new → IsClean S.Store books.old }
    ensures as_before { IsClean S.Store books.new → AreAsBefore S.Store books.old books.new }
    ensures told { IsClean S.Store books.new → (first : ℤ) (acts : List Act) → IsHistory first acts → HoldsBooks S.Store first acts books.old
        → Tells S.Store first acts notice_text (notice_shown first acts lot.now) books.old books.new (W.contents out) (W.contents result.0) result.1 }
{
    let mut out = out;
    match books.notice(lot) {
        Ok(view) => {
            let end = text_end(recall_notice(&view, &mut out));
            (out, end)
        }
        Err(fault) => (out, Err(EachFault::Fault(fault))),
    }
}

/// A writer that failed takes no more.
fn text_end(end: Result<(), TextFault>) -> Result<(), EachFault>
    ensures { result ≡ stopped_at end }
{
    match end {
        Ok(()) => Ok(()),
        Err(_) => Err(EachFault::Stopped),
    }
}
