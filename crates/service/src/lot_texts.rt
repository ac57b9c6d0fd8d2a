//! The stock card and the recall notice of a lot, printed.

ghost use Rattle.std.specs.Prelude.{◌≡◌, ℤ, List};
ghost use Rattle.machine.specs.Acts.{Act};
ghost use Rattle.machine.specs.Once.{IsHistory};
ghost use Rattle.machine.specs.Queries.{card_shown, notice_shown};
ghost use Rattle.texts.specs.Card.{card_text};
ghost use Rattle.texts.specs.Notice.{notice_text};
ghost use Rattle.store.specs.Books.{IsClean, HoldsBooks};
ghost use Rattle.service.specs.Printing.{IsPrinted, told_as};

use crate::lent::Lent;
use command_line::Fault;
use house::{write_card, write_notice};
use sqlite::Alter;
use std::io::Write;
use store::{Books, EachFault};
use values::LotId;

/// Prints the stock card of a lot, row by row. The error is the refusal (U01, U03), and then nothing was printed; or
/// `Store`, or `Io` where the output failed, and then a beginning was printed. Nothing is changed.
pub fn print_card<S: Alter, W: Write>(
    books: &mut Books<S>,
    lot: &LotId,
    out: &mut W,
) -> Result<(), Fault>
    ensures clean { IsClean S.Store books.new → IsClean S.Store books.old }
    ensures printed { IsClean S.Store books.new → (first : ℤ) (acts : List Act) → IsHistory first acts → HoldsBooks S.Store first acts books.old
        → IsPrinted S.Store first acts card_text (card_shown first acts lot.now) books.old books.new (W.contents out.old) (W.contents out.new) result }
{
    let (lent, end) = write_card(books, lot, Lent { out });
    // The reference ends here, and what it leaves is known.
    let Lent { out: _out } = lent;
    print_result(end)
}

/// Prints the recall notice of a lot, of one moment. The error is the refusal (U01, N01), and then nothing was printed; or
/// `Store`, or `Io` where the output failed, and then a beginning was printed. Nothing is changed.
pub fn print_notice<S: Alter, W: Write>(
    books: &mut Books<S>,
    lot: &LotId,
    out: &mut W,
) -> Result<(), Fault>
    ensures clean { IsClean S.Store books.new → IsClean S.Store books.old }
    ensures printed { IsClean S.Store books.new → (first : ℤ) (acts : List Act) → IsHistory first acts → HoldsBooks S.Store first acts books.old
        → IsPrinted S.Store first acts notice_text (notice_shown first acts lot.now) books.old books.new (W.contents out.old) (W.contents out.new) result }
{
    let (lent, end) = write_notice(books, lot, Lent { out });
    // The reference ends here, and what it leaves is known.
    let Lent { out: _out } = lent;
    print_result(end)
}

/// How the writing went, as the line tells it.
fn print_result(end: Result<(), EachFault>) -> Result<(), Fault>
    ensures { result ≡ told_as end }
{
    match end {
        Ok(()) => Ok(()),
        Err(EachFault::Fault(store::Fault::Refused(refusal))) => Err(Fault::Refused(refusal)),
        Err(EachFault::Fault(store::Fault::Store)) => Err(Fault::Store),
        Err(EachFault::Fault(store::Fault::Foreign)) => Err(Fault::Foreign),
        Err(EachFault::Stopped) => Err(Fault::Io),
    }
}
