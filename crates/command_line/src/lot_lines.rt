//! The lines that ask for a text of a lot.

ghost use Rattle.std.specs.Prelude.{◌≡◌, IfOk, IfErr, OnErr, IsTrue};
ghost use Rattle.values.specs.Values.{is_gtin, is_lot_text};
ghost use Rattle.command_line.specs.Ends.{IsWithLot, IsNoLot};
ghost use Rattle.command_line.specs.declared.running.Work.TheVariants.{Card, Notice};

use crate::fault::Fault;
use crate::running::{BooksAt, LineEnd, Work, work_with};
use std::io::Write;
use values::{Gtin, Lot, LotId};

/// Has the stock card of a lot printed. The GTIN and the lot are judged before the file is touched.
pub(crate) fn print_card<B: BooksAt + Drop, W: Write, L: Write>(
    books: B,
    db: &str,
    gtin: &str,
    lot: &str,
    out: &mut W,
    log: &mut L,
) -> LineEnd<B::Left>
    ensures { IsWithLot (B.ends books) (W.contents out.old) (W.contents out.new) (L.contents log.old) (L.contents log.new) db.now Card gtin.now lot.now result.1 result.0 }
{
    match lot_named(gtin, lot) {
        Ok(lot) => work_with(books, db, &Work::Card(lot), out, log),
        Err(fault) => (None, Err(fault)),
    }
}

/// Has the recall notice of a lot printed. The GTIN and the lot are judged before the file is touched.
pub(crate) fn print_notice<B: BooksAt + Drop, W: Write, L: Write>(
    books: B,
    db: &str,
    gtin: &str,
    lot: &str,
    out: &mut W,
    log: &mut L,
) -> LineEnd<B::Left>
    ensures { IsWithLot (B.ends books) (W.contents out.old) (W.contents out.new) (L.contents log.old) (L.contents log.new) db.now Notice gtin.now lot.now result.1 result.0 }
{
    match lot_named(gtin, lot) {
        Ok(lot) => work_with(books, db, &Work::Notice(lot), out, log),
        Err(fault) => (None, Err(fault)),
    }
}

/// The lot that a GTIN and a LOT name.
fn lot_named(gtin: &str, lot: &str) -> Result<LotId, Fault>
    ensures lot { IfOk result (λ l. l ≡ record { gtin = gtin.now; lot = lot.now }) }
    ensures rules { IfOk result (λ l. IsTrue (is_gtin gtin.now) × IsTrue (is_lot_text lot.now)) }
    ensures none { OnErr result (IsNoLot gtin.now lot.now) }
    ensures value { IfErr result (λ fault. fault ≡ Fault.Value) }
{
    match (Gtin::new(gtin.as_bytes()), Lot::new(lot.as_bytes())) {
        (Ok(gtin), Ok(lot)) => Ok(LotId { gtin, lot }),
        _ => Err(Fault::Value),
    }
}
