//! The day that the acts began on, as the tables tell it.

ghost use Rattle.std.specs.Prelude.{◌≡◌, true, find, option_map, Some, None, IfOk, IfErr};
ghost use Rattle.sqlite.specs.Held.{state};
ghost use Rattle.sqlite.specs.State.{HasCleanDisk, Survives};
ghost use Rattle.table_words.specs.Steps.{IsReady};
ghost use Rattle.table_words.specs.Typed.{same_card, card_key};
ghost use Rattle.texts.specs.declared.start.Start.TheVariants.{Received};
ghost use Rattle.whole_tables.specs.declared.key.RowKey.TheVariants as row;
ghost use Rattle.store.specs.declared.fault.Fault.TheVariants.{Store as StoreFault};
ghost use Rattle.audits.specs.Beginning.{day_or_missing, IsBegun};

use commands::{CardRow, MetaRow};
use label::BusinessDay;
use sqlite::{Alter, Transaction};
use std::alloc::Global;
use store::Fault;
use table_words::error::TableFault;
use tables::cards::Cards;
use tables::meta::Meta;
use texts::{Start, day_before};
use values::LotId;
use whole_tables::{RowKey, TableName, all_rows, rows_by_halves};

/// What the tables tell of the day that the acts began on.
#[derive(Clone, Copy)]
pub(crate) enum Begun {
    /// It is this one.
    On(BusinessDay),
    /// This row would tell it, and is missing.
    Missing(RowKey),
    /// A row of this table has a value that no row has.
    Untyped(TableName),
}

/// The day of the row of `meta`, of which there is one at most.
fn meta_day(rows: &[MetaRow]) -> Begun
    ensures { result ≡ day_or_missing (option_map (λ m. m.day) (find (λ _. true) rows.now)) row.Meta }
{
    match rows.first() {
        Some(row) => Begun::On(row.day),
        None => Begun::Missing(RowKey::Meta),
    }
}

/// The same, of the stored row.
fn day_of_books<S: Alter>(alloc: Global, tx: &mut Transaction<'_, S>) -> Result<Begun, Fault>
    ensures same_reference { tx.new.conn.ghost_name ≡ tx.old.conn.ghost_name }
    ensures begun { HasCleanDisk (state S.Store tx.new.conn.now) → IsReady (state S.Store tx.old.conn.now).now → IfOk result (IsBegun None (state S.Store tx.old.conn.now) (state S.Store tx.new.conn.now)) }
    ensures fault { IfErr result (λ e. e ≡ StoreFault) }
    ensures survives { Survives (state S.Store tx.old.conn.now) (state S.Store tx.new.conn.now) (λ _. ⊥) }
{
    match all_rows::<Meta, S>(alloc, tx) {
        Ok(rows) => Ok(meta_day(rows.as_slice())),
        Err(TableFault::Foreign) => Ok(Begun::Untyped(TableName::Meta)),
        Err(TableFault::Store(_)) => Err(Fault::Store),
    }
}

/// The day of the line of the act in the lot's card.
fn card_day(rows: &[CardRow], lot: LotId, act: u64) -> Begun
    ensures { result ≡ day_or_missing (option_map (λ c. c.day) (find (λ c. same_card (lot, act) (card_key c)) rows.now)) (row.Card lot act) }
{
    for row in rows {
        if lot == row.lot && act == row.act {
            return Begun::On(row.day);
        }
    }
    Begun::Missing(RowKey::Card(lot, act))
}

/// The same, of the stored lines.
fn day_of_receipt<S: Alter>(
    alloc: Global,
    tx: &mut Transaction<'_, S>,
    lot: LotId,
    act: u64,
    middle: &i64,
) -> Result<Begun, Fault>
    ensures same_reference { tx.new.conn.ghost_name ≡ tx.old.conn.ghost_name }
    ensures begun { HasCleanDisk (state S.Store tx.new.conn.now) → IsReady (state S.Store tx.old.conn.now).now
        → IfOk result (IsBegun (Some (Received lot act)) (state S.Store tx.old.conn.now) (state S.Store tx.new.conn.now)) }
    ensures fault { IfErr result (λ e. e ≡ StoreFault) }
    ensures survives { Survives (state S.Store tx.old.conn.now) (state S.Store tx.new.conn.now) (λ _. ⊥) }
{
    match rows_by_halves::<Cards, S>(alloc, tx, middle) {
        Ok(rows) => Ok(card_day(rows.as_slice(), lot, act)),
        Err(TableFault::Foreign) => Ok(Begun::Untyped(TableName::Cards)),
        Err(TableFault::Store(_)) => Err(Fault::Store),
    }
}

/// The day that the acts began on, which the tables tell by what the acts do. Cards are read in halves about the rowid
/// `middle`.
pub(crate) fn first_day<S: Alter>(
    alloc: Global,
    tx: &mut Transaction<'_, S>,
    start: Option<Start>,
    middle: &i64,
) -> Result<Begun, Fault>
    ensures same_reference { tx.new.conn.ghost_name ≡ tx.old.conn.ghost_name }
    ensures begun { HasCleanDisk (state S.Store tx.new.conn.now) → IsReady (state S.Store tx.old.conn.now).now → IfOk result (IsBegun start (state S.Store tx.old.conn.now) (state S.Store tx.new.conn.now)) }
    ensures fault { IfErr result (λ e. e ≡ StoreFault) }
    ensures survives { Survives (state S.Store tx.old.conn.now) (state S.Store tx.new.conn.now) (λ _. ⊥) }
{
    let Some(told) = start else {
        return day_of_books(alloc, tx);
    };
    match told {
        Start::Received(lot, act) => day_of_receipt(alloc, tx, lot, act, middle),
        Start::Opened(day) => Ok(Begun::On(day_before(day))),
    }
}
