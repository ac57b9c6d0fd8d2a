//! The day on which the acts of the books began.

ghost use Rattle.std.specs.Prelude.{◌≡◌, ◌≢◌, ◌⊎◌, ℤ, List, Some, None, false, IfOk, IfErr, OnOk};
ghost use Rattle.sqlite.specs.Held.{state};
ghost use Rattle.sqlite.specs.State.{HasCleanDisk, Survives, IsUnchanged, IsRolledBack};
ghost use Rattle.machine.specs.Acts.{Act};
ghost use Rattle.machine.specs.Once.{IsHistory};
ghost use Rattle.machine.specs.Standing.{today as today_of};
ghost use Rattle.texts.specs.Starting.{day_before as day_before_lem};
ghost use Rattle.texts.specs.declared.start.Start.TheVariants.{Received};
ghost use Rattle.table_words.specs.Steps.{IsReady};
ghost use Rattle.keyed_rows.specs.declared.each_fault.EachFault.TheVariants.{Stopped};
ghost use Rattle.histories.specs.Books.{HasRowsOf};
ghost use Rattle.histories.specs.Faults.{fault_of, IsOfRows};
ghost use Rattle.histories.specs.Start.{IsStart, IsStartBy, start_of};
ghost use Rattle.histories.specs.declared.fault.HistoryFault.TheVariants.{Foreign};

use crate::HistoryFault;
use crate::first_start::FirstStart;
use commands::{CardRow, Sink, Stop};
use keyed_rows::EachFault;
use label::{BusinessDay, Day};
use sqlite::{Alter, Connection};
use std::alloc::Global;
use tables::cards::Cards;
use tables::repeats::Repeats;
use texts::{Start, day_before};
use values::LotId;
use whole_tables::each_of_all;

/// Takes card lines up to that of an act of a lot.
#[derive(Drop)]
pub struct CardDay {
    pub lot: LotId,
    pub act: u64,
    pub day: Option<Day>,
}

impl Sink<CardRow> for CardDay {
    ghost use Rattle.histories.specs.Start.{IsPassed, TellsDay};

    ghost takes = { IsPassed };

    ghost stops = { TellsDay };

    fn take(&mut self, row: &CardRow) -> Result<(), Stop> {
        if row.act == self.act && row.lot == self.lot {
            self.day = Some(row.day.day());
            return Err(Stop);
        }
        Ok(())
    }
}

/// The day on which the acts of the books began, as the tables tell it; `today` is the business day after them. Nothing
/// is changed.
pub(crate) fn find_first_day<S: Alter>(
    alloc: Global,
    conn: &mut Connection<S>,
    today: Day,
) -> Result<Day, HistoryFault>
    ensures start { HasCleanDisk (state S.Store conn.new) → IsReady (state S.Store conn.old).now → (first : ℤ) (acts : List Act) → IsHistory first acts → HasRowsOf first acts (state S.Store conn.old).now.trees → today ≡ today_of first acts
        → IfOk result (λ begun. IsStart first acts begun) }
    ensures foreign { HasCleanDisk (state S.Store conn.new) → IsReady (state S.Store conn.old).now → (first : ℤ) (acts : List Act) → IsHistory first acts → HasRowsOf first acts (state S.Store conn.old).now.trees
        → IfErr result (IsOfRows (state S.Store conn.old).now.trees) }
    ensures same { HasCleanDisk (state S.Store conn.new) → IsReady (state S.Store conn.old).now → OnOk result (IsUnchanged (state S.Store conn.old) (state S.Store conn.new)) }
    ensures left { HasCleanDisk (state S.Store conn.new) → IsReady (state S.Store conn.old).now → IsUnchanged (state S.Store conn.old) (state S.Store conn.new) ⊎ IsRolledBack (state S.Store conn.old) (state S.Store conn.new) }
    ensures outside { conn.old.in_transaction ≡ false → conn.new.in_transaction ≡ false }
    ensures survives { Survives (state S.Store conn.old) (state S.Store conn.new) (λ _. ¬ IsReady (state S.Store conn.old).now) }
{
    let Some(start) = find_start(alloc, conn)? else {
        return Ok(today);
    };
    match start {
        Start::Received(lot, act) => card_day(alloc, conn, lot, act),
        Start::Opened(day) => Ok(last_before(day)),
    }
}

/// The day before one that was opened.
fn last_before(opened: BusinessDay) -> Day
    ensures { result ≡ day_before_lem opened }
{
    day_before(opened).day()
}

/// What the first act tells that tells of the day, if there is one.
fn find_start<S: Alter>(
    alloc: Global,
    conn: &mut Connection<S>,
) -> Result<Option<Start>, HistoryFault>
    ensures found { HasCleanDisk (state S.Store conn.new) → IsReady (state S.Store conn.old).now → (first : ℤ) (acts : List Act) → IsHistory first acts → HasRowsOf first acts (state S.Store conn.old).now.trees
        → IfOk result (λ found. found ≡ start_of acts) }
    ensures foreign { HasCleanDisk (state S.Store conn.new) → IsReady (state S.Store conn.old).now → (first : ℤ) (acts : List Act) → IsHistory first acts → HasRowsOf first acts (state S.Store conn.old).now.trees
        → IfErr result (IsOfRows (state S.Store conn.old).now.trees) }
    ensures same { HasCleanDisk (state S.Store conn.new) → IsReady (state S.Store conn.old).now → OnOk result (IsUnchanged (state S.Store conn.old) (state S.Store conn.new)) }
    ensures left { HasCleanDisk (state S.Store conn.new) → IsReady (state S.Store conn.old).now → IsUnchanged (state S.Store conn.old) (state S.Store conn.new) ⊎ IsRolledBack (state S.Store conn.old) (state S.Store conn.new) }
    ensures outside { conn.old.in_transaction ≡ false → conn.new.in_transaction ≡ false }
    ensures survives { Survives (state S.Store conn.old) (state S.Store conn.new) (λ _. ¬ IsReady (state S.Store conn.old).now) }
{
    let mut rows = FirstStart {
        alloc,
        done: 0,
        found: None,
        fault: HistoryFault::Foreign,
    };
    match each_of_all::<Repeats, S, FirstStart>(alloc, conn, &mut rows) {
        Ok(()) => Ok(None),
        Err(cause) => found_at(cause, &rows),
    }
}

/// What was found where the rows came to an end.
fn found_at(cause: EachFault, rows: &FirstStart) -> Result<Option<Start>, HistoryFault>
    ensures found { IfOk result (λ found. (cause ≡ Stopped) × (found ≡ rows.now.found) × (found ≢ None)) }
    ensures fault { IfErr result (λ fault. (fault ≡ fault_of cause rows.now.fault) × (cause ≡ Stopped → rows.now.found ≡ None)) }
{
    match (cause, rows.found) {
        (EachFault::Stopped, Some(start)) => Ok(Some(start)),
        (cause, _) => Err(HistoryFault::of(cause, rows.fault)),
    }
}

/// The day of the card line of this act of the lot.
fn card_day<S: Alter>(
    alloc: Global,
    conn: &mut Connection<S>,
    lot: LotId,
    act: u64,
) -> Result<Day, HistoryFault>
    ensures day { HasCleanDisk (state S.Store conn.new) → IsReady (state S.Store conn.old).now → (first : ℤ) (acts : List Act) → IsHistory first acts → HasRowsOf first acts (state S.Store conn.old).now.trees
        → IfOk result (IsStartBy first acts (Some (Received lot act))) }
    ensures own { HasCleanDisk (state S.Store conn.new) → IsReady (state S.Store conn.old).now → (first : ℤ) (acts : List Act) → IsHistory first acts → HasRowsOf first acts (state S.Store conn.old).now.trees
        → start_of acts ≡ Some (Received lot act) → IfErr result (λ fault. fault ≢ Foreign) }
    ensures same { HasCleanDisk (state S.Store conn.new) → IsReady (state S.Store conn.old).now → OnOk result (IsUnchanged (state S.Store conn.old) (state S.Store conn.new)) }
    ensures left { HasCleanDisk (state S.Store conn.new) → IsReady (state S.Store conn.old).now → IsUnchanged (state S.Store conn.old) (state S.Store conn.new) ⊎ IsRolledBack (state S.Store conn.old) (state S.Store conn.new) }
    ensures outside { conn.old.in_transaction ≡ false → conn.new.in_transaction ≡ false }
    ensures survives { Survives (state S.Store conn.old) (state S.Store conn.new) (λ _. ¬ IsReady (state S.Store conn.old).now) }
{
    let mut line = CardDay {
        lot,
        act,
        day: None,
    };
    match each_of_all::<Cards, S, CardDay>(alloc, conn, &mut line) {
        Ok(()) => Err(HistoryFault::Foreign),
        Err(cause) => day_at(cause, &line),
    }
}

/// The day of the line at which the card lines came to an end.
fn day_at(cause: EachFault, line: &CardDay) -> Result<Day, HistoryFault>
    ensures day { IfOk result (λ day. (cause ≡ Stopped) × (line.now.day ≡ Some day)) }
    ensures fault { IfErr result (λ fault. (fault ≡ fault_of cause Foreign) × (cause ≡ Stopped → line.now.day ≡ None)) }
{
    match (cause, line.day) {
        (EachFault::Stopped, Some(day)) => Ok(day),
        (cause, _) => Err(HistoryFault::of(cause, HistoryFault::Foreign)),
    }
}
