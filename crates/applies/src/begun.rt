//! The day on which the acts of the books began.

ghost use Rattle.std.specs.Prelude.{◌≡◌, ◌≢◌, ℤ, List, Some, None, Err, IfOk, IfErr};
ghost use Rattle.sqlite.specs.Held.{state};
ghost use Rattle.sqlite.specs.State.{Survives};
ghost use Rattle.texts.specs.Starting.{day_before as day_before_lem};
ghost use Rattle.texts.specs.declared.start.Start.TheVariants.{Received};
ghost use Rattle.machine.specs.Acts.{Act};
ghost use Rattle.machine.specs.Once.{IsHistory};
ghost use Rattle.histories.specs.Start.{start_of, IsStartBy};
ghost use Rattle.store.specs.Books.{HoldsBooks, IsClean};
ghost use Rattle.store.specs.Handing.{NoBooks};
ghost use Rattle.applies.specs.Begun.{BegunOn, FitsLine, line_day, earlier_day as earlier_day_lem};
ghost use Rattle.applies.specs.Going.{IsOfNoLine, IsOfRows, IsOfWant};
ghost use Rattle.applies.specs.declared.applied.NotApplied.TheVariants.{Foreign};
ghost use Rattle.histories.specs.declared.fault.HistoryFault.TheVariants.{Foreign as ForeignRow};

use crate::applied::NotApplied;
use crate::fields::cut;
use histories::{CardDay, FirstStart, HistoryFault};
use label::{BusinessDay, Day};
use sqlite::Alter;
use std::alloc::Global;
use store::{Books, EachFault};
use texts::{Start, day_before};
use values::LotId;

/// What the first act tells that tells of the day, if there is one.
fn find_start<S: Alter>(alloc: Global, books: &mut Books<S>) -> Result<Option<Start>, NotApplied>
    ensures clean { IsClean S.Store books.new → IsClean S.Store books.old }
    ensures found { IsClean S.Store books.new → (first : ℤ) (acts : List Act) → IsHistory first acts → HoldsBooks S.Store first acts books.old
        → HoldsBooks S.Store first acts books.new × IfOk result (λ found. found ≡ start_of acts) }
    ensures fault { IfErr result IsOfNoLine }
    ensures foreign { IsClean S.Store books.new → (first : ℤ) (acts : List Act) → IsHistory first acts → HoldsBooks S.Store first acts books.old → IfErr result (IsOfRows S.Store books.new) }
    ensures survives { Survives (state S.Store books.old.conn) (state S.Store books.new.conn) (NoBooks (state S.Store books.old.conn)) }
{
    let mut rows = FirstStart {
        alloc,
        done: 0,
        found: None,
        fault: HistoryFault::Foreign,
    };
    match books.each_act(&mut rows) {
        Ok(()) => Ok(None),
        Err(EachFault::Stopped) => stopped_at(&rows),
        Err(EachFault::Fault(_)) => Err(NotApplied::Store),
    }
}

/// What was found where the rows came to an end.
fn stopped_at(rows: &FirstStart) -> Result<Option<Start>, NotApplied>
    ensures found { IfOk result (λ found. (found ≡ rows.now.found) × (found ≢ None)) }
    ensures fault { IfErr result IsOfNoLine }
    ensures foreign { result ≡ Err Foreign → (rows.now.found ≡ None) × (rows.now.fault ≡ ForeignRow) }
{
    match (rows.found, rows.fault) {
        (Some(found), _) => Ok(Some(found)),
        (None, HistoryFault::Foreign) => Err(NotApplied::Foreign),
        (None, _) => Err(NotApplied::Store),
    }
}

/// The day of the line of an act on the card of a lot.
fn card_day<S: Alter>(books: &mut Books<S>, lot: LotId, act: u64) -> Result<Day, NotApplied>
    ensures clean { IsClean S.Store books.new → IsClean S.Store books.old }
    ensures day { IsClean S.Store books.new → (first : ℤ) (acts : List Act) → IsHistory first acts → HoldsBooks S.Store first acts books.old
        → HoldsBooks S.Store first acts books.new × IfOk result (IsStartBy first acts (Some (Received lot act))) }
    ensures fault { IfErr result IsOfWant }
    ensures survives { Survives (state S.Store books.old.conn) (state S.Store books.new.conn) (NoBooks (state S.Store books.old.conn)) }
{
    let mut line = CardDay {
        lot,
        act,
        day: None,
    };
    match books.each_card(&lot, &mut line) {
        Err(EachFault::Stopped) => told_day(&line),
        _ => Err(NotApplied::Store),
    }
}

/// The day of the line at which the lines of the card came to an end.
fn told_day(line: &CardDay) -> Result<Day, NotApplied>
    ensures day { IfOk result (λ day. line.now.day ≡ Some day) }
    ensures fault { IfErr result IsOfWant }
{
    match line.day {
        Some(day) => Ok(day),
        None => Err(NotApplied::Store),
    }
}

/// The day of a line, where that is a business day and earlier than the one that was opened, and else the day before that.
fn earlier_day(line: &[u8], opened: BusinessDay) -> Day
    ensures { result ≡ earlier_day_lem (line_day line.now) (day_before_lem opened) }
{
    let last = day_before(opened).day();
    match day_of(line) {
        Some(day) => {
            if day.is_business() && day <= last {
                day
            } else {
                last
            }
        }
        None => last,
    }
}

/// The day of a line: its second field.
fn day_of(line: &[u8]) -> Option<Day>
    ensures { result ≡ line_day line.now }
{
    let (_, dated) = cut(line)?;
    let (day, _) = cut(dated)?;
    Day::parse(day)
}

/// The day on which the acts began, where the first that tells of the day tells this; where it opens a day, that of the line,
/// if it is earlier than the one that was opened.
fn begun_by<S: Alter>(
    books: &mut Books<S>,
    found: &Option<Start>,
    line: &[u8],
) -> Result<Day, NotApplied>
    ensures clean { IsClean S.Store books.new → IsClean S.Store books.old }
    ensures begun { IsClean S.Store books.new → (first : ℤ) (acts : List Act) → IsHistory first acts → HoldsBooks S.Store first acts books.old → found.now ≡ start_of acts
        → HoldsBooks S.Store first acts books.new × IfOk result (BegunOn first acts) }
    ensures fits { IsClean S.Store books.new → (first : ℤ) (acts : List Act) → IsHistory first acts → HoldsBooks S.Store first acts books.old → found.now ≡ start_of acts
        → IfOk result (FitsLine first acts line.now) }
    ensures fault { IfErr result IsOfWant }
    ensures survives { Survives (state S.Store books.old.conn) (state S.Store books.new.conn) (NoBooks (state S.Store books.old.conn)) }
{
    let Some(start) = *found else {
        return Ok(books.day());
    };
    match start {
        Start::Received(lot, act) => card_day(books, lot, act),
        Start::Opened(day) => Ok(earlier_day(line, day)),
    }
}

/// The day on which the acts of the books began: the one that the tables tell, and where they open a day before any
/// receives, the day of this line, if it is earlier than that one. So a history's text that begins with this line has the
/// lines of acts that began on it.
pub fn find_begun<S: Alter>(
    alloc: Global,
    books: &mut Books<S>,
    line: &[u8],
) -> Result<Day, NotApplied>
    ensures clean { IsClean S.Store books.new → IsClean S.Store books.old }
    ensures begun { IsClean S.Store books.new → (first : ℤ) (acts : List Act) → IsHistory first acts → HoldsBooks S.Store first acts books.old
        → HoldsBooks S.Store first acts books.new × IfOk result (BegunOn first acts) }
    ensures fits { IsClean S.Store books.new → (first : ℤ) (acts : List Act) → IsHistory first acts → HoldsBooks S.Store first acts books.old
        → IfOk result (FitsLine first acts line.now) }
    ensures fault { IfErr result IsOfNoLine }
    ensures foreign { IsClean S.Store books.new → (first : ℤ) (acts : List Act) → IsHistory first acts → HoldsBooks S.Store first acts books.old → IfErr result (IsOfRows S.Store books.new) }
    ensures survives { Survives (state S.Store books.old.conn) (state S.Store books.new.conn) (λ _. (first : ℤ) (acts : List Act) → IsHistory first acts → ¬ HoldsBooks S.Store first acts books.old) }
{
    let found = find_start(alloc, books)?;
    begun_by(books, &found, line)
}
