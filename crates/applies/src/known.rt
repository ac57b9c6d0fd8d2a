//! The lines of the acts that the books have.

ghost use Rattle.std.specs.Prelude.{◌≡◌, ◌≢◌, ◌-◌, ℕ, ℤ, List, Option, Err, IfErr};
ghost use Rattle.sqlite.specs.Held.{state};
ghost use Rattle.sqlite.specs.State.{Survives};
ghost use Rattle.machine.specs.Acts.{Act};
ghost use Rattle.machine.specs.Once.{IsHistory};
ghost use Rattle.store.specs.Books.{HoldsBooks, IsClean};
ghost use Rattle.store.specs.Handing.{NoBooks};
ghost use Rattle.histories.specs.Walked.{IsStart, HasPassed};
ghost use Rattle.applies.specs.Going.{GoesOn, IsOfRows, Leaves, OfText};
ghost use Rattle.applies.specs.Known.{IsToldAs, ArePassed, counted as counted_lem};
ghost use Rattle.applies.specs.Lines.{IsAt, AreBehindDone, LeavesLines};
ghost use Rattle.applies.specs.declared.applied.NotApplied.TheVariants.{Foreign};

use crate::applied::{Applied, NotApplied};
use crate::lines::{do_lines, next_line};
use crate::next::At;
use histories::{KnownLines, LineFault, Place};
use sqlite::Alter;
use std::alloc::Global;
use std::io::BufRead;
use store::{Books, EachFault};

/// How a fault is told behind so many lines.
fn told_as(fault: LineFault, known: u64) -> NotApplied
    ensures { IsToldAs fault known result }
{
    match fault {
        LineFault::Memory => NotApplied::Store,
        LineFault::Input => NotApplied::Input,
        LineFault::Foreign => NotApplied::Foreign,
        LineFault::Differs(act) => NotApplied::Differs { act },
        LineFault::OutOfTurn => match known.checked_add(1) {
            Some(line) => NotApplied::Line { line },
            None => NotApplied::Store,
        },
    }
}

/// Holds the lines of the text against the acts of the books, from the act on of which the first line bears the number.
fn pass_known<S: Alter, R: BufRead + Drop>(
    books: &mut Books<S>,
    lines: &mut KnownLines<R>,
) -> Result<(), NotApplied>
    ensures clean { IsClean S.Store books.new → IsClean S.Store books.old }
    ensures passed { IsClean S.Store books.new → (first begun : ℤ) (acts : List Act) → IsHistory first acts → HoldsBooks S.Store first acts books.old
        → HoldsBooks S.Store first acts books.new × ((left : Option (List ℕ)) → IsStart R.remaining left lines.old → lines.old.day ≡ begun → ArePassed R.remaining left begun acts result lines.new) }
    ensures foreign { IsClean S.Store books.new → (first : ℤ) (acts : List Act) → IsHistory first acts → HoldsBooks S.Store first acts books.old → lines.old.done ≡ 0
        → IfErr result (IsOfRows S.Store books.new) }
    ensures survives { Survives (state S.Store books.old.conn) (state S.Store books.new.conn) (NoBooks (state S.Store books.old.conn)) }
{
    match books.each_act(lines) {
        Ok(()) => Ok(()),
        Err(EachFault::Stopped) => Err(told_as(lines.fault, lines.known)),
        Err(EachFault::Fault(_)) => Err(NotApplied::Store),
    }
}

/// What was done, where so many lines were known and the lines behind them came to this.
fn counted(known: u64, lines: Result<u64, NotApplied>) -> Result<Applied, NotApplied>
    ensures { result ≡ counted_lem known lines }
{
    match lines {
        Ok(lines) => Ok(Applied {
            done: lines.saturating_sub(known),
            known,
            beyond: 0,
        }),
        Err(fault) => Err(fault),
    }
}

/// Does the lines behind those that were read, which are those of the last acts of the books.
fn go_within<S: Alter, R: BufRead + Drop>(
    alloc: Global,
    books: &mut Books<S>,
    reader: R,
    line: Vec<u8>,
    at: At,
) -> Result<Applied, NotApplied>
    ensures clean { IsClean S.Store books.new → IsClean S.Store books.old }
    ensures done { IsClean S.Store books.new → (first begun : ℤ) (acts : List Act) → IsHistory first acts → HoldsBooks S.Store first acts books.old → IsAt begun acts at
        → OfText (R.remaining reader) (λ text. AreBehindDone S.Store first begun acts text at.lines result books.new) }
    ensures survives { Survives (state S.Store books.old.conn) (state S.Store books.new.conn) (λ trees. (first begun : ℤ) (acts : List Act) → IsHistory first acts → HoldsBooks S.Store first acts books.old
        → IsAt begun acts at → OfText (R.remaining reader) (λ text. LeavesLines first begun acts text trees)) }
{
    let mut reader = reader;
    let mut line = line;
    let known = at.lines;
    match next_line(&mut reader, &mut line, known) {
        Ok(true) => {
            let lines = do_lines(alloc, books, reader, line, at);
            counted(known, lines)
        }
        Ok(false) => Ok(Applied {
            done: 0,
            known,
            beyond: 0,
        }),
        Err(fault) => Err(fault),
    }
}

/// Does the lines behind those of the acts that the books have, which were all passed.
fn go_on<S: Alter, R: BufRead + Drop>(
    alloc: Global,
    books: &mut Books<S>,
    lines: KnownLines<R>,
) -> Result<Applied, NotApplied>
    ensures clean { IsClean S.Store books.new → IsClean S.Store books.old }
    ensures applied { IsClean S.Store books.new → (left : Option (List ℕ)) (first begun : ℤ) (acts : List Act) → IsHistory first acts → HoldsBooks S.Store first acts books.old
        → HasPassed R.remaining left begun lines acts → OfText left (λ text. GoesOn S.Store first begun acts text result books.new) }
    ensures own { IsClean S.Store books.new → (left : Option (List ℕ)) (first begun : ℤ) (acts : List Act) → IsHistory first acts → HoldsBooks S.Store first acts books.old
        → HasPassed R.remaining left begun lines acts → result ≢ Err Foreign }
    ensures survives { Survives (state S.Store books.old.conn) (state S.Store books.new.conn) (λ trees. (left : Option (List ℕ)) (first begun : ℤ) (acts : List Act) → IsHistory first acts → HoldsBooks S.Store first acts books.old
        → HasPassed R.remaining left begun lines acts → OfText left (λ text. Leaves first begun acts text trees)) }
{
    let KnownLines {
        reader,
        line,
        done,
        day,
        known,
        last,
        place,
        ..
    } = lines;
    let at = At {
        done,
        day,
        lines: known,
    };
    match place {
        Place::Before => {
            let lines = do_lines(alloc, books, reader, line, at);
            counted(known, lines)
        }
        Place::Within => go_within(alloc, books, reader, line, at),
        Place::Behind => {
            let beyond = acts_behind(done, last);
            Ok(Applied {
                done: 0,
                known,
                beyond,
            })
        }
    }
}

/// How many acts there are behind the one of this number.
fn acts_behind(done: u64, last: u64) -> u64
    ensures { result ≡ done - last }
{
    done.saturating_sub(last)
}

/// Passes the lines of the acts that the books have, and does those behind them.
pub(crate) fn apply_lines<S: Alter, R: BufRead + Drop>(
    alloc: Global,
    books: &mut Books<S>,
    lines: KnownLines<R>,
) -> Result<Applied, NotApplied>
    ensures clean { IsClean S.Store books.new → IsClean S.Store books.old }
    ensures applied { IsClean S.Store books.new → (left : Option (List ℕ)) (first begun : ℤ) (acts : List Act) → IsHistory first acts → HoldsBooks S.Store first acts books.old
        → IsStart R.remaining left lines → lines.day ≡ begun → OfText left (λ text. GoesOn S.Store first begun acts text result books.new) }
    ensures foreign { IsClean S.Store books.new → (left : Option (List ℕ)) (first : ℤ) (acts : List Act) → IsHistory first acts → HoldsBooks S.Store first acts books.old
        → IsStart R.remaining left lines → IfErr result (IsOfRows S.Store books.new) }
    ensures survives { Survives (state S.Store books.old.conn) (state S.Store books.new.conn) (λ trees. (left : Option (List ℕ)) (first begun : ℤ) (acts : List Act) → IsHistory first acts → HoldsBooks S.Store first acts books.old
        → IsStart R.remaining left lines → lines.day ≡ begun → OfText left (λ text. Leaves first begun acts text trees)) }
{
    let mut lines = lines;
    pass_known(books, &mut lines)?;
    go_on(alloc, books, lines)
}
