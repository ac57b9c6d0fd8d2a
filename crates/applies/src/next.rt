//! The line of the act that comes next.

ghost use Rattle.std.specs.Prelude.{◌≡◌, ◌+◌, ℕ, ℤ, List, Some, IsTrue};
ghost use Rattle.sqlite.specs.Held.{state};
ghost use Rattle.sqlite.specs.State.{Survives};
ghost use Rattle.machine.specs.Acts.{Act};
ghost use Rattle.machine.specs.Once.{IsHistory};
ghost use Rattle.store.specs.Books.{HoldsBooks, IsClean};
ghost use Rattle.applies.specs.Fields.{Reads};
ghost use Rattle.applies.specs.Lines.{BearsLater, IsPlaced, IsNext, IsNextRead, IsNotDone, IsAt, IsLineDone, LeavesLine};

use crate::applied::NotApplied;
use crate::fields::{cut, read_act};
use commands::laws::{every_command_is_sound, every_key_is_sound};
use commands::{Command, Key};
use histories::{day_then, is_line_of, is_numbered};
use label::Day;
use replays::{NotReplayed, act_again};
use sqlite::Alter;
use std::alloc::Global;
use store::Books;

/// Where the books are beside the text.
#[derive(Clone, Copy, PartialEq, Eq, Debug)]
pub(crate) struct At {
    /// How many acts the books have.
    pub(crate) done: u64,
    /// The business day after the last one.
    pub(crate) day: Day,
    /// How many lines of the text were known or done.
    pub(crate) lines: u64,
}

/// The act of a line, as the one that comes next.
#[derive(Drop)]
pub(crate) struct NextAct {
    pub(crate) number: u64,
    /// The business day after it.
    pub(crate) day: Day,
    /// The place of its line in the text.
    pub(crate) line: u64,
    pub(crate) key: Key,
    pub(crate) command: Command,
}

/// The number that a line bears before its first tab, if it bears one.
fn number_of(line: &[u8]) -> Option<u64> {
    let (digits, _) = cut(line)?;
    let mut number = 0u64;
    for digit in digits {
        if !digit.is_ascii_digit() {
            return None;
        }
        number = number.checked_mul(10)?.checked_add((*digit - b'0') as u64)?;
    }
    Some(number)
}

/// Whether the line bears a number above this one.
fn bears_later(number: u64, line: &[u8]) -> bool
    ensures { IsTrue result → BearsLater number line.now }
{
    match number_of(line) {
        Some(later) => number < later && is_numbered(later, line),
        None => false,
    }
}

/// Why the line at this place is not done, which is not that of the act of this number.
fn misplaced(number: u64, place: u64, line: &[u8]) -> NotApplied
    ensures { IsPlaced number place line.now result }
{
    if bears_later(number, line) {
        NotApplied::Lacks { act: number }
    } else {
        NotApplied::Line { line: place }
    }
}

/// The act of a line, which has to be the line of the act that comes next.
fn read_next(alloc: Global, at: &At, line: &[u8]) -> Result<NextAct, NotApplied>
    ensures { IsNextRead at.now line.now result }
{
    let Some(number) = at.done.checked_add(1) else {
        return Err(NotApplied::Store);
    };
    let Some(place) = at.lines.checked_add(1) else {
        return Err(NotApplied::Store);
    };
    match read_act(alloc, line) {
        Ok(found) => as_found(alloc, at, number, place, found, line),
        Err(_) => Err(NotApplied::Store),
    }
}

/// What was read of the line, as the act that comes next.
fn as_found(
    alloc: Global,
    at: &At,
    number: u64,
    place: u64,
    found: Option<(Key, Command)>,
    line: &[u8],
) -> Result<NextAct, NotApplied>
    requires number { number ≡ at.now.done + 1 }
    requires place { place ≡ at.now.lines + 1 }
    requires reads { Reads line.now found }
    ensures { IsNextRead at.now line.now result }
{
    match found {
        Some((key, command)) => as_next(alloc, at, number, place, key, command, line),
        None => Err(misplaced(number, place, line)),
    }
}

/// This act as the next one, where the line is its own.
fn as_next(
    alloc: Global,
    at: &At,
    number: u64,
    place: u64,
    key: Key,
    command: Command,
    line: &[u8],
) -> Result<NextAct, NotApplied>
    requires number { number ≡ at.now.done + 1 }
    requires place { place ≡ at.now.lines + 1 }
    requires reads { Reads line.now (Some (key, command)) }
    ensures { IsNextRead at.now line.now result }
{
    every_key_is_sound(key);
    every_command_is_sound(&command);
    let day = day_then(&command, at.day);
    if !key.is_of(&command) {
        return Err(misplaced(number, place, line));
    }
    match is_line_of(alloc, number, day, &key, &command, line) {
        Ok(true) => Ok(NextAct {
            number,
            day,
            line: place,
            key,
            command,
        }),
        Ok(false) => Err(misplaced(number, place, line)),
        Err(_) => Err(NotApplied::Store),
    }
}

/// Why an act was not done again, the line of which is at this place.
fn not_done(fault: NotReplayed, place: u64) -> NotApplied
    ensures { IsNotDone fault place result }
{
    match fault {
        NotReplayed::Unspelled { .. } => NotApplied::Line { line: place },
        NotReplayed::Refused { act, why } => NotApplied::Refused { act, why },
        NotReplayed::Store => NotApplied::Store,
        NotReplayed::Foreign => NotApplied::Foreign,
    }
}

/// Does the act of a line, which has to be the line of the act that comes next. After a fault the books are as they were.
pub(crate) fn do_line<S: Alter>(
    alloc: Global,
    books: &mut Books<S>,
    at: &mut At,
    line: &[u8],
) -> Result<(), NotApplied>
    ensures clean { IsClean S.Store books.new → IsClean S.Store books.old }
    ensures done { IsClean S.Store books.new → (first begun : ℤ) (acts : List Act) → IsHistory first acts → HoldsBooks S.Store first acts books.old → IsAt begun acts at.old
        → IsLineDone S.Store first begun acts line.now at.old at.new result books.new }
    ensures survives { Survives (state S.Store books.old.conn) (state S.Store books.new.conn) (λ trees. (first begun : ℤ) (acts : List Act) → IsHistory first acts → HoldsBooks S.Store first acts books.old
        → IsAt begun acts at.old → LeavesLine first begun acts line.now trees) }
{
    let next = read_next(alloc, at, line)?;
    do_next(books, at, &next)
}

/// Does the act that comes next. After a fault the books are as they were.
fn do_next<S: Alter>(books: &mut Books<S>, at: &mut At, next: &NextAct) -> Result<(), NotApplied>
    ensures clean { IsClean S.Store books.new → IsClean S.Store books.old }
    ensures done { IsClean S.Store books.new → (first begun : ℤ) (acts : List Act) (line : List ℕ) → IsHistory first acts → HoldsBooks S.Store first acts books.old → IsAt begun acts at.old → IsNext at.old line next.now
        → IsLineDone S.Store first begun acts line at.old at.new result books.new }
    ensures survives { Survives (state S.Store books.old.conn) (state S.Store books.new.conn) (λ trees. (first begun : ℤ) (acts : List Act) (line : List ℕ) → IsHistory first acts → HoldsBooks S.Store first acts books.old
        → IsAt begun acts at.old → IsNext at.old line next.now → LeavesLine first begun acts line trees) }
{
    match act_again(books, next.number, &next.key, &next.command) {
        Ok(()) => {
            at.done = next.number;
            at.day = next.day;
            at.lines = next.line;
            Ok(())
        }
        Err(fault) => Err(not_done(fault, next.line)),
    }
}
