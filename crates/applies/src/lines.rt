//! The lines of a text, done as they come.

ghost use Rattle.std.specs.Prelude.{◌≡◌, ◌⊎◌, ◌+◌, ℕ, ℤ, List, Option, true, false, Ok, length, IfErr, OnSome};
ghost use Rattle.std.specs.Io.KnownBytes.{Consumes, IsAtEnd};
ghost use Rattle.sqlite.specs.Held.{state};
ghost use Rattle.sqlite.specs.State.{Survives};
ghost use Rattle.machine.specs.Acts.{Act};
ghost use Rattle.store.specs.Books.{IsClean};
ghost use Rattle.histories.specs.Reading.{IsLine, IsPart};
ghost use Rattle.applies.specs.Going.{IsOfWant, OfText};
ghost use Rattle.applies.specs.Lines.{Stands, AreLinesDone, LeavesLines};
ghost use Rattle.applies.specs.declared.applied.NotApplied.TheVariants.{Line};

use crate::applied::NotApplied;
use crate::next::{At, do_line};
use histories::{Ended, read_line};
use sqlite::Alter;
use std::alloc::Global;
use std::io::BufRead;
use store::Books;

/// Reads the next line, behind so many. Whether there is one.
pub(crate) fn next_line<R: BufRead>(
    reader: &mut R,
    line: &mut Vec<u8>,
    lines: u64,
) -> Result<bool, NotApplied>
    ensures bytes { Consumes (R.remaining reader.old) (R.remaining reader.new) line.new.items }
    ensures whole { result ≡ Ok true → IsLine line.new.items }
    ensures part { result ≡ Ok false → IsPart line.new.items × OnSome (R.remaining reader.old) (IsAtEnd (R.remaining reader.new)) }
    ensures long { IfErr result (λ fault. IsOfWant fault ⊎ ((fault ≡ Line (lines + 1)) × IsPart line.new.items × (length line.new.items ≡ 8_192))) }
{
    match read_line(reader, line)? {
        Ended::Whole => Ok(true),
        Ended::Part => Ok(false),
        Ended::Long => Err(long_line(lines)),
    }
}

/// The line behind so many is too long.
fn long_line(lines: u64) -> NotApplied
    ensures { IsOfWant result ⊎ (result ≡ Line (lines + 1)) }
{
    match lines.checked_add(1) {
        Some(line) => NotApplied::Line { line },
        None => NotApplied::Store,
    }
}

/// Does the act of this line, which was read, and of those behind it, each as it comes. How many lines of the text were
/// known or done comes back.
pub(crate) fn do_lines<S: Alter, R: BufRead + Drop>(
    alloc: Global,
    books: &mut Books<S>,
    reader: R,
    line: Vec<u8>,
    at: At,
) -> Result<u64, NotApplied>
    ensures clean { IsClean S.Store books.new → IsClean S.Store books.old }
    ensures done { IsClean S.Store books.new → (left : Option (List ℕ)) (first begun : ℤ) (acts : List Act) → Stands S.Store first begun acts left (R.remaining reader) at line.items books.old
        → OfText left (λ text. AreLinesDone S.Store first begun acts line.items text at.lines result books.new) }
    ensures survives { Survives (state S.Store books.old.conn) (state S.Store books.new.conn) (λ trees. (left : Option (List ℕ)) (first begun : ℤ) (acts : List Act) → Stands S.Store first begun acts left (R.remaining reader) at line.items books.old
        → OfText left (λ text. LeavesLines first begun acts text trees)) }
{
    let mut reader = reader;
    let mut line = line;
    let mut at = at;
    'lines: for _ in 0..u64::MAX {
        match do_line(alloc, books, &mut at, line.as_slice()) {
            Ok(()) => {}
            Err(fault) => return Err(fault),
        }
        match next_line(&mut reader, &mut line, at.lines) {
            Ok(more) => {
                if !more {
                    return Ok(at.lines);
                }
            }
            Err(fault) => return Err(fault),
        }
    }
    Err(NotApplied::Store)
}
