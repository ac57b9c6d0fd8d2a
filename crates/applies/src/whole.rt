//! A text of a history, applied to books.

ghost use Rattle.std.specs.Prelude.{ℕ, ℤ, List, Option, IfSome, IfErr};
ghost use Rattle.std.specs.Io.KnownBytes.{Consumes};
ghost use Rattle.sqlite.specs.Held.{state};
ghost use Rattle.sqlite.specs.State.{Survives};
ghost use Rattle.machine.specs.Acts.{Act};
ghost use Rattle.machine.specs.Once.{IsHistory};
ghost use Rattle.store.specs.Books.{HoldsBooks, IsClean};
ghost use Rattle.applies.specs.Applying.{IsApplied, LeavesOneOf};
ghost use Rattle.applies.specs.Going.{OfText, IsOfRows};
ghost use Rattle.applies.specs.Taken.{IsTaken};
ghost use Rattle.histories.specs.Walked.{IsRead};

use crate::applied::{Applied, NotApplied};
use crate::begun::find_begun;
use crate::first::first_line;
use crate::known::apply_lines;
use histories::{KnownLines, LineFault, Place};
use sqlite::Alter;
use std::alloc::Global;
use std::io::BufRead;
use store::Books;

/// Applies the text whose first line was read.
fn apply_read<S: Alter, R: BufRead + Drop>(
    alloc: Global,
    books: &mut Books<S>,
    reader: R,
    line: Vec<u8>,
    place: Place,
) -> Result<Applied, NotApplied>
    ensures clean { IsClean S.Store books.new → IsClean S.Store books.old }
    ensures applied { IsClean S.Store books.new → (left : Option (List ℕ)) (first : ℤ) (acts : List Act) → IsHistory first acts → HoldsBooks S.Store first acts books.old
        → Consumes left (R.remaining reader) line.items → IsRead place line.items left (R.remaining reader) → OfText left (λ text. IsApplied S.Store first acts text result books.new) }
    ensures every { IsClean S.Store books.new → (left : Option (List ℕ)) (first : ℤ) (acts : List Act) → IsHistory first acts → HoldsBooks S.Store first acts books.old
        → Consumes left (R.remaining reader) line.items → IsRead place line.items left (R.remaining reader) → IfSome left (λ text. IsTaken S.Store first acts text result books.new) }
    ensures foreign { IsClean S.Store books.new → (left : Option (List ℕ)) (first : ℤ) (acts : List Act) → IsHistory first acts → HoldsBooks S.Store first acts books.old
        → Consumes left (R.remaining reader) line.items → IsRead place line.items left (R.remaining reader) → IfErr result (IsOfRows S.Store books.new) }
    ensures survives { Survives (state S.Store books.old.conn) (state S.Store books.new.conn) (λ trees. (left : Option (List ℕ)) (first : ℤ) (acts : List Act) → IsHistory first acts → HoldsBooks S.Store first acts books.old
        → Consumes left (R.remaining reader) line.items → IsRead place line.items left (R.remaining reader) → OfText left (λ text. LeavesOneOf first acts text trees)) }
{
    let day = find_begun(alloc, books, line.as_slice())?;
    let lines = KnownLines {
        alloc,
        reader,
        line,
        done: 0,
        day,
        known: 0,
        last: 0,
        place,
        fault: LineFault::Input,
    };
    apply_lines(alloc, books, lines)
}

/// Does the acts of a history's text that the books lack, a transaction each, each as its line comes. A line whose act the
/// books have has to be that act's line; any other has to be the line of the act that comes next, byte for byte, and that
/// act has to be accepted there. The first line that does not fit ends it: all before it are done, and so is whatever a stop
/// leaves. A last line without its line feed is passed over. No memory grows with the text. Lines of a history that goes on
/// with the acts of the books all fit, from whatever line on that is not behind the first new act: they end at their last one,
/// or for want of memory, the disk or the input, or where the rows of the acts are not stored in their order: `Foreign` is told
/// there alone. Where it ends well and acts were done, the connection is open and a stop leaves all of them.
pub fn apply_text<S: Alter, R: BufRead + Drop>(
    alloc: Global,
    books: &mut Books<S>,
    reader: R,
) -> Result<Applied, NotApplied>
    ensures clean { IsClean S.Store books.new → IsClean S.Store books.old }
    ensures applied { IsClean S.Store books.new → (first : ℤ) (acts : List Act) → IsHistory first acts → HoldsBooks S.Store first acts books.old
        → OfText (R.remaining reader) (λ text. IsApplied S.Store first acts text result books.new) }
    ensures every { IsClean S.Store books.new → (first : ℤ) (acts : List Act) → IsHistory first acts → HoldsBooks S.Store first acts books.old
        → IfSome (R.remaining reader) (λ text. IsTaken S.Store first acts text result books.new) }
    ensures foreign { IsClean S.Store books.new → (first : ℤ) (acts : List Act) → IsHistory first acts → HoldsBooks S.Store first acts books.old → IfErr result (IsOfRows S.Store books.new) }
    ensures survives { Survives (state S.Store books.old.conn) (state S.Store books.new.conn) (λ trees. (first : ℤ) (acts : List Act) → IsHistory first acts → HoldsBooks S.Store first acts books.old
        → OfText (R.remaining reader) (λ text. LeavesOneOf first acts text trees)) }
{
    let mut reader = reader;
    let mut line = Vec::new(alloc);
    let place = first_line(&mut reader, &mut line)?;
    apply_read(alloc, books, reader, line, place)
}
