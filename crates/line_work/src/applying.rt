ghost use Rattle.std.specs.Prelude.{◌≡◌, ℤ, List, true, Ok, IsErr, IsErrAnd, IfOk, IfErr, OnOk};
ghost use Rattle.std.specs.Io.KnownBytes.{Appends};
ghost use Rattle.books_schema.specs.declared.ready_connection.Leftover.TheVariants as leftover;
ghost use Rattle.sqlite.specs.Held.{state};
ghost use Rattle.sqlite.specs.State.{HasCleanDisk};
ghost use Rattle.machine.specs.Acts.{Act};
ghost use Rattle.machine.specs.Once.{IsHistory};
ghost use Rattle.store.specs.Books.{IsClean, HoldsBooks, LeavesOnly};
ghost use Rattle.store.specs.Opening.{IsOfNone, AreFoundRows};
ghost use Rattle.service.specs.Failing.{IsUnopened};
ghost use Rattle.line_work.specs.Applying.{KeepsMore, LeavesApplied, IsFileApplied, IsTextApplied, IsTakenIn, IsEndTold, told_of, applied_line};

use applies::{Applied, NotApplied, apply_text};
use books_schema::ready_connection::Orderly;
use command_line::{ApplyFault, Fault, FilesAt};
use service::{AfterWork, NotBegun, open_books};
use sqlite::{Alter, Connection};
use std::alloc::Global;
use std::io::{self, BufReader, Read, Write};
use store::Books;

/// Opens the books, and then does the acts of the file that they lack, one after another. Where the file cannot be opened,
/// nothing is done, and that is `Io`.
pub fn open_and_apply<S: Orderly + Drop, F: FilesAt, W: Write>(
    alloc: Global,
    files: &F,
    conn: Connection<S>,
    name: &str,
    out: &mut W,
) -> Result<AfterWork<S>, NotBegun<S>>
    ensures clean { IfOk result (λ w. HasCleanDisk (state S.Store w.0) → HasCleanDisk (state S.Store conn)) }
    ensures applied { IfOk result (λ w. HasCleanDisk (state S.Store w.0) → (first : ℤ) (acts : List Act) → IsHistory first acts
        → AreFoundRows first acts (state S.Store conn).committed.trees → KeepsMore S.Store first acts w.0) }
    ensures told { IfOk result (λ w. HasCleanDisk (state S.Store w.0) → (first : ℤ) (acts : List Act) → IsHistory first acts
        → AreFoundRows first acts (state S.Store conn).committed.trees
        → LeavesApplied S.Store first acts (F.bytes files.now name.now) (W.contents out.old) (W.contents out.new) w.1 w.0) }
    ensures other { IsOfNone (state S.Store conn).now.schema → IsErr result }
    ensures within { conn.in_transaction ≡ true → IsErrAnd result (λ e. (e.0 ≡ leftover.Connection conn) × (e.1 ≡ Fault.Store)) }
    ensures left { IfErr result (λ e. IsUnopened S.Store conn e.0 e.1) }
    ensures silent { IsErr result → out.new ≡ out.old }
{
    match open_books(alloc, conn) {
        Ok(books) => Ok(apply_books(alloc, files, books, name, out)),
        Err(fault) => Err(fault),
    }
}

fn apply_books<S: Alter + Drop, F: FilesAt, W: Write>(
    alloc: Global,
    files: &F,
    books: Books<S>,
    name: &str,
    out: &mut W,
) -> AfterWork<S>
    ensures clean { HasCleanDisk (state S.Store result.0) → IsClean S.Store books }
    ensures applied { HasCleanDisk (state S.Store result.0) → (first : ℤ) (acts : List Act) → IsHistory first acts → HoldsBooks S.Store first acts books
        → LeavesOnly first acts (state S.Store books.conn) → KeepsMore S.Store first acts result.0 }
    ensures told { HasCleanDisk (state S.Store result.0) → (first : ℤ) (acts : List Act) → IsHistory first acts → HoldsBooks S.Store first acts books
        → LeavesOnly first acts (state S.Store books.conn)
        → LeavesApplied S.Store first acts (F.bytes files.now name.now) (W.contents out.old) (W.contents out.new) result.1 result.0 }
{
    let mut books = books;
    let end = apply_file(alloc, files, &mut books, name, out);
    (books.close(), end)
}

/// Opens the file and takes its lines in. Where it cannot be opened the error is `Io`, and nothing was done or printed.
fn apply_file<S: Alter, F: FilesAt, W: Write>(
    alloc: Global,
    files: &F,
    books: &mut Books<S>,
    name: &str,
    out: &mut W,
) -> Result<(), Fault>
    ensures clean { IsClean S.Store books.new → IsClean S.Store books.old }
    ensures applied { IsClean S.Store books.new → (first : ℤ) (acts : List Act) → IsHistory first acts → HoldsBooks S.Store first acts books.old
        → LeavesOnly first acts (state S.Store books.old.conn)
        → IsFileApplied S.Store first acts (F.bytes files.now name.now) result books.new (W.contents out.old) (W.contents out.new) }
{
    match files.open(name) {
        Ok(file) => apply(alloc, books, file, out),
        Err(_) => Err(Fault::Io),
    }
}

/// Does the acts of the lines that the books lack, one after another as they come, and prints how many were done, how many
/// lines the books had the acts of, and how many acts they have behind that of the last line: `applied A known B beyond C`.
/// The error is the first line that does not fit, or a fault of the input, of memory or of the disk, and then nothing was
/// printed; or `Io` where the line could not be printed. What was done before it stands.
pub fn apply<S: Alter, R: Read + Drop, W: Write>(
    alloc: Global,
    books: &mut Books<S>,
    file: R,
    out: &mut W,
) -> Result<(), Fault>
    ensures clean { IsClean S.Store books.new → IsClean S.Store books.old }
    ensures applied { IsClean S.Store books.new → (first : ℤ) (acts : List Act) → IsHistory first acts → HoldsBooks S.Store first acts books.old
        → LeavesOnly first acts (state S.Store books.old.conn)
        → IsTextApplied S.Store first acts (R.remaining file) result books.new (W.contents out.old) (W.contents out.new) }
{
    let applied = take_in(alloc, books, file)?;
    print_applied(applied, out)
}

/// Prints how many acts were done, known, and beyond the last line.
fn print_applied<W: Write>(applied: Applied, out: &mut W) -> Result<(), Fault>
    ensures { IsEndTold (Ok applied) (W.contents out.old) (W.contents out.new) result }
{
    tell_applied(applied, out)?;
    Ok(())
}

/// Does the acts of the lines that the books lack.
fn take_in<S: Alter, R: Read + Drop>(
    alloc: Global,
    books: &mut Books<S>,
    file: R,
) -> Result<Applied, Fault>
    ensures clean { IsClean S.Store books.new → IsClean S.Store books.old }
    ensures taken { IsClean S.Store books.new → (first : ℤ) (acts : List Act) → IsHistory first acts → HoldsBooks S.Store first acts books.old
        → LeavesOnly first acts (state S.Store books.old.conn) → IsTakenIn S.Store first acts (R.remaining file) result books.new }
{
    match BufReader::new(alloc, file) {
        Ok(reader) => apply_result(apply_text(alloc, books, reader)),
        Err(_) => Err(Fault::Store),
    }
}

/// How the lines went, as the line of the program tells it.
fn apply_result(done: Result<Applied, NotApplied>) -> Result<Applied, Fault>
    ensures { result ≡ told_of done }
{
    match done {
        Ok(applied) => Ok(applied),
        Err(NotApplied::Differs { act }) => Err(Fault::Apply(ApplyFault::Differs { act })),
        Err(NotApplied::Lacks { act }) => Err(Fault::Apply(ApplyFault::Lacks { act })),
        Err(NotApplied::Line { line }) => Err(Fault::Apply(ApplyFault::Line { line })),
        Err(NotApplied::Refused { act, why }) => Err(Fault::Apply(ApplyFault::Act {
            act,
            refusal: why,
        })),
        Err(NotApplied::Input) => Err(Fault::Io),
        Err(NotApplied::Store) => Err(Fault::Store),
        Err(NotApplied::Foreign) => Err(Fault::Foreign),
    }
}

fn tell_applied<W: Write>(applied: Applied, out: &mut W) -> io::Result<()>
    ensures { OnOk result (Appends (W.contents out.old) (W.contents out.new) (applied_line applied)) }
{
    let Applied {
        done,
        known,
        beyond,
    } = applied;
    writeln!(out, "applied {done} known {known} beyond {beyond}")
}
