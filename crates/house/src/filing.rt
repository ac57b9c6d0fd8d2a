//! A goods-in file, taken in.

ghost use Rattle.std.specs.Prelude.{◌≡◌, ◌≢◌, ℤ, List, Err, codes};
ghost use Rattle.machine.specs.Acts.{Act};
ghost use Rattle.machine.specs.Once.{IsHistory};
ghost use Rattle.machine.specs.Standing.{today};
ghost use Rattle.goodsin.specs.Files.{file_read};
ghost use Rattle.store.specs.Books.{IsClean, AreAsBefore};
ghost use Rattle.house.specs.Answers.{file_answer, acts_filed, file_fault_answer, status_of};
ghost use Rattle.house.specs.Asking.{Does, told_file_answer};

use goodsin::{FileFault, read_file};
use requests::WireFault;
use sqlite::Alter;
use std::alloc::Global;
use store::{Books, RowFault, Tally};
use wire::Block;
use wire::short_answers::{
    cause_answer, cause_row_answer, fault_answer, foreign_books, row_conflict, tally_answer,
};

/// Takes in the goods of a file: all rows, or none. The file is read at the business day of the books.
pub(crate) fn take_in<S: Alter>(alloc: Global, books: &mut Books<S>, file: &[u8]) -> Block
    ensures clean { IsClean S.Store books.new → IsClean S.Store books.old }
    ensures acted { IsClean S.Store books.new → (first : ℤ) (acts : List Act) → IsHistory first acts
        → Does S.Store first acts books.old (file_answer first acts (file_read (today first acts) file.now)) (acts_filed first acts (file_read (today first acts) file.now)) result books.new }
    ensures as_before { IsClean S.Store books.new → status_of result ≢ codes "HTTP/1.1 200" → AreAsBefore S.Store books.old books.new }
{
    let today = books.day();
    match read_file(alloc, file, today) {
        Ok(rows) => {
            let done = books.act_all(rows.as_slice());
            // A call: dropped at the end of its scope it is dropped field by field (docs/GATE.md).
            drop(rows);
            tally_block(done)
        }
        Err(fault) => answer_file_fault(fault),
    }
}

/// The answer that tells how the rows of a file went. It takes no memory.
fn tally_block(done: Result<Tally, RowFault>) -> Block
    ensures { result ≡ told_file_answer done }
{
    match done {
        Ok(tally) => tally_answer(tally.accepted, tally.repeated),
        Err(fault) => answer_row_fault(fault),
    }
}

/// The answer where a row of a file was refused, or the file failed. It takes no memory.
fn answer_row_fault(fault: RowFault) -> Block
    ensures { result ≡ told_file_answer (Err fault) }
{
    match fault {
        RowFault::Refused { row, refusal } => row_conflict(row, refusal),
        RowFault::Store => fault_answer(WireFault::Memory),
        RowFault::Foreign => foreign_books(),
    }
}

/// The answer to a file that does not read as one. It takes no memory.
fn answer_file_fault(fault: FileFault) -> Block
    ensures { result ≡ file_fault_answer fault }
{
    match fault {
        FileFault::Row(row) => cause_row_answer(fault.code(), row),
        FileFault::Reader | FileFault::Memory => fault_answer(WireFault::Memory),
        FileFault::Header | FileFault::TooManyRows | FileFault::Length => {
            cause_answer(fault.code())
        }
    }
}
