ghost use Rattle.std.specs.Prelude.{◌≡◌, ◌≢◌, ◌≤◌, ◌+◌, ◌++◌, ◌∷◌, [], ℕ, ℤ, List, true, false, length, All, IfOk, IfErr, OnOk, IfSome, IsTrue, None, Some, Ok, Err};
ghost use Rattle.label.specs.Days.{is_business_day};
ghost use Rattle.csv.specs.Reading.{expected_len};
ghost use Rattle.goodsin.specs.Rows.{Fields, IsReceipt, is_header as is_header_lem};
ghost use Rattle.goodsin.specs.Files.{file_read, row_read};
ghost use Rattle.goodsin.specs.Reading.{AreAll, Begins, IsReading, Stands};

use crate::FileFault;
use crate::reading::next_record;
use crate::row::{command_of, is_header};
use commands::{Command, Key, Listed};
use csv::{ByteRecord, Reader, ReaderBuilder};
use label::Day;
use std::alloc::Global;
use std::io::Read;

/// The most rows of a file.
pub const ROWS_MAX: u16 = 1_000;

/// The receipts of a goods-in file, each under the key of its delivery's line, by the century of the business day
/// `today`. The file is a text of records with the header `delivery,line,gtin,lot,expiry,bin,qty` and 1,000 rows at
/// most; its expiry days are YYMMDD.
///
/// The first fault ends the reading: `Header`, then, row after row, `Length`, `TooManyRows` at the row 1,001, and
/// `Row`. `Reader` and `Memory` may come at any read.
pub fn read_file<R: Read + Drop>(
    alloc: Global,
    r: R,
    today: Day,
) -> Result<Listed<(Key, Command)>, FileFault>
    requires { IsTrue (is_business_day today) }
    ensures file { IfSome (R.remaining r) (λ text. result ≢ Err FileFault.Memory → result ≢ Err FileFault.Reader
        → result ≡ file_read today text) }
    ensures count { IfOk result (λ rows. length rows ≤ ROWS_MAX) }
    ensures kinds { IfOk result (λ rows. All IsReceipt rows) }
{
    let mut reader = ReaderBuilder::new()
        .has_headers(false)
        .from_reader(alloc, r);
    let mut fields = ByteRecord::new(alloc);
    let rows = read_records(alloc, &mut reader, &mut fields, today);
    drop(fields);
    drop(reader);
    rows
}

fn read_records<R: Read>(
    alloc: Global,
    reader: &mut Reader<R>,
    fields: &mut ByteRecord,
    today: Day,
) -> Result<Listed<(Key, Command)>, FileFault>
    requires reading { IsReading reader.old }
    requires first { expected_len reader.old ≡ None }
    requires day { IsTrue (is_business_day today) }
    ensures file { result ≢ Err FileFault.Memory → result ≢ Err FileFault.Reader → (text : List ℕ)
        → Stands R.remaining text [] reader.old → result ≡ file_read today text }
    ensures count { IfOk result (λ rows. length rows ≤ ROWS_MAX) }
    ensures kinds { IfOk result (λ rows. All IsReceipt rows) }
{
    read_header(reader, fields)?;
    read_rows(alloc, reader, fields, today)
}

fn read_header<R: Read>(reader: &mut Reader<R>, fields: &mut ByteRecord) -> Result<(), FileFault>
    requires reading { IsReading reader.old }
    requires first { expected_len reader.old ≡ None }
    ensures on { OnOk result (IsReading reader.new × (expected_len reader.new ≡ Some 7)) }
    ensures header { OnOk result ((text : List ℕ) → Stands R.remaining text [] reader.old
        → (h : Fields) × Stands R.remaining text (h ∷ []) reader.new × (is_header_lem h ≡ true)) }
    ensures fault { IfErr result (λ e. e ≢ FileFault.Memory → e ≢ FileFault.Reader → (text : List ℕ) (today : ℤ)
        → Stands R.remaining text [] reader.old → file_read today text ≡ Err e) }
{
    if next_record(reader, fields)? && is_header(fields) {
        Ok(())
    } else {
        Err(FileFault::Header)
    }
}

// The rows behind the header.
fn read_rows<R: Read>(
    alloc: Global,
    reader: &mut Reader<R>,
    fields: &mut ByteRecord,
    today: Day,
) -> Result<Listed<(Key, Command)>, FileFault>
    requires reading { IsReading reader.old }
    requires seven { expected_len reader.old ≡ Some 7 }
    requires day { IsTrue (is_business_day today) }
    ensures file { result ≢ Err FileFault.Memory → result ≢ Err FileFault.Reader → (text : List ℕ) (h : Fields)
        → Stands R.remaining text (h ∷ []) reader.old → is_header_lem h ≡ true → result ≡ file_read today text }
    ensures count { IfOk result (λ rows. length rows ≤ ROWS_MAX) }
    ensures kinds { IfOk result (λ rows. All IsReceipt rows) }
{
    let mut rows = Vec::new(alloc);
    'rows: for row in 1..ROWS_MAX + 2 {
        match next_row(reader, fields, today, row) {
            Ok(Some(receipt)) => {
                if !keep(&mut rows, receipt) {
                    return Err(FileFault::Memory);
                }
            }
            Ok(None) => return Ok(Listed::from_vec(rows)),
            Err(fault) => return Err(fault),
        }
    }
    // No row 1,001 is taken, so the loop never ends here.
    Err(FileFault::TooManyRows)
}

// Whether there was memory for one more row.
fn keep(rows: &mut Vec<(Key, Command)>, receipt: (Key, Command)) -> bool
    ensures { IsTrue result → rows.new.items ≡ rows.old.items ++ receipt ∷ [] }
{
    rows.push(receipt).is_ok()
}

// The row of this number, or `None` at the end of the text.
fn next_row<R: Read>(
    reader: &mut Reader<R>,
    fields: &mut ByteRecord,
    today: Day,
    row: u16,
) -> Result<Option<(Key, Command)>, FileFault>
    requires reading { IsReading reader.old }
    requires seven { expected_len reader.old ≡ Some 7 }
    requires day { IsTrue (is_business_day today) }
    ensures on { IfOk result (λ o. IfSome o (λ receipt. IsReading reader.new × (expected_len reader.new ≡ Some 7))) }
    ensures limit { IfOk result (λ o. IfSome o (λ receipt. row ≤ ROWS_MAX)) }
    ensures kind { IfOk result (λ o. IfSome o IsReceipt) }
    ensures row { IfOk result (λ o. IfSome o (λ receipt. (text : List ℕ) (before : List Fields)
        → Stands R.remaining text before reader.old
        → (f : Fields) × Stands R.remaining text (before ++ f ∷ []) reader.new × (row_read today row f ≡ Ok receipt))) }
    ensures end { IfOk result (λ o. o ≡ None → (text : List ℕ) (before : List Fields)
        → Stands R.remaining text before reader.old → AreAll text before) }
    ensures fault { IfErr result (λ e. e ≢ FileFault.Memory → e ≢ FileFault.Reader → (text : List ℕ) (before : List Fields)
        → Stands R.remaining text before reader.old
        → (f : Fields) × Begins text (before ++ f ∷ []) × (row_read today row f ≡ Err e)) }
{
    match next_record(reader, fields) {
        Ok(true) => {}
        Ok(false) => return Ok(None),
        Err(fault) => return Err(fault),
    }
    if row > ROWS_MAX {
        return Err(FileFault::TooManyRows);
    }
    match command_of(fields, today) {
        Some(receipt) => Ok(Some(receipt)),
        None => Err(FileFault::Row(row)),
    }
}
