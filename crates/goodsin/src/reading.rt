ghost use Rattle.std.specs.Prelude.{◌≡◌, ◌≢◌, ◌++◌, ◌∷◌, [], ℕ, List, true, false, length, IfOk, IfErr, IfSome, Some};
ghost use Rattle.csv.specs.Reading.{error_kind, expected_len};
ghost use Rattle.csv.specs.Records.{fields_of};
ghost use Rattle.goodsin.specs.Rows.{Fields};
ghost use Rattle.goodsin.specs.Reading.{fault_of, AreAll, HasOther, IsReading, Stands};

use crate::FileFault;
use csv::{ByteRecord, Error, ErrorKind, Reader};
use std::io::Read;

/// Reads the next record. It is `false` at the end of the text, and then there is none.
///
/// `Length` tells that the record has another number of fields than the one before it.
pub(crate) fn next_record<R: Read>(
    reader: &mut Reader<R>,
    fields: &mut ByteRecord,
) -> Result<bool, FileFault>
    requires { IsReading reader.old }
    ensures on { IfOk result (λ found. found ≡ true → IsReading reader.new) }
    ensures length { IfOk result (λ found. found ≡ true
        → IfSome (expected_len reader.old) (λ n. length (fields_of fields.new) ≡ n)
        × (expected_len reader.new ≡ Some (length (fields_of fields.new)))) }
    ensures next { IfOk result (λ found. found ≡ true → (text : List ℕ) (rows : List Fields)
        → Stands R.remaining text rows reader.old
        → Stands R.remaining text (rows ++ fields_of fields.new ∷ []) reader.new) }
    ensures end { IfOk result (λ found. found ≡ false → (text : List ℕ) (rows : List Fields)
        → Stands R.remaining text rows reader.old → AreAll text rows) }
    ensures other { IfErr result (λ e. e ≢ FileFault.Reader → e ≢ FileFault.Memory → (text : List ℕ) (rows : List Fields)
        → Stands R.remaining text rows reader.old
        → (e ≡ FileFault.Length) × HasOther text rows (expected_len reader.old)) }
{
    match reader.read_byte_record(fields) {
        Ok(found) => Ok(found),
        Err(error) => Err(fault(&error)),
    }
}

fn fault(error: &Error) -> FileFault
    ensures { result ≡ fault_of (error_kind error.now) }
{
    match error.kind() {
        ErrorKind::Io(_) => FileFault::Reader,
        ErrorKind::UnequalLengths { .. } => FileFault::Length,
        _ => FileFault::Memory,
    }
}
