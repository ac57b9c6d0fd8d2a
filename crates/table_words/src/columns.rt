//! Values of columns that have no type: constants, bare numbers, and a text that takes memory to read.

ghost use Rattle.std.specs.Prelude.{◌≡◌, ◌<◌, ◌^◌, pos, IsTrue, IfOk, IfErr, codes, false};
ghost use Rattle.sqlite_value.specs.declared.value.Value.TheVariants.{Int, Text as TextValue};
ghost use Rattle.sqlite_value.specs.Value.{owned};
ghost use Rattle.sqlite_value.specs.Order.{column, bytes};
ghost use Rattle.table_words.specs.Cells.{is_word, is_any, is_the_number, is_the_text};
ghost use Rattle.table_words.specs.declared.error.TableFault.TheVariants.{Foreign};

use crate::error::TableFault;
use commands::Listed;
use sqlite::Row;
use sqlite::types::ValueRef;
use std::alloc::Global;

/// A number from 0 on as a column takes it.
pub fn of_number(n: u64) -> ValueRef<'static>
    requires { n < 2 ^ 63 }
    ensures value { owned result ≡ Int (pos n) }
{
    ValueRef::Int(n as i64)
}

/// A number, below 0 or not, as a column takes it.
pub fn of_signed(n: &i64) -> ValueRef<'static>
    ensures value { owned result ≡ Int n.now }
{
    ValueRef::Int(*n)
}

/// The mark of the books as a column takes it.
pub fn of_mark() -> ValueRef<'static>
    ensures value { owned result ≡ TextValue (codes "LOTSTOCK") }
{
    ValueRef::Text(b"LOTSTOCK")
}

/// A text of any length as a column takes it.
pub fn of_spelling(text: &Listed<u8>) -> ValueRef<'_>
    ensures value { owned result ≡ TextValue text.now }
{
    ValueRef::Text(text.as_slice())
}

/// The text in a column, of any length, or `Foreign`.
pub fn spelling_at(alloc: Global, row: &Row, at: usize) -> Result<Listed<u8>, TableFault>
    ensures ok { IfOk result (λ x. IsTrue (is_word is_any (column row.now at)) × (bytes (column row.now at) ≡ x)) }
    ensures foreign { IfErr result (λ e. e ≡ Foreign → is_word is_any (column row.now at) ≡ false) }
{
    match row.get_ref(at) {
        Ok(ValueRef::Text(text)) => {
            let mut copy = Vec::new(alloc);
            copy.extend_from_slice(text)?;
            Ok(Listed::from_vec(copy))
        }
        _ => Err(TableFault::Foreign),
    }
}

/// Nothing where the column has this number, or `Foreign`.
pub fn expect_number(row: &Row, at: usize, n: u64) -> Result<(), TableFault>
    requires { n < 2 ^ 63 }
    ensures ok { IfOk result (λ x. IsTrue (is_the_number n (column row.now at))) }
    ensures foreign { IfErr result (λ e. is_the_number n (column row.now at) ≡ false) }
{
    match row.get_ref(at) {
        Ok(ValueRef::Int(found)) if found == n as i64 => Ok(()),
        _ => Err(TableFault::Foreign),
    }
}

/// Nothing where the column has the mark of the books, or `Foreign`.
pub fn expect_mark(row: &Row, at: usize) -> Result<(), TableFault>
    ensures ok { IfOk result (λ x. IsTrue (is_the_text (codes "LOTSTOCK") (column row.now at))) }
    ensures foreign { IfErr result (λ e. is_the_text (codes "LOTSTOCK") (column row.now at) ≡ false) }
{
    match row.get_ref(at) {
        Ok(ValueRef::Text(text)) if text == b"LOTSTOCK".as_slice() => Ok(()),
        _ => Err(TableFault::Foreign),
    }
}
