//! What a stop leaves behind the lines of a file.

ghost use Rattle.std.specs.Prelude.{◌⊎◌, ◌↔◌, ◌≤◌, ℕ, IsTrue, decimal, length, take};
ghost use Rattle.histories.specs.Reading.{IsNumbered};
ghost use Rattle.acts_files.specs.Torn.{AreOldOrNew, HasNoLine, IsLeftOf, IsBeforeZero, IsPartOf, Begins};

use commands::decimal_text;
use histories::{LINE_MAX, is_numbered};

/// Whether a torn write of these lines may leave these bytes, none of which is a whole line: at most as many bytes as they
/// have, each of them 0 or the one that stands there.
pub(crate) fn is_left_of(lines: &[u8], rest: &[u8]) -> bool
    ensures { IsTrue result ↔ IsLeftOf lines.now rest.now }
{
    rest.len() <= lines.len() && are_old_or_new(lines, rest) && has_no_line(rest)
}

/// Whether each byte is 0 or the one that stands there in the lines.
fn are_old_or_new(lines: &[u8], rest: &[u8]) -> bool
    requires few { length rest.now ≤ length lines.now }
    ensures { IsTrue result ↔ AreOldOrNew lines.now rest.now }
{
    for i in 0..rest.len() {
        if rest[i] != 0 && rest[i] != lines[i] {
            return false;
        }
    }
    true
}

/// Whether a byte 0 stands before each line feed.
fn has_no_line(rest: &[u8]) -> bool
    ensures { IsTrue result ↔ HasNoLine rest.now }
{
    for i in 0..rest.len() {
        if rest[i] == 0 {
            return true;
        }
        if rest[i] == b'\n' {
            return false;
        }
    }
    true
}

/// Whether these bytes are part of the line of the act of this number: they have no line feed, are fewer than [`LINE_MAX`],
/// and begin as that line does, or are 0 from there on where its number does not stand whole.
pub(crate) fn is_part_of(number: u64, rest: &[u8]) -> bool
    ensures { IsTrue result ↔ IsPartOf number rest.now }
{
    rest.len() < LINE_MAX && !rest.contains(&b'\n') && begins_so(number, rest)
}

/// Whether they begin with this number and a tab, or with a beginning of the number, and then a byte 0 or nothing more.
fn begins_so(number: u64, rest: &[u8]) -> bool
    ensures { IsTrue result ↔ (IsNumbered number rest.now ⊎ ((n : ℕ) × IsBeforeZero rest.now n × Begins (take n rest.now) (decimal number))) }
{
    is_numbered(number, rest) || begins_number(number, &rest[..before_zero(rest)])
}

/// Whether they are a beginning of the number.
fn begins_number(number: u64, bytes: &[u8]) -> bool
    ensures { IsTrue result ↔ Begins bytes.now (decimal number) }
{
    decimal_text(number).as_bytes().starts_with(bytes)
}

/// How many bytes stand before the first byte 0.
fn before_zero(rest: &[u8]) -> usize
    ensures { IsBeforeZero rest.now result }
{
    for (i, byte) in rest.iter().enumerate() {
        if *byte == 0 {
            return i;
        }
    }
    rest.len()
}
