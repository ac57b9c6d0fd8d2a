//! A line of a text, of which no more is kept than a line may have.

ghost use Rattle.std.specs.Prelude.{◌≡◌, ◌≢◌, ◌<◌, ◌≤◌, ◌-◌, ◌==◌, if◌then◌else◌, true, false, All, Ok, IfOk, OnSome, length, take};
ghost use Rattle.std.specs.Io.{StartsWith, StopsAt, IsEmptyOrEndsWith, appended_bytes};
ghost use Rattle.std.specs.Io.KnownBytes.{Consumes, IsAtEnd};
ghost use Rattle.histories.specs.Reading.{IsLine, IsPart};
ghost use Rattle.histories.specs.declared.reading.Ended.TheVariants.{Whole, Part, Long};

use std::alloc::AllocError;
use std::io::BufRead;

/// How many bytes of a line are read at most, its line feed among them. No act has a line of more than 4,717 bytes.
pub const LINE_MAX: usize = 8_192;

/// How a line that was read ends.
#[derive(Clone, Copy, PartialEq, Eq, Debug)]
pub enum Ended {
    /// With its line feed.
    Whole,
    /// With the input.
    Part,
    /// It has no line feed among its first [`LINE_MAX`] bytes, which were read.
    Long,
}

/// Why no line was read.
#[derive(Clone, Copy, PartialEq, Eq, Debug)]
pub enum ReadFault {
    /// Memory did not suffice.
    Memory,
    /// The input cannot be read.
    Input,
}

impl From<AllocError> for ReadFault {
    fn from(_: AllocError) -> ReadFault {
        ReadFault::Memory
    }
}

/// Reads the next line, with its line feed, as it comes: no byte behind it is waited for.
pub fn read_line<R: BufRead>(reader: &mut R, line: &mut Vec<u8>) -> Result<Ended, ReadFault>
    ensures bytes { Consumes (R.remaining reader.old) (R.remaining reader.new) line.new.items }
    ensures whole { IfOk result (λ ends. ends ≡ Whole → IsLine line.new.items) }
    ensures part { IfOk result (λ ends. ends ≡ Part → IsPart line.new.items × OnSome (R.remaining reader.old) (IsAtEnd (R.remaining reader.new))) }
    ensures long { IfOk result (λ ends. ends ≡ Long → IsPart line.new.items × (length line.new.items ≡ 8_192)) }
{
    line.clear();
    while line.len() < LINE_MAX {
        let before = line.len();
        if append_piece(reader, line)? {
            return Ok(how_it_ends(before, line));
        }
    }
    Ok(Ended::Long)
}

/// How a line ends of which the last piece has come, behind so many bytes.
fn how_it_ends(before: usize, line: &[u8]) -> Ended
    ensures { result ≡ (if length line.now == before then Part else Whole) }
{
    if line.len() == before {
        Ended::Part
    } else {
        Ended::Whole
    }
}

/// Appends the next bytes that the reader has, up to a line feed or to [`LINE_MAX`]. Whether the line is at its end.
fn append_piece<R: BufRead>(reader: &mut R, line: &mut Vec<u8>) -> Result<bool, ReadFault>
    requires room { length line.old.items < 8_192 }
    ensures appends { StartsWith line.new.items line.old.items }
    ensures room { length line.new.items ≤ 8_192 }
    ensures bytes { Consumes (R.remaining reader.old) (R.remaining reader.new) (appended_bytes line.old.items line.new.items) }
    ensures more { result ≡ Ok false → length line.old.items < length line.new.items }
    ensures stops { StopsAt (appended_bytes line.old.items line.new.items) 10 }
    ensures end { result ≡ Ok true → length (appended_bytes line.old.items line.new.items) ≡ 0 → OnSome (R.remaining reader.old) (IsAtEnd (R.remaining reader.new)) }
    ensures unfinished { result ≢ Ok true → All (λ b. b ≢ 10) (appended_bytes line.old.items line.new.items) }
    ensures finished { result ≡ Ok true → IsEmptyOrEndsWith (appended_bytes line.old.items line.new.items) 10 }
{
    let available = match reader.fill_buf() {
        Ok(available) => available,
        Err(_) => return Err(ReadFault::Input),
    };
    let end = piece_len(available, LINE_MAX - line.len());
    line.extend_from_slice(&available[..end])?;
    let is_done = end == 0 || available[end - 1] == b'\n';
    reader.consume(end);
    Ok(is_done)
}

/// How many bytes there are up to the first line feed, with it, and no more than there is room for.
fn piece_len(bytes: &[u8], room: usize) -> usize
    ensures bound { result ≤ length bytes.now }
    ensures room { result ≤ room }
    ensures some { 0 < length bytes.now → 0 < room → 0 < result }
    ensures before { All (λ b. b ≢ 10) (take (result - 1) bytes.now) }
{
    let most = bytes.len().min(room);
    let mut i = 0;
    while i < most {
        if bytes[i] == b'\n' {
            return i + 1;
        }
        i += 1;
    }
    i
}
