//! The act of a line.

ghost use Rattle.std.specs.Prelude.{◌≡◌, ◌↔◌, IfOk, IsTrue};
ghost use Rattle.commands.specs.Spelling.{key_text, spelling};
ghost use Rattle.histories.specs.Text.{history_line};
ghost use Rattle.histories.specs.Reading.{Bears, IsNumbered};

use crate::act_text;
use commands::{Command, Key, decimal_text, spell};
use label::Day;
use std::alloc::{AllocError, Global};

/// Whether the line begins with this number and a tab.
pub fn is_numbered(number: u64, line: &[u8]) -> bool
    ensures { IsTrue result ↔ IsNumbered number line.now }
{
    bears(decimal_text(number).as_bytes(), line)
}

/// Whether this text and a tab stand first in the line.
fn bears(text: &[u8], line: &[u8]) -> bool
    ensures { IsTrue result ↔ Bears text.now line.now }
{
    let end = text.len();
    if line.len() <= end {
        return false;
    }
    if &line[..end] != text {
        return false;
    }
    line[end] == b'\t'
}

/// Whether the line is that of the act of this number, key and command, on this day.
pub fn is_line_of(
    alloc: Global,
    number: u64,
    day: Day,
    key: &Key,
    command: &Command,
    line: &[u8],
) -> Result<bool, AllocError>
    ensures { IfOk result (λ is. IsTrue is ↔ (line.now ≡ history_line number day (key_text key.now) (spelling command.now))) }
{
    let spell = spell(alloc, command)?;
    let made = act_text(alloc, number, day, key.text().as_bytes(), spell.as_slice())?;
    Ok(made.as_slice() == line)
}
