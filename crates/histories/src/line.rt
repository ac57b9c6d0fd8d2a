//! The line of an act.

ghost use Rattle.std.specs.Prelude.{◌≡◌, ◌≢◌, ◌++◌, ◌∷◌, IfOk, IfErr, OnOk};
ghost use Rattle.texts.specs.Writing.{Writes};
ghost use Rattle.histories.specs.Text.{tabbed, history_line};
ghost use Rattle.histories.specs.Lines.{row_line};
ghost use Rattle.histories.specs.declared.fault.HistoryFault.TheVariants.{Foreign};

use crate::HistoryFault;
use commands::{RepeatRow, decimal_text};
use label::Day;
use std::alloc::{AllocError, Global};
use std::io::Write;
use texts::put;

/// Writes the line of an act of this day. After a fault a beginning of it stands.
pub(crate) fn put_line<W: Write>(
    alloc: Global,
    day: Day,
    row: &RepeatRow,
    out: &mut W,
) -> Result<(), HistoryFault>
    ensures written { Writes result (W.contents out.old) (W.contents out.new) (row_line day row.now) }
    ensures own { IfErr result (λ fault. fault ≢ Foreign) }
{
    let line = act_text(alloc, row.act, day, row.k.as_bytes(), row.spell.as_slice())?;
    match put(line.as_slice(), out) {
        Ok(()) => Ok(()),
        Err(_) => Err(HistoryFault::Output),
    }
}

/// The line of an act: its number, its day, the text of its key and the spelling of its command.
pub fn act_text(
    alloc: Global,
    number: u64,
    day: Day,
    key: &[u8],
    spell: &[u8],
) -> Result<Vec<u8>, AllocError>
    ensures { IfOk result (λ line. line.items ≡ history_line number day key.now spell.now) }
{
    let spell = with_tabs(alloc, spell)?;
    let mut line = decimal_text(number).as_bytes().to_vec(alloc)?;
    add_field(&mut line, &day.text())?;
    add_field(&mut line, key)?;
    add_field(&mut line, spell.as_slice())?;
    line.push(b'\n')?;
    Ok(line)
}

/// A tab and a field.
fn add_field(line: &mut Vec<u8>, field: &[u8]) -> Result<(), AllocError>
    ensures { OnOk result (line.new.items ≡ line.old.items ++ 9 ∷ field.now) }
{
    line.push(b'\t')?;
    line.extend_from_slice(field)
}

/// The text with a tab for each line feed.
fn with_tabs(alloc: Global, text: &[u8]) -> Result<Vec<u8>, AllocError>
    ensures { IfOk result (λ tabs. tabs.items ≡ tabbed text.now) }
{
    text.iter()
        .map(|b| if *b == b'\n' { b'\t' } else { *b })
        .collect(alloc)
}
