//! A sink that writes a line for each act.

ghost use Rattle.std.specs.Prelude.{◌≡◌, ◌⊎◌, ◌+◌, Err, IfOk, IfErr, OnOk, OnErr};
ghost use Rattle.machine.specs.Standing.{day_after_command};
ghost use Rattle.histories.specs.Faults.{IsOfSpelling, IsOfRow};
ghost use Rattle.histories.specs.Lines.{IsDayAfter, AddsLine, CutsLine};
ghost use Rattle.histories.specs.declared.fault.HistoryFault.TheVariants.{Foreign};

use crate::line::put_line;
use crate::spelled::read_spelling;
use crate::{HistoryFault, is_next};
use commands::{Command, RepeatRow, Sink, Stop};
use label::Day;
use std::alloc::Global;
use std::io::Write;

/// Writes the lines of the acts to `out`, in the order of their numbers. It stops at a row that is not of the next act or
/// spells no command, where no memory is left, and where `out` fails: a beginning of the line then stands.
#[derive(Drop)]
pub struct HistoryLines<W> {
    pub alloc: Global,
    /// The business day after the last act.
    pub day: Day,
    /// The number of the last act.
    pub done: u64,
    /// Why it stopped, where it did.
    pub fault: HistoryFault,
    pub out: W,
}

impl<W: Write> Sink<RepeatRow> for HistoryLines<W> {
    ghost use Rattle.histories.specs.Lines.{AddsLine, StopsLine};

    ghost takes = { AddsLine W.contents };

    ghost stops = { StopsLine W.contents };

    fn take(&mut self, row: &RepeatRow) -> Result<(), Stop> {
        match self.put(row) {
            Ok(()) => Ok(()),
            Err(fault) => {
                self.fault = fault;
                Err(Stop)
            }
        }
    }
}

impl<W: Write> HistoryLines<W> {
    fn put(&mut self, row: &RepeatRow) -> Result<(), HistoryFault>
        ensures added { OnOk result (AddsLine W.contents self.old row.now self.new) }
        ensures cut { OnErr result (CutsLine W.contents self.old row.now self.new) }
        ensures turn { (row.now.act ≡ self.old.done + 1) ⊎ (result ≡ Err Foreign) }
        ensures fault { IfErr result (IsOfRow self.old.done row.now) }
    {
        if !is_next(row.act, self.done) {
            return Err(HistoryFault::Foreign);
        }
        let day = day_after(self.alloc, self.day, row.spell.as_slice())?;
        put_line(self.alloc, day, row, &mut self.out)?;
        self.day = day;
        self.done = row.act;
        Ok(())
    }
}

/// The business day after the command that is spelled so: the day that it opens, or the day before it.
pub fn day_after(alloc: Global, day: Day, spell: &[u8]) -> Result<Day, HistoryFault>
    ensures day { IfOk result (λ after. IsDayAfter spell.now day after) }
    ensures fault { IfErr result (IsOfSpelling spell.now) }
{
    let command = read_spelling(alloc, spell)?;
    let after = day_then(&command, day);
    // A call: dropped at the end of its scope it is dropped field by field (docs/GATE.md).
    drop(command);
    Ok(after)
}

/// The business day after a command.
pub fn day_then(command: &Command, day: Day) -> Day
    ensures { result ≡ day_after_command command.now day }
{
    match command {
        Command::OpenDay(opened) => opened.day(),
        _ => day,
    }
}
