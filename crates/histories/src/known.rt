//! The lines of a text, held against the rows of the acts that the books have.

ghost use Rattle.std.specs.Prelude.{◌≡◌, ◌⊎◌, ◌+◌, Err, OnOk, OnErr, IfErr};
ghost use Rattle.histories.specs.Lines.{row_line};
ghost use Rattle.histories.specs.Reading.{IsNumbered};
ghost use Rattle.histories.specs.declared.line_fault.LineFault.TheVariants.{OutOfTurn};
ghost use Rattle.histories.specs.LineFaults.{IsOfRow};
ghost use Rattle.histories.specs.Known.{TakesRow, Looks, Stopped, Misses, IsUnlike};
ghost use Rattle.histories.specs.declared.known.Place.TheVariants.{Within as WithinText};

use crate::cut::is_numbered;
use crate::line_fault::LineFault;
use crate::reading::{Ended, read_line};
use crate::{act_text, day_after, is_next};
use commands::{RepeatRow, Sink, Stop};
use label::Day;
use std::alloc::Global;
use std::io::BufRead;

/// Where the rows of the acts are beside the text.
#[derive(Clone, Copy, PartialEq, Eq, Debug)]
pub enum Place {
    /// Before its first line, which was read.
    Before,
    /// At a line of it.
    Within,
    /// Behind its last line.
    Behind,
}

/// Takes the rows of the acts, in the order of their numbers, and holds the lines of a text against them, from the act on of
/// which the first line bears the number. It stops at the first line that is another, at a row that is not of the next act
/// or spells no command, where no memory is left, and where the text cannot be read.
#[derive(Drop)]
pub struct KnownLines<R> {
    pub alloc: Global,
    pub reader: R,
    /// The line that was read last.
    pub line: Vec<u8>,
    /// The number of the last act.
    pub done: u64,
    /// The business day after it.
    pub day: Day,
    /// How many of the acts have a line in the text so far, and the number of the last one of these.
    pub known: u64,
    pub last: u64,
    pub place: Place,
    /// Why it stopped, where it did.
    pub fault: LineFault,
}

impl<R: BufRead> Sink<RepeatRow> for KnownLines<R> {
    ghost use Rattle.histories.specs.Known.{TakesRow, StopsAt};

    ghost takes = { TakesRow R.remaining };

    ghost stops = { StopsAt R.remaining };

    fn take(&mut self, row: &RepeatRow) -> Result<(), Stop> {
        match self.pass(row) {
            Ok(()) => Ok(()),
            Err(fault) => {
                self.fault = fault;
                Err(Stop)
            }
        }
    }
}

impl<R: BufRead> KnownLines<R> {
    fn pass(&mut self, row: &RepeatRow) -> Result<(), LineFault>
        ensures passed { OnOk result (TakesRow R.remaining self.old row.now self.new) }
        ensures stopped { IfErr result (Stopped R.remaining self.old row.now self.new) }
    {
        if !is_next(row.act, self.done) {
            return Err(LineFault::Foreign);
        }
        let day = day_after(self.alloc, self.day, row.spell.as_slice())?;
        self.look(day, row)?;
        self.done = row.act;
        self.day = day;
        Ok(())
    }

    /// Holds the next line of the text against the act, where the act has one.
    fn look(&mut self, day: Day, row: &RepeatRow) -> Result<(), LineFault>
        ensures looked { OnOk result (Looks R.remaining self.old row.now.act (row_line day row.now) self.new) }
        ensures kept { (self.new.done ≡ self.old.done) × (self.new.day ≡ self.old.day) }
        ensures missed { IfErr result (λ fault. IsOfRow self.old.done row.now fault ⊎ Misses R.remaining self.old row.now.act (row_line day row.now) fault self.new) }
    {
        match self.place {
            Place::Behind => Ok(()),
            Place::Before => {
                if is_numbered(row.act, self.line.as_slice()) {
                    self.compare(day, row)
                } else {
                    Ok(())
                }
            }
            Place::Within => match read_line(&mut self.reader, &mut self.line)? {
                Ended::Whole => self.compare(day, row),
                Ended::Part => {
                    self.place = Place::Behind;
                    Ok(())
                }
                Ended::Long => Err(LineFault::OutOfTurn),
            },
        }
    }

    /// Compares the line that was read with that of the act.
    fn compare(&mut self, day: Day, row: &RepeatRow) -> Result<(), LineFault>
        ensures known { OnOk result ((self.old.line.items ≡ row_line day row.now) × (self.new.place ≡ WithinText) × (self.new.known ≡ self.old.known + 1) × (self.new.last ≡ row.now.act)) }
        ensures kept { (self.new.done ≡ self.old.done) × (self.new.day ≡ self.old.day) }
        ensures uncounted { OnErr result (self.new.known ≡ self.old.known) }
        ensures unlike { IfErr result (IsUnlike row.now.act (row_line day row.now) self.old.line.items) }
        ensures numbered { result ≡ Err OutOfTurn → ¬ IsNumbered row.now.act self.old.line.items }
        ensures same { (self.new.reader ≡ self.old.reader) × (self.new.line ≡ self.old.line) }
    {
        let made = act_text(
            self.alloc,
            row.act,
            day,
            row.k.as_bytes(),
            row.spell.as_slice(),
        )?;
        if made.as_slice() != self.line.as_slice() {
            return Err(if is_numbered(row.act, self.line.as_slice()) {
                LineFault::Differs(row.act)
            } else {
                LineFault::OutOfTurn
            });
        }
        let Some(known) = self.known.checked_add(1) else {
            return Err(LineFault::Memory);
        };
        self.known = known;
        self.last = row.act;
        self.place = Place::Within;
        Ok(())
    }
}
