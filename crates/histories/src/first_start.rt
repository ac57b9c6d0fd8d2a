//! A sink that finds the first act that tells of the day that the acts began on.

ghost use Rattle.std.specs.Prelude.{◌≡◌, ◌+◌, IfOk, IfErr, OnOk};
ghost use Rattle.texts.specs.Starting.{Tells};
ghost use Rattle.histories.specs.Faults.{IsOfRow};

use crate::{HistoryFault, is_next};
use commands::{RepeatRow, Sink, Stop};
use std::alloc::Global;
use texts::{Start, told_by_row};

/// Takes the rows of the acts, in the order of their numbers, up to the first that tells of the day. It also stops at a row
/// that is not of the next act or spells no command, and where no memory is left.
#[derive(Drop)]
pub struct FirstStart {
    pub alloc: Global,
    /// The number of the last act.
    pub done: u64,
    pub found: Option<Start>,
    /// Why it stopped, where it found none.
    pub fault: HistoryFault,
}

impl Sink<RepeatRow> for FirstStart {
    ghost use Rattle.histories.specs.Start.{Passes, Finds};

    ghost takes = { Passes };

    ghost stops = { Finds };

    fn take(&mut self, row: &RepeatRow) -> Result<(), Stop> {
        self.found = None;
        match self.pass(row) {
            Ok(None) => {
                self.done = row.act;
                Ok(())
            }
            Ok(Some(start)) => {
                self.found = Some(start);
                Err(Stop)
            }
            Err(fault) => {
                self.fault = fault;
                Err(Stop)
            }
        }
    }
}

impl FirstStart {
    /// What the row tells of the day, if it is that of the next act.
    fn pass(&self, row: &RepeatRow) -> Result<Option<Start>, HistoryFault>
        ensures turn { OnOk result (row.now.act ≡ self.now.done + 1) }
        ensures told { IfOk result (Tells row.now) }
        ensures fault { IfErr result (IsOfRow self.now.done row.now) }
    {
        if !is_next(row.act, self.done) {
            return Err(HistoryFault::Foreign);
        }
        match told_by_row(self.alloc, row)? {
            Some(told) => Ok(told),
            None => Err(HistoryFault::Foreign),
        }
    }
}
