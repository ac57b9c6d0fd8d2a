//! A sink that takes the lines of a few acts.

use commands::{RepeatRow, Sink, Stop};
use histories::HistoryLines;

/// Writes the lines of the acts, in the order of their numbers, until there is room for no more. It stops then, and where
/// `lines` does.
#[derive(Drop)]
pub struct FewLines {
    pub lines: HistoryLines<Vec<u8>>,
    /// How many more acts there is room for.
    pub room: u64,
}

impl Sink<RepeatRow> for FewLines {
    ghost use Rattle.acts_files.specs.Newer.{AddsOne, StopsFull};

    ghost takes = { AddsOne };

    ghost stops = { StopsFull };

    fn take(&mut self, row: &RepeatRow) -> Result<(), Stop> {
        if self.room == 0 {
            return Err(Stop);
        }
        self.lines.take(row)?;
        self.room -= 1;
        Ok(())
    }
}
