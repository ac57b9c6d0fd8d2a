//! What an act tells of the day that the acts began on.

ghost use Rattle.std.specs.Prelude.{◌≡◌, IfOk};
ghost use Rattle.texts.specs.Starting.{told_by as told_by_lem, IsReadFrom, day_before as day_before_lem};

use crate::spelled::parse;
use commands::laws::every_command_is_sound;
use commands::{Command, RepeatRow};
use label::{BusinessDay, Day};
use std::alloc::{AllocError, Global};
use values::LotId;

/// What an act tells of the day that the acts began on.
#[derive(Clone, Copy, PartialEq, Eq, Debug)]
pub enum Start {
    /// It receives this lot, as the act of this number: the line of the lot's card has the day.
    Received(LotId, u64),
    /// It opens this day: the acts began on an earlier one.
    Opened(BusinessDay),
}

/// What a command tells, as the act of this number.
fn told_by(act: u64, command: &Command) -> Option<Start>
    ensures { result ≡ told_by_lem act command.now }
{
    match command {
        Command::Receive(receipt) => Some(Start::Received(receipt.lot, act)),
        Command::OpenDay(day) => Some(Start::Opened(*day)),
        _ => None,
    }
}

/// What the act of a row tells; `None` where its spelling is none.
pub fn told_by_row(alloc: Global, row: &RepeatRow) -> Result<Option<Option<Start>>, AllocError>
    ensures { IfOk result (IsReadFrom row.now) }
{
    match parse(alloc, row.spell.as_slice())? {
        Some(command) => {
            every_command_is_sound(&command);
            Ok(Some(told_by(row.act, &command)))
        }
        None => Ok(None),
    }
}

/// The day before; of the first business day that day itself.
pub fn day_before(day: BusinessDay) -> BusinessDay
    ensures { result ≡ day_before_lem day }
{
    let before = i64::from(day.day().number()) - 1;
    match Day::new(before) {
        Some(earlier) => match BusinessDay::new(earlier) {
            Some(earlier) => earlier,
            None => day,
        },
        None => day,
    }
}
