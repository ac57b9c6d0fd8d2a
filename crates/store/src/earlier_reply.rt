//! What an act is told by the row that an earlier act left.

ghost use Rattle.std.specs.Prelude.{true};
ghost use Rattle.commands.specs.Spelling.{spelling};
ghost use Rattle.store.specs.Answers.{IsToldAgain};

use crate::{Fault, Reply};
use commands::{Command, Refusal, RepeatRow, spell};
use std::alloc::Global;

/// The answer to a command whose key an earlier act bears: that act's answer, if the command is the
/// same, and K01 if it is another.
pub fn repeat_reply(alloc: Global, row: &RepeatRow, command: &Command) -> Result<Reply, Fault>
    ensures { IsToldAgain (spelling command.now) row.now result }
{
    let spelled = spell(alloc, command)?;
    if spelled.as_slice() != row.spell.as_slice() {
        return Err(Fault::Refused(Refusal::KeyUsed));
    }
    Ok(Reply {
        text: row.reply,
        repeated: true,
    })
}
