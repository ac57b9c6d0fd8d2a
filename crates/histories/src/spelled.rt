//! The command of a row.

ghost use Rattle.std.specs.Prelude.{◌≡◌, Ok, Err, None, IfOk, IfErr, IfSome, IsTrue};
ghost use Rattle.commands.specs.Sound.{is_sound};
ghost use Rattle.commands.specs.Spelling.{spelling};
ghost use Rattle.commands.specs.declared.command.Command.{Command as TheCommand};
ghost use Rattle.histories.specs.Faults.{IsOfSpelling};
ghost use Rattle.histories.specs.declared.fault.HistoryFault.TheVariants.{Foreign};

use crate::HistoryFault;
use commands::Command;
use std::alloc::Global;
use texts::parse;

/// The command that is spelled so; `Foreign` where none is.
pub(crate) fn read_spelling(alloc: Global, spell: &[u8]) -> Result<Command, HistoryFault>
    ensures one { IfOk result (λ found. (command : TheCommand) → IsTrue (is_sound command) → spell.now ≡ spelling command → found ≡ command) }
    ensures fault { IfErr result (IsOfSpelling spell.now) }
{
    command_read(parse(alloc, spell)?)
}

/// The command that was read; where none was, the row is not that of an act.
fn command_read(read: Option<Command>) -> Result<Command, HistoryFault>
    ensures some { IfSome read (λ command. result ≡ Ok command) }
    ensures none { read ≡ None → result ≡ Err Foreign }
{
    match read {
        Some(command) => Ok(command),
        None => Err(HistoryFault::Foreign),
    }
}
