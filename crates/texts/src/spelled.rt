//! The command of a spelling.

ghost use Rattle.std.specs.Prelude.{◌≡◌, ◌==◌, Some, IfOk, IfSome, IsTrue};
ghost use Rattle.std.specs.List.{slice_split};
ghost use Rattle.commands.specs.Spelling.{spelling};
ghost use Rattle.commands.specs.Sound.{is_sound};
ghost use Rattle.commands.specs.declared.command.Command.{Command};
ghost use Rattle.texts.specs.Reading.{command_read};

use crate::command::command;
use crate::pieces::lines;
use commands::{Command, spell};
use std::alloc::{AllocError, Global};

/// The command that the text spells, if it spells one: what [`spell`] writes is read again, and nothing else is read.
pub fn parse(alloc: Global, text: &[u8]) -> Result<Option<Command>, AllocError>
    ensures spelled { IfOk result (λ found. IfSome found (λ command. text.now ≡ spelling command)) }
    ensures every { IfOk result (λ found. (command : Command) → IsTrue (is_sound command) → text.now ≡ spelling command → found ≡ Some command) }
{
    match read(alloc, text)? {
        Some(command) => kept(alloc, command, text),
        None => Ok(None),
    }
}

// What the text is read as, which may have another spelling.
fn read(alloc: Global, text: &[u8]) -> Result<Option<Command>, AllocError>
    ensures { IfOk result (λ found. found ≡ command_read (slice_split (λ b. b == 10) text.now)) }
{
    let fields = lines(alloc, text)?;
    let found = command(alloc, &fields);
    // A call: dropped at the end of its scope it is dropped field by field (docs/GATE.md).
    drop(fields);
    found
}

// The command, if the text is its spelling.
fn kept(alloc: Global, command: Command, text: &[u8]) -> Result<Option<Command>, AllocError>
    ensures spelled { IfOk result (λ found. IfSome found (λ c. text.now ≡ spelling c)) }
    ensures own { IfOk result (λ found. text.now ≡ spelling command → found ≡ Some command) }
{
    let spelled = spell(alloc, &command)?;
    if spelled.as_slice() == text {
        Ok(Some(command))
    } else {
        Ok(None)
    }
}
