//! The acts that rows of `repeats` spell, done again.

ghost use Rattle.std.specs.Prelude.{◌≡◌, [], ℤ, List, OnOk, vec_len};
ghost use Rattle.machine.specs.Acts.{Act};
ghost use Rattle.machine.specs.Once.{IsHistory};
ghost use Rattle.store.specs.Books.{HoldsBooks, IsClean};
ghost use Rattle.replays.specs.Replaying.{IsOpen, IsRowReplayed, AreRowsReplayed};

use crate::again::act_again;
use crate::{NotReplayed, Progress};
use commands::RepeatRow;
use commands::laws::{every_command_is_sound, every_key_is_sound};
use sqlite::Alter;
use std::alloc::Global;
use store::Books;
use texts::{parse, parse_key};

/// Does the acts again that the rows of `repeats` spell, on books in which nothing has been done. The newest row is the first,
/// and each is let go once its act is done. `Ok` exactly where the rows spell a history from the books' day, as far as memory
/// suffices: the books are then those of it, and open where they were. Else the first act that has no key or spelling of its
/// own, or is refused, with its number.
pub fn replay_rows<S: Alter, P: Progress>(
    alloc: Global,
    books: &mut Books<S>,
    mut rows: Vec<RepeatRow>,
    progress: &mut P,
) -> Result<(), NotReplayed>
    ensures clean { IsClean S.Store books.new → IsClean S.Store books.old }
    ensures replayed { IsClean S.Store books.new → (first : ℤ) → IsHistory first [] → HoldsBooks S.Store first [] books.old
        → AreRowsReplayed S.Store first rows.items result books.new }
    ensures open { IsClean S.Store books.new → (first : ℤ) → IsHistory first [] → HoldsBooks S.Store first [] books.old → IsOpen S.Store books.old
        → OnOk result (IsOpen S.Store books.new) }
{
    let all = rows.len() as u64;
    while let Some(row) = rows.pop() {
        match replay_row(alloc, books, &row) {
            Ok(()) => progress.done(row.act, all),
            Err(fault) => return Err(fault),
        }
        give_back(&mut rows);
    }
    Ok(())
}

/// How many rows go before their room is given back.
const GIVEN_BACK: usize = 4096;

/// Gives back the room of rows that are gone, now and then.
fn give_back(rows: &mut Vec<RepeatRow>)
    ensures items { rows.new.items ≡ rows.old.items }
    ensures len { vec_len rows.new ≡ vec_len rows.old }
{
    if rows.len() % GIVEN_BACK == 0 {
        rows.shrink_to_fit();
    }
}

/// Does the act again that a row spells.
fn replay_row<S: Alter>(
    alloc: Global,
    books: &mut Books<S>,
    row: &RepeatRow,
) -> Result<(), NotReplayed>
    ensures clean { IsClean S.Store books.new → IsClean S.Store books.old }
    ensures replayed { IsClean S.Store books.new → (first : ℤ) (acts : List Act) → IsHistory first acts → HoldsBooks S.Store first acts books.old
        → IsRowReplayed S.Store first acts row.now result books.new }
{
    let Some(key) = parse_key(alloc, row.k.as_bytes())? else {
        return Err(NotReplayed::Unspelled { act: row.act });
    };
    let Some(command) = parse(alloc, row.spell.as_slice())? else {
        return Err(NotReplayed::Unspelled { act: row.act });
    };
    every_key_is_sound(key);
    every_command_is_sound(&command);
    act_again(books, row.act, &key, &command)
}
