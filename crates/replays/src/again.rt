//! One act, done again.

ghost use Rattle.std.specs.Prelude.{◌∷◌, ℤ, List, OnOk, OnErr, IsTrue};
ghost use Rattle.sqlite.specs.Held.{state};
ghost use Rattle.sqlite.specs.State.{Survives};
ghost use Rattle.machine.specs.Acts.{Act};
ghost use Rattle.machine.specs.Once.{IsHistory, is_key_of, acts_after};
ghost use Rattle.store.specs.Books.{HoldsBooks, KeepsBooks, AreBooks, LeavesOnly, IsClean};
ghost use Rattle.replays.specs.Replaying.{IsReplayed};

use crate::NotReplayed;
use commands::laws::{every_command_is_sound, every_key_is_sound};
use commands::{Command, Key, Refusal};
use sqlite::Alter;
use store::{Books, Fault};

/// Does the act of this number again. `Ok` exactly where it goes on with the history, as far as memory suffices: the books
/// are then those of it too, and so is whatever a stop leaves from then on. After a fault they are those of the acts before
/// it.
pub fn act_again<S: Alter>(
    books: &mut Books<S>,
    number: u64,
    key: &Key,
    command: &Command,
) -> Result<(), NotReplayed>
    ensures clean { IsClean S.Store books.new → IsClean S.Store books.old }
    ensures replayed { IsClean S.Store books.new → (first : ℤ) (acts : List Act) → IsHistory first acts → HoldsBooks S.Store first acts books.old
        → IsReplayed S.Store first acts (record { key = key.now; command = command.now }) number result books.new }
    ensures left { IsClean S.Store books.new → (first : ℤ) (acts : List Act) → IsHistory first acts → HoldsBooks S.Store first acts books.old
        → OnErr result (HoldsBooks S.Store first acts books.new) }
    ensures kept { IsClean S.Store books.new → (first : ℤ) (acts : List Act) → IsHistory first acts → HoldsBooks S.Store first acts books.old
        → OnOk result (LeavesOnly first (record { key = key.now; command = command.now } ∷ acts) (state S.Store books.new.conn)) }
    ensures survives { Survives (state S.Store books.old.conn) (state S.Store books.new.conn) (λ trees. IsTrue (is_key_of key.now command.now)
        → (first : ℤ) (acts : List Act) → IsHistory first acts → KeepsBooks first acts (state S.Store books.old.conn)
        → AreBooks first (acts_after first acts (record { key = key.now; command = command.now })) trees) }
{
    if !key.is_of(command) {
        return Err(NotReplayed::Unspelled { act: number });
    }
    every_key_is_sound(*key);
    every_command_is_sound(command);
    match books.act(key, command) {
        Ok(reply) => {
            if reply.repeated {
                Err(NotReplayed::Refused {
                    act: number,
                    why: Refusal::KeyUsed,
                })
            } else {
                Ok(())
            }
        }
        Err(Fault::Refused(why)) => Err(NotReplayed::Refused { act: number, why }),
        Err(Fault::Store) => Err(NotReplayed::Store),
        Err(Fault::Foreign) => Err(NotReplayed::Foreign),
    }
}
