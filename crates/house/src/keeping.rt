//! Where acts are kept beside the books, before they are answered.

ghost use Rattle.std.specs.Prelude.{◌≡◌, ◌++◌, ℕ, ℤ, List, Bool, OnOk, OnErr, IsTrue};
ghost use Rattle.sqlite.specs.Held.{state};
ghost use Rattle.sqlite.specs.State.{Survives};
ghost use Rattle.machine.specs.Acts.{Act};
ghost use Rattle.machine.specs.Once.{IsHistory};
ghost use Rattle.store.specs.Books.{IsClean, HoldsBooks, AreAsBefore};
ghost use Rattle.house.specs.Keeping.{NoHistory};

use sqlite::Alter;
use std::alloc::Global;
use store::Books;

/// Why acts are not kept.
#[derive(Clone, Copy, PartialEq, Eq, Debug)]
pub enum KeepFault {
    /// Where they are kept cannot be written.
    Place,
    /// Memory or the disk of the books did not suffice.
    Store,
}

/// Keeps the acts of books in a second place.
pub trait Keeper<S: Alter> {
    // It keeps these acts, whose days are counted from this one, also after a stop.
    ghost keeps: { Self → ℤ → List Act → Type 0 };

    // Whatever a stop leaves of it begins with these acts.
    ghost begins: { Self → ℤ → List Act → Type 0 };

    // Whatever a stop leaves of it is the acts before, some of those that came behind them up to the acts after, and part of what was
    // being added.
    ghost leaves: { Self → ℤ → (before after : List Act) → Type 0 };

    // Whatever a stop leaves of it begins with these bytes, whatever they are.
    ghost has_text: { Self → List ℕ → Type 0 };

    // It may fail.
    ghost may_fail: { Type 0 };

    // Its place has returned what was written there.
    ghost is_clean: { Self → Bool };

    /// Adds the acts that the books have and it lacks. Nothing of the books is changed, and nothing that it had is lost,
    /// whatever the books are. One that cannot fail does not read them. After a fault it is not to be asked again.
    fn bring_up(&mut self, alloc: Global, books: &mut Books<S>) -> Result<(), KeepFault>
        ensures clean { IsClean S.Store books.new → IsClean S.Store books.old }
        ensures holds { IsClean S.Store books.new → (first : ℤ) (acts : List Act) → IsHistory first acts → HoldsBooks S.Store first acts books.old
            → HoldsBooks S.Store first acts books.new }
        ensures as_before { IsClean S.Store books.new → AreAsBefore S.Store books.old books.new }
        ensures survives { Survives (state S.Store books.old.conn) (state S.Store books.new.conn) (NoHistory S.Store books.old) }
        ensures kept { IsClean S.Store books.new → (first begun : ℤ) (newer older : List Act) → IsHistory first (newer ++ older) → HoldsBooks S.Store first (newer ++ older) books.old → keeps self.old begun older
            → OnOk result (keeps self.new begun (newer ++ older)) }
        ensures leaves { IsClean S.Store books.new → (first begun : ℤ) (newer older : List Act) → IsHistory first (newer ++ older) → HoldsBooks S.Store first (newer ++ older) books.old → keeps self.old begun older
            → OnErr result (leaves self.new begun older (newer ++ older)) }
        ensures fails { OnErr result may_fail }
        ensures still { ¬ may_fail → books.new ≡ books.old }
        ensures begins { (begun : ℤ) (older : List Act) → keeps self.old begun older → begins self.new begun older }
        ensures loses { (text : List ℕ) → has_text self.old text → has_text self.new text }
        ensures calm { IsTrue (is_clean self.new) → IsTrue (is_clean self.old) };
}

/// Keeps nothing, where no second place is asked for.
#[derive(Clone, Copy)]
pub struct NoKeeper;

impl<S: Alter> Keeper<S> for NoKeeper {
    ghost use Rattle.std.specs.Prelude.{true};

    ghost keeps = { λ _ _ _. Unit {0} };

    ghost begins = { λ _ _ _. Unit {0} };

    ghost leaves = { λ _ _ _ _. Unit {0} };

    ghost has_text = { λ _ _. Unit {0} };

    ghost may_fail = { ⊥ };

    ghost is_clean = { λ _. true };

    fn bring_up(&mut self, _alloc: Global, _books: &mut Books<S>) -> Result<(), KeepFault> {
        Ok(())
    }
}
