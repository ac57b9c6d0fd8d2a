//! The turn of an act.

ghost use Rattle.std.specs.Prelude.{◌≡◌, ◌↔◌, ◌+◌, IsTrue};

/// Whether this is the number of the act that comes next, behind so many.
pub fn is_next(number: u64, done: u64) -> bool
    ensures { IsTrue result ↔ (number ≡ done + 1) }
{
    done < number && number - done == 1
}
