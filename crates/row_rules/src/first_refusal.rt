//! Conditions, judged in their order.

ghost use Rattle.std.specs.Prelude.{◌≡◌};
ghost use Rattle.machine.specs.Verdict.{first_refusal};

use commands::Refusal;

/// The refusal of the first condition that holds.
pub fn first_of(conditions: &[(bool, Refusal)]) -> Option<Refusal>
    ensures { result ≡ first_refusal conditions.now }
{
    for (holds, refusal) in conditions {
        if *holds {
            return Some(*refusal);
        }
    }
    None
}
