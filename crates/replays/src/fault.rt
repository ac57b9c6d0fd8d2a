use commands::Refusal;
use std::alloc::AllocError;

/// Why acts were not done again.
#[derive(Clone, Copy, PartialEq, Eq, Debug)]
pub enum NotReplayed {
    /// The row of the act of this number has a key or a spelling that is none, or a key of the other kind.
    Unspelled { act: u64 },
    /// The act of this number is not accepted after those before it: the refusal, K01 where its key came before.
    Refused { act: u64, why: Refusal },
    /// Memory or a size did not suffice.
    Store,
    /// Never on books of a history.
    Foreign,
}

impl From<AllocError> for NotReplayed {
    ghost use Rattle.std.specs.Prelude.{◌≡◌};
    ghost use Rattle.replays.specs.declared.fault.NotReplayed.TheVariants.{Store};

    ghost from_gives = { λ _ e. e ≡ Store };

    fn from(_: AllocError) -> NotReplayed {
        NotReplayed::Store
    }
}
