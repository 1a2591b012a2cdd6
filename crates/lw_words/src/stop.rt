ghost use Rattle.std.specs.Prelude.{◌≡◌};
ghost use Rattle.lw_words.specs.declared.stop.Stop.TheVariants.{Memory};

use lw_grammar::Reason;
use std::alloc::{AllocError, AllocFailed};

/// Why reading stops at a line.
#[derive(Debug, PartialEq, Eq, Drop)]
pub enum Stop {
    /// The line is bad, and this is its first reason.
    Refused(Reason),
    /// Memory ran out.
    Memory,
}

impl From<AllocError> for Stop {
    ghost from_gives = { λ _ e. e ≡ Memory };

    fn from(_error: AllocError) -> Stop {
        Stop::Memory
    }
}

impl<T: Drop> From<AllocFailed<T>> for Stop {
    ghost from_gives = { λ _ e. e ≡ Memory };

    fn from(_error: AllocFailed<T>) -> Stop {
        Stop::Memory
    }
}
