ghost use Rattle.std.specs.Prelude.{◌≡◌};
ghost use Rattle.lw_display.specs.declared.stop.ShowStop.TheVariants.{Memory};

use crate::reason::ShowReason;
use std::alloc::{AllocError, AllocFailed};
use thiserror::Error;

/// Why a show was not read.
#[derive(Debug, PartialEq, Eq, Drop, Error)]
pub enum ShowStop {
    /// The first bad line, counted from 1, and its first reason.
    #[error("line {line} is refused: {reason:?}")]
    Refused { line: u32, reason: ShowReason },
    /// Memory ran out.
    #[error("out of memory")]
    Memory,
}

impl From<AllocError> for ShowStop {
    ghost from_gives = { λ _ e. e ≡ Memory };

    fn from(_error: AllocError) -> ShowStop {
        ShowStop::Memory
    }
}

impl<T: Drop> From<AllocFailed<T>> for ShowStop {
    ghost from_gives = { λ _ e. e ≡ Memory };

    fn from(_error: AllocFailed<T>) -> ShowStop {
        ShowStop::Memory
    }
}
