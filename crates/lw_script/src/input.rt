ghost use Rattle.std.specs.Prelude.{◌≡◌};
ghost use Rattle.lw_script.specs.declared.input.ScriptStop.TheVariants.{Memory};

use lw_calls::{OrderList, Plan};
use lw_grammar::Reason;
use std::alloc::{AllocError, AllocFailed};
use thiserror::Error;

/// What a script gives.
#[derive(Debug, Drop)]
pub struct Input {
    /// What the script says to do.
    pub plan: Plan,
    /// The numbers of its order, none where the script has none.
    pub order: OrderList,
    /// Where the bytes after its line `report` begin, or the number of all bytes where there is no such line.
    pub rest: usize,
}

/// Why a script was not read.
#[derive(Debug, PartialEq, Eq, Drop, Error)]
pub enum ScriptStop {
    /// The first bad line, counted from 1, and its first reason.
    #[error("line {line} is refused: {reason:?}")]
    Refused { line: u32, reason: Reason },
    /// Memory ran out.
    #[error("out of memory")]
    Memory,
}

impl From<AllocError> for ScriptStop {
    ghost from_gives = { λ _ e. e ≡ Memory };

    fn from(_error: AllocError) -> ScriptStop {
        ScriptStop::Memory
    }
}

impl<T: Drop> From<AllocFailed<T>> for ScriptStop {
    ghost from_gives = { λ _ e. e ≡ Memory };

    fn from(_error: AllocFailed<T>) -> ScriptStop {
        ScriptStop::Memory
    }
}
