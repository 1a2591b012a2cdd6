ghost use Rattle.std.specs.Prelude.{◌≡◌};
ghost use Rattle.lw_report_order.specs.declared.order_stop.OrderStop.TheVariants.{Memory};

use std::alloc::{AllocError, AllocFailed};
use thiserror::Error;

/// Why the order of a report was not read.
#[derive(Debug, PartialEq, Eq, Drop, Error)]
pub enum OrderStop {
    /// The bytes begin no order section. So many of them begin one, and no more do.
    #[error("the order ends at {0}")]
    Place(u64),
    /// Memory ran out.
    #[error("out of memory")]
    Memory,
}

impl From<AllocError> for OrderStop {
    ghost from_gives = { λ _ e. e ≡ Memory };

    fn from(_error: AllocError) -> OrderStop {
        OrderStop::Memory
    }
}

impl<T: Drop> From<AllocFailed<T>> for OrderStop {
    ghost from_gives = { λ _ e. e ≡ Memory };

    fn from(_error: AllocFailed<T>) -> OrderStop {
        OrderStop::Memory
    }
}
