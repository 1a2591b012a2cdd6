ghost use Rattle.std.specs.Prelude.{◌≡◌};
ghost use Rattle.lw_ilbm.specs.declared.stop.PictureStop.TheVariants.{Memory};

use std::alloc::AllocError;
use thiserror::Error;

/// Why a file gave no picture.
#[derive(Debug, PartialEq, Eq, Drop, Error)]
pub enum PictureStop {
    /// The file's first fault is at this place: the number of bytes before it.
    #[error("bad picture at {place}")]
    BadPicture { place: u32 },
    /// Memory ran out.
    #[error("out of memory")]
    Memory,
}

impl From<AllocError> for PictureStop {
    ghost from_gives = { λ _ e. e ≡ Memory };

    fn from(_error: AllocError) -> PictureStop {
        PictureStop::Memory
    }
}
