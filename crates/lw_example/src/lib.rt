//! What a caller of `lw_region` looks like: one function whose contract follows from those that it calls.
#![tactic(auto)]

ghost use Rattle.std.specs.Prelude.{◌≡◌, ◌&&◌, not, ℤ, IfOk};
ghost use Rattle.lw_region.specs.Rectangle.{has_pixel};
ghost use Rattle.lw_region.specs.Bands.{covers};

use lw_region::{Rect, Region, combined_lists_law};
use std::alloc::{AllocError, Global};

/// The pixels of a window that another one in front of it leaves visible.
pub fn left_visible(alloc: Global, window: &Rect, front: &Rect) -> Result<Region, AllocError>
    ensures { IfOk result (λ seen. (x y : ℤ) → covers seen x y
        ≡ (has_pixel window.now x y && not (has_pixel front.now x y))) }
{
    let mut seen = Region::new(alloc);
    seen.or_rect(alloc, window)?;
    seen.clear_rect(alloc, front)?;
    combined_lists_law();
    Ok(seen)
}
