ghost use Rattle.std.specs.Prelude.{◌≡◌, ◌↔◌, true};
ghost use Rattle.lw_calls.specs.Limits.{IsWithinLimits};
ghost use Rattle.lw_program_desk.specs.Views.{is_from_one};

use lw_calls::{Sizes, limits_of};

/// Whether a desk may have these sizes: the limits of its version hold.
pub fn may_open(sizes: &Sizes) -> bool
    ensures { result ≡ true ↔ IsWithinLimits sizes.now }
{
    let limits = limits_of(sizes.version);
    is_version(sizes.version)
        && is_extent(sizes.width, limits.screen)
        && is_extent(sizes.height, limits.screen)
        && is_extent(sizes.depth, 8)
        && is_extent(sizes.tasks, 16)
        && sizes.slots <= limits.names
        && sizes.bitmaps <= 16
}

fn is_version(version: u32) -> bool
    ensures { result ≡ is_from_one version 3 }
{
    is_extent(version, 3)
}

fn is_extent(number: u32, most: u32) -> bool
    ensures { result ≡ is_from_one number most }
{
    1 <= number && number <= most
}
