// Which columns or rows of a layer a blit reaches.

ghost use Rattle.std.specs.Prelude.{◌≡◌, ℕ, ◌^◌, ◌<◌, ◌≤◌, ◌&&◌, ℤ, pos, negsuc, ◌+ℤ◌, ◌-ℤ◌, ◌≤ℤ◌};
ghost use Rattle.lw_region.specs.Rectangle.{within};
ghost use Rattle.lw_kernels.specs.Kernel.{is_between};
ghost use Rattle.lw_machine.specs.Blits.{source_column, source_row};
ghost use Rattle.lw_blit.specs.Blitting.{has_place, IsNear};

use lw_calls::Area;
use lw_draw::{Places, edge};

// Of `count` places from one on, those that lie in the layer and whose sources lie in the source, in which the first one's is at
// `source`. Both extents are at most 2048.
fn reached(place: i32, count: i32, source: i32, source_extent: u32, extent: u32) -> Places
    requires place_low { negsuc 65535 ≤ℤ place }
    requires place_high { place ≤ℤ pos 65535 }
    requires source_low { negsuc 65535 ≤ℤ source }
    requires source_high { source ≤ℤ pos 65535 }
    requires count_low { pos 0 ≤ℤ count }
    requires count_high { count ≤ℤ pos 65535 }
    requires source_extent { source_extent ≤ 2048 }
    requires extent { extent ≤ 2048 }
    ensures inside { result.end ≤ extent }
    ensures has { (u : ℕ) → u < extent →
        (within place (pos u) ((place +ℤ count) -ℤ pos 1) && has_place source_extent (pos u +ℤ (source -ℤ place))) ≡
        is_between result.from result.end u }
{
    let shift = place - source;
    let first = edge(place.max(shift), extent);
    let end = edge((place + count).min(shift + source_extent as i32), extent);
    Places {
        from: first,
        end: end.max(first),
    }
}

// The layer's columns that a blit reaches, from a source of this width.
pub(crate) fn columns_of(area: &Area, source_extent: u32, extent: u32) -> Places
    requires near { IsNear area.now }
    requires source_extent { source_extent ≤ 2048 }
    requires extent { extent ≤ 2048 }
    ensures inside { result.end ≤ extent }
    ensures has { (u : ℕ) → u < extent →
        (within area.now.x (pos u) ((area.now.x +ℤ area.now.w) -ℤ pos 1) && has_place source_extent (source_column area.now u)) ≡
        is_between result.from result.end u }
{
    reached(area.x, area.w, area.sx, source_extent, extent)
}

// Its rows that a blit reaches, from a source of this height.
pub(crate) fn rows_of(area: &Area, source_extent: u32, extent: u32) -> Places
    requires near { IsNear area.now }
    requires source_extent { source_extent ≤ 2048 }
    requires extent { extent ≤ 2048 }
    ensures inside { result.end ≤ extent }
    ensures has { (u : ℕ) → u < extent →
        (within area.now.y (pos u) ((area.now.y +ℤ area.now.h) -ℤ pos 1) && has_place source_extent (source_row area.now u)) ≡
        is_between result.from result.end u }
{
    reached(area.y, area.h, area.sy, source_extent, extent)
}

// The column of the source of a column, or the row of that of a row.
pub(crate) fn source_place(place: u32, shift: i32) -> i32
    requires near { place ≤ 65536 }
    requires low { negsuc 131071 ≤ℤ shift }
    requires high { shift ≤ℤ pos 131071 }
    ensures { result ≡ pos place +ℤ shift }
{
    place as i32 + shift
}

// The same of a blit, where the source has that column or row.
pub(crate) fn source_index(place: u32, source: i32, to: i32) -> u32
    requires near { place ≤ 65536 }
    requires source_low { negsuc 65535 ≤ℤ source }
    requires source_high { source ≤ℤ pos 65535 }
    requires to_low { negsuc 65535 ≤ℤ to }
    requires to_high { to ≤ℤ pos 65535 }
    requires inside { pos 0 ≤ℤ (pos place +ℤ (source -ℤ to)) }
    ensures value { pos result ≡ pos place +ℤ (source -ℤ to) }
    ensures near { result < 2 ^ 20 }
{
    (place as i32 + (source - to)) as u32
}
