// The columns or rows of a shape, as far as the layer has them.

ghost use Rattle.std.specs.Prelude.{◌≡◌, ℕ, ◌<◌, ◌≤◌, pos, ◌≤ℤ◌, int_le};
ghost use Rattle.lw_region.specs.Rectangle.{within};
ghost use Rattle.lw_kernels.specs.Kernel.{is_between};

/// Columns or rows of a layer, from one on and before another, which is the same where there is none of them.
#[derive(Clone, Copy)]
pub struct Places {
    /// The first of them.
    pub from: u32,
    /// The one after the last.
    pub end: u32,
    pub ghost ordered: { from ≤ end },
}

/// Of the places from the least to the greatest, both inclusive, those from 0 on and before the extent, which is at most 2048.
pub fn span(least: i16, greatest: i16, extent: u32) -> Places
    requires ordered { least ≤ℤ greatest }
    requires near { extent ≤ 2048 }
    ensures inside { result.end ≤ extent }
    ensures has { (u : ℕ) → u < extent → within least (pos u) greatest ≡ is_between result.from result.end u }
{
    Places {
        from: edge(i32::from(least), extent),
        end: edge(i32::from(greatest) + 1, extent),
    }
}

// Of some places those before the extent.
pub(crate) fn before(places: Places, extent: u32) -> Places
    ensures inside { result.end ≤ extent }
    ensures has { (u : ℕ) → u < extent → is_between result.from result.end u ≡ is_between places.from places.end u }
{
    Places {
        from: places.from.min(extent),
        end: places.end.min(extent),
    }
}

/// A place, or the nearest one from 0 to the extent, which is at most 2048.
pub fn edge(place: i32, extent: u32) -> u32
    requires { extent ≤ 2048 }
    ensures inside { result ≤ extent }
    ensures from { (u : ℕ) → u < extent → int_le place (pos u) ≡ int_le (pos result) (pos u) }
{
    place.clamp(0, extent as i32) as u32
}
