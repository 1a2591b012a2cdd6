ghost use Rattle.lw_area.specs.Areas.{AreaHasItsPixels};

/// An area's set has exactly the pixels that are inside the polygon and whose bit of the pattern is 1: none of these is
/// outside the box of the points.
pub fn area_has_its_pixels()
    ensures { AreaHasItsPixels }
{}
