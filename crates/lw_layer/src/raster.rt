/// How a layer paints, after the `RastPort` structure of graphics.library: pens A and B, the drawing mode (0 to 7: JAM2 is 1,
/// COMPLEMENT 2, INVERSVID 4), the mask of the planes that are painted, and the cursor in layer coordinates.
#[derive(Clone, Copy, Debug, PartialEq, Eq)]
pub struct Raster {
    pub a: u8,
    pub b: u8,
    pub mode: u8,
    pub mask: u8,
    pub x: i16,
    pub y: i16,
}
