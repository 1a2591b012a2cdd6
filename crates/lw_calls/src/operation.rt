/// How a region call joins a rectangle to a register (OrRectRegion, AndRectRegion, XorRectRegion, ClearRectRegion).
#[derive(Clone, Copy, Debug, PartialEq, Eq)]
pub enum RectOp {
    /// Adds the rectangle's pixels.
    Or,
    /// Keeps the pixels that are in the rectangle.
    And,
    /// Keeps the pixels that are in just one of the two.
    Xor,
    /// Takes the rectangle's pixels out.
    Clear,
}

/// How a region call joins a register to another, which receives the result (OrRegionRegion, AndRegionRegion,
/// XorRegionRegion).
#[derive(Clone, Copy, Debug, PartialEq, Eq)]
pub enum PairOp {
    /// The pixels of either.
    Or,
    /// The pixels of both.
    And,
    /// The pixels of just one of the two.
    Xor,
}
