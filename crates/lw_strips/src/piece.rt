use lw_region::Rect;

/// A piece of the screen that one owner loses to another. Owners are numbers.
#[derive(Clone, Copy, Debug)]
pub struct Piece {
    /// Who loses it.
    pub from: u32,
    /// Who gains it.
    pub to: u32,
    /// Its rectangle, in screen coordinates.
    pub rect: Rect,
}
