/// A blit's rectangles and its minterm (BltBitMapRastPort, ClipBlit).
#[derive(Clone, Copy, Debug, PartialEq, Eq)]
pub struct Area {
    /// The source's left column, -32768 to 32767.
    pub sx: i32,
    /// The source's top row, -32768 to 32767.
    pub sy: i32,
    /// The destination's left column in layer coordinates, -32768 to 32767.
    pub x: i32,
    /// The destination's top row in layer coordinates, -32768 to 32767.
    pub y: i32,
    /// How many columns are taken, 1 to 32767.
    pub w: i32,
    /// How many rows are taken, 1 to 32767.
    pub h: i32,
    /// The minterm: 00, 10, .. f0. Bit 0x80 is its value where source and destination have the bit, 0x40 where the
    /// source alone has it, 0x20 where the destination alone has it, and 0x10 where neither has.
    pub minterm: u8,
}
