ghost use Rattle.std.specs.Prelude.{◌*◌, ◌^◌, ◌<◌};

/// How rows of bits lie over a layer: they are `step` bytes apart, and the first one's bit `bit`, from its left, lies over this
/// column and row of the layer.
#[derive(Clone, Copy)]
pub struct Overlay {
    /// How far apart the rows are, in bytes.
    pub step: usize,
    /// The bit.
    pub bit: u32,
    /// The column.
    pub column: u32,
    /// The row.
    pub row: u32,
    pub ghost near: { 8 * step < 2 ^ 32 },
}
