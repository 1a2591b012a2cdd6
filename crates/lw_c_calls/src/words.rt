use lw_c_rectangles::Bounds;

/// A layer that is to be created, as C asks for it. Where `has_hook` is false, `hook` isn't read.
#[repr(C)]
#[derive(Clone, Copy, Debug, PartialEq, Eq)]
pub struct MakeWords {
    /// 0 for a simple layer, 1 for a smart one, 2 for a super-bitmap layer.
    pub kind: u32,
    /// The screen column of the left edge.
    pub x: i32,
    /// The screen row of the top edge.
    pub y: i32,
    /// How many columns.
    pub w: i32,
    /// How many rows.
    pub h: i32,
    /// The number of the hook.
    pub hook: u32,
    /// The width of a super-bitmap layer's bitmap, else 0.
    pub bits_w: u32,
    /// Its height.
    pub bits_h: u32,
    pub has_hook: bool,
    /// Whether it goes behind the others and not in front.
    pub is_behind: bool,
    pub is_backdrop: bool,
}

/// A call, as C makes it. A call reads the fields that it needs, and no others.
#[repr(C)]
#[derive(Clone, Copy, Debug, PartialEq, Eq)]
pub struct CallWords {
    /// Which call it is.
    pub kind: u32,
    /// The layer's slot, or the register that a region call changes.
    pub slot: u32,
    /// The other slot, the register, the hook or the bitmap that it names.
    pub other: u32,
    /// How a rectangle or a register is joined to a register.
    pub operation: u32,
    /// A place, or a step.
    pub x: i32,
    pub y: i32,
    /// A size, or a step of one.
    pub w: i32,
    pub h: i32,
    /// A blit's place in its source.
    pub source_x: i32,
    pub source_y: i32,
    /// A rectangle.
    pub rect: Bounds,
    /// A layer to be created.
    pub make: MakeWords,
    /// A pen, a mask, a mode, a minterm, or the messages that a window asks for.
    pub number: u8,
    /// Whether a window has a frame, or an update that ends was full.
    pub flag: bool,
    /// Whether a window asks for no refresh.
    pub is_nocare: bool,
}
