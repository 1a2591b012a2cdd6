/// How a layer keeps the pixels that other layers cover (the manual's Layers Library chapter).
#[derive(Clone, Copy, Debug, PartialEq, Eq)]
pub enum Kind {
    /// LAYERSIMPLE: what is covered is lost, and becomes damage when it is seen again.
    Simple,
    /// LAYERSMART: what is covered is kept.
    Smart,
    /// LAYERSUPER: a bitmap of its own, of which the layer shows a portion.
    SuperBitmap,
}

/// Where a new layer goes among the others (CreateUpfrontLayer, CreateBehindLayer).
#[derive(Clone, Copy, Debug, PartialEq, Eq)]
pub enum Place {
    Front,
    Behind,
}

/// A layer as it is asked for when it is created (the manual's Layers Library chapter).
#[derive(Clone, Copy, Debug, PartialEq, Eq)]
pub struct Make {
    pub kind: Kind,
    pub place: Place,
    /// The screen column of the layer's left edge, -32768 to 32767.
    pub x: i32,
    /// The screen row of the layer's top edge, -32768 to 32767.
    pub y: i32,
    /// How many columns the layer has, 1 to 65536.
    pub w: i32,
    /// How many rows the layer has, 1 to 65536.
    pub h: i32,
    /// Whether the layer stays behind all that are no backdrop layers (LAYERBACKDROP).
    pub backdrop: bool,
    /// The number of the hook that fills what is uncovered; a super-bitmap layer is created without one.
    pub hook: Option<u32>,
    /// The width of a super-bitmap layer's own bitmap, 1 to 2048, and 0 for the other kinds.
    pub bits_w: u32,
    /// The height of a super-bitmap layer's own bitmap, 1 to 2048, and 0 for the other kinds.
    pub bits_h: u32,
}
