use lw_calls::Kind;
use lw_region::Rect;

/// What an arrangement asks of a live layer: how it is made and where it lies (the manual's Layers Library and Intuition Windows
/// chapters).
#[derive(Clone, Copy, Debug, PartialEq, Eq)]
pub struct Look {
    pub kind: Kind,
    pub backdrop: bool,
    /// The layer's bounds, in screen coordinates; they may lie off the screen.
    pub bounds: Rect,
    /// The pixel of a super-bitmap layer's own bitmap that its top left corner shows, and 0 for other layers.
    pub scroll_x: i32,
    pub scroll_y: i32,
    /// The size of a super-bitmap layer's own bitmap, and 0 for other layers.
    pub bits_w: u32,
    pub bits_h: u32,
    /// The layer is a window with a frame.
    pub framed: bool,
    /// The task that opened the window, if the layer is one.
    pub owner: Option<u32>,
    /// The layer is the active window.
    pub active: bool,
    /// An update is on.
    pub updating: bool,
}
