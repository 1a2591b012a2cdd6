use crate::area::Area;
use crate::make::Make;
use crate::operation::{PairOp, RectOp};
use crate::text::Text;
use lw_region::Rect;

/// One call of a task: the machine's atomic step. A slot is a layer's number, by first appearance of its name.
/// Coordinates are -32768 to 32767; those of drawing calls are layer coordinates. A register is 0 to 7. A pen or a mask is
/// taken modulo 2 ^ depth.
#[derive(Debug, Drop)]
pub enum Call {
    /// Joins a rectangle to a register (OrRectRegion and its kin).
    RegRect {
        op: RectOp,
        reg: u32,
        rect: Rect,
    },
    /// Joins the register `source` to the register `into` (OrRegionRegion and its kin).
    RegPair {
        op: PairOp,
        source: u32,
        into: u32,
    },
    /// Empties a register (ClearRegion).
    RegClear {
        reg: u32,
    },

    /// Creates a layer (CreateUpfrontLayer, CreateBehindLayer and their forms with a hook).
    Create {
        slot: u32,
        make: Make,
    },
    /// Opens a window, a layer that the task owns (OpenWindow). `asks` has bit 0 for refresh messages, 1 for new
    /// sizes, 2 for changes, 3 for active and 4 for inactive, and is below 32.
    OpenWindow {
        slot: u32,
        make: Make,
        framed: bool,
        nocare: bool,
        asks: u8,
        title: Text,
    },
    /// Deletes a layer (DeleteLayer, CloseWindow).
    Close {
        slot: u32,
    },
    /// Puts a layer in front of all others (UpfrontLayer, WindowToFront).
    ToFront {
        slot: u32,
    },
    /// Puts a layer behind all others but the backdrop layers (BehindLayer, WindowToBack).
    ToBack {
        slot: u32,
    },
    /// Puts a layer directly in front of another (MoveLayerInFrontOf, MoveWindowInFrontOf).
    InFrontOf {
        slot: u32,
        other: u32,
    },
    /// Moves a layer, from version 2 on also off the screen (MoveLayer, MoveWindow).
    MoveBy {
        slot: u32,
        dx: i32,
        dy: i32,
    },
    /// Changes a layer's width and height (SizeLayer, SizeWindow).
    SizeBy {
        slot: u32,
        dw: i32,
        dh: i32,
    },
    /// Gives a layer a place in screen coordinates, from version 2 on also off the screen, and a size, 1 to 32767 each way
    /// (MoveSizeLayer, ChangeWindowBox).
    SetBox {
        slot: u32,
        x: i32,
        y: i32,
        w: i32,
        h: i32,
    },
    /// Makes a window the active one (ActivateWindow).
    Activate {
        slot: u32,
    },

    /// Takes a hook from the shelf for a layer, whose former hook is dropped (InstallLayerHook); from version 2 on. The hook is
    /// one of those handed in, by its number; where it was taken before, the layer has no hook afterwards.
    SetHook {
        slot: u32,
        hook: u32,
    },

    /// Finds the layer on a place of the screen (WhichLayer).
    Which {
        x: i32,
        y: i32,
    },

    /// Sets pen A (SetAPen).
    SetA {
        slot: u32,
        pen: u8,
    },
    /// Sets pen B (SetBPen).
    SetB {
        slot: u32,
        pen: u8,
    },
    /// Sets the drawing mode, 0 to 7 (SetDrMd).
    SetMode {
        slot: u32,
        mode: u8,
    },
    /// Sets the mask of planes (the raster port's mask).
    SetMask {
        slot: u32,
        mask: u8,
    },
    /// Puts the cursor on a pixel (Move).
    At {
        slot: u32,
        x: i16,
        y: i16,
    },
    /// Paints a pixel (WritePixel).
    WritePixel {
        slot: u32,
        x: i32,
        y: i32,
    },
    /// Reads a pixel's pen (ReadPixel).
    ReadPixel {
        slot: u32,
        x: i32,
        y: i32,
    },
    /// Fills a rectangle by the layer's raster state (RectFill).
    Fill {
        slot: u32,
        rect: Rect,
    },
    /// Paints a line from the cursor to a pixel, on which the cursor then stands (Draw).
    DrawTo {
        slot: u32,
        x: i16,
        y: i16,
    },
    /// Paints characters at the cursor, which moves past them (Text).
    Letters {
        slot: u32,
        text: Text,
    },
    /// Gives all drawable pixels a pen, through the mask (SetRast).
    SetRast {
        slot: u32,
        pen: u8,
    },
    /// Moves the pixels of a rectangle by (-dx, -dy) (ScrollRaster).
    ScrollRaster {
        slot: u32,
        dx: i32,
        dy: i32,
        rect: Rect,
    },
    /// Blits a bitmap of the plan into a layer (BltBitMapRastPort).
    Put {
        bitmap: u32,
        slot: u32,
        area: Area,
    },
    /// Blits a layer into itself or into another (ClipBlit).
    Blit {
        source: u32,
        slot: u32,
        area: Area,
    },
    /// Installs a copy of a register as the layer's clip region (InstallClipRegion).
    Clip {
        slot: u32,
        reg: u32,
    },
    /// Takes the layer's clip region away (InstallClipRegion with no region).
    Unclip {
        slot: u32,
    },
    /// Begins an update, in which only damaged pixels are drawable (BeginUpdate, BeginRefresh).
    BeginRefresh {
        slot: u32,
    },
    /// Ends an update, and clears the damage if it is full (EndUpdate, EndRefresh).
    EndRefresh {
        slot: u32,
        full: bool,
    },
    /// Moves the portion of its bitmap that a layer shows (ScrollLayer).
    Scroll {
        slot: u32,
        dx: i32,
        dy: i32,
    },
    /// Gives a window a title (SetWindowTitles).
    SetTitle {
        slot: u32,
        title: Text,
    },
    /// Takes the oldest message of a window's port (GetMsg).
    TakeMessage {
        slot: u32,
    },
}
