use lw_calls::{Kind, Place, Text};

/// What is done with a window of two layers (this project's own). A box is that of the outer window, in screen coordinates: its
/// left column, its top row, and how many columns and rows it has.
#[derive(Debug, Drop)]
pub enum GzzWord {
    /// Opens both windows; the inner one is of this kind, which is simple or smart. Both ask for the same messages, as
    /// `Call::OpenWindow` has them. The title is the outer window's.
    Open {
        kind: Kind,
        place: Place,
        x: i32,
        y: i32,
        w: i32,
        h: i32,
        asks: u8,
        title: Text,
    },
    /// Gives the outer window this box, and the inner one the inner rectangle of it.
    SetBox {
        x: i32,
        y: i32,
        w: i32,
        h: i32,
    },
    /// Puts both in front of all others.
    Front,
    /// Puts both behind all others but the backdrop layers.
    Behind,
    /// Puts both directly in front of another layer, by its slot.
    InFrontOf {
        other: u32,
    },
    /// Closes both.
    Close,
}
