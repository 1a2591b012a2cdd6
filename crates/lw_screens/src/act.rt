/// What is done to a screen of a display. Screens are numbered from 0 in the order in which they were opened.
#[derive(Clone, Copy, Debug, PartialEq, Eq)]
pub enum Act {
    /// The screen is dragged by `dy` rows, down where that is above 0. Its top row stays on the display.
    Drag {
        /// The screen's number.
        screen: u32,
        /// By how many rows.
        dy: i32,
    },
    /// The screen is put before all others.
    ToFront {
        /// The screen's number.
        screen: u32,
    },
    /// The screen is put behind all others.
    ToBack {
        /// The screen's number.
        screen: u32,
    },
}
