ghost use Rattle.std.specs.Prelude.{◌≡◌, ℕ, ◌<◌, ◌≤◌};
ghost use Rattle.lw_screens.specs.Display.{has_row, dragged, with_top};

/// Where a screen stands on a display.
#[derive(Clone, Copy, Debug, PartialEq, Eq)]
pub struct Screen {
    /// The display's row at which the screen's first row is: from 0 to the display's last row.
    pub top: u32,
    /// How many rows the screen has: from 1 to 2048.
    pub height: u32,
}

impl Screen {
    /// Whether the screen has this row of the display.
    pub(crate) fn has_row(&self, row: u32) -> bool
        ensures { result ≡ has_row self.now row }
    {
        self.top <= row && row - self.top < self.height
    }

    /// The first row after this one at which the screen begins or ends, or `limit` where none is before it.
    pub(crate) fn edge_after(&self, row: u32, limit: u32) -> u32
        requires { row < limit }
        ensures after { row < result }
        ensures most { result ≤ limit }
        ensures same { (y : ℕ) → row ≤ y → y < result → has_row self.now y ≡ has_row self.now row }
    {
        let rows = if row < self.top {
            self.top - row
        } else if row - self.top < self.height {
            self.height - (row - self.top)
        } else {
            limit - row
        };
        row + rows.min(limit - row)
    }

    /// The screen dragged by so many rows on a display of `rows` rows, one at least.
    pub(crate) fn dragged(self, rows: u32, dy: i32) -> Screen
        requires { 1 ≤ rows }
        ensures { result ≡ with_top self (dragged rows self.top dy) }
    {
        Screen {
            top: dragged(rows, self.top, dy),
            height: self.height,
        }
    }
}

// Where the top comes of a screen that is dragged by so many rows.
fn dragged(rows: u32, top: u32, dy: i32) -> u32
    requires { 1 ≤ rows }
    ensures { result ≡ dragged rows top dy }
{
    let last = i64::from(rows) - 1;
    let to = last.min(i64::from(top) + i64::from(dy));
    to.max(0) as u32
}
