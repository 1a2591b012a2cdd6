//! The bands of a display, made by a sweep over the edges of its screens.

ghost use Rattle.std.specs.Prelude.{◌≡◌, ℕ, ◌<◌, ◌≤◌, List, length, IfOk};
ghost use Rattle.std.specs.List.{All};
ghost use Rattle.lw_screens.specs.Display.{first_with};
ghost use Rattle.lw_screens.specs.Bands.{is_same, bands_from};
ghost use Rattle.lw_screens.specs.Laws.{IsLongestRun};

use crate::screen::Screen;
use std::alloc::{AllocError, Global};

/// Rows of a display that follow one another and have one owner: a longest run of such rows.
#[derive(Clone, Copy, Debug, PartialEq, Eq)]
pub struct Band {
    /// The first row.
    pub first: u32,
    /// The last row.
    pub last: u32,
    /// The number of the screen that owns the rows; `None` where none does.
    pub screen: Option<u32>,
}

/// The bands of so many rows, by the screens and their numbers from the front to the back.
pub(crate) fn bands_of(
    alloc: Global,
    height: u32,
    screens: &[Screen],
    order: &[u32],
) -> Result<Vec<Band>, AllocError>
    requires { All (λ k. k < length screens.now) order.now }
    ensures { IfOk result (λ bands. bands.items ≡ bands_from (first_with screens.now order.now) 0 height) }
{
    let mut bands = Vec::new(alloc);
    let mut first = 0;
    while first < height {
        let band = band_from(height, screens, order, first);
        bands.push(band)?;
        first = band.last + 1;
    }
    Ok(bands)
}

/// The longest run of rows with one owner whose first row is this one.
fn band_from(height: u32, screens: &[Screen], order: &[u32], first: u32) -> Band
    requires row { first < height }
    requires order { All (λ k. k < length screens.now) order.now }
    ensures { IsLongestRun (first_with screens.now order.now) first height result }
{
    let screen = owner_of(screens, order, first);
    let mut end = edge_after(screens, first, height);
    while end < height && is_same(owner_of(screens, order, end), screen) {
        end = edge_after(screens, end, height);
    }
    Band {
        first,
        last: end - 1,
        screen,
    }
}

/// Whether both are one screen, or none.
fn is_same(a: Option<u32>, b: Option<u32>) -> bool
    ensures { result ≡ is_same a b }
{
    match (a, b) {
        (None, None) => true,
        (Some(j), Some(k)) => j == k,
        _ => false,
    }
}

/// The number of the first screen that has the row, from the front.
fn owner_of(screens: &[Screen], order: &[u32], row: u32) -> Option<u32>
    requires { All (λ k. k < length screens.now) order.now }
    ensures { result ≡ first_with screens.now order.now row }
{
    let mut left = order;
    while let Some((number, behind)) = left.split_first() {
        if screens[*number as usize].has_row(row) {
            return Some(*number);
        }
        left = behind;
    }
    None
}

/// The first row after this one at which a screen begins or ends, or `limit` where none does before.
fn edge_after(screens: &[Screen], row: u32, limit: u32) -> u32
    requires { row < limit }
    ensures after { row < result }
    ensures most { result ≤ limit }
    ensures same { (order : List ℕ) (y : ℕ) → row ≤ y → y < result →
        first_with screens.now order y ≡ first_with screens.now order row }
{
    let mut edge = limit;
    for screen in screens {
        edge = screen.edge_after(row, edge);
    }
    edge
}
