ghost use Rattle.std.specs.Prelude.{◌≡◌, ◌≤◌, ◌&&◌, true, Some, pos, negsuc, ◌+ℤ◌, ◌-ℤ◌, ◌≤ℤ◌, IsTrue};
ghost use Rattle.lw_machine.specs.Shapes.{box_at};
ghost use Rattle.lw_calls.specs.Limits.{is_coordinate, coordinates_fit};
ghost use Rattle.lw_machine.specs.Arrangement.{is_on_screen, has_coordinates, is_no_larger, may_lie_at, is_at_least};
ghost use Rattle.lw_machine.specs.Arrangement.{portion_fits, sized_by};
ghost use Rattle.lw_arrange.specs.AskedBounds.{rectangle_of, axis_on, axis_within, axis_has, axis_shows, frame_has_room};
ghost use Rattle.lw_arrange.specs.AskedBounds.{bits_suffice, may_lie, span_fits, changed_by, change_fits, IsRect};
ghost use Rattle.lw_region.specs.Rectangle.{IsWord, moved_by};

use lw_calls::{Call, Kind, Sizes};
use lw_region::Rect;

/// Bounds that a call asks for, wherever they lie. All four are inclusive.
#[derive(Clone, Copy, Debug, PartialEq, Eq)]
pub(crate) struct Edges {
    pub min_x: i32,
    pub min_y: i32,
    pub max_x: i32,
    pub max_y: i32,
}

/// What decides which bounds a layer may have, beside the version and the screen.
#[derive(Clone, Copy, Debug, PartialEq, Eq)]
pub(crate) struct Needs {
    /// The layer is a window with a frame.
    pub framed: bool,
    pub kind: Kind,
    /// The pixel of a super-bitmap layer's own bitmap that its top left corner shows.
    pub scroll_x: i32,
    pub scroll_y: i32,
    /// The size of a super-bitmap layer's own bitmap.
    pub bits_w: u32,
    pub bits_h: u32,
}

/// The bounds of a box of `w` columns and `h` rows from (x, y) on.
pub(crate) fn edges_of_box(x: i32, y: i32, w: i32, h: i32) -> Edges
    requires columns { IsTrue (span_fits x w) }
    requires rows { IsTrue (span_fits y h) }
    ensures { rectangle_of result ≡ box_at x y w h }
{
    Edges {
        min_x: x,
        min_y: y,
        max_x: last_place(x, w),
        max_y: last_place(y, h),
    }
}

/// The last of `count` places from `from` on.
#[tactic(auto, using(std::proofs::lemmas::Int::ints), unfolding(lw_region::specs::Rectangle::within))]
fn last_place(from: i32, count: i32) -> i32
    requires { IsTrue (span_fits from count) }
    ensures { result ≡ (from +ℤ count) -ℤ pos 1 }
{
    from + count - 1
}

/// The bounds that a call makes of its layer's (the manual's MoveLayer, SizeLayer and MoveSizeLayer).
pub(crate) fn changed_by(call: &Call, bounds: &Rect) -> Edges
    requires { IsTrue (change_fits call.now) }
    ensures { rectangle_of result ≡ changed_by call.now bounds.now }
{
    match *call {
        Call::MoveBy { dx, dy, .. } => moved(bounds, dx, dy),
        Call::SizeBy { dw, dh, .. } => sized(bounds, dw, dh),
        Call::SetBox { x, y, w, h, .. } => edges_of_box(x, y, w, h),
        // No other call changes bounds.
        _ => unreachable!(),
    }
}

fn moved(bounds: &Rect, dx: i32, dy: i32) -> Edges
    requires { IsTrue (coordinates_fit dx dy) }
    ensures { rectangle_of result ≡ moved_by bounds.now dx dy }
{
    Edges {
        min_x: edge_moved(bounds.min_x(), dx),
        min_y: edge_moved(bounds.min_y(), dy),
        max_x: edge_moved(bounds.max_x(), dx),
        max_y: edge_moved(bounds.max_y(), dy),
    }
}

fn sized(bounds: &Rect, dw: i32, dh: i32) -> Edges
    requires { IsTrue (coordinates_fit dw dh) }
    ensures { rectangle_of result ≡ sized_by bounds.now dw dh }
{
    Edges {
        min_x: i32::from(bounds.min_x()),
        min_y: i32::from(bounds.min_y()),
        max_x: edge_moved(bounds.max_x(), dw),
        max_y: edge_moved(bounds.max_y(), dh),
    }
}

#[tactic(auto, using(std::proofs::lemmas::Int::ints), unfolding(lw_region::specs::Rectangle::within))]
fn edge_moved(edge: i16, by: i32) -> i32
    requires { IsTrue (is_coordinate by) }
    ensures { result ≡ edge +ℤ by }
{
    i32::from(edge) + by
}

/// Whether a layer with such needs may have these bounds: it lies where a layer may, it has a column and a row, a framed window
/// is at least 9 wide and 14 high, and what a super-bitmap layer shows lies in its bitmap.
pub(crate) fn may_have(sizes: &Sizes, needs: &Needs, edges: &Edges) -> bool
    ensures { result ≡ may_lie sizes.now needs.now (rectangle_of edges.now) }
{
    may_lie_at(sizes, edges)
        && has_at_least(1, 1, edges)
        && fits_frame(needs, edges)
        && fits_bits(needs, edges)
}

/// Whether a layer may lie there: its first and last column and row are coordinates, and in version 1 all its pixels lie on the
/// screen, where from version 2 on it is no larger than the screen.
#[tactic(auto, unfolding(lw_machine::specs::Arrangement::may_lie_at))]
fn may_lie_at(sizes: &Sizes, edges: &Edges) -> bool
    ensures { result ≡ may_lie_at sizes.now (rectangle_of edges.now) }
{
    if !has_coordinates(edges) {
        return false;
    }
    if sizes.version >= 2 {
        return is_no_larger(sizes, edges);
    }
    is_on(sizes, edges)
}

/// Whether the first and the last column and row are coordinates.
#[tactic(auto, unfolding(lw_machine::specs::Arrangement::has_coordinates))]
fn has_coordinates(edges: &Edges) -> bool
    ensures { result ≡ has_coordinates (rectangle_of edges.now) }
{
    are_coordinates(edges.min_x, edges.min_y) && are_coordinates(edges.max_x, edges.max_y)
}

fn are_coordinates(x: i32, y: i32) -> bool
    ensures { result ≡ coordinates_fit x y }
{
    is_coordinate(x) && is_coordinate(y)
}

#[tactic(auto, using(std::proofs::lemmas::Int::ints), unfolding(lw_region::specs::Rectangle::within))]
fn is_coordinate(place: i32) -> bool
    ensures { result ≡ is_coordinate place }
{
    -32768 <= place && place <= 32767
}

/// Whether there are no more columns and rows than the screen has.
#[tactic(auto, unfolding(lw_machine::specs::Arrangement::is_no_larger, crate::specs::AskedBounds::axis_within))]
fn is_no_larger(sizes: &Sizes, edges: &Edges) -> bool
    ensures { result ≡ is_no_larger sizes.now (rectangle_of edges.now) }
{
    is_axis_within(edges.min_x, edges.max_x, sizes.width)
        && is_axis_within(edges.min_y, edges.max_y, sizes.height)
}

#[tactic(auto, using(std::proofs::lemmas::Int::ints), unfolding(crate::specs::AskedBounds::axis_within))]
fn is_axis_within(low: i32, high: i32, limit: u32) -> bool
    ensures { result ≡ axis_within low high limit }
{
    places(low, high) <= i64::from(limit)
}

/// Whether all pixels lie on the screen.
#[tactic(auto, unfolding(lw_machine::specs::Arrangement::is_on_screen, crate::specs::AskedBounds::axis_on))]
fn is_on(sizes: &Sizes, edges: &Edges) -> bool
    ensures { result ≡ is_on_screen sizes.now (rectangle_of edges.now) }
{
    is_axis_on(edges.min_x, edges.max_x, sizes.width)
        && is_axis_on(edges.min_y, edges.max_y, sizes.height)
}

#[tactic(auto, using(std::proofs::lemmas::Int::ints), unfolding(crate::specs::AskedBounds::axis_on))]
fn is_axis_on(low: i32, high: i32, limit: u32) -> bool
    ensures { result ≡ axis_on low high limit }
{
    if low < 0 {
        return false;
    }
    i64::from(high) + 1 <= i64::from(limit)
}

/// Whether there are so many columns and rows.
#[tactic(auto, unfolding(lw_machine::specs::Arrangement::is_at_least, crate::specs::AskedBounds::axis_has))]
fn has_at_least(w: i32, h: i32, edges: &Edges) -> bool
    ensures { result ≡ is_at_least w h (rectangle_of edges.now) }
{
    axis_has_at_least(w, edges.min_x, edges.max_x) && axis_has_at_least(h, edges.min_y, edges.max_y)
}

#[tactic(auto, using(std::proofs::lemmas::Int::ints), unfolding(crate::specs::AskedBounds::axis_has))]
fn axis_has_at_least(count: i32, low: i32, high: i32) -> bool
    ensures { result ≡ axis_has count low high }
{
    i64::from(count) <= places(low, high)
}

/// How many places there are from `low` to `high`, or none or less where these are out of order.
#[tactic(auto, using(std::proofs::lemmas::Int::ints))]
fn places(low: i32, high: i32) -> i64
    ensures count { result ≡ (high +ℤ pos 1) -ℤ low }
    ensures least { negsuc 4294967295 ≤ℤ result }
    ensures most { result ≤ℤ pos 4294967296 }
{
    i64::from(high) + 1 - i64::from(low)
}

/// Whether a frame has room, if there is one.
fn fits_frame(needs: &Needs, edges: &Edges) -> bool
    ensures { result ≡ frame_has_room needs.now (rectangle_of edges.now) }
{
    if needs.framed {
        return has_at_least(9, 14, edges);
    }
    true
}

/// Whether what a super-bitmap layer shows lies in its bitmap.
fn fits_bits(needs: &Needs, edges: &Edges) -> bool
    ensures { result ≡ bits_suffice needs.now (rectangle_of edges.now) }
{
    match needs.kind {
        Kind::Simple | Kind::Smart => true,
        Kind::SuperBitmap => shows_bits(needs, edges),
    }
}

#[tactic(auto, unfolding(lw_machine::specs::Arrangement::portion_fits, crate::specs::AskedBounds::axis_shows))]
fn shows_bits(needs: &Needs, edges: &Edges) -> bool
    ensures { result ≡ portion_fits needs.now.scroll_x needs.now.scroll_y needs.now.bits_w needs.now.bits_h
        (rectangle_of edges.now) }
{
    is_axis_shown(needs.scroll_x, edges.min_x, edges.max_x, needs.bits_w)
        && is_axis_shown(needs.scroll_y, edges.min_y, edges.max_y, needs.bits_h)
}

#[tactic(auto, using(std::proofs::lemmas::Int::ints), unfolding(crate::specs::AskedBounds::axis_shows))]
fn is_axis_shown(from: i32, low: i32, high: i32, limit: u32) -> bool
    ensures { result ≡ axis_shows from low high limit }
{
    if from < 0 {
        return false;
    }
    shown_end(from, low, high) <= i64::from(limit)
}

/// The first place past the portion that begins at `from`.
#[tactic(auto, using(std::proofs::lemmas::Int::ints))]
fn shown_end(from: i32, low: i32, high: i32) -> i64
    ensures { result ≡ from +ℤ ((high +ℤ pos 1) -ℤ low) }
{
    i64::from(from) + places(low, high)
}

/// The rectangle with these edges.
pub(crate) fn rect_of(edges: &Edges) -> Option<Rect>
    requires { IsRect (rectangle_of edges.now) }
    ensures { result ≡ Some (rectangle_of edges.now) }
{
    Rect::new(
        word(edges.min_x),
        word(edges.min_y),
        word(edges.max_x),
        word(edges.max_y),
    )
}

/// A place as a signed word.
#[tactic(auto, using(std::proofs::lemmas::Int::ints))]
fn word(place: i32) -> i16
    requires { IsWord place }
    ensures { result ≡ place }
{
    place as i16
}
