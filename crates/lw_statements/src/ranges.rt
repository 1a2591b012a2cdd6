ghost use Rattle.std.specs.Prelude.{◌≡◌, true, ◌&&◌, ◌≤ℤ◌, ◌+ℤ◌, ◌-ℤ◌, map, pos};
ghost use Rattle.std.specs.List.{list_all};
ghost use Rattle.lw_region.specs.Rectangle.{within};
ghost use Rattle.lw_area.specs.Polygons.{is_in_range};
ghost use Rattle.lw_calls.specs.Limits.{is_coordinate, axis_fits, rect_fits, coordinates_fit as places_meant, is_extent};
ghost use Rattle.lw_grammar.specs.Statements.{is_hook_number, is_own_size, is_new_layer_in_range, box_fits};
ghost use Rattle.lw_grammar.specs.Statements.{is_blit_in_range, greatest_number, is_act_in_range, version_at_screen};
ghost use Rattle.lw_grammar.specs.Statements.{are_sizes_in_range, is_line_in_range, is_gzz_box, is_gzz_in_range};
ghost use Rattle.lw_statements.specs.StatementMeaning.{corners_meaning, box_meaning, new_layer_meaning, area_meaning};
ghost use Rattle.lw_statements.specs.StatementMeaning.{act_meaning, statement_meaning, point_meaning, gzz_meaning};

use crate::statement::{
    Act, AskedArea, AskedBox, AskedPoint, AskedPolygon, Corners, GzzAct, NewLayer, Statement,
};
use lw_calls::{Kind, limits_of};
use lw_grammar::NumberVerb;

#[tactic(auto, using(std::proofs::lemmas::Int::ints), unfolding(lw_region::specs::Rectangle::within))]
fn is_between(low: i64, number: i64, high: i64) -> bool
    ensures { result ≡ within low number high }
{
    if number < low {
        return false;
    }
    number <= high
}

fn is_coordinate(number: i64) -> bool
    ensures { result ≡ is_coordinate number }
{
    is_between(-32768, number, 32767)
}

fn coordinates_fit(x: i64, y: i64) -> bool
    ensures { result ≡ places_meant x y }
{
    is_coordinate(x) && is_coordinate(y)
}

/// Whether it is a width or a height of a window, of `box` or of a blit.
fn is_extent(number: i64) -> bool
    ensures { result ≡ is_extent number }
{
    is_between(1, number, 32767)
}

/// Whether a minimum and a maximum that is not below it are coordinates.
#[tactic(auto, using(std::proofs::lemmas::Int::ints), unfolding(lw_calls::specs::Limits::axis_fits))]
fn fits_axis(low: i64, high: i64) -> bool
    ensures { result ≡ axis_fits low high }
{
    is_coordinate(low) && is_coordinate(high) && low <= high
}

impl Corners {
    /// Whether all are coordinates and neither maximum is below its minimum.
    fn fit(&self) -> bool
        ensures { result ≡ rect_fits (corners_meaning self.now) }
    {
        fits_axis(self.x0, self.x1) && fits_axis(self.y0, self.y1)
    }
}

impl AskedBox {
    fn fits(&self) -> bool
        ensures { result ≡ box_fits (box_meaning self.now) }
    {
        coordinates_fit(self.x, self.y) && (is_extent(self.w) && is_extent(self.h))
    }
}

/// The greatest number of a hook.
const GREATEST_HOOK: i64 = 4_294_967_295;

fn is_hook_number(hook: Option<i64>) -> bool
    ensures { result ≡ is_hook_number hook }
{
    match hook {
        None => true,
        Some(number) => is_between(0, number, GREATEST_HOOK),
    }
}

/// Whether the size of a bitmap of a layer's own is in range, if it has one.
fn is_own_size(kind: Kind, width: i64, height: i64) -> bool
    ensures { result ≡ is_own_size kind width height }
{
    match kind {
        Kind::Simple | Kind::Smart => true,
        Kind::SuperBitmap => is_between(1, width, 2048) && is_between(1, height, 2048),
    }
}

impl NewLayer {
    fn is_in_range(&self) -> bool
        ensures { result ≡ is_new_layer_in_range (new_layer_meaning self.now) }
    {
        is_hook_number(self.hook) && is_own_size(self.kind, self.bits_w, self.bits_h)
    }
}

impl AskedArea {
    fn is_in_range(&self) -> bool
        ensures { result ≡ is_blit_in_range (area_meaning self.now) }
    {
        (coordinates_fit(self.sx, self.sy) && coordinates_fit(self.x, self.y))
            && (is_extent(self.w) && is_extent(self.h))
    }
}

/// The greatest number that a layer may have after it.
fn greatest_number(verb: NumberVerb) -> i64
    ensures { result ≡ pos (greatest_number verb) }
{
    match verb {
        NumberVerb::Mode | NumberVerb::Clip => 7,
        NumberVerb::APen | NumberVerb::BPen | NumberVerb::Mask | NumberVerb::SetRast => 255,
        NumberVerb::Hook => GREATEST_HOOK,
    }
}

impl Act<'_> {
    /// Whether every number is in its range, and no maximum is below its minimum.
    pub fn is_in_range(&self) -> bool
        ensures { result ≡ is_act_in_range (act_meaning self.now) }
    {
        match self {
            Act::RegRect {
                register,
                corners,
                ..
            } => is_between(0, *register, 7) && corners.fit(),
            Act::RegPair { source, into, .. } => {
                is_between(0, *source, 7) && is_between(0, *into, 7)
            }
            Act::RegClear(register) => is_between(0, *register, 7),
            Act::Create { corners, asked } => corners.fit() && asked.is_in_range(),
            Act::Open { at, asked, .. } => at.fits() && asked.is_in_range(),
            Act::Box(at) => at.fits(),
            Act::Which { x, y } | Act::Pair(_, x, y) => coordinates_fit(*x, *y),
            Act::Number(verb, number) => is_between(0, *number, greatest_number(*verb)),
            Act::Fill(corners) => corners.fit(),
            Act::ScrollRaster { dx, dy, corners } => coordinates_fit(*dx, *dy) && corners.fit(),
            Act::Put { area, .. } | Act::Blit(area) => area.is_in_range(),
            Act::InFront | Act::Bare(_) | Act::Text(_, _) | Act::EndRefresh { .. } => true,
        }
    }
}

fn are_tasks(numbers: &[i64]) -> bool
    ensures { result ≡ list_all (λ z. within (pos 0) z (pos 15)) numbers.now }
{
    numbers.iter().all(|number| is_between(0, *number, 15))
}

/// The version of a script whose screen's line stands below lines that tell this version, or none by 0.
pub fn version_at_screen(version: u32) -> u32
    ensures { result ≡ version_at_screen version }
{
    if version == 0 { 1 } else { version }
}

/// How many columns, and how many rows, a bitmap has at most.
const BITMAP_SIZE_LIMIT: u32 = 1024;

/// Whether they are a width and a height, neither of them above a limit, and a depth.
fn are_sizes(limit: u32, width: i64, height: i64, depth: i64) -> bool
    ensures { result ≡ are_sizes_in_range limit width height depth }
{
    let limit = i64::from(limit);
    (is_between(1, width, limit) && is_between(1, height, limit)) && is_between(1, depth, 8)
}

impl Statement<'_> {
    /// Whether every number is in its range below lines that tell this version, and no maximum is below its minimum.
    pub fn is_in_range(&self, version: u32) -> bool
        ensures { result ≡ is_line_in_range version (statement_meaning self.now) }
    {
        match self {
            Statement::Screen {
                width,
                height,
                depth,
            } => are_sizes(
                limits_of(version_at_screen(version)).screen,
                *width,
                *height,
                *depth,
            ),
            Statement::Bitmap {
                width,
                height,
                depth,
                ..
            } => are_sizes(BITMAP_SIZE_LIMIT, *width, *height, *depth),
            Statement::Glyph { code, .. } => 32 <= *code && *code <= 126,
            Statement::Numbers(numbers) => are_tasks(numbers.as_slice()),
            Statement::Call { act, .. } => act.is_in_range(),
            Statement::Layers
            | Statement::Row(_)
            | Statement::Pattern { .. }
            | Statement::Task(_)
            | Statement::End
            | Statement::Order
            | Statement::Report
            | Statement::Lock(_)
            | Statement::Unlock(_)
            | Statement::Hold
            | Statement::Release => true,
        }
    }
}

impl AskedPoint {
    /// Whether both coordinates are those of a point of an area.
    fn is_in_range(&self) -> bool
        ensures { result ≡ is_in_range (point_meaning self.now) }
    {
        is_between(-2048, self.x, 4095) && is_between(-2048, self.y, 4095)
    }
}

fn are_in_range(points: &[AskedPoint]) -> bool
    ensures { result ≡ list_all (λ p. is_in_range (point_meaning p)) points.now }
{
    points.iter().all(|point| point.is_in_range())
}

impl AskedPolygon<'_> {
    /// Whether each coordinate of each point is in its range.
    pub fn is_in_range(&self) -> bool
        ensures { result ≡ list_all is_in_range (map point_meaning self.now.points.items) }
    {
        are_in_range(self.points.as_slice())
    }
}

/// The last column or row of a box, from a coordinate on and so many columns or rows long.
#[tactic(auto, using(std::proofs::lemmas::Int::ints), unfolding(lw_region::specs::Rectangle::within))]
fn last_of(first: i64, size: i64) -> i64
    requires first { is_coordinate first ≡ true }
    requires size { within (pos 1) size (pos 4294967295) ≡ true }
    ensures { result ≡ (first +ℤ size) -ℤ pos 1 }
{
    first + size - 1
}

/// Whether along one axis the place and the size of a box are a coordinate, and a size from the least one to that of the screen,
/// and the last column or row is a coordinate.
#[tactic(auto, using(std::proofs::lemmas::Int::ints), unfolding(lw_region::specs::Rectangle::within))]
fn lies_along(least: i64, first: i64, size: i64, most: u32) -> bool
    requires least { pos 1 ≤ℤ least }
    ensures { result ≡ (is_coordinate first && (within least size (pos most) && is_coordinate ((first +ℤ size) -ℤ pos 1))) }
{
    if !is_coordinate(first) {
        return false;
    }
    if !is_between(least, size, i64::from(most)) {
        return false;
    }
    is_coordinate(last_of(first, size))
}

impl AskedBox {
    /// Whether a window of two layers may have it on a screen of this width and height.
    #[tactic(auto, using(crate::proofs::GzzBoxes::box_by_axes))]
    fn is_gzz_box(&self, width: u32, height: u32) -> bool
        ensures { result ≡ is_gzz_box width height (box_meaning self.now) }
    {
        let across = lies_along(9, self.x, self.w, width);
        let down = lies_along(14, self.y, self.h, height);
        across && down
    }
}

impl GzzAct<'_> {
    /// Whether its box, if it has one, is one that the window may have on a screen of this width and height.
    pub fn is_in_range(&self, width: u32, height: u32) -> bool
        ensures { result ≡ is_gzz_in_range width height (gzz_meaning self.now) }
    {
        match self {
            GzzAct::Open { at, .. } => at.is_gzz_box(width, height),
            GzzAct::Box(at) => at.is_gzz_box(width, height),
            GzzAct::Front | GzzAct::Behind | GzzAct::InFront(_) | GzzAct::Close => true,
        }
    }
}
