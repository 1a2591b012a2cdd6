ghost use Rattle.std.specs.Prelude.{◌≡◌, ◌&&◌, nat_lt, IsTrue};
ghost use Rattle.lw_calls.specs.Touches.{slots_of, is_one_or_two};
ghost use Rattle.lw_calls.specs.Plan.{is_all};
ghost use Rattle.lw_region.specs.Rectangle.{within};
ghost use Rattle.lw_calls.specs.Kinds.{is_super};
ghost use Rattle.lw_calls.specs.Limits.{call_fits, register_fits, may_replace_hooks, coordinates_fit, is_extent, is_byte};
ghost use Rattle.lw_calls.specs.Limits.{is_minterm, window_fits, area_fits, make_fits, hook_fits, kind_fits, axis_fits};
ghost use Rattle.lw_calls.specs.Limits.{rect_fits, is_coordinate};

use crate::area::Area;
use crate::call::Call;
use crate::make::{Kind, Make};
use lw_region::Rect;

/// The sizes of a screen, and how many of each a plan has.
#[derive(Clone, Copy, Debug, PartialEq, Eq)]
pub struct Sizes {
    /// The version: 1 or 2, as a script says, or 3, which no script says and which is for programs. By it go the limits
    /// (`limits_of`), whether `SetHook` stands, whether layers may lie off the screen, and whether a closed slot may be opened
    /// again (`may_open`).
    pub version: u32,
    /// The screen's columns, from 1 to the version's limit.
    pub width: u32,
    /// The screen's rows, from 1 to the version's limit.
    pub height: u32,
    /// The screen's bit planes, 1 to 8.
    pub depth: u32,
    /// How many layer names the plan has, at most as many as the version allows.
    pub slots: u32,
    /// How many tasks the plan has, 1 to 16.
    pub tasks: u32,
    /// How many hooks were handed in.
    pub hooks: u32,
    /// How many bitmaps the plan has, at most 16.
    pub bitmaps: u32,
}

impl Sizes {
    /// Whether every number of the call is in its range and the call names slots, bitmaps and hooks that there are.
    pub fn fits(&self, call: &Call) -> bool
        ensures { result ≡ call_fits self.now call.now }
    {
        match call {
            Call::RegRect { reg, rect, .. } => is_register(*reg) && fits_rect(rect),
            Call::RegPair { source, into, .. } => is_register(*source) && is_register(*into),
            Call::RegClear { reg } => is_register(*reg),
            Call::Which { x, y } => are_coordinates(*x, *y),
            Call::Create { .. }
            | Call::OpenWindow { .. }
            | Call::Close { .. }
            | Call::ToFront { .. }
            | Call::ToBack { .. }
            | Call::InFrontOf { .. }
            | Call::MoveBy { .. }
            | Call::SizeBy { .. }
            | Call::SetBox { .. }
            | Call::Activate { .. }
            | Call::SetHook { .. } => self.fits_on_all(call),
            _ => self.fits_on_layer(call),
        }
    }

    /// The same of a call that touches all slots.
    fn fits_on_all(&self, call: &Call) -> bool
        requires { IsTrue (is_all (slots_of call.now)) }
        ensures { result ≡ call_fits self.now call.now }
    {
        match call {
            Call::Create { slot, make } => self.has_slot(*slot) && self.fits_make(make),
            Call::OpenWindow {
                slot,
                make,
                framed,
                asks,
                ..
            } => self.has_slot(*slot) && self.fits_make(make) && fits_window(make, *framed, *asks),
            Call::Close { slot }
            | Call::ToFront { slot }
            | Call::ToBack { slot }
            | Call::Activate { slot } => self.has_slot(*slot),
            Call::InFrontOf { slot, other } => self.has_slot(*slot) && self.has_slot(*other),
            Call::MoveBy { slot, dx, dy } => self.has_slot(*slot) && are_coordinates(*dx, *dy),
            Call::SizeBy { slot, dw, dh } => self.has_slot(*slot) && are_coordinates(*dw, *dh),
            Call::SetBox { slot, x, y, w, h } => {
                self.has_slot(*slot) && are_coordinates(*x, *y) && are_extents(*w, *h)
            }
            Call::SetHook { slot, hook } => {
                self.may_replace_hooks() && self.has_slot(*slot) && *hook < self.hooks
            }
            // No other call touches all slots.
            _ => unreachable!(),
        }
    }

    /// The same of a call that touches one layer or two.
    fn fits_on_layer(&self, call: &Call) -> bool
        requires { IsTrue (is_one_or_two (slots_of call.now)) }
        ensures { result ≡ call_fits self.now call.now }
    {
        match call {
            Call::SetMode { slot, mode } => self.has_slot(*slot) && *mode < 8,
            Call::SetA { slot, pen } | Call::SetB { slot, pen } | Call::SetRast { slot, pen } => {
                self.has_slot(*slot) && holds_byte(*pen)
            }
            Call::SetMask { slot, mask } => self.has_slot(*slot) && holds_byte(*mask),
            Call::At { slot, x, y } | Call::DrawTo { slot, x, y } => {
                self.has_slot(*slot) && are_words(*x, *y)
            }
            Call::WritePixel { slot, x, y } | Call::ReadPixel { slot, x, y } => {
                self.has_slot(*slot) && are_coordinates(*x, *y)
            }
            Call::Fill { slot, rect } => self.has_slot(*slot) && fits_rect(rect),
            Call::ScrollRaster { slot, dx, dy, rect } => {
                self.has_slot(*slot) && are_coordinates(*dx, *dy) && fits_rect(rect)
            }
            Call::Put { bitmap, slot, area } => {
                *bitmap < self.bitmaps && self.has_slot(*slot) && fits_area(area)
            }
            Call::Blit { source, slot, area } => {
                self.has_slot(*source) && self.has_slot(*slot) && fits_area(area)
            }
            Call::Clip { slot, reg } => self.has_slot(*slot) && is_register(*reg),
            Call::Scroll { slot, dx, dy } => self.has_slot(*slot) && are_coordinates(*dx, *dy),
            Call::Letters { slot, .. }
            | Call::Unclip { slot }
            | Call::BeginRefresh { slot }
            | Call::EndRefresh { slot, .. }
            | Call::SetTitle { slot, .. }
            | Call::TakeMessage { slot } => self.has_slot(*slot),
            // No other call touches one layer or two.
            _ => unreachable!(),
        }
    }

    fn may_replace_hooks(&self) -> bool
        ensures { result ≡ may_replace_hooks self.now.version }
    {
        2 <= self.version
    }

    fn has_slot(&self, slot: u32) -> bool
        ensures { result ≡ nat_lt slot self.now.slots }
    {
        slot < self.slots
    }

    fn fits_make(&self, make: &Make) -> bool
        ensures { result ≡ make_fits self.now make.now }
    {
        holds_coordinate(make.x)
            && holds_coordinate(make.y)
            && is_in_range(1, 65536, make.w)
            && is_in_range(1, 65536, make.h)
            && self.has_hook(make.hook)
            && fits_kind(make.kind, make.hook, make.bits_w, make.bits_h)
    }

    fn has_hook(&self, hook: Option<u32>) -> bool
        ensures { result ≡ hook_fits self.now.hooks hook }
    {
        match hook {
            None => true,
            Some(number) => number < self.hooks,
        }
    }
}

fn is_register(number: u32) -> bool
    ensures { result ≡ register_fits number }
{
    number < 8
}

fn are_coordinates(x: i32, y: i32) -> bool
    ensures { result ≡ coordinates_fit x y }
{
    holds_coordinate(x) && holds_coordinate(y)
}

fn are_extents(w: i32, h: i32) -> bool
    ensures { result ≡ (is_extent w && is_extent h) }
{
    is_in_range(1, 32767, w) && is_in_range(1, 32767, h)
}

fn fits_window(make: &Make, framed: bool, classes: u8) -> bool
    ensures { result ≡ window_fits make.now framed classes }
{
    !(framed && has_bitmap(make.kind)) && classes < 32
}

fn has_bitmap(kind: Kind) -> bool
    ensures { result ≡ is_super kind }
{
    match kind {
        Kind::Simple | Kind::Smart => false,
        Kind::SuperBitmap => true,
    }
}

// True by its type.
fn holds_byte(number: u8) -> bool
    ensures { result ≡ is_byte number }
{
    let _number = number;
    true
}

// True by their type.
#[tactic(auto, using(std::proofs::lemmas::Int::ints), unfolding(lw_region::specs::Rectangle::within))]
fn holds_word(place: i16) -> bool
    ensures { result ≡ is_coordinate place }
{
    let _place = place;
    true
}

fn are_words(x: i16, y: i16) -> bool
    ensures { result ≡ coordinates_fit x y }
{
    holds_word(x) && holds_word(y)
}

fn fits_minterm(minterm: u8) -> bool
    ensures { result ≡ is_minterm minterm }
{
    holds_byte(minterm) && minterm % 16 == 0
}

fn fits_places(area: &Area) -> bool
    ensures { result ≡ (coordinates_fit area.now.sx area.now.sy && coordinates_fit area.now.x area.now.y) }
{
    are_coordinates(area.sx, area.sy) && are_coordinates(area.x, area.y)
}

fn fits_area(area: &Area) -> bool
    ensures { result ≡ area_fits area.now }
{
    fits_places(area) && are_extents(area.w, area.h) && fits_minterm(area.minterm)
}

fn holds_coordinate(place: i32) -> bool
    ensures { result ≡ is_coordinate place }
{
    is_in_range(-32768, 32767, place)
}

#[tactic(auto, using(std::proofs::lemmas::Int::ints), unfolding(lw_region::specs::Rectangle::within))]
fn is_in_range(low: i32, high: i32, number: i32) -> bool
    ensures { result ≡ within low number high }
{
    if number < low {
        return false;
    }
    number <= high
}

fn fits_kind(kind: Kind, hook: Option<u32>, bits_w: u32, bits_h: u32) -> bool
    ensures { result ≡ kind_fits kind hook bits_w bits_h }
{
    match (kind, hook) {
        (Kind::SuperBitmap, None) => {
            1 <= bits_w && bits_w <= 2048 && 1 <= bits_h && bits_h <= 2048
        }
        (Kind::SuperBitmap, Some(_)) => false,
        _ => bits_w == 0 && bits_h == 0,
    }
}

fn fits_rect(rect: &Rect) -> bool
    ensures { result ≡ rect_fits rect.now }
{
    fits_axis(rect.min_x(), rect.max_x()) && fits_axis(rect.min_y(), rect.max_y())
}

// Both are coordinates by their type.
#[tactic(auto, using(std::proofs::lemmas::Int::ints), unfolding(lw_region::specs::Rectangle::within, crate::specs::Limits::axis_fits))]
fn fits_axis(low: i16, high: i16) -> bool
    ensures { result ≡ axis_fits low high }
{
    low <= high
}
