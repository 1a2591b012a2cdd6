//! The calls that acts are.
ghost use Rattle.std.specs.Prelude.{◌≡◌, ℕ, List, [], ◌∷◌, pos, ◌+ℤ◌, ◌-ℤ◌, IsTrue, IfOk, option_map, unsigned_abs};
ghost use Rattle.lw_calls.specs.Limits.{axis_fits, rect_fits, coordinates_fit};
ghost use Rattle.lw_grammar.specs.Statements.{is_hook_number, is_own_size, is_new_layer_in_range, box_fits};
ghost use Rattle.lw_grammar.specs.Statements.{is_blit_in_range, greatest_number, is_act_in_range};
ghost use Rattle.lw_region.specs.Rectangle.{within};
ghost use Rattle.lw_grammar.specs.Told.{make_of, created_make, opened_make, bare_call, number_call, pair_call, text_call};
ghost use Rattle.lw_grammar.specs.Told.{spelled_call};
ghost use Rattle.lw_statements.specs.StatementMeaning.{corners_meaning, box_meaning, new_layer_meaning, area_meaning};
ghost use Rattle.lw_statements.specs.StatementMeaning.{act_meaning};
ghost use Rattle.lw_statements.specs.CallMeaning.{IsBitmapAt, is_apart, is_single_on_layers};

use crate::converted::{byte, coordinate, count, extent, step};
use crate::statement::{Act, AskedArea, AskedBox, Corners, NewLayer};
use lw_calls::{Area, Call, Kind, Make, Text};
use lw_grammar::{BareVerb, NumberVerb, PairVerb, TextVerb};
use std::alloc::{AllocError, Global};

fn hook_number(number: Option<i64>) -> Option<u32>
    requires { IsTrue (is_hook_number number) }
    ensures { result ≡ option_map unsigned_abs number }
{
    match number {
        None => None,
        Some(number) => Some(count(number)),
    }
}

/// How many columns or rows lie from one bound to the other.
#[tactic(auto, using(std::proofs::lemmas::Int::ints), unfolding(lw_region::specs::Rectangle::within, lw_calls::specs::Limits::axis_fits))]
fn spread(low: i64, high: i64) -> i32
    requires { IsTrue (axis_fits low high) }
    ensures { result ≡ (high -ℤ low) +ℤ pos 1 }
{
    (high - low + 1) as i32
}

impl NewLayer {
    /// The size of a bitmap of its own, or 0 and 0.
    #[tactic(auto, using(std::proofs::lemmas::Int::ints), unfolding(lw_region::specs::Rectangle::within))]
    fn bits(&self) -> (u32, u32)
        requires { IsTrue (is_own_size self.now.kind self.now.bits_w self.now.bits_h) }
        ensures { result ≡ (unsigned_abs self.now.bits_w, unsigned_abs self.now.bits_h) }
    {
        match self.kind {
            Kind::Simple | Kind::Smart => (0, 0),
            Kind::SuperBitmap => (count(self.bits_w), count(self.bits_h)),
        }
    }

    /// The layer with this place and size.
    fn make(&self, x: i32, y: i32, w: i32, h: i32) -> Make
        requires { IsTrue (is_new_layer_in_range (new_layer_meaning self.now)) }
        ensures { result ≡ make_of (new_layer_meaning self.now) x y w h }
    {
        let (bits_w, bits_h) = self.bits();
        Make {
            kind: self.kind,
            place: self.place,
            x,
            y,
            w,
            h,
            backdrop: self.backdrop,
            hook: hook_number(self.hook),
            bits_w,
            bits_h,
        }
    }

    /// The layer of a creation, with these bounds.
    fn created(&self, corners: Corners) -> Make
        requires bounds { IsTrue (rect_fits (corners_meaning corners)) }
        requires range { IsTrue (is_new_layer_in_range (new_layer_meaning self.now)) }
        ensures { result ≡ created_make (corners_meaning corners) (new_layer_meaning self.now) }
    {
        self.make(
            step(corners.x0),
            step(corners.y0),
            spread(corners.x0, corners.x1),
            spread(corners.y0, corners.y1),
        )
    }

    /// The layer of an opening, with this box.
    fn opened(&self, at: AskedBox) -> Make
        requires fits { IsTrue (box_fits (box_meaning at)) }
        requires range { IsTrue (is_new_layer_in_range (new_layer_meaning self.now)) }
        ensures { result ≡ opened_make (box_meaning at) (new_layer_meaning self.now) }
    {
        self.make(step(at.x), step(at.y), extent(at.w), extent(at.h))
    }
}

impl AskedArea {
    fn area(&self) -> Area
        requires { IsTrue (is_blit_in_range (area_meaning self.now)) }
        ensures { result ≡ area_meaning self.now }
    {
        Area {
            sx: step(self.sx),
            sy: step(self.sy),
            x: step(self.x),
            y: step(self.y),
            w: extent(self.w),
            h: extent(self.h),
            minterm: self.minterm,
        }
    }
}

fn bare_call(verb: BareVerb, slot: u32) -> Call
    ensures { result ≡ bare_call verb slot }
{
    match verb {
        BareVerb::Close => Call::Close { slot },
        BareVerb::Front => Call::ToFront { slot },
        BareVerb::Behind => Call::ToBack { slot },
        BareVerb::Activate => Call::Activate { slot },
        BareVerb::Unclip => Call::Unclip { slot },
        BareVerb::Refresh => Call::BeginRefresh { slot },
        BareVerb::GetMsg => Call::TakeMessage { slot },
    }
}

#[tactic(auto, using(std::proofs::lemmas::Int::ints), unfolding(lw_region::specs::Rectangle::within))]
fn number_call(verb: NumberVerb, slot: u32, number: i64) -> Call
    requires { IsTrue (within (pos 0) number (pos (greatest_number verb))) }
    ensures { result ≡ number_call verb slot (unsigned_abs number) }
{
    match verb {
        NumberVerb::APen => Call::SetA {
            slot,
            pen: byte(number),
        },
        NumberVerb::BPen => Call::SetB {
            slot,
            pen: byte(number),
        },
        NumberVerb::Mode => Call::SetMode {
            slot,
            mode: byte(number),
        },
        NumberVerb::Mask => Call::SetMask {
            slot,
            mask: byte(number),
        },
        NumberVerb::SetRast => Call::SetRast {
            slot,
            pen: byte(number),
        },
        NumberVerb::Clip => Call::Clip {
            slot,
            reg: count(number),
        },
        NumberVerb::Hook => Call::SetHook {
            slot,
            hook: count(number),
        },
    }
}

fn pair_call(verb: PairVerb, slot: u32, x: i64, y: i64) -> Call
    requires { IsTrue (coordinates_fit x y) }
    ensures { result ≡ pair_call verb slot x y }
{
    let (dx, dy) = (step(x), step(y));
    match verb {
        PairVerb::Move => Call::MoveBy { slot, dx, dy },
        PairVerb::Size => Call::SizeBy {
            slot,
            dw: dx,
            dh: dy,
        },
        PairVerb::At => Call::At {
            slot,
            x: coordinate(x),
            y: coordinate(y),
        },
        PairVerb::Write => Call::WritePixel { slot, x: dx, y: dy },
        PairVerb::Read => Call::ReadPixel { slot, x: dx, y: dy },
        PairVerb::Draw => Call::DrawTo {
            slot,
            x: coordinate(x),
            y: coordinate(y),
        },
        PairVerb::Scroll => Call::Scroll { slot, dx, dy },
    }
}

fn text_call(verb: TextVerb, slot: u32, text: Text) -> Call
    ensures { result ≡ text_call verb slot text }
{
    match verb {
        TextVerb::Text => Call::Letters { slot, text },
        TextVerb::Title => Call::SetTitle { slot, title: text },
    }
}

/// A copy of the bytes.
fn text_of(alloc: Global, bytes: &[u8]) -> Result<Text, AllocError>
    ensures { IfOk result (λ text. text ≡ bytes.now) }
{
    Ok(Text::new(Vec::from_slice(alloc, bytes)?))
}

impl Act<'_> {
    /// The call of an act that names no layer.
    #[tactic(auto, using(std::proofs::lemmas::Int::ints), unfolding(lw_region::specs::Rectangle::within))]
    fn call_apart(&self) -> Call
        requires apart { IsTrue (is_apart self.now) }
        requires range { IsTrue (is_act_in_range (act_meaning self.now)) }
        ensures { (bitmaps : List (List ℕ)) (slots : List ℕ) → result ≡ spelled_call bitmaps (act_meaning self.now) slots }
    {
        match self {
            Act::RegRect {
                op,
                register,
                corners,
            } => Call::RegRect {
                op: *op,
                reg: count(*register),
                rect: corners.rect(),
            },
            Act::RegPair { op, source, into } => Call::RegPair {
                op: *op,
                source: count(*source),
                into: count(*into),
            },
            Act::RegClear(number) => Call::RegClear {
                reg: count(*number),
            },
            Act::Which { x, y } => Call::Which {
                x: step(*x),
                y: step(*y),
            },
            // Each other act names a layer.
            _ => unreachable!(),
        }
    }

    /// The call of an act that names a layer, has no kin that share its variant, and has neither a text nor a bitmap.
    fn call_on(&self, slot: u32, other: u32) -> Call
        requires alone { IsTrue (is_single_on_layers self.now) }
        requires range { IsTrue (is_act_in_range (act_meaning self.now)) }
        ensures { (bitmaps : List (List ℕ)) → result ≡ spelled_call bitmaps (act_meaning self.now) (slot ∷ other ∷ []) }
    {
        match self {
            Act::Create { corners, asked } => Call::Create {
                slot,
                make: asked.created(*corners),
            },
            Act::InFront => Call::InFrontOf { slot, other },
            Act::Box(at) => Call::SetBox {
                slot,
                x: step(at.x),
                y: step(at.y),
                w: extent(at.w),
                h: extent(at.h),
            },
            Act::Fill(corners) => Call::Fill {
                slot,
                rect: corners.rect(),
            },
            Act::ScrollRaster { dx, dy, corners } => Call::ScrollRaster {
                slot,
                dx: step(*dx),
                dy: step(*dy),
                rect: corners.rect(),
            },
            Act::Blit(area) => Call::Blit {
                source: slot,
                slot: other,
                area: area.area(),
            },
            Act::EndRefresh { full } => Call::EndRefresh { slot, full: *full },
            // No other act is one of these.
            _ => unreachable!(),
        }
    }

    /// The call, where the layers that it names have these slots, and the bitmap that a line `put` names this number: no
    /// other act reads the number.
    pub fn call(
        &self,
        alloc: Global,
        bitmap: u32,
        slot: u32,
        other: u32,
    ) -> Result<Call, AllocError>
        requires { IsTrue (is_act_in_range (act_meaning self.now)) }
        ensures { (bitmaps : List (List ℕ)) → IsBitmapAt bitmaps bitmap (act_meaning self.now) →
            IfOk result (λ call. call ≡ spelled_call bitmaps (act_meaning self.now) (slot ∷ other ∷ [])) }
    {
        match self {
            Act::Open {
                at,
                asked,
                framed,
                nocare,
                classes,
                title,
            } => Ok(Call::OpenWindow {
                slot,
                make: asked.opened(*at),
                framed: *framed,
                nocare: *nocare,
                asks: *classes,
                title: text_of(alloc, *title)?,
            }),
            Act::Bare(verb) => Ok(bare_call(*verb, slot)),
            Act::Number(verb, number) => Ok(number_call(*verb, slot, *number)),
            Act::Pair(verb, x, y) => Ok(pair_call(*verb, slot, *x, *y)),
            Act::Text(verb, text) => Ok(text_call(*verb, slot, text_of(alloc, *text)?)),
            Act::Put { area, .. } => Ok(Call::Put {
                bitmap,
                slot,
                area: area.area(),
            }),
            Act::RegRect { .. } | Act::RegPair { .. } | Act::RegClear(_) | Act::Which { .. } => {
                Ok(self.call_apart())
            }
            Act::Create { .. }
            | Act::InFront
            | Act::Box(_)
            | Act::Fill(_)
            | Act::ScrollRaster { .. }
            | Act::Blit(_)
            | Act::EndRefresh { .. } => Ok(self.call_on(slot, other)),
        }
    }
}
