ghost use Rattle.std.specs.Prelude.{◌≡◌, true, false, pos, ◌+ℤ◌, ◌-ℤ◌, [], ◌∷◌, IfOk};
ghost use Rattle.lw_calls.specs.declared.call.Call.TheVariants.{OpenWindow, SetBox, InFrontOf};
ghost use Rattle.lw_gzz.specs.Words.{plain_make, expansion, has_kind, HasInner, HasInnerBox};

use crate::word::GzzWord;
use lw_calls::{Call, Kind, Make, Pair, Place, Text};
use std::alloc::{AllocError, Global};

/// A layer of this kind with this box, that is no backdrop and has no hook.
fn plain_make(kind: Kind, place: Place, x: i32, y: i32, w: i32, h: i32) -> Make
    ensures { result ≡ plain_make kind place x y w h }
{
    Make {
        kind,
        place,
        x,
        y,
        w,
        h,
        backdrop: false,
        hook: None,
        bits_w: 0,
        bits_h: 0,
    }
}

/// The same with the inner rectangle of the box.
fn inner_make(kind: Kind, place: Place, x: i32, y: i32, w: i32, h: i32) -> Make
    requires { HasInner x y w h }
    ensures { result ≡ plain_make kind place (x +ℤ pos 4) (y +ℤ pos 11) (w -ℤ pos 8) (h -ℤ pos 13) }
{
    plain_make(kind, place, x + 4, y + 11, w - 8, h - 13)
}

/// A copy of a text.
pub(crate) fn copied(alloc: Global, text: &Text) -> Result<Text, AllocError>
    ensures { IfOk result (λ copy. copy ≡ text.now) }
{
    Ok(Text::new(Vec::from_slice(alloc, text.bytes())?))
}

/// The opening of a window that wants refresh messages.
fn window(slot: u32, make: Make, framed: bool, asks: u8, title: Text) -> Call
    ensures { result ≡ OpenWindow slot make framed false asks title }
{
    Call::OpenWindow {
        slot,
        make,
        framed,
        nocare: false,
        asks,
        title,
    }
}

fn set_box(slot: u32, x: i32, y: i32, w: i32, h: i32) -> Call
    ensures { result ≡ SetBox slot x y w h }
{
    Call::SetBox { slot, x, y, w, h }
}

/// Gives a window the inner rectangle of a box.
fn set_inner_box(slot: u32, x: i32, y: i32, w: i32, h: i32) -> Call
    requires { HasInner x y w h }
    ensures { result ≡ SetBox slot (x +ℤ pos 4) (y +ℤ pos 11) (w -ℤ pos 8) (h -ℤ pos 13) }
{
    set_box(slot, x + 4, y + 11, w - 8, h - 13)
}

fn put_in_front(slot: u32, other: u32) -> Call
    ensures { result ≡ InFrontOf slot other }
{
    Call::InFrontOf { slot, other }
}

fn both(alloc: Global, first: Call, second: Call) -> Result<Vec<Call>, AllocError>
    ensures { IfOk result (λ calls. calls.items ≡ first ∷ second ∷ []) }
{
    Ok(vec![in alloc; first, second]?)
}

/// Opens both windows of a pair and puts the inner one directly in front of the outer one.
fn opening(
    alloc: Global,
    pair: &Pair,
    frame: Make,
    inside: Make,
    asks: u8,
    title: &Text,
) -> Result<Vec<Call>, AllocError>
    ensures { IfOk result (λ calls. calls.items ≡
        OpenWindow pair.now.outer frame true false asks title.now ∷ OpenWindow pair.now.inner inside false false asks []
        ∷ InFrontOf pair.now.inner pair.now.outer ∷ []) }
{
    let first = window(pair.outer, frame, true, asks, copied(alloc, title)?);
    let second = window(pair.inner, inside, false, asks, Text::new(Vec::new(alloc)));
    let third = put_in_front(pair.inner, pair.outer);
    Ok(vec![in alloc; first, second, third]?)
}

/// The calls that stand for what is done with a pair, in their order; they are a group that holds all layers. The inner window's
/// kind is simple or smart, and the place and the size of the inner rectangle are such as an `i32` has. The error
/// is want of memory. This project's own.
pub fn expand(alloc: Global, pair: &Pair, word: &GzzWord) -> Result<Vec<Call>, AllocError>
    requires kind { has_kind word.now ≡ true }
    requires inner { HasInnerBox word.now }
    ensures { IfOk result (λ calls. calls.items ≡ expansion pair.now word.now) }
{
    let outer = pair.outer;
    let inner = pair.inner;
    match word {
        GzzWord::Open {
            kind,
            place,
            x,
            y,
            w,
            h,
            asks,
            title,
        } => {
            let frame = plain_make(Kind::Smart, *place, *x, *y, *w, *h);
            let inside = inner_make(*kind, *place, *x, *y, *w, *h);
            opening(alloc, pair, frame, inside, *asks, title)
        }
        GzzWord::SetBox { x, y, w, h } => {
            let first = set_box(outer, *x, *y, *w, *h);
            both(alloc, first, set_inner_box(inner, *x, *y, *w, *h))
        }
        GzzWord::Front => {
            let first = Call::ToFront { slot: outer };
            let second = Call::ToFront { slot: inner };
            both(alloc, first, second)
        }
        GzzWord::Behind => {
            let first = Call::ToBack { slot: inner };
            let second = Call::ToBack { slot: outer };
            both(alloc, first, second)
        }
        GzzWord::InFrontOf { other } => {
            let first = put_in_front(outer, *other);
            both(alloc, first, put_in_front(inner, outer))
        }
        GzzWord::Close => {
            let first = Call::Close { slot: outer };
            both(alloc, first, Call::Close { slot: inner })
        }
    }
}
