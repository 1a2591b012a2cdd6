ghost use Rattle.std.specs.Prelude.{◌≡◌, true, ◌&&◌, ◌+ℤ◌, IfOk, IfSome};
ghost use Rattle.std.specs.Ordering.{int_eq};
ghost use Rattle.lw_calls.specs.Kinds.{is_super};
ghost use Rattle.lw_gzz.specs.declared.word.GzzWord.TheVariants.{Open};
ghost use Rattle.lw_gzz.specs.Words.{HasInner, HasInnerBox, IsWordOf};
ghost use Rattle.lw_gzz.specs.Recognition.{is_plain, is_smart, is_same_place, is_inner_box, are_makes, is_bare, has_both};
ghost use Rattle.lw_gzz.specs.Recognition.{word_if, word_of_two, word_of_three};

use crate::expanding::copied;
use crate::word::GzzWord;
use lw_calls::{Call, Kind, Make, Pair, Place, Text};
use std::alloc::{AllocError, Global};

fn is_plain(make: &Make) -> bool
    ensures { result ≡ is_plain make.now }
{
    !make.backdrop && make.hook.is_none() && make.bits_w == 0 && make.bits_h == 0
}

fn is_same_place(place: Place, other: Place) -> bool
    ensures { result ≡ is_same_place place other }
{
    match (place, other) {
        (Place::Front, Place::Front) | (Place::Behind, Place::Behind) => true,
        _ => false,
    }
}

/// Whether `sum` is `by` more than `number`.
fn is_sum(number: i32, by: i32, sum: i32) -> bool
    ensures { result ≡ int_eq (number +ℤ by) sum }
{
    i64::from(number) + i64::from(by) == i64::from(sum)
}

fn are_all(column: bool, row: bool, columns: bool, rows: bool) -> bool
    ensures { result ≡ ((column && row) && (columns && rows)) }
{
    column && row && columns && rows
}

/// A box: its left column, its top row, and how many columns and rows it has.
#[derive(Clone, Copy)]
struct Frame {
    x: i32,
    y: i32,
    w: i32,
    h: i32,
}

impl Frame {
    fn of(make: &Make) -> Frame
        ensures { result ≡ record { x = make.now.x; y = make.now.y; w = make.now.w; h = make.now.h } }
    {
        Frame {
            x: make.x,
            y: make.y,
            w: make.w,
            h: make.h,
        }
    }

    /// The other box is the inner rectangle of this one.
    fn has_inner(self, inner: Frame) -> bool
        ensures is { result ≡ is_inner_box self.x self.y self.w self.h inner.x inner.y inner.w inner.h }
        ensures fits { result ≡ true → HasInner self.x self.y self.w self.h }
    {
        let column = is_sum(self.x, 4, inner.x);
        let row = is_sum(self.y, 11, inner.y);
        let columns = is_sum(inner.w, 8, self.w);
        let rows = is_sum(inner.h, 13, self.h);
        are_all(column, row, columns, rows)
    }
}

/// The layers of a new pair.
fn are_makes(outer: &Make, inner: &Make) -> bool
    ensures is { result ≡ are_makes outer.now inner.now }
    ensures fits { result ≡ true → HasInner outer.now.x outer.now.y outer.now.w outer.now.h }
{
    is_smart(outer.kind)
        && !is_super(inner.kind)
        && is_plain(outer)
        && is_plain(inner)
        && is_same_place(outer.place, inner.place)
        && Frame::of(outer).has_inner(Frame::of(inner))
}

fn is_smart(kind: Kind) -> bool
    ensures { result ≡ is_smart kind }
{
    match kind {
        Kind::Smart => true,
        _ => false,
    }
}

fn is_super(kind: Kind) -> bool
    ensures { result ≡ is_super kind }
{
    match kind {
        Kind::SuperBitmap => true,
        _ => false,
    }
}

/// A window without a frame and a title, which wants refresh messages and asks for these classes.
fn is_bare(asks: u8, framed: bool, nocare: bool, classes: u8, title: &Text) -> bool
    ensures { result ≡ is_bare asks framed nocare classes title.now }
{
    !framed && !nocare && classes == asks && title.bytes().is_empty()
}

fn has_both(pair: &Pair, outer: u32, inner: u32) -> bool
    ensures { result ≡ has_both pair.now outer inner }
{
    outer == pair.outer && inner == pair.inner
}

/// The word where the test holds.
fn word_if(test: bool, word: GzzWord) -> Option<GzzWord>
    requires { test ≡ true → HasInnerBox word }
    ensures is { result ≡ word_if test word }
    ensures inner { IfSome result (λ word. HasInnerBox word) }
{
    if test { Some(word) } else { None }
}

/// The word for which two calls stand.
fn word_of_two(pair: &Pair, first: &Call, second: &Call) -> Option<GzzWord>
    ensures is { result ≡ word_of_two pair.now first.now second.now }
    ensures inner { IfSome result (λ word. HasInnerBox word) }
{
    match (first, second) {
        (
            Call::SetBox { slot, x, y, w, h },
            Call::SetBox {
                slot: inner,
                x: inner_x,
                y: inner_y,
                w: inner_w,
                h: inner_h,
            },
        ) => {
            let outside = Frame {
                x: *x,
                y: *y,
                w: *w,
                h: *h,
            };
            let inside = Frame {
                x: *inner_x,
                y: *inner_y,
                w: *inner_w,
                h: *inner_h,
            };
            let word = GzzWord::SetBox {
                x: *x,
                y: *y,
                w: *w,
                h: *h,
            };
            let fits = outside.has_inner(inside);
            word_if(has_both(pair, *slot, *inner) && fits, word)
        }
        (Call::ToFront { slot }, Call::ToFront { slot: inner }) => {
            word_if(has_both(pair, *slot, *inner), GzzWord::Front)
        }
        (Call::ToBack { slot: inner }, Call::ToBack { slot }) => {
            word_if(has_both(pair, *slot, *inner), GzzWord::Behind)
        }
        (
            Call::InFrontOf { slot, other },
            Call::InFrontOf {
                slot: inner,
                other: place,
            },
        ) => {
            let joined = *place == pair.outer;
            word_if(
                has_both(pair, *slot, *inner) && joined,
                GzzWord::InFrontOf { other: *other },
            )
        }
        (Call::Close { slot }, Call::Close { slot: inner }) => {
            word_if(has_both(pair, *slot, *inner), GzzWord::Close)
        }
        _ => None,
    }
}

/// The word for which three calls stand.
fn word_of_three(
    alloc: Global,
    pair: &Pair,
    first: &Call,
    second: &Call,
    third: &Call,
) -> Result<Option<GzzWord>, AllocError>
    ensures is { IfOk result (λ word. word ≡ word_of_three pair.now first.now second.now third.now) }
    ensures inner { IfOk result (λ answer. IfSome answer (λ word. HasInnerBox word)) }
{
    match (first, second, third) {
        (
            Call::OpenWindow {
                slot: outer,
                make,
                framed,
                nocare,
                asks,
                title,
            },
            Call::OpenWindow {
                slot: inner,
                make: small,
                framed: rim,
                nocare: care,
                asks: classes,
                title: text,
            },
            Call::InFrontOf { slot, other },
        ) => {
            let pairs = has_both(pair, *outer, *inner) && has_both(pair, *other, *slot);
            let frame = *framed && !*nocare;
            let makes = are_makes(make, small);
            let bare = is_bare(*asks, *rim, *care, *classes, text);
            if pairs && frame && makes && bare {
                let title = copied(alloc, title)?;
                Ok(Some(open_word(small.kind, make, *asks, title)))
            } else {
                Ok(None)
            }
        }
        _ => Ok(None),
    }
}

fn open_word(kind: Kind, make: &Make, asks: u8, title: Text) -> GzzWord
    ensures { result ≡ Open kind make.now.place make.now.x make.now.y make.now.w make.now.h asks title }
{
    GzzWord::Open {
        kind,
        place: make.place,
        x: make.x,
        y: make.y,
        w: make.w,
        h: make.h,
        asks,
        title,
    }
}

/// What calls stand for, done with this pair; `None` exactly where they are no group of such calls. The error is want of
/// memory. This project's own.
#[tactic(auto, using(crate::proofs::Spelling::exact_of, crate::proofs::Spelling::exact_if))]
pub fn as_word(alloc: Global, pair: &Pair, calls: &[Call]) -> Result<Option<GzzWord>, AllocError>
    ensures exact { IfOk result (λ answer. IsWordOf pair.now calls.now answer) }
    ensures inner { IfOk result (λ answer. IfSome answer (λ word. HasInnerBox word)) }
{
    match calls {
        [first, second] => Ok(word_of_two(pair, first, second)),
        [first, second, third] => word_of_three(alloc, pair, first, second, third),
        _ => Ok(None),
    }
}
