// Carrying the pens that a layer keeps into new buffers.

ghost use Rattle.std.specs.Prelude.{◌≡◌, ◌≤◌, false, length, pos, ◌+ℤ◌, ◌-ℤ◌, ◌≤ℤ◌, IfOk, IsTrue};
ghost use Rattle.lw_region.specs.Rectangle.{width, height};
ghost use Rattle.lw_planes.specs.Sizes.{AreSizes};
ghost use Rattle.lw_layer.specs.View.{LiveView};
ghost use Rattle.lw_layer.specs.Looks.{IsLook};
ghost use Rattle.lw_layer.specs.StandsFor.{IsSound};
ghost use Rattle.lw_reveal.specs.Changes.{carried};
ghost use Rattle.lw_reveal.specs.Carrying.{IsPlace, HaveSizes, IsNewStrip, AreNew, AreNewStrips, AreBothNew};
ghost use Rattle.lw_reveal.specs.Carrying.{KeepsAll, LiesWithin, IsForPens};

use crate::pairing::Pairing;
use lw_calls::Kind;
use lw_layer::{Layer, Look};
use lw_planes::{Planes, Spare};
use lw_region::Rect;
use lw_strips::Strip;
use std::alloc::{AllocError, Global};

// Where a layer is to lie, the pixel of its bits that its top left corner shows, and of how many of its first columns and rows it
// keeps all pixels.
#[derive(Clone, Copy)]
pub(crate) struct Place {
    pub(crate) bounds: Rect,
    pub(crate) scroll_x: i32,
    pub(crate) scroll_y: i32,
    pub(crate) kept_width: u32,
    pub(crate) kept_height: u32,
}

// The place of a layer that looks so and is to have these bounds.
pub(crate) fn place_of(look: &Look, bounds: &Rect) -> Place
    ensures place { (c : LiveView) → IsLook c look.now → IsSound c → IsPlace c result }
    ensures bounds { result.bounds ≡ bounds.now }
{
    let (kept_width, kept_height) = kept_size(look);
    Place {
        bounds: *bounds,
        scroll_x: look.scroll_x,
        scroll_y: look.scroll_y,
        kept_width,
        kept_height,
    }
}

// Of how many of its first columns and rows a layer that looks so keeps all pixels: a simple one may keep none.
fn kept_size(look: &Look) -> (u32, u32)
    ensures { (c : LiveView) → IsLook c look.now → IsSound c → KeepsAll c result.0 result.1 }
{
    match look.kind {
        Kind::Simple => (0, 0),
        Kind::Smart => (look.bounds.width(), look.bounds.height()),
        Kind::SuperBitmap => (look.bits_w, look.bits_h),
    }
}

// The strips of the first `shown` rectangles, which are visible, and the buffers of the others.
pub(crate) fn all_buffers(
    alloc: Global,
    layer: &Layer,
    place: &Place,
    pairing: &Pairing,
    shown: usize,
    spare: &mut Spare,
) -> Result<(Vec<Strip>, Vec<Planes>), AllocError>
    requires place { IsPlace layer.now place.now }
    requires many { length pairing.now.given.items ≡ length pairing.now.news.items }
    requires shown { shown ≤ length pairing.now.news.items }
    requires sizes { HaveSizes layer.now.layer.bits.depth pairing.now.news.items }
    ensures { IfOk result (λ b. AreBothNew layer.now place.now.bounds pairing.now.news.items pairing.now.given.items
        shown b.0.items b.1.items) }
{
    let rects = &pairing.news[..shown];
    let rest = &pairing.news[shown..];
    let given = &pairing.given[..shown];
    let rest_given = &pairing.given[shown..];
    let strips = new_strips(alloc, layer, place, rects, given, spare)?;
    let covered = new_buffers(alloc, layer, place, rest, rest_given, spare)?;
    Ok((strips, covered))
}

// A solid strip of each of the rectangles with the pens that the layer keeps there, and a blank one where its pens are given.
fn new_strips(
    alloc: Global,
    layer: &Layer,
    place: &Place,
    rects: &[Rect],
    given: &[bool],
    spare: &mut Spare,
) -> Result<Vec<Strip>, AllocError>
    requires place { IsPlace layer.now place.now }
    requires many { length given.now ≡ length rects.now }
    requires sizes { HaveSizes layer.now.layer.bits.depth rects.now }
    ensures { IfOk result (λ strips. AreNewStrips layer.now place.now.bounds rects.now given.now strips.items) }
{
    let mut strips = Vec::with_capacity(alloc, rects.len())?;
    for index in 0..rects.len() {
        let strip = new_strip(alloc, layer, place, &rects[index], given[index], spare)?;
        strips.push(strip)?;
    }
    Ok(strips)
}

// One of them.
fn new_strip(
    alloc: Global,
    layer: &Layer,
    place: &Place,
    rect: &Rect,
    given: bool,
    spare: &mut Spare,
) -> Result<Strip, AllocError>
    requires place { IsPlace layer.now place.now }
    requires sizes { AreSizes (width rect.now) (height rect.now) layer.now.layer.bits.depth }
    ensures { IfOk result (λ strip. IsNewStrip layer.now place.now.bounds rect.now given strip) }
{
    if given {
        return Ok(Strip::blank(*rect, layer.depth()));
    }
    Ok(Strip::new(*rect, carry(alloc, layer, place, rect, spare)?))
}

// A buffer for each of the rectangles with the pens that the layer keeps there, and a bitmap of one pixel where a buffer is
// given.
fn new_buffers(
    alloc: Global,
    layer: &Layer,
    place: &Place,
    rects: &[Rect],
    given: &[bool],
    spare: &mut Spare,
) -> Result<Vec<Planes>, AllocError>
    requires place { IsPlace layer.now place.now }
    requires many { length given.now ≡ length rects.now }
    requires sizes { HaveSizes layer.now.layer.bits.depth rects.now }
    ensures { IfOk result (λ buffers. AreNew layer.now place.now.bounds rects.now given.now buffers.items) }
{
    let mut buffers = Vec::with_capacity(alloc, rects.len())?;
    for index in 0..rects.len() {
        let buffer = new_buffer(alloc, layer, place, &rects[index], given[index], spare)?;
        buffers.push(buffer)?;
    }
    Ok(buffers)
}

// One of them.
fn new_buffer(
    alloc: Global,
    layer: &Layer,
    place: &Place,
    rect: &Rect,
    given: bool,
    spare: &mut Spare,
) -> Result<Planes, AllocError>
    requires place { IsPlace layer.now place.now }
    requires sizes { AreSizes (width rect.now) (height rect.now) layer.now.layer.bits.depth }
    ensures { IfOk result (λ planes. given ≡ false → planes ≡ carried layer.now place.now.bounds rect.now) }
{
    if given {
        return Planes::new(alloc, 1, 1, 1);
    }
    carry(alloc, layer, place, rect, spare)
}

// A buffer of the rectangle's size with the pens that the layer keeps there.
fn carry(
    alloc: Global,
    layer: &Layer,
    place: &Place,
    rect: &Rect,
    spare: &mut Spare,
) -> Result<Planes, AllocError>
    requires place { IsPlace layer.now place.now }
    requires sizes { AreSizes (width rect.now) (height rect.now) layer.now.layer.bits.depth }
    ensures { IfOk result (λ planes. planes ≡ carried layer.now place.now.bounds rect.now) }
{
    let x = layer_place(rect.min_x(), place.bounds.min_x(), place.scroll_x);
    let y = layer_place(rect.min_y(), place.bounds.min_y(), place.scroll_y);
    let mut planes = bitmap_for(alloc, layer, place, rect, x, y, spare)?;
    layer.copy_kept(x, y, &mut planes);
    Ok(planes)
}

// A bitmap of the rectangle's size for the pens that the layer keeps from its pixel (x, y) on. Where it keeps all of these pixels, the
// bitmap may be one that has any pens.
fn bitmap_for(
    alloc: Global,
    layer: &Layer,
    place: &Place,
    rect: &Rect,
    x: i32,
    y: i32,
    spare: &mut Spare,
) -> Result<Planes, AllocError>
    requires place { IsPlace layer.now place.now }
    requires sizes { AreSizes (width rect.now) (height rect.now) layer.now.layer.bits.depth }
    ensures { IfOk result (λ planes. IsForPens layer.now x y (width rect.now) (height rect.now) planes) }
{
    let (width, height) = (rect.width(), rect.height());
    if lies_within(x, width, place.kept_width) && lies_within(y, height, place.kept_height) {
        return spare.planes(alloc, width, height, layer.depth());
    }
    Planes::new(alloc, width, height, layer.depth())
}

// Whether so many places from this one on lie within the first ones.
#[tactic(auto, using(std::proofs::lemmas::Int::ints))]
fn lies_within(first: i32, count: u32, all: u32) -> bool
    ensures { IsTrue result → LiesWithin first count all }
{
    first >= 0 && i64::from(first) + i64::from(count) <= i64::from(all)
}

// Which column or row of the layer stands at an edge, where the bounds' edge shows the one at the scroll.
#[tactic(auto, using(std::proofs::lemmas::Int::ints))]
fn layer_place(edge: i16, low: i16, scroll: i32) -> i32
    requires from { pos 0 ≤ℤ scroll }
    requires upto { scroll ≤ℤ pos 2048 }
    ensures { result ≡ (edge -ℤ low) +ℤ scroll }
{
    i32::from(edge) - i32::from(low) + scroll
}
