// A region is kept as y-x bands. Its rows are cut into bands, as tall as possible, in each of which every row has the
// same runs of pixels; a run of a band is one rectangle. So the pixels on the left are the six rectangles A to F, in
// this order, of three bands:
//
//     ....##....##....        ....AA....BB....    band 1: rows 0 to 1, runs A and B
//     ....##....##....        ....AA....BB....
//     ..##############        ..CCCCCCCCCCCCCC    band 2: row 2, run C
//     ..####..##..####        ..DDDD..EE..FFFF    band 3: rows 3 to 4, runs D, E and F
//     ..####..##..####        ..DDDD..EE..FFFF
//
// Two runs of a band neither touch nor overlap: a free column is between them. Two bands that touch have different
// runs, or they were one. So a set has one list, and two regions are one set exactly where their lists are equal.
//
// An operation sweeps down both lists at once (sweep.rt). Each band, and each gap between bands, is cut where one of
// the other operand begins or is over, so that in each piece both operands have the same runs in all rows:
//
//     first      second      pieces, and what a union makes of them
//     AAAA....   ........    A alone                   AAAA....     copied
//     AAAA....   ..XXXX..    A and X                   MMMMMM..     merged, run by run (row.rt)
//     ........   ..XXXX..    X alone                   ..XXXX..     copied
//     ....BB..   ........    B, with nothing below     ....BB..     the rest is copied in one piece
//
// What a piece adds is joined to the band above where it goes on with the same runs (band.rt).

ghost use Rattle.std.specs.Prelude.{◌≡◌, List, [], ◌∷◌, ℤ, IfOk, OnOk, OnErr};
ghost use Rattle.lw_region.specs.Pixels.{pixels_of, union, intersection, difference, symmetric_difference};
ghost use Rattle.lw_region.specs.Bands.{bands, covers};
ghost use Rattle.lw_region.specs.Banded.{IsCanonical};
ghost use Rattle.lw_region.specs.Operations.{combined};
ghost use Rattle.lw_region.specs.Regions.{rectangle_set, MayMove, moved_list};

use crate::operation::Operation;
use crate::rect::Rect;
use crate::sweep::sweep;
use std::alloc::{AllocError, Global};
use std::marker::Model;

/// A set of pixels with coordinates from -32768 to 32767, after the `Region` structure of graphics.library.
/// It is kept as its canonical list of rectangles, and contracts see it as that list: bands from top to bottom,
/// the runs of a band from left to right, no two runs of a band touching or overlapping, no two adjacent bands
/// with equal runs. So one set has one list.
#[derive(Debug, Drop)]
pub struct Region {
    rects: Vec<Rect>,
}

impl Model for Region {
    ghost use Rattle.std.specs.Prelude.{List};
    ghost use Rattle.lw_region.specs.Rectangle.{Rectangle};
    ghost use Rattle.lw_region.specs.Banded.{IsCanonical};

    ghost Value = { List Rectangle };

    ghost view = { λ r. r.rects.items };

    ghost invariant = { λ r. IsCanonical r.rects.items };
}

impl Region {
    /// The region with no pixel (NewRegion). It takes no memory yet.
    pub fn new(alloc: Global) -> Region
        ensures { result ≡ [] }
    {
        Region {
            rects: Vec::new(alloc),
        }
    }

    /// The canonical list of the region's rectangles.
    pub fn rects(&self) -> &[Rect]
        ensures value { result.now ≡ self.now }
        ensures canonical { IsCanonical self.now }
    {
        self.rects.as_slice()
    }

    /// Whether the pixel at column `x` and row `y` is in the region.
    #[tactic(auto, using(std::proofs::lemmas::Int::ints), unfolding(crate::specs::Bands::covers))]
    pub fn has(&self, x: i32, y: i32) -> bool
        ensures { result ≡ covers self.now x y }
    {
        self.rects().iter().any(|rect| rect.has(x, y))
    }

    /// A region with the same pixels.
    pub fn copy(&self, alloc: Global) -> Result<Region, AllocError>
        ensures { IfOk result (λ made. made ≡ self.now) }
    {
        let rects = Vec::from_slice(alloc, self.rects())?;
        Ok(Region { rects })
    }

    /// Takes all pixels out of the region (ClearRegion).
    pub fn clear(&mut self)
        ensures { self.new ≡ [] }
    {
        self.rects.clear();
    }

    /// Adds the pixels of the rectangle (OrRectRegion). After an error the region is
    /// as before.
    pub fn or_rect(&mut self, alloc: Global, rect: &Rect) -> Result<(), AllocError>
        ensures list { OnOk result
            (self.new ≡ bands (union (pixels_of self.old) (rectangle_set rect.now))) }
        ensures err { OnErr result (self.new ≡ self.old) }
    {
        self.combine(alloc, Operation::Union, rect.as_list())
    }

    /// Keeps the pixels that are in the rectangle (AndRectRegion). After an error the region is
    /// as before.
    pub fn and_rect(&mut self, alloc: Global, rect: &Rect) -> Result<(), AllocError>
        ensures list { OnOk result
            (self.new ≡ bands (intersection (pixels_of self.old) (rectangle_set rect.now))) }
        ensures err { OnErr result (self.new ≡ self.old) }
    {
        self.combine(alloc, Operation::Intersection, rect.as_list())
    }

    /// Adds the pixels of the rectangle that are not in the region, and takes out those that are (XorRectRegion).
    /// After an error the region is as before.
    pub fn xor_rect(&mut self, alloc: Global, rect: &Rect) -> Result<(), AllocError>
        ensures list { OnOk result
            (self.new ≡ bands (symmetric_difference (pixels_of self.old) (rectangle_set rect.now))) }
        ensures err { OnErr result (self.new ≡ self.old) }
    {
        self.combine(alloc, Operation::SymmetricDifference, rect.as_list())
    }

    /// Takes the pixels of the rectangle out of the region (ClearRectRegion). After an error the region is
    /// as before.
    pub fn clear_rect(&mut self, alloc: Global, rect: &Rect) -> Result<(), AllocError>
        ensures list { OnOk result
            (self.new ≡ bands (difference (pixels_of self.old) (rectangle_set rect.now))) }
        ensures err { OnErr result (self.new ≡ self.old) }
    {
        self.combine(alloc, Operation::Difference, rect.as_list())
    }

    // Makes the region that of the pixels for which the operation holds on it and a further canonical list.
    fn combine(
        &mut self,
        alloc: Global,
        operation: Operation,
        other: &[Rect],
    ) -> Result<(), AllocError>
        requires { IsCanonical other.now }
        ensures list { OnOk result (self.new ≡ bands (combined operation (pixels_of self.old) (pixels_of other.now))) }
        ensures err { OnErr result (self.new ≡ self.old) }
    {
        let made = combination(alloc, operation, self.rects(), other)?;
        *self = made;
        Ok(())
    }
}

// The region of the pixels for which the operation holds on two canonical lists.
fn combination(
    alloc: Global,
    operation: Operation,
    a: &[Rect],
    b: &[Rect],
) -> Result<Region, AllocError>
    requires canonical_a { IsCanonical a.now }
    requires canonical_b { IsCanonical b.now }
    ensures { IfOk result (λ made. made ≡ bands (combined operation (pixels_of a.now) (pixels_of b.now))) }
{
    let rects = sweep(alloc, operation, a, b)?;
    Ok(Region { rects })
}

/// The region of the pixels that two canonical lists both have (this project's own: AndRegionRegion and AndRectRegion change a
/// region, of which a copy would be made first).
pub fn intersection(alloc: Global, a: &[Rect], b: &[Rect]) -> Result<Region, AllocError>
    requires canonical_a { IsCanonical a.now }
    requires canonical_b { IsCanonical b.now }
    ensures { IfOk result (λ made. made ≡ bands (intersection (pixels_of a.now) (pixels_of b.now))) }
{
    combination(alloc, Operation::Intersection, a, b)
}

/// The region of the pixels of one canonical list that another one has not (this project's own, as `intersection`).
pub fn difference(alloc: Global, a: &[Rect], b: &[Rect]) -> Result<Region, AllocError>
    requires canonical_a { IsCanonical a.now }
    requires canonical_b { IsCanonical b.now }
    ensures { IfOk result (λ made. made ≡ bands (difference (pixels_of a.now) (pixels_of b.now))) }
{
    combination(alloc, Operation::Difference, a, b)
}

/// Adds the pixels of `from` to `into` (OrRegionRegion). After an error both are as before.
pub fn or_region(alloc: Global, from: &Region, into: &mut Region) -> Result<(), AllocError>
    ensures list { OnOk result
        (into.new ≡ bands (union (pixels_of into.old) (pixels_of from.now))) }
    ensures err { OnErr result (into.new ≡ into.old) }
{
    into.combine(alloc, Operation::Union, from.rects())
}

/// Keeps the pixels of `into` that are in `from` (AndRegionRegion). After an error both are as before.
pub fn and_region(alloc: Global, from: &Region, into: &mut Region) -> Result<(), AllocError>
    ensures list { OnOk result
        (into.new ≡ bands (intersection (pixels_of into.old) (pixels_of from.now))) }
    ensures err { OnErr result (into.new ≡ into.old) }
{
    into.combine(alloc, Operation::Intersection, from.rects())
}

/// Adds the pixels of `from` that are not in `into`, and takes out those that are (XorRegionRegion). After an error
/// both are as before.
pub fn xor_region(alloc: Global, from: &Region, into: &mut Region) -> Result<(), AllocError>
    ensures list { OnOk result
        (into.new ≡ bands (symmetric_difference (pixels_of into.old) (pixels_of from.now))) }
    ensures err { OnErr result (into.new ≡ into.old) }
{
    into.combine(alloc, Operation::SymmetricDifference, from.rects())
}

/// Takes the pixels of `from` out of `into` (this project's own: the manual has the call for a rectangle alone). After an
/// error both are as before.
pub fn clear_region(alloc: Global, from: &Region, into: &mut Region) -> Result<(), AllocError>
    ensures list { OnOk result
        (into.new ≡ bands (difference (pixels_of into.old) (pixels_of from.now))) }
    ensures err { OnErr result (into.new ≡ into.old) }
{
    into.combine(alloc, Operation::Difference, from.rects())
}

/// The region of a canonical list of rectangles, moved by `dx` columns to the right and `dy` rows down.
/// Each of its pixels has coordinates of 16 bits after that too. No rectangle is compared with another: what is moved of a
/// canonical list is canonical.
pub fn moved_region(alloc: Global, rects: &[Rect], dx: i32, dy: i32) -> Result<Region, AllocError>
    requires canonical { IsCanonical rects.now }
    requires words { MayMove rects.now dx dy }
    ensures { IfOk result (λ made. made ≡ moved_list rects.now dx dy) }
{
    let mut made = Vec::with_capacity(alloc, rects.len())?;
    for rect in rects {
        made.push(rect.moved_within(dx, dy))?;
    }
    Ok(Region { rects: made })
}

// A region may go to another thread, and threads may share it: the bounds ask for the proofs.
fn cross_threads() {
    crosses::<Region>();
    is_shared::<Region>();
}

fn crosses<T: Send>() {}

fn is_shared<T: Sync>() {}
