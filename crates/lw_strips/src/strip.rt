ghost use Rattle.std.specs.Prelude.{◌≡◌, ◌+◌, ◌<◌, ◌≤◌, true, false, MatchOption};
ghost use Rattle.std.specs.Borrow.{sem};
ghost use Rattle.lw_region.specs.Rectangle.{width, height};
ghost use Rattle.lw_planes.specs.Sizes.{AreSizes};
ghost use Rattle.lw_strips.specs.Blocks.{IsBlockOf, with_block};
ghost use Rattle.lw_strips.specs.Strips.{IsSizeOf, IsStrip, blank_planes, filled};
ghost use Rattle.lw_strips.specs.Lending.{AreRowsOf, LendsRows};
ghost use Rattle.lw_strips.specs.Lent.{HaveRows, AreRows, LendsPens, HaveBlock, with_copy};

use crate::block::{Block, copy_block};
use lw_planes::Planes;
use lw_region::Rect;
use std::marker::Model;

/// A rectangle, in screen coordinates, with the pens of its pixels. A solid strip has memory for them; a blank one has none,
/// and pen 0 all over. Contracts see the rectangle, the bitmap of the pens, and whether the strip is solid.
#[derive(Debug, Drop)]
pub struct Strip {
    rect: Rect,
    pens: Pens,
}

// Pens of so many planes: their bitmap, or pen 0 all over.
#[derive(Debug, Drop)]
struct Pens {
    depth: u32,
    planes: Option<Planes>,
}

impl Model for Strip {
    ghost use Rattle.std.specs.Prelude.{◌≡◌};
    ghost use Rattle.lw_strips.specs.Strips.{StripView, IsStrip, strip_of};

    ghost Value = { StripView };

    ghost view = { λ s. strip_of s.rect s.pens.depth s.pens.planes };

    ghost invariant = { λ s. IsStrip (strip_of s.rect s.pens.depth s.pens.planes)
        × ((strip_of s.rect s.pens.depth s.pens.planes).planes.depth ≡ s.pens.depth) };
}

impl Strip {
    /// The solid strip of a rectangle with these pens, whose bitmap has the rectangle's width and height.
    pub fn new(rect: Rect, planes: Planes) -> Strip
        requires { IsSizeOf rect planes }
        ensures { result ≡ record { rect = rect; planes = planes; solid = true } }
    {
        // Reading these tells the proof that the rectangle is ordered and the bitmap sound.
        let _ = rect.min_x();
        Strip {
            rect,
            pens: Pens {
                depth: planes.depth(),
                planes: Some(planes),
            },
        }
    }

    /// The blank strip of a rectangle of 1 to 2048 columns and rows, of 1 to 8 planes. It takes no memory.
    pub fn blank(rect: Rect, depth: u32) -> Strip
        requires { AreSizes (width rect) (height rect) depth }
        ensures { result ≡ record { rect = rect; planes = blank_planes rect depth; solid = false } }
    {
        // Reading this tells the proof that the rectangle is ordered.
        let _ = rect.min_x();
        Strip {
            rect,
            pens: Pens {
                depth,
                planes: None,
            },
        }
    }

    /// The rectangle.
    pub fn rect(&self) -> &Rect
        ensures value { result.now ≡ self.now.rect }
        ensures strip { IsStrip self.now }
    {
        &self.rect
    }

    /// The number of planes, 1 to 8.
    pub fn depth(&self) -> u32
        ensures value { result ≡ self.now.planes.depth }
        ensures strip { IsStrip self.now }
    {
        self.pens.depth
    }

    /// The bitmap of the pens, if the strip is solid; `None` exactly where it is blank.
    pub fn planes(&self) -> Option<&Planes>
        ensures value { MatchOption result
            (self.now.solid ≡ false)
            (λ planes. (self.now.solid ≡ true) × (planes.now ≡ self.now.planes)) }
        ensures strip { IsStrip self.now }
    {
        self.pens.planes.as_ref()
    }

    /// The bitmap of the pens of a solid strip.
    pub fn bitmap(&self) -> &Planes
        requires { self.now.solid ≡ true }
        ensures value { result.now ≡ self.now.planes }
        ensures strip { IsStrip self.now }
    {
        match self.planes() {
            Some(planes) => planes,
            None => unreachable!(),
        }
    }

    /// The bitmap of the pens without the strip, if the strip is solid; `None` exactly where it is blank. No memory is taken or
    /// freed.
    pub fn into_planes(self) -> Option<Planes>
        ensures { MatchOption result
            (self.solid ≡ false)
            (λ planes. (self.solid ≡ true) × (planes ≡ self.planes)) }
    {
        let pens = self.pens;
        pens.planes
    }

    /// Gives the strip the pens and the number of planes of this bitmap, which has the rectangle's width and height, in place of
    /// those that it has, and frees these.
    pub fn fill(&mut self, planes: Planes)
        requires { IsSizeOf self.old.rect planes }
        ensures { self.new ≡ filled planes self.old }
    {
        // Reading these tells the proof that the rectangle is ordered and the bitmap sound.
        let _ = self.rect.min_x();
        self.pens = Pens {
            depth: planes.depth(),
            planes: Some(planes),
        };
    }

    /// Copies a block of pixels into the pens of a solid strip, as `copy_block` does. No memory is taken.
    pub fn copy_block(&mut self, source: &Planes, block: Block)
        requires solid { self.old.solid ≡ true }
        requires block { IsBlockOf block self.old.planes source.now }
        ensures { self.new ≡ filled (with_block block source.now self.old.planes) self.old }
    {
        // Reading this tells the proof that the source is sound.
        let _ = source.depth();
        let pens = &mut self.pens;
        pens.copy_block(source, block);
    }

    /// Lends the bytes of `rows` rows of one plane of a solid strip, one at least, from row `y` of its bitmap on, all in range,
    /// as `Planes::rows_mut` does. After the loan each pixel of these rows has in this plane the bit that the bytes then hold,
    /// and all else stays as it was.
    pub fn rows_mut(&mut self, plane: u32, y: u32, rows: u32) -> &mut [u8]
        requires solid { self.old.solid ≡ true }
        requires plane { plane < self.old.planes.depth }
        requires some { 0 < rows }
        requires inside { y + rows ≤ self.old.planes.height }
        ensures* writes_back { sem 𝓛 (LendsRows self.entry plane y result) }
        ensures lent { AreRowsOf self.old.planes plane y rows result.now }
        ensures strip { IsStrip self.old }
    {
        let pens = &mut self.pens;
        pens.rows_mut(plane, y, rows)
    }
}

impl Pens {
    // Copies a block of pixels into the bitmap.
    fn copy_block(&mut self, source: &Planes, block: Block)
        requires { HaveBlock self.old.planes block source.now }
        ensures { self.new ≡ record self.old { planes = with_copy block source.now self.old.planes } }
    {
        match &mut self.planes {
            Some(planes) => copy_block(planes, source, block),
            None => unreachable!(),
        }
    }

    // Lends rows of the bitmap.
    fn rows_mut(&mut self, plane: u32, y: u32, rows: u32) -> &mut [u8]
        requires some { 0 < rows }
        requires inside { HaveRows self.old.planes plane y rows }
        ensures* writes_back { sem 𝓛 (LendsPens self.entry plane y result) }
        ensures lent { AreRows self.old.planes plane y rows result.now }
    {
        match &mut self.planes {
            Some(planes) => planes.rows_mut(plane, y, rows),
            None => unreachable!(),
        }
    }
}

// Strips may go to another thread, and threads may share them: the bounds ask for the proofs.
fn cross_threads() {
    crosses::<Strip>();
    is_shared::<Strip>();
}

fn crosses<T: Send>() {}

fn is_shared<T: Sync>() {}
