//! What a display shows: whole rows of its screens.

ghost use Rattle.std.specs.Prelude.{◌≡◌, ◌↔◌, ◌+◌, ◌-◌, ◌<◌, ◌≤◌, ◌==◌, ◌&&◌, length, IfOk, IsTrue};
ghost use Rattle.lw_planes.specs.Bitmap.{pen_at, row_bytes};
ghost use Rattle.lw_strips.specs.Blocks.{in_block, block_pen};
ghost use Rattle.lw_strips.specs.Bits.{with_bits};
ghost use Rattle.lw_screens.specs.Composed.{display_pen, greatest_depth, composed, HavePlanes};
ghost use Rattle.lw_screens.specs.Laid.{IsBandOf, AreBlank, IsBlockFrom, with_rows};

use crate::bands::Band;
use crate::screens::Screens;
use lw_kernels::{COPY_MINTERM, combine_rows};
use lw_planes::Planes;
use lw_strips::Block;
use std::alloc::{AllocError, Global};

impl Screens {
    /// What the display of 1 to 2048 columns and at most 2048 rows shows: in each row the pens of its owner, and 0 past the
    /// owner's columns and where no screen owns the row. There are planes for each screen, by its number, of as many rows as the
    /// screen. The only error is running out of memory.
    pub fn compose(
        &self,
        alloc: Global,
        width: u32,
        planes: &[Planes],
    ) -> Result<Planes, AllocError>
        requires some { 1 ≤ width }
        requires most { width ≤ 2048 }
        requires rows { self.now.height ≤ 2048 }
        requires planes { HavePlanes self.now planes.now }
        ensures { IfOk result (λ made. made ≡ composed width self.now planes.now) }
    {
        let height = self.height();
        let mut made = Planes::new(alloc, width, height, greatest_depth(planes))?;
        let bands = self.bands();
        for band in bands {
            self.lay_band(&mut made, band, planes);
        }
        Ok(made)
    }

    /// Whether there are planes for each screen, as many rows as the screen.
    pub fn fits(&self, planes: &[Planes]) -> bool
        ensures { IsTrue result ↔ HavePlanes self.now planes.now }
    {
        let screens = self.screens();
        if planes.len() != screens.len() {
            return false;
        }
        for number in 0..screens.len() {
            if planes[number].height() != screens[number].height {
                return false;
            }
        }
        true
    }

    // Lays the rows of a band, which are blank.
    fn lay_band(&self, made: &mut Planes, band: &Band, planes: &[Planes])
        requires band { IsBandOf self.now band.now }
        requires planes { HavePlanes self.now planes.now }
        requires height { made.old.height ≡ self.now.height }
        requires depth { made.old.depth ≡ greatest_depth planes.now }
        requires blank { AreBlank band.now.first band.now.last made.old }
        ensures { made.new ≡ with_rows band.now.first band.now.last (display_pen self.now planes.now) made.old }
    {
        // Reading this tells the proof that the bitmap is sound.
        let _ = made.depth();
        let Some(number) = band.screen else {
            return;
        };
        let screen = self.screens()[number as usize];
        let rows = band.last - band.first + 1;
        lay_rows(
            made,
            band.first,
            rows,
            &planes[number as usize],
            band.first - screen.top,
        );
    }
}

// The greatest depth of some planes.
fn greatest_depth(planes: &[Planes]) -> u32
    requires { 1 ≤ length planes.now }
    ensures value { result ≡ greatest_depth planes.now }
    ensures some { 1 ≤ result }
    ensures most { result ≤ 8 }
{
    let mut depth = 0;
    for each in planes {
        depth = depth.max(each.depth());
    }
    depth
}

// Lays rows of a source on blank rows of a bitmap that has as many planes as the source at least.
fn lay_rows(to: &mut Planes, first: u32, rows: u32, source: &Planes, source_first: u32)
    requires some { 1 ≤ rows }
    requires inside { first + rows ≤ to.old.height }
    requires source_inside { source_first + rows ≤ source.now.height }
    requires depth { source.now.depth ≤ to.old.depth }
    requires blank { AreBlank first (first + rows - 1) to.old }
    ensures { to.new ≡ with_rows first (first + rows - 1) (λ x y. pen_at source.now x (source_first + (y - first))) to.old }
{
    let block = Block {
        x: 0,
        y: first,
        source_x: 0,
        source_y: source_first,
        width: to.width().min(source.width()),
        height: rows,
    };
    for plane in 0..source.depth() {
        copy_plane(to, source, block, plane);
    }
}

// Copies one plane of a block.
fn copy_plane(to: &mut Planes, source: &Planes, block: Block, plane: u32)
    requires block { IsBlockFrom block to.old source.now }
    requires some { 0 < block.height }
    requires plane { plane < source.now.depth }
    requires to_plane { plane < to.old.depth }
    ensures { to.new ≡ with_bits (λ p x y. p == plane && in_block block x y) (block_pen block source.now) to.old }
{
    let steps = (row_bytes(to.width()), row_bytes(source.width()));
    let lines = source.rows(plane, block.source_y, block.height);
    combine_rows(
        to.rows_mut(plane, block.y, block.height),
        steps.0,
        block.x,
        lines,
        steps.1,
        block.source_x,
        block.height,
        block.width,
        COPY_MINTERM,
    );
}

// How many bytes a row of one plane has.
fn row_bytes(columns: u32) -> usize
    requires { columns ≤ 2048 }
    ensures { result ≡ row_bytes columns }
{
    (columns as usize + 15) / 16 * 2
}
