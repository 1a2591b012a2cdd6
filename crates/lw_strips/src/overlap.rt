// Laying one bitmap on another one, anywhere: what both have in common is one block of pixels.

ghost use Rattle.std.specs.Prelude.{◌≡◌, pos, ◌-ℤ◌, ◌≤ℤ◌, MatchOption};
ghost use Rattle.lw_strips.specs.Blocks.{area_at, with_bitmap, without_area};
ghost use Rattle.lw_strips.specs.Overlap.{IsPart, IsOff, IsOverlap, AreOff};

use crate::block::{Block, clear_block, copy_block};
use lw_planes::Planes;

/// Lays a bitmap on another one, its pixel (0, 0) on the pixel (x, y) of that one, which may lie off it: each pixel on which the
/// bitmap lies gets its pen, and each other one stays as it was. Both have as many planes. No memory is taken.
pub fn lay_bitmap(to: &mut Planes, x: i64, y: i64, source: &Planes)
    requires { source.now.depth ≡ to.old.depth }
    ensures { to.new ≡ with_bitmap x y source.now to.old }
{
    // Reading this tells the proof that the bitmap is sound.
    let _ = to.depth();
    if let Some(block) = overlap(x, y, source.width(), source.height(), to) {
        copy_block(to, source, block);
    }
}

// Gives pen 0 to all pixels of so many columns and rows from the pixel (x, y) on, which may lie off the bitmap. Each other pixel
// stays as it was.
pub(crate) fn clear_area(to: &mut Planes, x: i64, y: i64, width: u32, height: u32)
    ensures { to.new ≡ without_area (area_at x y width height) to.old }
{
    // Reading this tells the proof that the bitmap is sound.
    let _ = to.depth();
    if let Some(block) = overlap(x, y, width, height, to) {
        clear_block(to, block);
    }
}

// What a bitmap has of so many columns and rows from its pixel (x, y) on; `None` exactly where it has none of them.
fn overlap(x: i64, y: i64, width: u32, height: u32, to: &Planes) -> Option<Block>
    ensures { MatchOption result
        (AreOff (area_at x y width height) to.now)
        (λ block. IsOverlap x y width height to.now block) }
{
    let columns = part_of(x, width, to.width())?;
    let rows = part_of(y, height, to.height())?;
    Some(Block {
        x: columns.at,
        y: rows.at,
        source_x: columns.source,
        source_y: rows.source,
        width: columns.count,
        height: rows.count,
    })
}

// `count` places from `at` on, along one axis: the first of them is the place `source` of another list.
#[derive(Clone, Copy)]
struct Part {
    at: u32,
    source: u32,
    count: u32,
}

// Of `size` places from 0 on, those that `count` places from `place` on have; `None` exactly where there is none.
fn part_of(place: i64, count: u32, size: u32) -> Option<Part>
    ensures { MatchOption result (IsOff place count size) (λ part. IsPart place count size part) }
{
    let size = i64::from(size);
    if place >= size {
        return None;
    }
    let begin = place.max(0);
    let end = (place + i64::from(count)).min(size);
    if end <= begin {
        return None;
    }
    Some(Part {
        at: gap(0, begin),
        source: gap(place, begin),
        count: gap(begin, end),
    })
}

// How far a place is past another one.
#[tactic(auto, using(std::proofs::lemmas::Int::ints))]
fn gap(from: i64, to: i64) -> u32
    requires ordered { from ≤ℤ to }
    requires near { (to -ℤ from) ≤ℤ pos 4294967295 }
    ensures { pos result ≡ to -ℤ from }
{
    (to - from) as u32
}
