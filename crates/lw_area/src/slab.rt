//! The rows between two rows in which points lie: the same edges cross each of them.
ghost use Rattle.std.specs.Prelude.{◌≡◌, true, [], ◌+ℤ◌, ◌++◌, ℤ, ◌≤ℤ◌, pos, negsuc, IfOk, OnOk};
ghost use Rattle.std.specs.List.{All, list_all, flat_map};
ghost use Rattle.lw_area.specs.Polygons.{is_in_range, sides};
ghost use Rattle.lw_area.specs.Rows.{crossing_down, crossing, IsSlab};

use crate::point::Point;
use std::alloc::{AllocError, Global};

/// An edge with its ends in order.
#[derive(Clone, Copy, Debug, PartialEq, Eq)]
pub(crate) struct Edge {
    pub(crate) upper: Point,
    pub(crate) lower: Point,
}

/// The row of a point in place of one above it, if it isn't below `row`.
fn lowered(top: i32, y: i32, row: i32) -> i32
    requires { top ≤ℤ row }
    ensures least { top ≤ℤ result }
    ensures most { result ≤ℤ row }
    ensures none { y ≤ℤ row → y ≤ℤ result }
{
    if top < y && y <= row {
        return y;
    }
    top
}

/// The lowest row, none below `row`, in which a point lies; the first row of all where there is none.
pub(crate) fn slab_top(points: &[Point], row: i32) -> i32
    requires { negsuc 2047 ≤ℤ row }
    ensures least { negsuc 2047 ≤ℤ result }
    ensures most { result ≤ℤ row }
    ensures none { All (λ p. p.y ≤ℤ row → p.y ≤ℤ result) points.now }
{
    let mut top = -2048;
    for point in points {
        top = lowered(top, point.y, row);
    }
    top
}

/// The row of a point in place of one below it, if it isn't above the first row of all.
fn higher(top: i32, y: i32) -> i32
    requires { negsuc 2047 ≤ℤ top }
    ensures least { negsuc 2047 ≤ℤ result }
    ensures most { result ≤ℤ top }
    ensures none { negsuc 2047 ≤ℤ y → result ≤ℤ y }
{
    if y < top && -2048 <= y {
        return y;
    }
    top
}

/// The topmost row in which a point lies.
pub(crate) fn first_row(points: &[Point]) -> i32
    ensures least { negsuc 2047 ≤ℤ result }
    ensures most { result ≤ℤ pos 4095 }
    ensures none { All (λ p. negsuc 2047 ≤ℤ p.y → result ≤ℤ p.y) points.now }
{
    let mut top = 4095;
    for point in points {
        top = higher(top, point.y);
    }
    top
}

/// Adds the edge from `a` down to `b`, if it crosses the row.
fn push_crossing(edges: &mut Vec<Edge>, a: Point, b: Point, row: i32) -> Result<(), AllocError>
    ensures { OnOk result (edges.new.items ≡ edges.old.items ++ crossing_down row a b []) }
{
    if a.y <= row && row < b.y {
        edges.push(Edge { upper: a, lower: b })?;
    }
    Ok(())
}

/// Adds the edge between two points, if it crosses the row.
fn push_side(edges: &mut Vec<Edge>, from: Point, to: Point, row: i32) -> Result<(), AllocError>
    ensures { OnOk result (edges.new.items ≡ edges.old.items ++ crossing row (record { from = from; to = to })) }
{
    push_crossing(edges, from, to, row)?;
    push_crossing(edges, to, from, row)?;
    Ok(())
}

/// The edges of the polygon that cross the row.
pub(crate) fn crossing_edges(
    alloc: Global,
    points: &[Point],
    row: i32,
) -> Result<Vec<Edge>, AllocError>
    ensures { IfOk result (λ edges. edges.items ≡ flat_map (crossing row) (sides points.now)) }
{
    let mut edges = Vec::new(alloc);
    let Some((first, others)) = points.split_first() else {
        return Ok(edges);
    };
    let mut from = *first;
    for to in others {
        push_side(&mut edges, from, *to, row)?;
        from = *to;
    }
    push_side(&mut edges, from, *first, row)?;
    Ok(edges)
}

/// A row in which a point lies or the first row of all, and the edges that cross each row from that on to another one.
#[derive(Debug, Drop)]
pub(crate) struct Slab {
    top: i32,
    edges: Vec<Edge>,
}

impl Slab {
    /// No row above row `row`.
    pub(crate) fn new(alloc: Global, row: i32) -> Slab
        ensures { (result.top ≡ row) × (result.edges.items ≡ []) }
    {
        Slab {
            top: row,
            edges: Vec::new(alloc),
        }
    }

    /// The edges that cross its rows.
    pub(crate) fn edges(&self) -> &[Edge]
        ensures { result.now ≡ self.now.edges.items }
    {
        self.edges.as_slice()
    }
}

/// The rows up to row `row`.
fn slab_at(alloc: Global, points: &[Point], row: i32) -> Result<Slab, AllocError>
    requires range { list_all is_in_range points.now ≡ true }
    requires low { negsuc 2047 ≤ℤ row }
    requires high { row ≤ℤ pos 4095 }
    ensures top { IfOk result (λ slab. slab.top ≤ℤ row) }
    ensures slab { IfOk result (λ slab. IsSlab points.now slab.top (row +ℤ pos 1) slab.edges.items) }
{
    let top = slab_top(points, row);
    let edges = crossing_edges(alloc, points, row)?;
    Ok(Slab { top, edges })
}

/// A slab that has row `row`: the same one where it reaches that.
pub(crate) fn slab_for(
    alloc: Global,
    points: &[Point],
    slab: Slab,
    row: i32,
) -> Result<Slab, AllocError>
    requires range { list_all is_in_range points.now ≡ true }
    requires low { negsuc 2047 ≤ℤ row }
    requires high { row ≤ℤ pos 4095 }
    requires slab { IsSlab points.now slab.top (row +ℤ pos 1) slab.edges.items }
    ensures top { IfOk result (λ made. made.top ≤ℤ row) }
    ensures slab { IfOk result (λ made. IsSlab points.now made.top (row +ℤ pos 1) made.edges.items) }
{
    if slab.top <= row {
        return Ok(slab);
    }
    slab_at(alloc, points, row)
}
