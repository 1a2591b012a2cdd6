ghost use Rattle.std.specs.Prelude.{◌<◌, ◌≤◌, IsNone};

use crate::generator::Generator;
use lw_area::{Pattern, Point, Polygon, Spans, spans_of};
use std::alloc::{AllocError, Global};

// A point by how far it is right of the first column that a point may have, and below the first row.
fn point_at(column: u32, row: u32) -> Point
    requires column { column ≤ 6143 }
    requires row { row ≤ 6143 }
{
    Point {
        x: column as i32 - 2048,
        y: row as i32 - 2048,
    }
}

// 32 points over 6,000 rows, of which the first one lies in the top row, and the last one below the last.
fn random_points(alloc: Global, generator: &mut Generator) -> Result<Vec<Point>, AllocError> {
    let mut points = Vec::new(alloc);
    points.push(point_at(generator.below(6000), 0))?;
    for _ in 0..30 {
        let column = generator.below(6000);
        let row = generator.below(6000);
        points.push(point_at(column, row))?;
    }
    points.push(point_at(generator.below(6000), 6000))?;
    Ok(points)
}

fn triangle(alloc: Global) -> Result<Vec<Point>, AllocError> {
    Ok(vec![in alloc;
        point_at(2124, 2048),
        point_at(2200, 2180),
        point_at(2048, 2180),
    ]?)
}

fn arrowhead(alloc: Global) -> Result<Vec<Point>, AllocError> {
    Ok(vec![in alloc;
        point_at(2048, 2048),
        point_at(2211, 2130),
        point_at(2048, 2212),
        point_at(2089, 2130),
    ]?)
}

fn points_of(alloc: Global, shape: u32, seed: u32) -> Result<Vec<Point>, AllocError> {
    match shape {
        0 => triangle(alloc),
        1 => arrowhead(alloc),
        _ => random_points(alloc, &mut Generator::new(seed)),
    }
}

// How many rectangles the last of the results has.
fn repeated(
    alloc: Global,
    polygon: &Polygon,
    pattern: &Pattern,
    repetitions: u32,
) -> Result<usize, AllocError> {
    let mut count = 0;
    for _ in 0..repetitions {
        if let Spans::Rects(rects) = spans_of(alloc, polygon, pattern, u32::MAX)? {
            count = rects.len();
        }
    }
    Ok(count)
}

pub(crate) fn counted(alloc: Global, shape: u32, repetitions: u32, seed: u32) -> Option<u32>
    ensures { 2 < shape → IsNone result }
{
    if shape > 2 {
        return None;
    }
    let points = points_of(alloc, shape, seed).ok()?;
    let polygon = Polygon::new(alloc, points.as_slice()).ok()??;
    let pattern = Pattern::new(&[0xffff])?;
    let count = repeated(alloc, &polygon, &pattern, repetitions).ok()?;
    u32::try_from(count).ok()
}
