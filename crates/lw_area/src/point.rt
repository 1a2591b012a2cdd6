ghost use Rattle.std.specs.Prelude.{◌≡◌, ◌≤◌, pos, negsuc, ◌≤ℤ◌, IfOk};
ghost use Rattle.std.specs.List.{list_all};
ghost use Rattle.std.specs.Option.{SomeIff};
ghost use Rattle.lw_region.specs.Rectangle.{within};
ghost use Rattle.lw_area.specs.Polygons.{is_in_range, IsPolygon};

use std::alloc::{AllocError, Global};
use std::marker::Model;

/// A corner of a polygon, by its column and its row.
#[derive(Clone, Copy, Debug, PartialEq, Eq)]
pub struct Point {
    /// The column, -2048 to 4095 in a polygon.
    pub x: i32,
    /// The row, -2048 to 4095 in a polygon.
    pub y: i32,
}

/// A polygon of 3 to 32 points, whose coordinates are from -2048 to 4095. Its edges go from each point to the next, and from the
/// last one to the first; they may cross and touch (the manual's AreaMove, AreaDraw and AreaEnd; the limits are this
/// project's own).
#[derive(Debug, Drop)]
pub struct Polygon {
    points: Vec<Point>,
}

impl Model for Polygon {
    ghost use Rattle.std.specs.Prelude.{List};
    ghost use Rattle.lw_area.specs.declared.point.Point.{Point};
    ghost use Rattle.lw_area.specs.Polygons.{IsPolygon};

    ghost Value = { List Point };

    ghost view = { λ p. p.points.items };

    ghost invariant = { λ p. IsPolygon p.points.items };
}

impl Polygon {
    /// The polygon of these points; `None` exactly where there are fewer than 3 or more than 32 of them, or a coordinate is
    /// below -2048 or above 4095.
    pub fn new(alloc: Global, points: &[Point]) -> Result<Option<Polygon>, AllocError>
        ensures { IfOk result (λ made. SomeIff made (IsPolygon points.now) points.now) }
    {
        if points.len() < 3 || points.len() > 32 || !are_in_range(points) {
            return Ok(None);
        }
        let points = Vec::from_slice(alloc, points)?;
        Ok(Some(Polygon { points }))
    }

    /// The points, 3 to 32 of them.
    pub fn points(&self) -> &[Point]
        ensures value { result.now ≡ self.now }
        ensures polygon { IsPolygon self.now }
    {
        self.points.as_slice()
    }
}

#[tactic(auto, using(std::proofs::lemmas::Int::ints), unfolding(lw_region::specs::Rectangle::within))]
fn is_coordinate(number: i32) -> bool
    ensures { result ≡ within (negsuc 2047) number (pos 4095) }
{
    if number < -2048 {
        return false;
    }
    number <= 4095
}

fn are_in_range(points: &[Point]) -> bool
    ensures { result ≡ list_all is_in_range points.now }
{
    points
        .iter()
        .all(|point| is_coordinate(point.x) && is_coordinate(point.y))
}
