//! Areas, tested by what was read so far.
ghost use Rattle.std.specs.Prelude.{◌≡◌, ◌≤◌, ◌∷◌, [], false, map, length, negsuc, pos, IsTrue, IfOk};
ghost use Rattle.std.specs.List.{list_all};
ghost use Rattle.lw_region.specs.Rectangle.{within};
ghost use Rattle.lw_area.specs.Polygons.{is_in_range, is_point_count};
ghost use Rattle.lw_area.specs.Areas.{AreSpans};
ghost use Rattle.lw_calls.specs.Limits.{limits_of};
ghost use Rattle.lw_grammar.specs.Told.{area_words};
ghost use Rattle.lw_grammar.specs.Script.{lacks_pattern, are_few};
ghost use Rattle.lw_statements.specs.StatementMeaning.{point_meaning};
ghost use Rattle.lw_reader.specs.ReaderKnows.{known};
ghost use Rattle.lw_line_demands.specs.AreasRead.{MakesArea, MakesFills, names_of, points_of, with_fills};

use crate::tested::{BITMAP_LIMIT, PATTERN_LIMIT, SUPER_LIMIT, TASK_LIMIT, with_name};
use lw_area::{Pattern, Point, Polygon, Spans, spans_of};
use lw_calls::limits_of;
use lw_grammar::Reason;
use lw_reader::{Reader, has_name, place_of_name};
use lw_region::Rect;
use lw_statements::{AskedPoint, AskedPolygon};
use lw_words::Stop;
use std::alloc::{AllocError, Global};

/// A coordinate of a polygon's point.
#[tactic(auto, using(std::proofs::lemmas::Int::ints), unfolding(lw_region::specs::Rectangle::within))]
fn coordinate(number: i64) -> i32
    requires { IsTrue (within (negsuc 2047) number (pos 4095)) }
    ensures { result ≡ number }
{
    number as i32
}

/// A point of a polygon.
#[tactic(auto, using(std::proofs::lemmas::Int::ints))]
fn corner(point: &AskedPoint) -> Point
    requires { IsTrue (is_in_range (point_meaning point.now)) }
    ensures { result ≡ point_meaning point.now }
{
    Point {
        x: coordinate(point.x),
        y: coordinate(point.y),
    }
}

/// The polygon of these points.
fn polygon_of(alloc: Global, points: &[AskedPoint]) -> Result<Polygon, AllocError>
    requires range { IsTrue (list_all (λ p. is_in_range (point_meaning p)) points.now) }
    requires count { IsTrue (is_point_count (length points.now)) }
    ensures { IfOk result (λ polygon. polygon ≡ map point_meaning points.now) }
{
    let mut corners = Vec::new(alloc);
    for point in points {
        corners.push(corner(point))?;
    }
    Ok(Polygon::new(alloc, corners.as_slice())?.unwrap())
}

/// The pattern of an area that names none: each of its bits is 1.
fn whole_pattern() -> Pattern
    ensures { result ≡ 65535 ∷ [] }
{
    Pattern::new(&[0xffff]).unwrap()
}

/// Whether there is a pattern's name, and it doesn't stand above.
fn lacks_pattern<'a>(reader: &Reader<'a>, pattern: &Option<&'a [u8]>) -> bool
    ensures { result ≡ lacks_pattern (known reader.now).pattern_names (names_of pattern.now) }
{
    match pattern {
        None => false,
        Some(name) => !has_name(&reader.assets.pattern_names, name),
    }
}

/// The rectangles of a polygon's pixels for which the bit of this pattern, or of none, is 1, up to a limit.
fn spans<'a>(
    alloc: Global,
    reader: &Reader<'a>,
    polygon: &Polygon,
    pattern: &Option<&'a [u8]>,
    limit: u32,
) -> Result<Spans, AllocError>
    requires lists { length reader.now.assets.patterns.items ≡ length reader.now.assets.pattern_names.keys }
    requires named { lacks_pattern (known reader.now).pattern_names (names_of pattern.now) ≡ false }
    ensures { IfOk result (λ spans. AreSpans polygon.now (area_words (known reader.now) (names_of pattern.now)) limit spans) }
{
    match pattern {
        None => spans_of(alloc, polygon, &whole_pattern(), limit),
        Some(name) => {
            let place = place_of_name(&reader.assets.pattern_names, name);
            spans_of(alloc, polygon, &reader.assets.patterns[place], limit)
        }
    }
}

/// How many layer names there are with so many fills of the layer.
fn names_with_fills<'a>(reader: &Reader<'a>, layer: &&'a [u8], fills: usize) -> usize
    ensures { result ≡ length (with_fills (known reader.now) layer.now.now fills).names }
{
    if fills == 0 {
        return reader.tasks.layer_names.len();
    }
    with_name(reader, layer)
}

/// Whether nothing is one too many with so many fills of the layer.
fn has_room_for_fills<'a>(reader: &Reader<'a>, layer: &&'a [u8], fills: usize) -> bool
    requires { fills ≤ 4294967295 }
    ensures { result ≡ are_few (limits_of reader.now.version) (with_fills (known reader.now) layer.now.now fills) }
{
    let limits = limits_of(reader.version);
    ((reader.tasks.task_names.len() <= TASK_LIMIT
        && (reader.assets.names.len() <= BITMAP_LIMIT
            && reader.assets.pattern_names.len() <= PATTERN_LIMIT))
        && names_with_fills(reader, layer, fills) <= limits.names as usize)
        && (reader.tasks.supers <= SUPER_LIMIT
            && reader.tasks.calls_in_task as usize + fills <= limits.calls as usize)
}

/// The rectangles of an area that is in range and whose pattern stands above, where nothing is one too many with its
/// fills.
fn fills<'a>(alloc: Global, reader: &Reader<'a>, area: &AskedPolygon<'a>) -> Result<Vec<Rect>, Stop>
    requires lists { length reader.now.assets.patterns.items ≡ length reader.now.assets.pattern_names.keys }
    requires range { IsTrue (list_all is_in_range (points_of area.now)) }
    requires named { lacks_pattern (known reader.now).pattern_names (names_of area.now.pattern) ≡ false }
    ensures { MakesFills (known reader.now) area.now result }
{
    let polygon = polygon_of(alloc, area.points.as_slice())?;
    let left = limits_of(reader.version)
        .calls
        .saturating_sub(reader.tasks.calls_in_task);
    match spans(alloc, reader, &polygon, &area.pattern, left)? {
        Spans::TooMany => Err(Stop::Refused(Reason::TooMany)),
        Spans::Rects(rects) => {
            if has_room_for_fills(reader, &area.layer, rects.len()) {
                Ok(rects)
            } else {
                Err(Stop::Refused(Reason::TooMany))
            }
        }
    }
}

/// The rectangles of an area's line, or its first reason.
pub(crate) fn area_rects<'a>(
    alloc: Global,
    reader: &Reader<'a>,
    area: &AskedPolygon<'a>,
) -> Result<Vec<Rect>, Stop>
    requires { length reader.now.assets.patterns.items ≡ length reader.now.assets.pattern_names.keys }
    ensures { MakesArea (known reader.now) area.now result }
{
    if !area.is_in_range() {
        return Err(Stop::Refused(Reason::Range));
    }
    if lacks_pattern(reader, &area.pattern) {
        return Err(Stop::Refused(Reason::NoName));
    }
    if !area.fits_group(&reader.tasks.group) {
        return Err(Stop::Refused(Reason::Group));
    }
    fills(alloc, reader, area)
}
