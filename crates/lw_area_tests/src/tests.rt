use lw_area::{Pattern, Point, Polygon, Spans, spans_of};
use lw_region::{Rect, Region};
use std::alloc::{AllocError, Global};
use std::test::Fail;

// The next word of a generator of numbers.
fn next(word: u32) -> u32 {
    word.wrapping_mul(1_664_525).wrapping_add(1_013_904_223)
}

// A number from -6 to 10 that a word gives.
fn coordinate(word: u32) -> i32 {
    ((word >> 16) % 17) as i32 - 6
}

// Whether the edge is left of the pixel, by the rule's products.
fn is_left(from: Point, to: Point, x: i32, y: i32) -> bool {
    let (a, b) = if from.y < to.y {
        (from, to)
    } else {
        (to, from)
    };
    let done = y.wrapping_sub(a.y).wrapping_mul(b.x.wrapping_sub(a.x));
    let reach = x.wrapping_sub(a.x).wrapping_mul(b.y.wrapping_sub(a.y));
    a.y <= y && y < b.y && done <= reach
}

fn is_inside(points: &[Point], x: i32, y: i32) -> bool {
    let Some((first, others)) = points.split_first() else {
        return false;
    };
    let mut from = *first;
    let mut odd = false;
    for to in others {
        odd = odd != is_left(from, *to, x, y);
        from = *to;
    }
    odd != is_left(from, *first, x, y)
}

fn has_bit(word: u16, x: i32) -> bool {
    (word >> (15 - x.rem_euclid(16) as u32)) & 1 == 1
}

// Adds the pixels of a row.
fn add_row(
    alloc: Global,
    points: &[Point],
    word: u16,
    y: i16,
    region: &mut Region,
) -> Result<(), AllocError> {
    for x in -8i16..12 {
        if is_inside(points, i32::from(x), i32::from(y)) && has_bit(word, i32::from(x)) {
            if let Some(pixel) = Rect::new(x, y, x, y) {
                region.or_rect(alloc, &pixel)?;
            }
        }
    }
    Ok(())
}

// The pixels of the area, one by one.
fn plain(alloc: Global, points: &[Point], pattern: &Pattern) -> Result<Region, AllocError> {
    let mut region = Region::new(alloc);
    for y in -8i16..12 {
        add_row(alloc, points, pattern.word_at(i32::from(y)), y, &mut region)?;
    }
    Ok(region)
}

// Some points that a word gives.
fn points_of(alloc: Global, word: u32) -> Result<Vec<Point>, AllocError> {
    let mut points = Vec::new(alloc);
    let mut word = word;
    for _ in 0..3 + word % 6 {
        let column = next(word);
        word = next(column);
        points.push(Point {
            x: coordinate(column),
            y: coordinate(word),
        })?;
    }
    Ok(points)
}

// Whether both have the same rectangles, and one less is too few for as many.
fn agrees(
    alloc: Global,
    polygon: &Polygon,
    pattern: &Pattern,
    due: &[Rect],
) -> Result<bool, AllocError> {
    let Ok(count) = u32::try_from(due.len()) else {
        return Ok(false);
    };
    let same = match spans_of(alloc, polygon, pattern, count)? {
        Spans::Rects(rects) => rects.as_slice() == due,
        Spans::TooMany => false,
    };
    if count == 0 {
        return Ok(same);
    }
    let fewer = matches!(
        spans_of(alloc, polygon, pattern, count - 1)?,
        Spans::TooMany
    );
    Ok(same && fewer)
}

// The pattern of a word's kind: full, in two rows, or in four.
fn pattern_of(word: u32) -> Option<Pattern> {
    let first = (word % 65_536) as u16;
    let second = (word >> 16) as u16;
    match word % 3 {
        0 => Pattern::new(&[0xffff]),
        1 => Pattern::new(&[first, second]),
        _ => Pattern::new(&[first, second, !first, 0]),
    }
}

#[test]
fn three_thousand_polygons_are_their_pixels(rt: HostRuntime) -> Result<(), Fail> {
    let alloc = rt.alloc();
    let mut word = 1;
    for _ in 0..3000 {
        word = next(word);
        let points = points_of(alloc, word >> 8)?;
        let polygon = Polygon::new(alloc, points.as_slice())?.ok_or("no polygon")?;
        let pattern = pattern_of(word >> 3).ok_or("no pattern")?;
        let due = plain(alloc, points.as_slice(), &pattern)?;
        assert!(rt; agrees(alloc, &polygon, &pattern, due.rects())?);
    }
    Ok(())
}
