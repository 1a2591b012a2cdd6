//! Rectangles and regions out of the bounds of rectangles: least column and row, then greatest column and row.
use lw_region::{Rect, Region};
use std::alloc::Global;
use std::test::Fail;

pub fn rect_of(bounds: [i16; 4]) -> Result<Rect, Fail> {
    Ok(Rect::new(bounds[0], bounds[1], bounds[2], bounds[3]).ok_or("out of order")?)
}

pub fn region_of(alloc: Global, rects: &[[i16; 4]]) -> Result<Region, Fail> {
    let mut region = Region::new(alloc);
    for bounds in rects {
        region.or_rect(alloc, &rect_of(*bounds)?)?;
    }
    Ok(region)
}

/// Whether these are the rectangles that are due, in their order.
pub fn are(rects: &[Rect], due: &[[i16; 4]]) -> bool {
    if rects.len() != due.len() {
        return false;
    }
    for (rect, bounds) in rects.iter().zip(due) {
        let same_x = rect.min_x() == bounds[0] && rect.max_x() == bounds[2];
        let same_y = rect.min_y() == bounds[1] && rect.max_y() == bounds[3];
        if !same_x || !same_y {
            return false;
        }
    }
    true
}
