use crate::shapes::{are, rect_of, region_of};
use lw_region::{Region, difference, intersection};
use std::test::Fail;

// A region whose three bands differ in their runs.
static STEPPED: [[i16; 4]; 4] = [[0, 0, 7, 0], [0, 1, 1, 1], [6, 1, 7, 1], [2, 2, 5, 2]];

#[test]
fn a_region_is_combined_with_rectangles(rt: HostRuntime) -> Result<(), Fail> {
    let alloc = rt.alloc();
    let mut region = Region::new(alloc);
    region.or_rect(alloc, &rect_of([0, 0, 7, 1])?)?;
    region.xor_rect(alloc, &rect_of([2, 1, 5, 2])?)?;
    assert!(rt; are(region.rects(), &STEPPED));
    region.clear_rect(alloc, &rect_of([0, 0, 3, 0])?)?;
    region.and_rect(alloc, &rect_of([0, 0, 4, 1])?)?;
    assert!(rt; are(region.rects(), &[[4, 0, 4, 0], [0, 1, 1, 1]]));
    Ok(())
}

#[test]
fn two_lists_make_a_region_of_its_own(rt: HostRuntime) -> Result<(), Fail> {
    let alloc = rt.alloc();
    let region = region_of(alloc, &STEPPED)?;
    let rect = rect_of([1, 0, 6, 2])?;
    let both = intersection(alloc, region.rects(), rect.as_list())?;
    let common = [[1, 0, 6, 0], [1, 1, 1, 1], [6, 1, 6, 1], [2, 2, 5, 2]];
    assert!(rt; are(both.rects(), &common));
    let left = difference(alloc, region.rects(), rect.as_list())?;
    assert!(rt; are(left.rects(), &[[0, 0, 0, 1], [7, 0, 7, 1]]));
    assert!(rt; are(region.rects(), &STEPPED));
    Ok(())
}
