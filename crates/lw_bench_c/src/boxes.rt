use crate::generator::Generator;
use lw_region::Rect;
use std::alloc::{AllocError, Global};

// How many columns and rows a box may reach over, and the widest and the tallest of the random boxes.
const FIELD: u32 = 65535;

const WIDEST: u32 = 8000;

const TALLEST: u32 = 30000;

// A place of the field as a coordinate; the first place is -32768.
fn coordinate(place: u32) -> Option<i16> {
    i16::try_from(i64::from(place) - 32768).ok()
}

// Adds the box that begins at these places, if all of it is in the field.
fn push_box(
    boxes: &mut Vec<Rect>,
    x: u32,
    y: u32,
    width: u32,
    height: u32,
) -> Result<(), AllocError> {
    let right = x.saturating_add(width).saturating_sub(1);
    let bottom = y.saturating_add(height).saturating_sub(1);
    if let Some(made) = box_of(x, y, right, bottom) {
        boxes.push(made)?;
    }
    Ok(())
}

fn box_of(left: u32, top: u32, right: u32, bottom: u32) -> Option<Rect> {
    let min_x = coordinate(left)?;
    let min_y = coordinate(top)?;
    let max_x = coordinate(right)?;
    let max_y = coordinate(bottom)?;
    Rect::new(min_x, min_y, max_x, max_y)
}

// A grid of square boxes with gaps between them, as wide as it is high. Every second row stands a quarter of a
// cell to the right, and a box fills three quarters of its cell. The second grid stands half a cell further
// right and down.
pub(crate) fn staggered_grid(
    alloc: Global,
    size: u16,
    is_second: bool,
) -> Result<Vec<Rect>, AllocError> {
    let columns = u32::from(size.saturating_sub(1).isqrt()) + 1;
    let cell = FIELD / (columns + 1);
    let shift = if is_second { cell / 2 } else { 0 };
    let side = cell - cell / 4;
    let mut boxes = Vec::new(alloc);
    for index in 0..u32::from(size) {
        let row = index / columns;
        let stagger = if row % 2 == 1 { cell / 4 } else { 0 };
        let x = (index % columns)
            .wrapping_mul(cell)
            .wrapping_add(stagger + shift);
        let y = row.wrapping_mul(cell).wrapping_add(shift);
        push_box(&mut boxes, x, y, side, side)?;
    }
    Ok(boxes)
}

// Boxes at random places of the field. They are the flatter the more there are, so that about two of them
// stand in each row.
pub(crate) fn random_boxes(
    alloc: Global,
    size: u16,
    generator: &mut Generator,
) -> Result<Vec<Rect>, AllocError> {
    let tallest = (240000 / (u32::from(size) + 1)).clamp(1, TALLEST);
    let mut boxes = Vec::new(alloc);
    for _ in 0..size {
        let width = generator.below(WIDEST) + 1;
        let height = generator.below(tallest) + 1;
        let x = generator.below(FIELD - WIDEST + 1);
        let y = generator.below(FIELD - tallest + 1);
        push_box(&mut boxes, x, y, width, height)?;
    }
    Ok(boxes)
}
