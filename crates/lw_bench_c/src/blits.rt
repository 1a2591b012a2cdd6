// The calls of the benchmark that move pixels, from one square to another whose columns lie elsewhere in their bytes.

use lw_calls::{Area, Call};
use lw_kernels::COPY_MINTERM;
use lw_region::Rect;

// ScrollRaster of a square.
pub(crate) fn scroll_of(side: i16, dx: i32, dy: i32) -> Option<Call> {
    let end = 2_i16.checked_add(side)?;
    let rect = Rect::new(3, 3, end, end)?;
    Some(Call::ScrollRaster {
        slot: 0,
        dx,
        dy,
        rect,
    })
}

// A blit of a square from the bitmap.
pub(crate) fn put_of(side: i16) -> Call {
    Call::Put {
        bitmap: 0,
        slot: 0,
        area: area_of(side),
    }
}

// And one from a layer, which may be the same.
pub(crate) fn blit_of(source: u32, side: i16) -> Call {
    Call::Blit {
        source,
        slot: 0,
        area: area_of(side),
    }
}

fn area_of(side: i16) -> Area {
    Area {
        sx: 5,
        sy: 1,
        x: 8,
        y: 3,
        w: i32::from(side),
        h: i32::from(side),
        minterm: COPY_MINTERM,
    }
}
