// Runs of drawable or kept pixels in a row of a layer, one after another.

ghost use Rattle.std.specs.Prelude.{◌≡◌, ◌+◌, ◌<◌, ◌≤◌, true, min};
ghost use Rattle.lw_layer.specs.View.{keeps, draws};
ghost use Rattle.lw_layer.specs.Runs.{IsRun};
ghost use Rattle.lw_draw.specs.Stretches.{IsNextStretch, IsNextKept, IsPixelAt};

use lw_layer::{Layer, Run};

/// A run of pixels of a layer with the place of its first pixel, in layer coordinates.
#[derive(Clone, Copy)]
pub struct Stretch {
    /// The first pixel's column.
    pub x: u32,
    /// The run's row.
    pub y: u32,
    /// Where the pens of its pixels lie.
    pub run: Run,
}

/// The next run of drawable pixels in row `y`, from column `x` on and before column `end`; `None` exactly where there is no
/// drawable pixel. The run need not be the longest one.
pub fn next_stretch(layer: &Layer, x: u32, y: u32, end: u32) -> Option<Stretch>
    requires column { x < 65536 }
    requires row { y < 65536 }
    requires end { end < 65536 }
    ensures { IsNextStretch layer.now x y end result }
{
    let Some(column) = layer.next_drawable(x as i32, y as i32, end as i32 - 1) else {
        return None;
    };
    let column = column as u32;
    let run = run_before(layer, column, y, end);
    Some(Stretch { x: column, y, run })
}

/// The next run of kept pixels in row `y`, from column `x` on and before column `end`; `None` exactly where there is no kept
/// pixel. The run need not be the longest one.
pub fn next_kept_stretch(layer: &Layer, x: u32, y: u32, end: u32) -> Option<Stretch>
    requires column { x < 65536 }
    requires row { y < 65536 }
    requires end { end < 65536 }
    ensures { IsNextKept layer.now x y end result }
{
    let Some(column) = layer.next_kept(x as i32, y as i32, end as i32 - 1) else {
        return None;
    };
    let column = column as u32;
    let run = kept_run_before(layer, column, y, end);
    Some(Stretch { x: column, y, run })
}

// The one pixel at column x and row y, if it is drawable.
pub(crate) fn pixel_at(layer: &Layer, x: i32, y: i32) -> Option<Stretch>
    ensures { IsPixelAt layer.now x y result }
{
    let Some(run) = layer.run_at(x, y) else {
        return None;
    };
    let run = cut(run, 1);
    Some(Stretch {
        x: x as u32,
        y: y as u32,
        run,
    })
}

// A run of drawable pixels from a drawable one on, before another column.
fn run_before(layer: &Layer, x: u32, y: u32, end: u32) -> Run
    requires row { y < 65536 }
    requires drawable { draws layer.now x y ≡ true }
    requires before { x < end }
    requires end { end < 65536 }
    ensures run { IsRun layer.now (λ i j. draws layer.now i j) x y result }
    ensures ends { x + result.len ≤ end }
{
    match layer.run_at(x as i32, y as i32) {
        None => unreachable!(),
        Some(run) => cut(run, end - x),
    }
}

// The same of kept pixels.
fn kept_run_before(layer: &Layer, x: u32, y: u32, end: u32) -> Run
    requires row { y < 65536 }
    requires kept { keeps layer.now x y ≡ true }
    requires before { x < end }
    requires end { end < 65536 }
    ensures run { IsRun layer.now (λ i j. keeps layer.now i j) x y result }
    ensures ends { x + result.len ≤ end }
{
    match layer.kept_run_at(x as i32, y as i32) {
        None => unreachable!(),
        Some(found) => cut(found, end - x),
    }
}

// The run's first pixels, at most this many.
fn cut(run: Run, most: u32) -> Run
    ensures { result ≡ record run { len = min run.len most } }
{
    Run {
        buffer: run.buffer,
        line: run.line,
        bit: run.bit,
        len: run.len.min(most),
    }
}
