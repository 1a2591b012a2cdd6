// The lines of a live layer's buffers.

ghost use Rattle.std.specs.Prelude.{◌≡◌, ◌+◌, ◌*◌, ◌^◌, ◌<◌, ◌≤◌, length, IsSome};
ghost use Rattle.std.specs.List.{slice_index_or};
ghost use Rattle.std.specs.Borrow.{sem};
ghost use Rattle.lw_region.specs.Rectangle.{width, height};
ghost use Rattle.lw_planes.specs.Bitmap.{row_bytes};
ghost use Rattle.lw_layer.specs.Pieces.{HaveLines, buffered, buffer_rectangle};
ghost use Rattle.lw_layer.specs.Drafts.{IsLiveDraft, layout, buffers_of, no_bitmap};
ghost use Rattle.lw_layer.specs.Written.{LendsOwn, LendsBuffer, HaveOwnBits, HaveBufferBits};

use crate::draft::LiveDraft;
use lw_planes::Planes;

impl LiveDraft {
    // The buffer with a number.
    pub(crate) fn buffer(&self, number: usize) -> &Planes
        requires sound { IsLiveDraft self.now }
        requires there { number < length (buffered (layout self.now)) }
        ensures { result.now ≡ slice_index_or (buffers_of self.now) number no_bitmap }
    {
        let shown = self.strips.len();
        if number < shown {
            return self.strips[number].bitmap();
        }
        let covered = self.covered.len();
        if number - shown < covered {
            return &self.covered[number - shown];
        }
        match &self.superbits {
            Some(own) => own,
            None => unreachable!(),
        }
    }

    // How many bytes a line of a buffer has in one plane.
    pub(crate) fn step(&self, number: usize) -> usize
        requires sound { IsLiveDraft self.now }
        requires there { number < length (buffered (layout self.now)) }
        ensures value { result ≡ row_bytes (width (buffer_rectangle (layout self.now) number)) }
        ensures wide { width (buffer_rectangle (layout self.now) number) ≤ 2048 }
        ensures high { height (buffer_rectangle (layout self.now) number) ≤ 2048 }
    {
        (self.buffer(number).width() as usize + 15) / 16 * 2
    }

    // Lines of a buffer.
    pub(crate) fn lines(&self, plane: u32, number: usize, line: u32, rows: u32) -> &[u8]
        requires sound { IsLiveDraft self.now }
        requires plane { plane < self.now.depth }
        requires some { 0 < rows }
        requires lines { HaveLines (layout self.now) number line rows }
        ensures long { length result.now ≡ rows * row_bytes (width (buffer_rectangle (layout self.now) number)) }
        ensures near { length result.now < 2 ^ 32 }
        ensures bits { HaveBufferBits self.now plane number line rows result.now }
    {
        self.buffer(number).rows(plane, line, rows)
    }

    // Lends lines of the own bitmap.
    fn own_lines_mut(&mut self, plane: u32, line: u32, rows: u32) -> &mut [u8]
        requires sound { IsLiveDraft self.old }
        requires own { IsSome self.old.superbits }
        requires plane { plane < self.old.depth }
        requires some { 0 < rows }
        requires lines { line + rows ≤ (layout self.old).height }
        ensures* writes_back { sem 𝓛 (LendsOwn self.entry plane line result) }
        ensures long { length result.now ≡ rows * row_bytes (layout self.old).width }
        ensures near { length result.now < 2 ^ 32 }
        ensures bits { HaveOwnBits self.old.superbits plane line rows result.now }
    {
        match &mut self.superbits {
            Some(own) => own.rows_mut(plane, line, rows),
            None => unreachable!(),
        }
    }

    // Lends lines of a buffer.
    pub(crate) fn lines_mut(&mut self, plane: u32, buffer: usize, line: u32, rows: u32) -> &mut [u8]
        requires sound { IsLiveDraft self.old }
        requires plane { plane < self.old.depth }
        requires some { 0 < rows }
        requires lines { HaveLines (layout self.old) buffer line rows }
        ensures* writes_back { sem 𝓛 (LendsBuffer self.entry plane buffer line result) }
        ensures long { length result.now ≡ rows * row_bytes (width (buffer_rectangle (layout self.old) buffer)) }
        ensures near { length result.now < 2 ^ 32 }
        ensures bits { HaveBufferBits self.old plane buffer line rows result.now }
    {
        let shown = self.strips.len();
        if buffer < shown {
            let strip = &mut self.strips[buffer];
            return strip.rows_mut(plane, line, rows);
        }
        let covered = self.covered.len();
        if buffer - shown < covered {
            let planes = &mut self.covered[buffer - shown];
            return planes.rows_mut(plane, line, rows);
        }
        self.own_lines_mut(plane, line, rows)
    }
}
