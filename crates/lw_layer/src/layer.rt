ghost use Rattle.std.specs.Prelude.{◌≡◌, ℕ, ◌+◌, ◌*◌, ◌^◌, ◌<◌, ◌≤◌, length, ℤ, pos, ◌+ℤ◌, true, None, MatchOption};
ghost use Rattle.std.specs.Borrow.{sem};
ghost use Rattle.lw_region.specs.Rectangle.{width, height};
ghost use Rattle.lw_region.specs.Pixels.{pixels_of};
ghost use Rattle.lw_region.specs.Bands.{covers};
ghost use Rattle.lw_region.specs.Banded.{IsCanonical};
ghost use Rattle.lw_planes.specs.Row.{bit_of, row_bit};
ghost use Rattle.lw_planes.specs.Bitmap.{row_bytes};
ghost use Rattle.lw_planes.specs.Sizes.{IsPlanes};
ghost use Rattle.lw_cliprects.specs.Parts.{AreDivided, hidden_of};
ghost use Rattle.lw_strips.specs.Strips.{rects_of};
ghost use Rattle.lw_machine.specs.Kept.{holds_at};
ghost use Rattle.lw_machine.specs.Step.{end_update};
ghost use Rattle.lw_layer.specs.View.{keeps, draws, kept_pen, with_layer};
ghost use Rattle.lw_layer.specs.Drafts.{IsLiveDraft, live_view, raster_of, clip_set};
ghost use Rattle.lw_layer.specs.Pieces.{inner_in, damage_table, IsDamageOf, HaveLines, HaveLinesBits, layout_of, buffered};
ghost use Rattle.lw_layer.specs.Pieces.{buffer_rectangle};
ghost use Rattle.lw_layer.specs.Lending.{LendsLines};
ghost use Rattle.lw_layer.specs.Looks.{IsLook};
ghost use Rattle.lw_layer.specs.StandsFor.{IsSound};
ghost use Rattle.lw_layer.specs.Runs.{IsRunAt, IsNext, AreAlike};
ghost use Rattle.lw_layer.specs.Copied.{kept_bit, with_kept, HaveShown};

use crate::draft::LiveDraft;
use crate::look::Look;
use crate::raster::Raster;
use crate::run::Run;
use lw_damage::Damage;
use lw_planes::Planes;
use lw_region::{Rect, Region};
use lw_strips::Strip;
use std::marker::Model;
use std::mem;

/// A live layer with its raster state, clip region, damage, clip rectangles and pens. Contracts see the layer with its bounds and
/// visible rectangles. Pens are kept in buffers, which have numbers: first those of the visible rectangles in their order,
/// then a smart layer's hidden ones, or a super-bitmap layer's own bitmap. Where each pen lies follows from what
/// contracts see.
#[derive(Debug, Drop)]
pub struct Layer {
    pub(crate) draft: LiveDraft,
}

impl Model for Layer {
    ghost use Rattle.lw_layer.specs.View.{LiveView};
    ghost use Rattle.lw_layer.specs.Drafts.{IsLiveDraft, live_view};

    ghost Value = { LiveView };

    ghost view = { λ l. live_view l.draft };

    ghost invariant = { λ l. IsLiveDraft l.draft };
}

impl Layer {
    // What the layer was made of.
    pub(crate) fn into_draft(self) -> LiveDraft
        ensures sound { IsLiveDraft result }
        ensures view { live_view result ≡ self }
    {
        self.draft
    }

    /// Lends one plane's bytes of `rows` lines of a buffer, one at least, from a line on, one after another, each of `step`
    /// bytes: `((width + 15) / 16) * 2` for a buffer of that width, which have a bit for each of its columns, the leftmost in the
    /// most significant bit of the first. After the loan each kept pixel whose pen is in one of these lines has in this plane the
    /// bit that the bytes hold, and all else stays as it was.
    pub fn lines_mut(&mut self, plane: u32, buffer: usize, line: u32, rows: u32) -> &mut [u8]
        requires plane { plane < self.old.layer.bits.depth }
        requires some { 0 < rows }
        requires lines { HaveLines (layout_of self.old) buffer line rows }
        ensures* writes_back { sem 𝓛 (LendsLines self.entry plane buffer line result) }
        ensures long { length result.now ≡ rows * row_bytes (width (buffer_rectangle (layout_of self.old) buffer)) }
        ensures near { length result.now < 2 ^ 32 }
        ensures bits { HaveLinesBits self.old plane buffer line rows result.now }
        ensures planes { IsPlanes self.old.layer.bits }
    {
        let draft = &mut self.draft;
        draft.lines_mut(plane, buffer, line, rows)
    }

    /// One plane's bytes of `rows` lines of a buffer, one at least, from a line on, as `lines_mut` lends them.
    pub fn lines(&self, plane: u32, buffer: usize, line: u32, rows: u32) -> &[u8]
        requires plane { plane < self.now.layer.bits.depth }
        requires some { 0 < rows }
        requires lines { HaveLines (layout_of self.now) buffer line rows }
        ensures long { length result.now ≡ rows * row_bytes (width (buffer_rectangle (layout_of self.now) buffer)) }
        ensures near { length result.now < 2 ^ 32 }
        ensures bits { HaveLinesBits self.now plane buffer line rows result.now }
        ensures planes { IsPlanes self.now.layer.bits }
    {
        self.draft.lines(plane, buffer, line, rows)
    }

    /// How many bytes a line of a buffer has in one plane. No buffer has more than 2048 columns or lines.
    pub fn step(&self, buffer: usize) -> usize
        requires { buffer < length (buffered (layout_of self.now)) }
        ensures value { result ≡ row_bytes (width (buffer_rectangle (layout_of self.now) buffer)) }
        ensures wide { width (buffer_rectangle (layout_of self.now) buffer) ≤ 2048 }
        ensures high { height (buffer_rectangle (layout_of self.now) buffer) ≤ 2048 }
    {
        self.draft.step(buffer)
    }

    /// How many rows from row `y` on, that one too, are like row `y`: in each column the same pixels are kept and drawable, with
    /// their pens in the same buffers. It need not be all of them.
    pub fn rows_alike(&self, y: u32) -> u32
        requires { y < self.now.layer.bits.height }
        ensures some { 0 < result }
        ensures inside { y + result ≤ self.now.layer.bits.height }
        ensures alike { (k : ℕ) → k < result → AreAlike self.now y (y + k) }
    {
        self.draft.rows_alike(y)
    }

    /// A run of kept pixels from column `x` and row `y` on to the right; `None` exactly where the layer doesn't keep that pixel.
    /// It need not be the longest one.
    pub fn kept_run_at(&self, x: i32, y: i32) -> Option<Run>
        ensures { IsRunAt self.now (λ i j. keeps self.now i j) x y result }
    {
        self.draft.kept_run_from(x, y)
    }

    /// A run of drawable pixels from column `x` and row `y` on to the right; `None` exactly where that pixel is not drawable. It
    /// need not be the longest one.
    pub fn run_at(&self, x: i32, y: i32) -> Option<Run>
        ensures { IsRunAt self.now (λ i j. draws self.now i j) x y result }
    {
        self.draft.run_from(x, y)
    }

    /// The first drawable column from `x` to `last` in row `y`; `None` exactly where there is none.
    pub fn next_drawable(&self, x: i32, y: i32, last: i32) -> Option<i32>
        ensures { IsNext (λ i j. draws self.now i j) x y last result }
    {
        self.draft.next_from(x, y, last)
    }

    /// The first kept column from `x` to `last` in row `y`; `None` exactly where there is none.
    pub fn next_kept(&self, x: i32, y: i32, last: i32) -> Option<i32>
        ensures { IsNext (λ i j. keeps self.now i j) x y last result }
    {
        self.draft.next_kept_from(x, y, last)
    }

    /// How the layer paints.
    pub fn raster(&self) -> Raster
        ensures value { raster_of result ≡ self.now.layer.raster }
        ensures mode { result.mode < 8 }
    {
        self.draft.raster
    }

    /// The number of planes of the layer's bits, 1 to 8.
    pub fn depth(&self) -> u32
        ensures value { result ≡ self.now.layer.bits.depth }
        ensures bits { IsPlanes self.now.layer.bits }
    {
        self.draft.depth
    }

    /// The number of columns of the layer's bits, 1 to 2048.
    pub fn width(&self) -> u32
        ensures value { result ≡ self.now.layer.bits.width }
        ensures bits { IsPlanes self.now.layer.bits }
    {
        self.draft.width()
    }

    /// The number of rows of the layer's bits, 1 to 2048.
    pub fn height(&self) -> u32
        ensures value { result ≡ self.now.layer.bits.height }
        ensures bits { IsPlanes self.now.layer.bits }
    {
        self.draft.height()
    }

    /// What the layer looks like.
    pub fn look(&self) -> Look
        ensures look { IsLook self.now result }
        ensures sound { IsSound self.now }
    {
        self.draft.look()
    }

    /// The pen of the pixel at column `x` and row `y`; `None` exactly where the layer doesn't keep that pixel.
    pub fn kept_at(&self, x: i32, y: i32) -> Option<u8>
        ensures { result ≡ kept_pen self.now x y }
    {
        self.draft.kept_at(x, y)
    }

    /// Reads one plane of the pixels of row `y` from column `x` on, as many as `bits` has bits, and sets a bit of `kept` for each
    /// that the layer keeps; a pixel that it doesn't keep has the bit 0 in both. The leftmost pixel is in the most significant
    /// bit of the first byte. Both rows are equally long.
    pub fn copy_row(&self, plane: u32, x: i32, y: i32, bits: &mut [u8], kept: &mut [u8])
        requires plane { plane < self.now.layer.bits.depth }
        requires equally_long { length kept.old ≡ length bits.old }
        ensures bits { (i : ℕ) → i < 8 * length bits.old → row_bit bits.new i ≡ kept_bit self.now plane (x +ℤ pos i) y }
        ensures kept { (i : ℕ) → i < 8 * length bits.old → row_bit kept.new i ≡
            bit_of (holds_at (λ u v. keeps self.now u v) (x +ℤ pos i) y) }
    {
        self.draft.copy_row(plane, x, y, bits, kept);
    }

    /// Lays the pens that the layer keeps on a bitmap whose pixel (0, 0) lies on the layer's pixel (`x`, `y`), which may lie
    /// anywhere: each pixel of the bitmap on which a kept pixel lies gets its pen, and each other one stays as it was. The bitmap
    /// has as many planes as the layer. No memory is taken.
    pub fn copy_kept(&self, x: i32, y: i32, to: &mut Planes)
        requires { to.old.depth ≡ self.now.layer.bits.depth }
        ensures { to.new ≡ with_kept self.now x y to.old }
    {
        self.draft.copy_kept(x, y, to);
    }

    /// The visible rectangles, on the screen: the canonical list of the visible region.
    pub fn visible(&self) -> &[Rect]
        ensures value { result.now ≡ self.now.visible }
        ensures canonical { IsCanonical result.now }
    {
        self.draft.parts.visible()
    }

    /// The strips of which the shown pixels of the layer are made: a solid one for each visible rectangle, in their order, with
    /// as many planes as the layer and with the pens that the layer shows there.
    pub fn strips(&self) -> &[Strip]
        ensures rects { rects_of result.now ≡ self.now.visible }
        ensures pens { HaveShown self.now result.now }
    {
        self.draft.shown_strips()
    }

    /// The hidden rectangles, in screen coordinates: what the visible ones leave of the bounds, in bands.
    pub fn hidden(&self) -> &[Rect]
        ensures value { result.now ≡ hidden_of self.now.bounds self.now.visible }
        ensures divided { AreDivided self.now.bounds self.now.visible result.now }
    {
        self.draft.parts.hidden()
    }

    /// The damaged pixels, in layer coordinates.
    pub fn damage(&self) -> &Damage
        ensures { IsDamageOf self.now result.now }
    {
        &self.draft.damage
    }

    /// The clip region, in layer coordinates; `None` exactly where none is installed.
    pub fn clip(&self) -> Option<&Region>
        ensures { MatchOption result
            (self.now.layer.clip ≡ None)
            (λ region. self.now.layer.clip ≡ Some (pixels_of region.now)) }
    {
        self.draft.clip.as_ref()
    }

    /// Has the layer paint in another way. The mode is 0 to 7.
    pub fn set_raster(&mut self, raster: Raster)
        requires { raster.mode < 8 }
        ensures { self.new ≡ with_layer (λ l. record l { raster = raster_of raster }) self.old }
    {
        self.draft.raster = raster;
    }

    /// Installs a clip region, in layer coordinates, or takes it away, and hands back the former one (InstallClipRegion).
    pub fn set_clip(&mut self, clip: Option<Region>) -> Option<Region>
        ensures layer { self.new ≡ with_layer (λ l. record l { clip = clip_set clip }) self.old }
        ensures former { clip_set result ≡ self.old.layer.clip }
    {
        mem::replace(&mut self.draft.clip, clip)
    }

    /// Begins an update: only damaged pixels are drawable until it ends (BeginUpdate).
    pub fn begin_update(&mut self)
        ensures { self.new ≡ with_layer (λ l. record l { updating = true }) self.old }
    {
        self.draft.damage.begin();
    }

    /// Ends an update. A full end takes all damage away, and a window may then be asked to refresh again; a partial one leaves
    /// the damage (EndUpdate).
    pub fn end_update(&mut self, full: bool)
        ensures { self.new ≡ with_layer (λ l. end_update full l) self.old }
    {
        self.draft.end_update(full);
    }

    /// Replaces the damage. It lies on kept pixels of the layer's inner rectangle, and its update is on where the layer's is.
    pub fn set_damage(&mut self, damage: Damage)
        requires inner { damage.inner ≡ inner_in self.old }
        requires updating { damage.updating ≡ self.old.layer.updating }
        requires kept { (x y : ℤ) → covers damage.rects x y ≡ true → holds_at (λ i j. keeps self.old i j) x y ≡ true }
        ensures { self.new ≡ with_layer (λ l. record l { damage = damage_table l.bits damage.rects }) self.old }
    {
        self.draft.damage = damage;
    }
}

// A layer may go to another thread, and threads may share it: the bounds ask for the proofs.
fn cross_threads() {
    crosses::<Layer>();
    is_shared::<Layer>();
}

fn crosses<T: Send>() {}

fn is_shared<T: Sync>() {}
