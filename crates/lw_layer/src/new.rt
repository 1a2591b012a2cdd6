// New layers.

ghost use Rattle.std.specs.Prelude.{◌≡◌, ℕ, ◌-◌, ◌≤◌, ℤ, pos, true, false, IfOk};
ghost use Rattle.lw_region.specs.Rectangle.{has_pixel, width, height};
ghost use Rattle.lw_planes.specs.Sizes.{AreSizes, IsPlanes};
ghost use Rattle.lw_calls.specs.Kinds.{is_super};
ghost use Rattle.lw_cliprects.specs.Parts.{LieIn, hidden_of};
ghost use Rattle.lw_layer.specs.Pieces.{inner_of, HasFrameRoom};
ghost use Rattle.lw_machine.specs.Layer.{is_framed};
ghost use Rattle.lw_layer.specs.Drafts.{IsLiveDraft, window_of, room_of, live_view};
ghost use Rattle.lw_layer.specs.New.{blank_buffer, kept_hidden, own_blank, AreBlank, AreBlankStrips, IsNewSize, new_live};

use crate::draft::LiveDraft;
use crate::raster::Raster;
use crate::windows::{WindowDraft, is_framed};
use lw_calls::{Kind, Make};
use lw_cliprects::Parts;
use lw_damage::Damage;
use lw_planes::Planes;
use lw_region::{Rect, Region};
use lw_strips::Strip;
use std::alloc::{AllocError, Global};

impl LiveDraft {
    /// A new layer without a hook, which is a window or not, and of which these pixels of the screen are visible
    /// (CreateUpfrontLayer, CreateBehindLayer, OpenWindow): pen 0 everywhere, no damage, no clip region, and nothing scrolled.
    /// Bounds and an own bitmap have 1 to 2048 columns and rows, and `depth` is 1 to 8. A framed window has room for its frame
    /// and no bitmap of its own.
    pub fn new(
        alloc: Global,
        make: &Make,
        depth: u32,
        bounds: &Rect,
        visible: &Region,
        window: Option<WindowDraft>,
    ) -> Result<LiveDraft, AllocError>
        requires size { IsNewSize make.now depth bounds.now }
        requires inside { LieIn bounds.now visible.now }
        requires frameless { is_super make.now.kind ≡ true → is_framed (window_of window) ≡ false }
        requires frame { is_framed (window_of window) ≡ true → HasFrameRoom bounds.now }
        ensures draft { IfOk result (λ d. IsLiveDraft d) }
        ensures layer { IfOk result (λ d. live_view d
            ≡ new_live make.now depth bounds.now visible.now (window_of window) (room_of window)) }
    {
        let shown = visible.copy(alloc)?;
        let parts = Parts::cut(alloc, bounds, shown)?;
        let strips = blank_strips(alloc, bounds, parts.visible(), depth)?;
        let covered = covered_buffers(alloc, make.kind, bounds, &parts, depth)?;
        let superbits = own_bitmap(alloc, make, depth)?;
        let inner = inner_rectangle(make.kind, is_framed(&window), bounds);
        Ok(LiveDraft {
            kind: make.kind,
            backdrop: make.backdrop,
            bounds: *bounds,
            scroll_x: 0,
            scroll_y: 0,
            depth,
            raster: Raster {
                a: 1,
                b: 0,
                mode: 1,
                mask: 255,
                x: 0,
                y: 0,
            },
            clip: None,
            damage: Damage::new(alloc, inner),
            parts,
            strips,
            covered,
            superbits,
            active: false,
            window,
        })
    }
}

// The buffers of the hidden rectangles that a new layer of this kind keeps.
fn covered_buffers(
    alloc: Global,
    kind: Kind,
    bounds: &Rect,
    parts: &Parts,
    depth: u32,
) -> Result<Vec<Planes>, AllocError>
    requires parts { parts.now.bounds ≡ bounds.now }
    requires sizes { AreSizes (width bounds.now) (height bounds.now) depth }
    ensures { IfOk result (λ buffers. AreBlank depth (kept_hidden kind (hidden_of bounds.now parts.now.visible)) buffers.items) }
{
    match kind {
        Kind::Simple => Ok(Vec::new(alloc)),
        Kind::Smart => blank_buffers(alloc, bounds, parts.hidden(), depth),
        Kind::SuperBitmap => Ok(Vec::new(alloc)),
    }
}

// A new layer's own bitmap, if it has one.
fn own_bitmap(alloc: Global, make: &Make, depth: u32) -> Result<Option<Planes>, AllocError>
    requires { is_super make.now.kind ≡ true → AreSizes make.now.bits_w make.now.bits_h depth }
    ensures { IfOk result (λ own. own ≡ own_blank make.now.kind depth make.now) }
{
    match make.kind {
        Kind::Simple => Ok(None),
        Kind::Smart => Ok(None),
        Kind::SuperBitmap => Ok(Some(Planes::new(alloc, make.bits_w, make.bits_h, depth)?)),
    }
}

// A solid strip of each of these rectangles in the bounds, with pen 0 everywhere.
fn blank_strips(
    alloc: Global,
    bounds: &Rect,
    rects: &[Rect],
    depth: u32,
) -> Result<Vec<Strip>, AllocError>
    requires inside { LieIn bounds.now rects.now }
    requires sizes { AreSizes (width bounds.now) (height bounds.now) depth }
    ensures { IfOk result (λ strips. AreBlankStrips depth rects.now strips.items) }
{
    let mut strips = Vec::with_capacity(alloc, rects.len())?;
    for rect in rects {
        strips.push(Strip::new(*rect, blank(alloc, bounds, rect, depth)?))?;
    }
    Ok(strips)
}

// A buffer for each of these rectangles in the bounds, with pen 0 everywhere.
fn blank_buffers(
    alloc: Global,
    bounds: &Rect,
    rects: &[Rect],
    depth: u32,
) -> Result<Vec<Planes>, AllocError>
    requires inside { LieIn bounds.now rects.now }
    requires sizes { AreSizes (width bounds.now) (height bounds.now) depth }
    ensures { IfOk result (λ buffers. AreBlank depth rects.now buffers.items) }
{
    let mut buffers = Vec::with_capacity(alloc, rects.len())?;
    for rect in rects {
        buffers.push(blank(alloc, bounds, rect, depth)?)?;
    }
    Ok(buffers)
}

// A buffer of the size of a rectangle in the bounds, with pen 0 everywhere.
fn blank(alloc: Global, bounds: &Rect, rect: &Rect, depth: u32) -> Result<Planes, AllocError>
    requires inside { (x y : ℤ) → has_pixel rect.now x y ≡ true → has_pixel bounds.now x y ≡ true }
    requires sizes { AreSizes (width bounds.now) (height bounds.now) depth }
    ensures { IfOk result (λ planes. (planes ≡ blank_buffer depth rect.now) × IsPlanes planes) }
{
    let planes = Planes::new(alloc, rect.width(), rect.height(), depth)?;
    // Reading its width tells the proof that it is one of sizes for planes.
    let _ = planes.width();
    Ok(planes)
}

/// Where damage may lie in a layer with these bounds, in layer coordinates: in a framed window in what its frame leaves; `None`
/// exactly for a super-bitmap layer, which never has damage.
pub fn inner_rectangle(kind: Kind, framed: bool, bounds: &Rect) -> Option<Rect>
    requires wide { width bounds.now ≤ 2048 }
    requires high { height bounds.now ≤ 2048 }
    requires room { framed ≡ true → HasFrameRoom bounds.now }
    ensures { result ≡ inner_of (is_super kind) framed (width bounds.now) (height bounds.now) }
{
    match kind {
        Kind::SuperBitmap => None,
        Kind::Simple => inner_within(framed, bounds),
        Kind::Smart => inner_within(framed, bounds),
    }
}

// What a frame leaves of the bounds, and all of them without one, in layer coordinates.
fn inner_within(framed: bool, bounds: &Rect) -> Option<Rect>
    requires wide { width bounds.now ≤ 2048 }
    requires high { height bounds.now ≤ 2048 }
    requires room { framed ≡ true → HasFrameRoom bounds.now }
    ensures { result ≡ inner_of false framed (width bounds.now) (height bounds.now) }
{
    let right = last_place(bounds.width());
    let lower = last_place(bounds.height());
    if framed {
        Rect::new(4, 11, right - 4, lower - 2)
    } else {
        Rect::new(0, 0, right, lower)
    }
}

// The last of so many places from 0 on.
fn last_place(count: u32) -> i16
    requires some { 1 ≤ count }
    requires near { count ≤ 2048 }
    ensures { result ≡ pos (count - 1) }
{
    (count - 1) as i16
}
