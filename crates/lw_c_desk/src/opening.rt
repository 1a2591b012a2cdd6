ghost use Rattle.std.specs.Prelude.{◌≡◌, [], length, map, IsTrue, IfOk, SomeIff};
ghost use Rattle.lw_calls.specs.Limits.{IsWithinLimits};
ghost use Rattle.lw_machine.specs.Desk.{empty_desk, shelf_of};
ghost use Rattle.lw_program_desk.specs.Views.{StandsFor};
ghost use Rattle.lw_c_desk.specs.Opened.{sizes_of, sizes_with, assets_of, assets_with, MayOpen, IsOpened, IsOpenedWith};
ghost use Rattle.lw_c_desk.specs.Handed.{are_bitmaps, bitmaps_of, are_hooks, hooks_of};

use crate::answers::{BAD_BITMAP, BAD_HOOK, BAD_SIZES, DONE, IS_OPEN, NO_MEMORY};
use crate::handed::{BitmapWords, HookWords, are_bitmaps, are_hooks, bitmaps_of, hooks_of};
use crate::handle::Handle;
use lw_backfill::Backfill;
use lw_calls::{Assets, Sizes};
use lw_planes::Planes;
use lw_program_desk::{ProgramDesk, Tiles, may_open};
use std::alloc::{AllocError, Global};

/// The sizes of a desk that is to be opened.
#[repr(C)]
#[derive(Clone, Copy, Debug, PartialEq, Eq)]
pub struct OpenWords {
    /// The screen's columns, 1 to 2048.
    pub width: u32,
    /// The screen's rows, 1 to 2048.
    pub height: u32,
    /// The screen's bit planes, 1 to 8.
    pub depth: u32,
    /// How many slots layers may have, up to 1024.
    pub slots: u32,
}

/// The glyphs of the codes 0x20 to 0x7e, each of 8 bytes from its top row.
#[repr(C)]
#[derive(Clone, Copy, Debug, PartialEq, Eq)]
pub struct Glyphs {
    pub rows: [[u8; 8]; 95],
}

/// Opens a desk, without hooks and bitmaps, on a handle that has none.
#[unsafe(no_mangle)]
pub extern "C" fn lw_desk_open(
    alloc: Global,
    desk: &mut Handle,
    sizes: &OpenWords,
    glyphs: &Glyphs,
) -> i32
    ensures { IsOpened (sizes_of sizes.now) (assets_of glyphs.now) []
        desk.old.held.state desk.new.held.state result }
{
    if desk.is_open {
        return IS_OPEN;
    }
    let sizes = sizes_of(sizes);
    if !may_open(&sizes) {
        return BAD_SIZES;
    }
    let Ok(opened) = opened(alloc, sizes, glyphs, Vec::new(alloc), Vec::new(alloc)) else {
        return NO_MEMORY;
    };
    *desk = Handle::of(opened);
    DONE
}

/// Opens a desk on a handle that has none, with these bitmaps, whose bytes are among `bits`, and these hooks, whose tiles are
/// among `tiles`. Both are copied.
#[unsafe(no_mangle)]
pub extern "C" fn lw_desk_open_with(
    alloc: Global,
    desk: &mut Handle,
    sizes: &OpenWords,
    glyphs: &Glyphs,
    bitmaps: &[BitmapWords],
    bits: &[u8],
    hooks: &[HookWords],
    tiles: &[u8],
) -> i32
    ensures { IsOpenedWith (sizes_with sizes.now (length hooks.now) (length bitmaps.now))
        (assets_with glyphs.now (bitmaps_of bits.now bitmaps.now)) (hooks_of tiles.now hooks.now)
        (are_bitmaps bits.now bitmaps.now) (are_hooks tiles.now hooks.now)
        desk.old.held.state desk.new.held.state result }
{
    if desk.is_open {
        return IS_OPEN;
    }
    let Some(sizes) = sizes_with(sizes, hooks.len(), bitmaps.len()) else {
        return BAD_SIZES;
    };
    if !are_bitmaps(bitmaps, bits) {
        return BAD_BITMAP;
    }
    if !are_hooks(hooks, tiles) {
        return BAD_HOOK;
    }
    let Ok(opened) = copied(alloc, sizes, glyphs, bitmaps, bits, hooks, tiles) else {
        return NO_MEMORY;
    };
    *desk = Handle::of(opened);
    DONE
}

// The sizes with so many hooks and bitmaps; `None` exactly where no desk has them.
fn sizes_with(sizes: &OpenWords, hooks: usize, bitmaps: usize) -> Option<Sizes>
    ensures { SomeIff result (MayOpen (sizes_with sizes.now hooks bitmaps)) (sizes_with sizes.now hooks bitmaps) }
{
    let mut all = sizes_of(sizes);
    all.hooks = u32::try_from(hooks).ok()?;
    all.bitmaps = u32::try_from(bitmaps).ok()?;
    if may_open(&all) { Some(all) } else { None }
}

// The desk with copies of what was handed in.
fn copied(
    alloc: Global,
    sizes: Sizes,
    glyphs: &Glyphs,
    bitmaps: &[BitmapWords],
    bits: &[u8],
    hooks: &[HookWords],
    tiles: &[u8],
) -> Result<Box<ProgramDesk>, AllocError>
    requires limits { IsWithinLimits sizes }
    requires task { sizes.tasks ≡ 1 }
    requires bitmaps { IsTrue (are_bitmaps bits.now bitmaps.now) }
    requires hooks { IsTrue (are_hooks tiles.now hooks.now) }
    ensures sizes { IfOk result (λ made. made.value.sizes ≡ sizes) }
    ensures changes { IfOk result (λ made. made.value.changes ≡ []) }
    ensures desk { IfOk result (λ made. StandsFor made.value (empty_desk sizes
        (assets_with glyphs.now (bitmaps_of bits.now bitmaps.now)) (shelf_of (hooks_of tiles.now hooks.now)))) }
{
    let bitmaps = bitmaps_of(alloc, bitmaps, bits)?;
    let hooks = hooks_of(alloc, hooks, tiles)?;
    opened(alloc, sizes, glyphs, bitmaps, hooks)
}

fn sizes_of(sizes: &OpenWords) -> Sizes
    ensures { result ≡ sizes_of sizes.now }
{
    Sizes {
        version: 3,
        width: sizes.width,
        height: sizes.height,
        depth: sizes.depth,
        slots: sizes.slots,
        tasks: 1,
        hooks: 0,
        bitmaps: 0,
    }
}

fn opened(
    alloc: Global,
    sizes: Sizes,
    glyphs: &Glyphs,
    bitmaps: Vec<Planes>,
    hooks: Vec<Tiles>,
) -> Result<Box<ProgramDesk>, AllocError>
    requires limits { IsWithinLimits sizes }
    requires task { sizes.tasks ≡ 1 }
    ensures sizes { IfOk result (λ made. made.value.sizes ≡ sizes) }
    ensures changes { IfOk result (λ made. made.value.changes ≡ []) }
    ensures desk { IfOk result (λ made. StandsFor made.value (empty_desk sizes
        (assets_with glyphs.now bitmaps.items) (shelf_of (map (λ h. ⟦<Tiles as Backfill>⟧.hook h) hooks.items)))) }
{
    let assets = Assets {
        glyphs: glyphs.rows,
        bitmaps,
    };
    let desk = ProgramDesk::open(alloc, sizes, assets, hooks)?;
    Ok(Box::new(alloc, desk)?)
}
