// The pieces of an area that change owner. Owners are the slots by their numbers, and the desktop by the number of slots.

ghost use Rattle.std.specs.Prelude.{◌≡◌, false, ◌&&◌, ◌++◌, map, length, ℤ, IfOk, OnOk};
ghost use Rattle.lw_region.specs.Bands.{covers};
ghost use Rattle.lw_arrange.specs.Pieces.{piece_of, pieces_to, with_desktop, losses_to, AreExchanged};

use lw_region::{Rect, Region, intersection};
use lw_stack::{Shown, SlotSet, meets};
use lw_strips::Piece;
use std::alloc::{AllocError, Global};

/// The pieces that each owner loses to each other one, by what is shown of it in the area before and afterwards. Slots of which
/// nothing is shown aren't looked at: of many slots few are live.
pub(crate) fn pieces_of(
    alloc: Global,
    slots: u32,
    were: &Shown,
    shown: &Shown,
) -> Result<Vec<Piece>, AllocError>
    requires before { length were.now.sets.items ≡ slots }
    requires after { length shown.now.sets.items ≡ slots }
    ensures { IfOk result (λ pieces. AreExchanged slots were.now.sets.items were.now.rest
        shown.now.sets.items shown.now.rest pieces.items) }
{
    let losing = were.sets.parts();
    let gaining = shown.sets.parts();
    let mut pieces = Vec::new(alloc);
    for part in losing {
        add_losses(
            alloc,
            part.slot,
            &part.set,
            slots,
            gaining,
            &shown.rest,
            &mut pieces,
        )?;
    }
    add_losses(
        alloc,
        slots,
        &were.rest,
        slots,
        gaining,
        &shown.rest,
        &mut pieces,
    )?;
    Ok(pieces)
}

// Adds the pieces that one owner, of which this was shown, loses to slots and to the desktop, which gains the rest.
fn add_losses(
    alloc: Global,
    from: u32,
    lost: &Region,
    slots: u32,
    gaining: &[SlotSet],
    rest: &Region,
    pieces: &mut Vec<Piece>,
) -> Result<(), AllocError>
    ensures { OnOk result (pieces.new.items
        ≡ pieces.old.items ++ losses_to from lost.now (with_desktop slots gaining.now rest.now)) }
{
    if lost.rects().is_empty() {
        return Ok(());
    }
    for part in gaining {
        add_pieces(alloc, from, lost, part.slot, &part.set, pieces)?;
    }
    add_pieces(alloc, from, lost, slots, rest, pieces)
}

// Adds the pieces that one owner, of which this was shown, loses to another one, of which that is shown afterwards.
fn add_pieces(
    alloc: Global,
    from: u32,
    lost: &Region,
    to: u32,
    gained: &Region,
    pieces: &mut Vec<Piece>,
) -> Result<(), AllocError>
    ensures { OnOk result (pieces.new.items ≡ pieces.old.items ++ pieces_to from lost.now to gained.now) }
{
    if from == to {
        return Ok(());
    }
    // Most pairs have no place in common, and take no memory.
    if !share_places(lost, gained) {
        return Ok(());
    }
    let both = intersection(alloc, lost.rects(), gained.rects())?;
    push_pieces(from, to, both.rects(), pieces)
}

// Whether the two regions have a place in common.
fn share_places(lost: &Region, gained: &Region) -> bool
    ensures { result ≡ false → (x y : ℤ) → (covers lost.now x y && covers gained.now x y) ≡ false }
{
    let rects = gained.rects();
    for rect in rects {
        if meets(lost, rect) {
            return true;
        }
    }
    false
}

// Adds a piece for each rectangle.
fn push_pieces(
    from: u32,
    to: u32,
    rects: &[Rect],
    pieces: &mut Vec<Piece>,
) -> Result<(), AllocError>
    ensures { OnOk result (pieces.new.items ≡ pieces.old.items ++ map (piece_of from to) rects.now) }
{
    for rect in rects {
        pieces.push(Piece {
            from,
            to,
            rect: *rect,
        })?;
    }
    Ok(())
}
