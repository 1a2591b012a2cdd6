// What a run leaves, from the list of layers and all slots.

ghost use Rattle.std.specs.Prelude.{◌≡◌, ℕ, ◌<◌, [], List, length, map, IfOk, vec_len};
ghost use Rattle.std.specs.List.{range_with_len, slice_index_or};
ghost use Rattle.lw_calls.specs.declared.reply.Reply.{Reply as AnyReply};
ghost use Rattle.lw_machine.specs.Desk.{Desk};
ghost use Rattle.lw_machine.specs.Finals.{final_of};
ghost use Rattle.lw_final_state.specs.Shown.{seen_in};
ghost use Rattle.lw_engine.specs.Desks.{cell_at, AreNumbered, AreOfDesk};
ghost use Rattle.lw_engine.specs.Owners.{IsAssembled};

use crate::slot::Slot;
use lw_backfill::Backfill;
use lw_calls::{Final, Replies, Seen};
use lw_final_state::seen;
use lw_planes::Planes;
use lw_stack::Info;
use lw_strips::{assemble, lay_all, screen_of};
use std::alloc::{AllocError, Global};

// What a run leaves whose tasks had these replies, a list for each task: the screen, where each layer is shown with its
// damage, and the replies. It is given all slots. The screen is assembled of the strips of all slots and of the desktop. It fails
// only when out of memory.
pub(crate) fn finish<B: Backfill>(
    alloc: Global,
    info: &Info,
    slots: &[Slot<B>],
    replies: Vec<Replies>,
) -> Result<Final, AllocError>
    requires cells { AreNumbered info.now.sizes.slots slots.now }
    requires tasks { vec_len replies ≡ info.now.sizes.tasks }
    requires desk { (d : Desk) × AreOfDesk info.now slots.now d }
    ensures final_state { IfOk result (λ last. (d : Desk) (rs : ℕ → List AnyReply)
        → AreOfDesk info.now slots.now d
        → ((t : ℕ) → t < info.now.sizes.tasks → slice_index_or replies.items t [] ≡ rs t)
        → last ≡ final_of d rs) }
    ensures assembled { IfOk result (λ last. IsAssembled info.now slots.now last.planes) }
{
    let planes = screen(alloc, info, slots)?;
    let slots = slots_seen(alloc, info, slots)?;
    Ok(Final {
        planes,
        slots,
        replies,
    })
}

// The strips of the desktop and of all slots, those of the first slot last.
fn screen<B: Backfill>(alloc: Global, info: &Info, slots: &[Slot<B>]) -> Result<Planes, AllocError>
    requires desk { (d : Desk) × AreOfDesk info.now slots.now d }
    requires many { length slots.now ≡ info.now.sizes.slots }
    ensures { IfOk result (λ planes. IsAssembled info.now slots.now planes) }
{
    let sizes = info.sizes();
    let desktop = info.desktop();
    let window = screen_of(sizes.width, sizes.height);
    let mut planes = assemble(alloc, sizes.width, sizes.height, sizes.depth, desktop)?;
    for index in (0..slots.len()).rev() {
        lay_all(&mut planes, &window, slots[index].strips());
    }
    Ok(planes)
}

// What is seen of each slot.
fn slots_seen<B: Backfill>(
    alloc: Global,
    info: &Info,
    slots: &[Slot<B>],
) -> Result<Vec<Option<Seen>>, AllocError>
    requires { AreNumbered info.now.sizes.slots slots.now }
    ensures { IfOk result (λ all.
        all.items ≡ map (λ s. seen_in info.now (cell_at slots.now s)) (range_with_len 0 info.now.sizes.slots)) }
{
    let mut all = Vec::new(alloc);
    for slot in slots {
        all.push(seen(alloc, info, slot.cell())?)?;
    }
    Ok(all)
}
