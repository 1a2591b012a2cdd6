ghost use Rattle.std.specs.Prelude.{◌≡◌, ℕ, ◌+◌, ◌<◌, ◌≤◌, true, false, [], length, map, replicate, sum_by, option_map, None};
ghost use Rattle.std.specs.Prelude.{IsOk, IfOk, OnOk, OnErr, IsTrue};
ghost use Rattle.std.specs.List.{slice_set};
ghost use Rattle.lw_region.specs.Rectangle.{Rectangle};
ghost use Rattle.lw_calls.specs.Limits.{call_fits};
ghost use Rattle.lw_calls.specs.declared.touch.CallClass.TheVariants.{OnAll};
ghost use Rattle.lw_calls.specs.Touches.{class_of, is_arrangement};
ghost use Rattle.lw_machine.specs.Arrangement.{hook_from};
ghost use Rattle.lw_machine.specs.Desk.{Desk};
ghost use Rattle.lw_calls.specs.Orders.{occurrences};
ghost use Rattle.lw_engine_trait.specs.Memory.{takes_memory};
ghost use Rattle.lw_strips.specs.Pools.{copies, copies_in};
ghost use Rattle.lw_strips.specs.Exchange.{gained_by, gained_rects};
ghost use Rattle.lw_layer.specs.View.{CellView};
ghost use Rattle.lw_layer.specs.Windows.{without_room, HasRoom};
ghost use Rattle.lw_stack.specs.Stack.{IsStack, stack_of};
ghost use Rattle.lw_stack.specs.Desktop.{IsDesktop};
ghost use Rattle.lw_arrange.specs.Areas.{HasArea};
ghost use Rattle.lw_arrange.specs.Pieces.{ArePieces};
ghost use Rattle.lw_engine.specs.Desks.{AreNumbered, AreOfDesk, AreAsBefore, hook_at, cell_at};
ghost use Rattle.lw_engine.specs.Slots.{shelf_without, shelf_after, slot_after, IsReadyFor, IsLeft, IsSettled, MayBeReady};
ghost use Rattle.lw_engine.specs.Arranging.{AreLooks, AreListed, IsTruth, HasSlot, IsFreshSlot, AreMade, AreReady, AreSettled};
ghost use Rattle.lw_engine.specs.Arranging.{slots_of, with_taken, given_to, given_up, AreChanged, AreChangedAt, IsAllStep};
ghost use Rattle.lw_engine.specs.Arranging.{DropHooks, IsHookSet, ReplacesHook};

use crate::ready::Ready;
use crate::slot::Slot;
use lw_arrange::{
    Arrangement, PreparedInfo, Step, commit_info, give_up_info, plan_step, prepare_info,
};
use lw_backfill::{Backfill, Shelf};
use lw_calls::{Assets, Call, Reply};
use lw_layer::Look;
use lw_planes::Spare;
use lw_stack::Info;
use lw_strips::{Piece, Pool};
use std::alloc::{AllocError, Global};

/// Makes a call on all slots, which are given in rising number, with LayerInfo and the shelf of hooks, as the machine's step says
/// of every desk to which this was handed in. An arrangement is planned, room is reserved in each window's port, everything is
/// prepared, and only then anything is changed. Bitmaps take memory from `spare` as far as that has some, and those that layers no
/// longer have leave theirs to it. It fails only when out of memory, and all is then as it was, whatever room ports have. Setting a
/// hook takes no memory, and drops the layer's former one.
pub fn on_all<B: Backfill>(
    alloc: Global,
    info: &mut Info,
    shelf: &mut Shelf<B>,
    slots: &mut [Slot<B>],
    assets: &Assets,
    task: u32,
    call: &Call,
    spare: &mut Spare,
) -> Result<Reply, AllocError>
    requires all { class_of call.now ≡ OnAll }
    requires fits { IsTrue (call_fits info.old.sizes call.now) }
    requires cells { AreNumbered info.old.sizes.slots slots.old }
    requires desk { (d : Desk) × AreOfDesk info.old slots.old d }
    ensures step { IfOk result
        (λ r. IsAllStep assets.now info.old shelf.old slots.old task call.now r info.new shelf.new slots.new) }
    ensures sizes { info.new.sizes ≡ info.old.sizes }
    ensures cells { AreNumbered info.new.sizes.slots slots.new }
    ensures dropped { DropHooks slots.old slots.new }
    ensures replaced { ReplacesHook call.now shelf.old slots.old slots.new }
    ensures unchanged { OnErr result ((info.new ≡ info.old) × (shelf.new ≡ shelf.old) × AreAsBefore slots.old slots.new) }
    ensures memory { takes_memory call.now ≡ false → IsOk result }
{
    match call {
        Call::SetHook { slot, hook } => Ok(set_hook(shelf, slots, *slot, *hook)),
        _ => plan_and_arrange(alloc, info, shelf, slots, assets, task, call, spare),
    }
}

// Sets the hook of this number from the shelf, or none where the shelf hasn't got it, in a slot. The former hook of its layer is
// dropped.
fn set_hook<B: Backfill>(shelf: &mut Shelf<B>, slots: &mut [Slot<B>], slot: u32, hook: u32) -> Reply
    requires { slot < length slots.old }
    ensures { IsHookSet (cell_at slots.old slot).state shelf.old slots.old slot hook result shelf.new slots.new }
{
    let place = slot as usize;
    if !slots[place].is_live() {
        return Reply::NotOpen;
    }
    let held = shelf.take(hook);
    slots[place].install(held);
    Reply::Done
}

// Makes a call that arranges layers: it is planned, and done unless it is refused.
fn plan_and_arrange<B: Backfill>(
    alloc: Global,
    info: &mut Info,
    shelf: &mut Shelf<B>,
    slots: &mut [Slot<B>],
    assets: &Assets,
    task: u32,
    call: &Call,
    spare: &mut Spare,
) -> Result<Reply, AllocError>
    requires all { is_arrangement call.now ≡ true }
    requires fits { IsTrue (call_fits info.old.sizes call.now) }
    requires cells { AreNumbered info.old.sizes.slots slots.old }
    requires desk { (d : Desk) × AreOfDesk info.old slots.old d }
    ensures step { IfOk result
        (λ r. IsAllStep assets.now info.old shelf.old slots.old task call.now r info.new shelf.new slots.new) }
    ensures sizes { info.new.sizes ≡ info.old.sizes }
    ensures cells { AreNumbered info.new.sizes.slots slots.new }
    ensures dropped { DropHooks slots.old slots.new }
    ensures unchanged { OnErr result ((info.new ≡ info.old) × (shelf.new ≡ shelf.old) × AreAsBefore slots.old slots.new) }
{
    let looks = looks_of(alloc, info, slots)?;
    let fresh = is_fresh(info, slots, call);
    match plan_step(alloc, info, &looks, fresh, task, call)? {
        Step::Refused(reply) => Ok(reply),
        Step::Arranged(arrangement) => {
            // Reading the sizes tells the proof what holds of the plan and of LayerInfo.
            let _ = arrangement.sizes();
            let _ = info.sizes();
            reserve_all(alloc, info, slots)?;
            arrange(alloc, info, shelf, slots, assets, &arrangement, spare)
        }
    }
}

// Does what was planned: all is ready, and there is room for all pieces, before anything is changed. Then each owner gives up
// what it loses, and after that each claims what it gains and is settled.
fn arrange<B: Backfill>(
    alloc: Global,
    info: &mut Info,
    shelf: &mut Shelf<B>,
    slots: &mut [Slot<B>],
    assets: &Assets,
    arrangement: &Arrangement,
    spare: &mut Spare,
) -> Result<Reply, AllocError>
    requires sizes { arrangement.now.stack.sizes ≡ info.old.sizes }
    requires cells { AreNumbered info.old.sizes.slots slots.old }
    requires listed { AreListed info.old slots.old }
    requires area { HasArea info.old arrangement.now }
    requires pieces { ArePieces info.old arrangement.now.stack arrangement.now.pieces }
    requires may { (s : ℕ) → s < length slots.old → MayBeReady arrangement.now (cell_at slots.old s) }
    ensures reply { IfOk result (λ r. r ≡ Reply.Done) }
    ensures info { IfOk result (λ r. info.new ≡ arrangement.now.stack) }
    ensures shelf { IfOk result (λ r. shelf.new ≡ shelf_after arrangement.now.call shelf.old) }
    ensures cells { IfOk result (λ r. AreChanged (slot_after assets.now.glyphs arrangement.now shelf.old) slots.old slots.new) }
    ensures unchanged { OnErr result ((info.new ≡ info.old) × (shelf.new ≡ shelf.old) × (slots.new ≡ slots.old)) }
{
    // Reading the sizes tells the proof what holds of the plan.
    let _ = arrangement.sizes();
    let mut ready = prepare_all(alloc, info, slots, shelf, arrangement, spare)?;
    let mut next = prepare_info(alloc, info, arrangement)?;
    let pieces = arrangement.pieces();
    let mut pool = Pool::new(alloc);
    pool.reserve(pieces.len())?;
    let ready = ready.as_mut_slice();
    take_hook(shelf, ready, arrangement.call());
    give_up_all(ready, &mut next, &mut pool);
    settle_all(alloc, slots, assets, ready, &mut pool, spare);
    commit_last(info, next, pieces, &mut pool);
    Ok(Reply::Done)
}

// The slots for which something is ready, and then the desktop, give up what they lose.
fn give_up_all<B: Backfill>(ready: &mut [Ready<B>], next: &mut PreparedInfo, pool: &mut Pool)
    requires room { sum_by (λ r. length r.lost) ready.old + length next.old.exchange.lost.items ≤ pool.old.spare }
    requires empty { pool.old.strips ≡ [] }
    ensures numbers { (r : Rectangle) →
        copies_in r pool.new.strips ≡ sum_by (λ q. copies_in r q.lost) ready.old + copies_in r next.old.exchange.lost.items }
    ensures ready { ready.new ≡ map given_up ready.old }
    ensures given { next.new.exchange.lost.items ≡ [] }
    ensures gained { next.new.exchange.gained ≡ next.old.exchange.gained }
    ensures after { next.new.after ≡ next.old.after }
{
    for place in 0..ready.len() {
        ready[place].give_up(pool);
    }
    give_up_info(next, pool);
}

// The desktop, as the last owner, claims what it gains of these pieces, and LayerInfo is committed. No piece is left in the pool.
fn commit_last(info: &mut Info, next: PreparedInfo, pieces: &[Piece], pool: &mut Pool)
    requires stack { IsStack (stack_of info.old.sizes next.after) }
    requires desktop { IsDesktop (stack_of info.old.sizes next.after) next.after.desktop.items }
    requires given { next.exchange.lost.items ≡ [] }
    requires gained { next.exchange.gained.items ≡ gained_rects info.old.sizes.slots pieces.now }
    requires last { (r : Rectangle) → copies_in r pool.old.strips ≡ gained_by r info.old.sizes.slots pieces.now }
    ensures info { info.new ≡ stack_of info.old.sizes next.after }
    ensures emptied { pool.new.strips ≡ [] }
{
    commit_info(info, next, pool);
}

// Reserves room in each window's port for as many messages as it may be due, so that none can fail to be put.
fn reserve_all<B: Backfill>(
    alloc: Global,
    info: &Info,
    slots: &mut [Slot<B>],
) -> Result<(), AllocError>
    requires many { length slots.old ≡ info.now.sizes.slots }
    requires listed { AreListed info.now slots.old }
    ensures cells { AreAsBefore slots.old slots.new }
    ensures room { OnOk result ((s : ℕ) → s < length slots.new → HasRoom 5 (cell_at slots.new s)) }
{
    let order = info.order();
    for slot in order {
        reserve_one(alloc, slots, *slot)?;
    }
    Ok(())
}

// Reserves room in the port of the window in a slot, if there is one.
fn reserve_one<B: Backfill>(
    alloc: Global,
    slots: &mut [Slot<B>],
    slot: u32,
) -> Result<(), AllocError>
    requires { slot < length slots.old }
    ensures slots { slots.new ≡ slice_set slots.old slot (cell_at slots.new slot) }
    ensures cell { without_room (cell_at slots.new slot) ≡ without_room (cell_at slots.old slot) }
    ensures room { OnOk result (HasRoom 5 (cell_at slots.new slot)) }
{
    slots[slot as usize].reserve(alloc)
}

// What is told of each slot's layer. Only the slots of LayerInfo's list are looked at: no other one has a layer.
fn looks_of<B: Backfill>(
    alloc: Global,
    info: &Info,
    slots: &[Slot<B>],
) -> Result<Vec<Option<Look>>, AllocError>
    requires many { length slots.now ≡ info.now.sizes.slots }
    requires listed { AreListed info.now slots.now }
    ensures { IfOk result (λ looks. AreLooks slots.now looks.items) }
{
    let mut looks = no_looks(alloc, slots.len())?;
    let order = info.order();
    for slot in order {
        looks[*slot as usize] = look_of(slots, *slot);
    }
    Ok(looks)
}

// What is told of so many slots without a layer. Of a desk's slots most may have none, so each costs a few instructions alone.
fn no_looks(alloc: Global, count: usize) -> Result<Vec<Option<Look>>, AllocError>
    ensures { IfOk result (λ looks. looks.items ≡ replicate count None) }
{
    let mut looks = Vec::with_capacity(alloc, count)?;
    for _slot in 0..count {
        looks.push_reserved(None);
    }
    Ok(looks)
}

// What is told of a slot's layer.
fn look_of<B: Backfill>(slots: &[Slot<B>], slot: u32) -> Option<Look>
    requires { slot < length slots.now }
    ensures { IsTruth (cell_at slots.now slot) result }
{
    slots[slot as usize].cell().look()
}

// Whether in the desk's version a layer may be created in the slot in which a call creates or opens one.
fn is_fresh<B: Backfill>(info: &Info, slots: &[Slot<B>], call: &Call) -> bool
    requires { HasSlot (length slots.now) call.now }
    ensures { IsFreshSlot info.now.sizes.version slots.now call.now result }
{
    let version = info.sizes().version;
    match call {
        Call::Create { slot, .. } => slots[*slot as usize].may_open(version),
        Call::OpenWindow { slot, .. } => slots[*slot as usize].may_open(version),
        _ => false,
    }
}

// Makes everything ready: of the slots in LayerInfo's list that aren't left as they are, and then of the one that gets a layer.
// No other slot is looked at.
fn prepare_all<B: Backfill>(
    alloc: Global,
    info: &Info,
    slots: &[Slot<B>],
    shelf: &Shelf<B>,
    arrangement: &Arrangement,
    spare: &mut Spare,
) -> Result<Vec<Ready<B>>, AllocError>
    requires sizes { arrangement.now.stack.sizes ≡ info.now.sizes }
    requires cells { AreNumbered info.now.sizes.slots slots.now }
    requires may { (s : ℕ) → s < length slots.now → MayBeReady arrangement.now (cell_at slots.now s) }
    ensures { IfOk result (λ made. AreReady info.now arrangement.now shelf.now slots.now made.items) }
{
    let mut made = Vec::with_capacity(alloc, info.order().len() + 1)?;
    prepare_live(alloc, info, slots, shelf, arrangement, &mut made, spare)?;
    prepare_new(alloc, info, slots, shelf, arrangement, &mut made, spare)?;
    Ok(made)
}

// Makes the slots in LayerInfo's list ready, from front to back, but for those that the arrangement leaves as they are.
fn prepare_live<B: Backfill>(
    alloc: Global,
    info: &Info,
    slots: &[Slot<B>],
    shelf: &Shelf<B>,
    arrangement: &Arrangement,
    made: &mut Vec<Ready<B>>,
    spare: &mut Spare,
) -> Result<(), AllocError>
    requires sizes { arrangement.now.stack.sizes ≡ info.now.sizes }
    requires cells { AreNumbered info.now.sizes.slots slots.now }
    requires may { (s : ℕ) → s < length slots.now → MayBeReady arrangement.now (cell_at slots.now s) }
    requires none { made.old.items ≡ [] }
    ensures { OnOk result (AreMade arrangement.now shelf.now slots.now info.now.front_to_back made.new.items) }
{
    let order = info.order();
    for slot in order {
        if !is_left(slots, arrangement, *slot) {
            made.push(prepare_one(alloc, slots, shelf, arrangement, *slot, spare)?)?;
        }
    }
    Ok(())
}

// Makes the slots ready that have a layer afterwards and are not in LayerInfo's list.
fn prepare_new<B: Backfill>(
    alloc: Global,
    info: &Info,
    slots: &[Slot<B>],
    shelf: &Shelf<B>,
    arrangement: &Arrangement,
    made: &mut Vec<Ready<B>>,
    spare: &mut Spare,
) -> Result<(), AllocError>
    requires sizes { arrangement.now.stack.sizes ≡ info.now.sizes }
    requires cells { AreNumbered info.now.sizes.slots slots.now }
    requires may { (s : ℕ) → s < length slots.now → MayBeReady arrangement.now (cell_at slots.now s) }
    requires live { AreMade arrangement.now shelf.now slots.now info.now.front_to_back made.old.items }
    ensures { OnOk result (AreReady info.now arrangement.now shelf.now slots.now made.new.items) }
{
    // Reading the sizes tells the proof what holds of the list and of the plan.
    let _ = info.sizes();
    let _ = arrangement.sizes();
    let order = arrangement.order();
    for slot in order {
        if info.bounds(*slot).is_none() {
            made.push(prepare_one(alloc, slots, shelf, arrangement, *slot, spare)?)?;
        }
    }
    Ok(())
}

// Whether the arrangement leaves a slot as it is.
fn is_left<B: Backfill>(slots: &[Slot<B>], arrangement: &Arrangement, slot: u32) -> bool
    requires may { (s : ℕ) → s < length slots.now → MayBeReady arrangement.now (cell_at slots.now s) }
    requires low { slot < length slots.now }
    ensures { result ≡ true → IsLeft arrangement.now (cell_at slots.now slot) }
{
    slots[slot as usize].is_left(arrangement)
}

// Makes a slot ready.
fn prepare_one<B: Backfill>(
    alloc: Global,
    slots: &[Slot<B>],
    shelf: &Shelf<B>,
    arrangement: &Arrangement,
    slot: u32,
    spare: &mut Spare,
) -> Result<Ready<B>, AllocError>
    requires cells { AreNumbered arrangement.now.stack.sizes.slots slots.now }
    requires may { (s : ℕ) → s < length slots.now → MayBeReady arrangement.now (cell_at slots.now s) }
    requires low { slot < length slots.now }
    ensures { IfOk result (λ ready. (ready.slot ≡ slot) × IsReadyFor arrangement.now shelf.now (cell_at slots.now slot) ready) }
{
    slots[slot as usize].prepare(alloc, shelf, arrangement, spare)
}

// Takes the hook that the call asks for from the shelf, for the slot of its new layer.
fn take_hook<B: Backfill>(shelf: &mut Shelf<B>, ready: &mut [Ready<B>], call: &Call)
    ensures shelf { shelf.new ≡ shelf_after call.now shelf.old }
    ensures ready { ready.new ≡ with_taken shelf.old call.now ready.old }
{
    match call {
        Call::Create { slot, make } | Call::OpenWindow { slot, make, .. } => {
            let taken = take(shelf, make.hook);
            give_to(ready, *slot, taken);
        }
        _ => {}
    }
}

// The slot takes this hook, where something is ready for it.
fn give_to<B: Backfill>(ready: &mut [Ready<B>], slot: u32, hook: Option<B>)
    ensures { ready.new ≡ given_to slot (option_map B.hook hook) ready.old }
{
    for place in 0..ready.len() {
        if ready[place].is_for(slot) {
            ready[place].receive(hook);
            return;
        }
    }
}

// Takes the hook of this number from the shelf, if one is asked for.
fn take<B: Backfill>(shelf: &mut Shelf<B>, hook: Option<u32>) -> Option<B>
    ensures hook { option_map B.hook result ≡ hook_from (hook_at shelf.old) hook }
    ensures shelf { shelf.new ≡ shelf_without hook shelf.old }
{
    match hook {
        Some(hook) => shelf.take(hook),
        None => None,
    }
}

// Settles the slots for which something is ready, each of which claims what it gains.
fn settle_all<B: Backfill>(
    alloc: Global,
    slots: &mut [Slot<B>],
    assets: &Assets,
    ready: &mut [Ready<B>],
    pool: &mut Pool,
    spare: &mut Spare,
)
    requires settled { (after : CellView → CellView) × AreSettled assets.now.glyphs after slots.old ready.old }
    requires once { (s : ℕ) → occurrences s (slots_of ready.old) ≤ 1 }
    requires pool { (r : Rectangle) → sum_by (λ q. copies r q.claims) ready.old ≤ copies_in r pool.old.strips }
    ensures settled { (after : CellView → CellView) → AreSettled assets.now.glyphs after slots.old ready.old
        → AreChangedAt (slots_of ready.old) after slots.old slots.new }
    ensures numbers { (r : Rectangle) →
        copies_in r pool.old.strips ≡ copies_in r pool.new.strips + sum_by (λ q. copies r q.claims) ready.old }
{
    for place in 0..ready.len() {
        settle_one(alloc, slots, assets, &mut ready[place], pool, spare);
    }
}

// Settles the slot for which this is ready.
fn settle_one<B: Backfill>(
    alloc: Global,
    slots: &mut [Slot<B>],
    assets: &Assets,
    ready: &mut Ready<B>,
    pool: &mut Pool,
    spare: &mut Spare,
)
    requires low { ready.old.slot < length slots.old }
    requires settled { (to : CellView) × IsSettled assets.now.glyphs (cell_at slots.old ready.old.slot) to ready.old }
    requires pool { (r : Rectangle) → copies r ready.old.claims ≤ copies_in r pool.old.strips }
    ensures settled { (to : CellView) → IsSettled assets.now.glyphs (cell_at slots.old ready.old.slot) to ready.old
        → slots.new ≡ slice_set slots.old ready.old.slot to }
    ensures numbers { (r : Rectangle) → copies_in r pool.old.strips ≡ copies_in r pool.new.strips + copies r ready.old.claims }
{
    let place = ready.slot() as usize;
    slots[place].settle(alloc, assets, ready, pool, spare);
}
