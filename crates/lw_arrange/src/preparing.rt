// What an arrangement makes of one cell, in three steps: preparing it takes all the memory, and giving up its pieces and
// committing it take none.

ghost use Rattle.std.specs.Prelude.{◌≡◌, ◌-◌, ◌+◌, ◌<◌, ◌≤◌, [], ◌++◌, reverse, length, Some, IfOk};
ghost use Rattle.lw_region.specs.Rectangle.{Rectangle};
ghost use Rattle.lw_strips.specs.Pools.{copies, copies_in};
ghost use Rattle.lw_cliprects.specs.Parts.{LieIn};
ghost use Rattle.lw_machine.specs.Arrangement.{new_window};
ghost use Rattle.lw_layer.specs.View as view;
ghost use Rattle.lw_layer.specs.View.{CellView, with_live};
ghost use Rattle.lw_layer.specs.Drafts.{IsState, state_of, live_of, window_of, room_of};
ghost use Rattle.lw_stack.specs.Stack.{bounds_at};
ghost use Rattle.lw_reveal.specs.Changed.{carried_to, MayHave};
ghost use Rattle.lw_arrange.specs.Prepared.{created_by, created_live, without_layer, with_bounds, shown_at, cell_after};
ghost use Rattle.lw_arrange.specs.Prepared.{MayOpen, MayBecome, MayPrepare};
ghost use Rattle.lw_arrange.specs.Areas.{IsShownElsewhere};
ghost use Rattle.lw_arrange.specs.Made.{IsPrepared};
ghost use Rattle.lw_arrange.specs.Exchanged.{HasPieces};

use crate::arrangement::Arrangement;
use crate::copied::copied_text;
use crate::exchange::{Exchange, exchange_of};
use crate::showing::{changed_visible, new_visible};
use lw_calls::{Call, Text};
use lw_layer::{Cell, Draft, DraftState, LiveDraft, WindowDraft};
use lw_planes::Spare;
use lw_ports::{MessageSet, Port};
use lw_region::{Rect, Region};
use lw_reveal::{Change, apply};
use lw_strips::Pool;
use std::alloc::{AllocError, Global};

/// What is ready for one cell: what it becomes, and the pieces that it loses and gains.
#[derive(Debug, Drop)]
pub struct Prepared {
    /// What is ready to be made of the cell.
    pub becomes: Becomes,
    /// The pieces of the screen that it loses and gains.
    pub exchange: Exchange,
}

impl Prepared {
    /// How many strips the cell has to give up.
    pub fn pieces(&self) -> usize
        ensures { result ≡ length self.now.exchange.lost.items }
    {
        self.exchange.lost.len()
    }
}

/// What is ready to be made of one cell. What is large is boxed, since most cells stay as they are and this is moved about.
#[derive(Debug, Drop)]
pub enum Becomes {
    /// The cell stays as it is.
    Stays,
    /// The layer is deleted.
    Closes,
    /// The layer is created.
    Opens(Box<LiveDraft>),
    /// The layer has other bounds, or another part of it is visible.
    Changes(Box<Change>),
}

/// Prepares the cell of a slot for the arrangement, outside whose area the cell has to show what the plan says. It takes all the
/// memory that is needed for the cell, of `spare` as far as that has some, and changes nothing. A layer whose bounds and visible rectangles stay is not copied, and
/// of one that stays where it is and doesn't meet the area no rectangle is looked at. It fails only when out of memory.
pub fn prepare(
    alloc: Global,
    cell: &Cell,
    arrangement: &Arrangement,
    spare: &mut Spare,
) -> Result<Prepared, AllocError>
    requires slot { cell.now.number < arrangement.now.stack.sizes.slots }
    requires may { MayPrepare arrangement.now cell.now }
    requires elsewhere { IsShownElsewhere arrangement.now cell.now }
    ensures becomes { IfOk result (λ prepared. IsPrepared cell.now (cell_after arrangement.now cell.now) prepared.becomes) }
    ensures pieces { IfOk result (λ prepared. HasPieces cell.now.number arrangement.now.stack.sizes.depth arrangement.now.pieces
        prepared.exchange.lost.items prepared.exchange.gained.items) }
{
    let becomes = becomes_of(alloc, cell, arrangement, spare)?;
    let exchange = exchange_of(alloc, cell.slot(), arrangement)?;
    Ok(Prepared { becomes, exchange })
}

// What becomes of the cell.
fn becomes_of(
    alloc: Global,
    cell: &Cell,
    arrangement: &Arrangement,
    spare: &mut Spare,
) -> Result<Becomes, AllocError>
    requires slot { cell.now.number < arrangement.now.stack.sizes.slots }
    requires may { MayPrepare arrangement.now cell.now }
    requires elsewhere { IsShownElsewhere arrangement.now cell.now }
    ensures { IfOk result (λ becomes. IsPrepared cell.now (cell_after arrangement.now cell.now) becomes) }
{
    let slot = cell.slot();
    match arrangement.bounds(slot) {
        None => Ok(without_bounds(cell)),
        Some(bounds) => with_bounds(alloc, cell, arrangement, &bounds, spare),
    }
}

// A cell that has no bounds afterwards: a live layer is deleted.
fn without_bounds(cell: &Cell) -> Becomes
    ensures { IsPrepared cell.now (without_layer cell.now cell.now.state) result }
{
    match cell.look() {
        None => Becomes::Stays,
        Some(_) => Becomes::Closes,
    }
}

// A cell that has these bounds afterwards: its layer is a new one, or is changed.
fn with_bounds(
    alloc: Global,
    cell: &Cell,
    arrangement: &Arrangement,
    bounds: &Rect,
    spare: &mut Spare,
) -> Result<Becomes, AllocError>
    requires slot { cell.now.number < arrangement.now.stack.sizes.slots }
    requires bounds { bounds_at arrangement.now.stack.bounds cell.now.number ≡ Some bounds.now }
    requires may { MayBecome (created_by arrangement.now.task arrangement.now.call) arrangement.now.stack.sizes.depth bounds.now
        (shown_at arrangement.now cell.now.number) cell.now cell.now.state }
    requires elsewhere { IsShownElsewhere arrangement.now cell.now }
    ensures { IfOk result
        (λ becomes. IsPrepared cell.now
        (with_bounds (created_by arrangement.now.task arrangement.now.call) arrangement.now.stack.sizes.depth bounds.now
        (shown_at arrangement.now cell.now.number) cell.now cell.now.state) becomes) }
{
    // Reading the sizes tells the proof what holds of the plan.
    let _ = arrangement.sizes();
    match cell.look() {
        None => created(
            alloc,
            cell,
            arrangement,
            bounds,
            new_visible(cell, arrangement),
        ),
        Some(_) => changed(alloc, cell, arrangement, bounds, spare),
    }
}

// A new layer.
fn created(
    alloc: Global,
    cell: &Cell,
    arrangement: &Arrangement,
    bounds: &Rect,
    visible: &Region,
) -> Result<Becomes, AllocError>
    requires may { MayOpen (created_by arrangement.now.task arrangement.now.call) arrangement.now.stack.sizes.depth bounds.now }
    requires inside { LieIn bounds.now visible.now }
    requires idle { cell.now.state ≡ view.Live → ⊥ }
    ensures { IfOk result (λ becomes. IsPrepared cell.now (record { number = cell.now.number; state = view.Live; live = created_live (created_by arrangement.now.task arrangement.now.call) arrangement.now.stack.sizes.depth bounds.now visible.now }) becomes) }
{
    let depth = arrangement.sizes().depth;
    match arrangement.call() {
        Call::Create { make, .. } => {
            let draft = LiveDraft::new(alloc, make, depth, bounds, visible, None)?;
            Ok(Becomes::Opens(Box::new(alloc, draft)?))
        }
        Call::OpenWindow {
            make,
            framed,
            nocare,
            asks,
            title,
            ..
        } => {
            let window = opened_window(alloc, arrangement.task(), *framed, *nocare, *asks, title)?;
            let draft = LiveDraft::new(alloc, make, depth, bounds, visible, Some(window))?;
            Ok(Becomes::Opens(Box::new(alloc, draft)?))
        }
        _ => unreachable!(),
    }
}

// A window that a task opens, with a copy of its title: nothing was told to its port.
fn opened_window(
    alloc: Global,
    task: u32,
    framed: bool,
    nocare: bool,
    asks: u8,
    title: &Text,
) -> Result<WindowDraft, AllocError>
    requires { asks < 32 }
    ensures window { IfOk result (λ w. window_of (Some w) ≡ Some (new_window task framed nocare asks title.now)) }
    ensures room { IfOk result (λ w. room_of (Some w) ≡ 0) }
{
    Ok(WindowDraft {
        owner: task,
        framed,
        title: copied_text(alloc, title)?,
        nocare,
        set: MessageSet::from_classes(asks),
        port: Port::new(alloc),
        asked: false,
    })
}

// A layer that stays live and has these bounds afterwards.
fn changed(
    alloc: Global,
    cell: &Cell,
    arrangement: &Arrangement,
    bounds: &Rect,
    spare: &mut Spare,
) -> Result<Becomes, AllocError>
    requires slot { cell.now.number < arrangement.now.stack.sizes.slots }
    requires live { cell.now.state ≡ view.Live }
    requires bounds { bounds_at arrangement.now.stack.bounds cell.now.number ≡ Some bounds.now }
    requires may { MayHave cell.now.live bounds.now (shown_at arrangement.now cell.now.number) }
    requires elsewhere { IsShownElsewhere arrangement.now cell.now }
    ensures { IfOk result
        (λ becomes. IsPrepared cell.now
        (with_live (λ c. carried_to bounds.now (shown_at arrangement.now cell.now.number) c) cell.now) becomes) }
{
    let Some(layer) = cell.layer() else {
        unreachable!();
    };
    // Reading these tells the proof what holds of the layer, and that its damage lies on kept pixels of the inner rectangle.
    let _ = layer.look();
    let _ = layer.damage().region();
    let Some(visible) = changed_visible(alloc, cell, layer, arrangement, bounds)? else {
        return Ok(Becomes::Stays);
    };
    let change = lw_reveal::prepare(alloc, layer, bounds, visible, spare)?;
    Ok(Becomes::Changes(Box::new(alloc, change)?))
}

/// Puts the strips that the cell loses into the pool, which has room for them.
pub fn give_up(prepared: &mut Prepared, pool: &mut Pool)
    requires { length prepared.old.exchange.lost.items ≤ pool.old.spare }
    ensures pool { pool.new ≡ record {
      strips = pool.old.strips ++ reverse prepared.old.exchange.lost.items;
      spare = pool.old.spare - length prepared.old.exchange.lost.items;
    } }
    ensures given { prepared.new.exchange.lost.items ≡ [] }
    ensures gained { prepared.new.exchange.gained ≡ prepared.old.exchange.gained }
    ensures becomes { prepared.new.becomes ≡ prepared.old.becomes }
{
    prepared.exchange.give_up(pool);
}

/// Takes what the cell gains out of the pool, and makes of the cell what was prepared from it, which gave its pieces up. The memory
/// of bitmaps that a changed layer no longer has goes to `spare`. It takes no memory and can't be refused.
pub fn commit(cell: &mut Cell, prepared: Prepared, pool: &mut Pool, spare: &mut Spare)
    requires prepared { (to : CellView) × IsPrepared cell.old to prepared.becomes }
    requires given { prepared.exchange.lost.items ≡ [] }
    requires pool { (r : Rectangle) → copies r prepared.exchange.gained.items ≤ copies_in r pool.old.strips }
    ensures cell { (to : CellView) → IsPrepared cell.old to prepared.becomes → cell.new ≡ to }
    ensures numbers { (r : Rectangle) →
        copies_in r pool.old.strips ≡ copies_in r pool.new.strips + copies r prepared.exchange.gained.items }
{
    prepared.exchange.claim(pool);
    turn_into(cell, prepared.becomes, spare);
}

/// Makes of the cell what is ready to be made of it. The memory of bitmaps that a changed layer no longer has goes to `spare`. It
/// takes no memory and can't be refused.
pub fn turn_into(cell: &mut Cell, becomes: Becomes, spare: &mut Spare)
    requires { (to : CellView) × IsPrepared cell.old to becomes }
    ensures { (to : CellView) → IsPrepared cell.old to becomes → cell.new ≡ to }
{
    match becomes {
        Becomes::Stays => {}
        Becomes::Closes => replace(cell, DraftState::Closed),
        Becomes::Opens(draft) => replace(cell, DraftState::Live(Box::into_inner(draft))),
        Becomes::Changes(change) => apply(cell, Box::into_inner(change), spare),
    }
}

// The cell holds another state from now on.
fn replace(cell: &mut Cell, state: DraftState)
    requires { IsState state }
    ensures { cell.new ≡ record { number = cell.old.number; state = state_of state; live = live_of state } }
{
    let slot = cell.slot();
    cell.take_up(Draft { slot, state });
}
