// A desk after its last call.

ghost use Rattle.std.specs.Prelude.{◌≡◌, ℕ, ◌<◌, ◌≤◌, ◌++◌, length, map, vec_len, vec_capacity, All, Contains, IfOk, IfErr};
ghost use Rattle.std.specs.List.{slice_index_or};
ghost use Rattle.lw_calls.specs.declared.touch.Role.TheVariants.{Slot};
ghost use Rattle.lw_order.specs.Roles.{HasEachOnce};
ghost use Rattle.lw_order.specs.Rule.{IsRoleWithin};
ghost use Rattle.lw_locks.specs.Closing.{task_of, HasEach, IsClosed, AreFollowed, AreRegsHeld, slots_of, HasEachSlot, AreTaken};
ghost use Rattle.lw_locks.specs.Closing.{ArePlaced};
ghost use Rattle.lw_locks.specs.Held.{IsSeat};
ghost use Rattle.lw_locks.specs.Joins.{IsLonger};
ghost use Rattle.lw_locks.specs.Seen.{SeenPass};

use crate::desk::Desk;
use crate::held::{Layer, LayerInfo, Place};
use crate::holder::Holder;
use crate::opening::Opening;
use crate::pass::Pass;
use crate::steps::Steps;
use lw_engine_trait::Engine;
use lw_order::Seat;
use std::alloc::Global;
use std::sync::Mutex;

/// What a desk leaves: LayerInfo, the cells of all slots and the registers of all tasks, in rising number, and the seat that
/// knows the whole history.
#[derive(Drop)]
pub struct Closed<E: Engine> {
    pub info: E::Info,
    pub cells: Vec<E::Cell>,
    pub regs: Vec<E::Regs>,
    pub seat: Seat,
}

/// A desk that was not closed, out of memory, and its passes. The contract says which desk it is and which passes; that what lies
/// behind its locks is as it was is seen by a test alone.
#[derive(Drop)]
pub struct NotClosed<E: Engine, N: Opening> {
    pub desk: Desk<E, N>,
    pub passes: Vec<Pass<E, N>>,
}

impl<E: Engine, N: Opening> Desk<E, N> {
    /// Takes a desk apart whose passes are these, of all tasks and in any order. It fails only when out of memory, and then gives
    /// the desk and the passes back.
    pub fn close(self, alloc: Global, passes: Vec<Pass<E, N>>) -> Result<Closed<E>, NotClosed<E, N>>
        requires many { vec_len passes ≡ N.desk.sizes.tasks }
        requires each { HasEach passes.items N.desk.sizes.tasks }
        ensures closed { IfOk result
            (λ c. IsClosed E.relations N.word N.desk passes.items c.info c.cells.items c.regs.items c.seat) }
        ensures desk { IfErr result (λ n. n.desk ≡ self) }
        ensures passes { IfErr result (λ n. n.passes ≡ passes) }
    {
        let Ok(taken) = Vec::with_capacity(alloc, self.layers.len()) else {
            return Err(NotClosed { desk: self, passes });
        };
        let Ok(cells) = Vec::with_capacity(alloc, self.layers.len()) else {
            return Err(NotClosed { desk: self, passes });
        };
        let Ok(regs) = Vec::with_capacity(alloc, passes.len()) else {
            return Err(NotClosed { desk: self, passes });
        };
        Ok(self.close_into(taken, cells, regs, passes))
    }

    // With room for the cells of all layers, before and after they are put in order, and for all registers.
    fn close_into(
        self,
        taken: Vec<(u32, E::Cell)>,
        cells: Vec<E::Cell>,
        regs: Vec<E::Regs>,
        passes: Vec<Pass<E, N>>,
    ) -> Closed<E>
        requires taken { (vec_len taken ≡ 0) × (N.desk.sizes.slots ≤ vec_capacity taken) }
        requires cells { (vec_len cells ≡ 0) × (N.desk.sizes.slots ≤ vec_capacity cells) }
        requires regs { (vec_len regs ≡ 0) × (vec_len passes ≤ vec_capacity regs) }
        requires many { vec_len passes ≡ N.desk.sizes.tasks }
        requires each { HasEach passes.items N.desk.sizes.tasks }
        ensures { IsClosed E.relations N.word N.desk passes.items result.info result.cells.items result.regs.items result.seat }
    {
        let Desk {
            steps,
            info,
            layers,
        } = self;
        let Place { held, apart: _ } = info.into_inner();
        let Some(info) = held else {
            unreachable!();
        };
        join_all(&steps, info, layers, taken, passes, cells, regs)
    }
}

// Joins the seats of all layers and passes to LayerInfo's.
fn join_all<E: Engine, N: Opening>(
    steps: &Steps<E, N>,
    info: LayerInfo<E, N>,
    mut layers: Vec<Mutex<Place<Layer<E, N>>>>,
    mut taken: Vec<(u32, E::Cell)>,
    mut passes: Vec<Pass<E, N>>,
    mut cells: Vec<E::Cell>,
    mut regs: Vec<E::Regs>,
) -> Closed<E>
    requires layers { vec_len layers ≡ N.desk.sizes.slots }
    requires taken { (vec_len taken ≡ 0) × (N.desk.sizes.slots ≤ vec_capacity taken) }
    requires cells { (vec_len cells ≡ 0) × (N.desk.sizes.slots ≤ vec_capacity cells) }
    requires regs { (vec_len regs ≡ 0) × (vec_len passes ≤ vec_capacity regs) }
    requires many { vec_len passes ≡ N.desk.sizes.tasks }
    requires each { HasEach passes.items N.desk.sizes.tasks }
    ensures { IsClosed E.relations N.word N.desk passes.items result.info result.cells.items result.regs.items result.seat }
{
    let LayerInfo {
        info,
        mut seat,
        of: _,
    } = info;
    join_layers(steps, &mut seat, &mut layers, &mut taken);
    put_cells(&mut taken, &mut cells);
    join_passes(steps, &mut seat, &mut passes, &mut regs);
    Closed {
        info,
        cells,
        regs,
        seat,
    }
}

// Takes the layers from behind their locks, joins their seats to one, the first lock's first, and gives their numbers and cells
// in this order. No two seats have a role in common, so no number comes twice.
fn join_layers<E: Engine, N: Opening>(
    steps: &Steps<E, N>,
    seat: &mut Seat,
    layers: &mut Vec<Mutex<Place<Layer<E, N>>>>,
    taken: &mut Vec<(u32, E::Cell)>,
)
    requires seat { IsSeat N.word N.desk seat.old }
    requires once { HasEachOnce seat.old.roles }
    requires fit { All (IsRoleWithin N.desk.sizes) seat.old.roles }
    requires taken { (vec_len taken.old ≡ 0) × (vec_len layers.old ≤ vec_capacity taken.old) }
    ensures seat { IsSeat N.word N.desk seat.new }
    ensures longer { IsLonger seat.old seat.new }
    ensures once { HasEachOnce seat.new.roles }
    ensures fit { All (IsRoleWithin N.desk.sizes) seat.new.roles }
    ensures roles { seat.new.roles ≡ seat.old.roles ++ map (λ slot. Slot slot) (slots_of taken.new.items) }
    ensures taken { AreTaken E.relations N.desk seat.new taken.new.items }
    ensures many { (vec_len taken.new ≡ vec_len layers.old) × (vec_capacity taken.new ≡ vec_capacity taken.old) }
{
    let Some(lock) = layers.pop() else {
        return;
    };
    let Place { held, apart: _ } = lock.into_inner();
    let Some(layer) = held else {
        unreachable!();
    };
    join_layers(steps, seat, layers, taken);
    let Layer {
        slot,
        cell,
        seat: theirs,
        of: _,
    } = layer;
    steps.join(seat, theirs);
    taken.push_reserved((slot, cell));
}

// Gives cells in rising number, of which there is one of each.
fn put_cells<C: Drop>(taken: &mut Vec<(u32, C)>, cells: &mut Vec<C>)
    requires each { HasEachSlot taken.old.items (vec_len taken.old) }
    requires cells { (vec_len cells.old ≡ 0) × (vec_len taken.old ≤ vec_capacity cells.old) }
    ensures placed { ArePlaced taken.old.items cells.new.items }
    ensures many { (vec_len cells.new ≡ vec_len taken.old) × (vec_capacity cells.new ≡ vec_capacity cells.old) }
{
    let last = taken.len();
    if last == 0 {
        return;
    }
    let place = place_of_slot(taken.as_slice(), last - 1);
    let (_, cell) = taken.remove(place);
    put_cells(taken, cells);
    cells.push_reserved(cell);
}

// The place of the cell of a slot, which is there.
fn place_of_slot<C>(taken: &[(u32, C)], slot: usize) -> usize
    requires { Contains (slots_of taken.now) slot }
    ensures place { result < length taken.now }
    ensures slot { (d : ℕ × C) → (slice_index_or taken.now result d).0 ≡ slot }
{
    for place in 0..taken.len() {
        if taken[place].0 as usize == slot {
            return place;
        }
    }
    unreachable!()
}

// Joins the seats of passes to one, the first task's first, and gives their registers in this order.
fn join_passes<E: Engine, N: Opening>(
    steps: &Steps<E, N>,
    seat: &mut Seat,
    passes: &mut Vec<Pass<E, N>>,
    regs: &mut Vec<E::Regs>,
)
    requires seat { IsSeat N.word N.desk seat.old }
    requires each { HasEach passes.old.items (vec_len passes.old) }
    requires regs { (vec_len regs.old ≡ 0) × (vec_len passes.old ≤ vec_capacity regs.old) }
    ensures seat { IsSeat N.word N.desk seat.new }
    ensures longer { IsLonger seat.old seat.new }
    ensures regs { AreRegsHeld E.relations N.desk seat.new regs.new.items }
    ensures followed { AreFollowed passes.old.items seat.new }
    ensures many { (vec_len regs.new ≡ vec_len passes.old) × (vec_capacity regs.new ≡ vec_capacity regs.old) }
{
    let last = passes.len();
    if last == 0 {
        return;
    }
    let place = place_of(passes.as_slice(), last - 1);
    let pass = passes.remove(place);
    join_passes(steps, seat, passes, regs);
    let Pass { holder } = pass;
    let Holder {
        task: _,
        made: _,
        regs: mine,
        seat: own,
        of: _,
    } = holder;
    steps.join(seat, own);
    regs.push_reserved(mine);
}

// The place of the pass of a task, which is there.
fn place_of<E: Engine, N: Opening>(passes: &[Pass<E, N>], task: usize) -> usize
    requires { Contains (map task_of passes.now) task }
    ensures place { result < length passes.now }
    ensures task { (d : SeenPass) → (slice_index_or passes.now result d).task ≡ task }
{
    for place in 0..passes.len() {
        if passes[place].task() as usize == task {
            return place;
        }
    }
    unreachable!()
}
