// A desk before its first call.

ghost use Rattle.std.specs.Prelude.{◌≡◌, ℕ, ◌+◌, ◌<◌, [], ◌++◌, map, vec_len, Contains, IfOk};
ghost use Rattle.std.specs.List.{range_with_len};
ghost use Rattle.lw_calls.specs.declared.touch.Role.TheVariants.{Task, Slot};
ghost use Rattle.lw_calls.specs.Limits.{IsWithinLimits};
ghost use Rattle.lw_machine.specs.Desk.{empty_desk};
ghost use Rattle.lw_machine.specs.Parts.{info_part};
ghost use Rattle.lw_order.specs.Roles.{all_roles};
ghost use Rattle.lw_engine_trait.specs.Steps.{AreCells};
ghost use Rattle.lw_locks.specs.Held.{AreTasksRegs};
ghost use Rattle.lw_locks.specs.Seen.{opening_pass};

use crate::desk::Desk;
use crate::held::{Layer, LayerInfo, Place};
use crate::holder::Holder;
use crate::opening::Opening;
use crate::pass::Pass;
use crate::steps::Steps;
use lw_calls::Role;
use lw_engine_trait::Engine;
use lw_order::{Order, Seat};
use std::alloc::{AllocError, Global};
use std::marker::PhantomData;
use std::sync::Mutex;

impl<E: Engine, N: Opening> Desk<E, N> {
    /// A desk before its first call, and the passes of all tasks in rising number. The cells are those of all slots, and the
    /// registers those of all tasks, in rising number too. It fails only when out of memory.
    pub fn start(
        alloc: Global,
        order: Order,
        seat: Seat,
        engine: E,
        info: E::Info,
        mut cells: Vec<E::Cell>,
        mut regs: Vec<E::Regs>,
    ) -> Result<(Desk<E, N>, Vec<Pass<E, N>>), AllocError>
        requires word { order.word ≡ N.word }
        requires sizes { order.sizes ≡ N.desk.sizes }
        requires seat_word { seat.word ≡ N.word }
        requires history { seat.history ≡ [] }
        requires roles { seat.roles ≡ all_roles N.desk.sizes.slots N.desk.sizes.tasks }
        requires empty { N.desk ≡ empty_desk N.desk.sizes N.desk.assets N.desk.shelf }
        requires limits { IsWithinLimits N.desk.sizes }
        requires engine_sizes { E.sizes engine ≡ N.desk.sizes }
        requires engine_assets { E.assets engine ≡ N.desk.assets }
        requires info { E.relations.info_is N.desk.sizes info (info_part N.desk) }
        requires slots { vec_len cells ≡ N.desk.sizes.slots }
        requires cells { AreCells E.relations cells.items N.desk }
        requires tasks { vec_len regs ≡ N.desk.sizes.tasks }
        requires regs { AreTasksRegs E.relations regs.items N.desk }
        ensures passes { IfOk result (λ r. r.1.items ≡ map opening_pass (range_with_len 0 N.desk.sizes.tasks)) }
    {
        let mut whole = seat;
        let of = PhantomData;
        let seat = order.split(&mut whole, Role::Info);
        let info = LayerInfo { info, seat, of };
        let mut layers = Vec::new(alloc);
        Self::put_layers(&order, &mut whole, &mut cells, &mut layers)?;
        let mut passes = Vec::new(alloc);
        Self::put_passes(&order, &mut whole, &mut regs, &mut passes)?;
        let desk = Desk {
            steps: Steps { order, engine, of },
            info: Mutex::new(Place {
                held: Some(info),
                apart: [0; 8],
            }),
            layers,
        };
        Ok((desk, passes))
    }

    // Puts the cells behind locks of their own, each with a seat of its slot's role, which is split off the seat.
    fn put_layers(
        order: &Order,
        seat: &mut Seat,
        cells: &mut Vec<E::Cell>,
        layers: &mut Vec<Mutex<Place<Layer<E, N>>>>,
    ) -> Result<(), AllocError>
        requires word { order.now.word ≡ N.word }
        requires seat_word { seat.old.word ≡ N.word }
        requires history { seat.old.history ≡ [] }
        requires few { vec_len cells.old < 4294967296 }
        requires roles { (s : ℕ) → s < vec_len cells.old → Contains seat.old.roles (Slot s) }
        requires cells { AreCells E.relations cells.old.items N.desk }
        ensures seat_word { seat.new.word ≡ N.word }
        ensures history { seat.new.history ≡ [] }
        ensures tasks { IfOk result (λ _. (t : ℕ) → Contains seat.old.roles (Task t) → Contains seat.new.roles (Task t)) }
        ensures many { IfOk result (λ _. vec_len layers.new ≡ vec_len layers.old + vec_len cells.old) }
    {
        let Some(cell) = cells.pop() else {
            return Ok(());
        };
        let slot = cells.len() as u32;
        let own = order.split(seat, Role::Slot(slot));
        let layer = Layer {
            slot,
            cell,
            seat: own,
            of: PhantomData,
        };
        Self::put_layers(order, seat, cells, layers)?;
        layers.push(Mutex::new(Place {
            held: Some(layer),
            apart: [0; 8],
        }))?;
        Ok(())
    }

    // Makes a pass for each task of its registers and a seat of its role, which is split off the seat.
    fn put_passes(
        order: &Order,
        seat: &mut Seat,
        regs: &mut Vec<E::Regs>,
        passes: &mut Vec<Pass<E, N>>,
    ) -> Result<(), AllocError>
        requires word { order.now.word ≡ N.word }
        requires seat_word { seat.old.word ≡ N.word }
        requires history { seat.old.history ≡ [] }
        requires few { vec_len regs.old < 4294967296 }
        requires roles { (t : ℕ) → t < vec_len regs.old → Contains seat.old.roles (Task t) }
        requires regs { AreTasksRegs E.relations regs.old.items N.desk }
        ensures passes { IfOk result (λ _. passes.new.items
            ≡ passes.old.items ++ map opening_pass (range_with_len 0 (vec_len regs.old))) }
    {
        let Some(mine) = regs.pop() else {
            return Ok(());
        };
        let task = regs.len() as u32;
        let own = order.split(seat, Role::Task(task));
        let holder = Holder {
            task,
            made: 0,
            regs: mine,
            seat: own,
            of: PhantomData,
        };
        let pass = Pass { holder };
        Self::put_passes(order, seat, regs, passes)?;
        passes.push(pass)?;
        Ok(())
    }
}
