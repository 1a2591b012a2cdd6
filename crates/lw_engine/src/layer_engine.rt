ghost use Rattle.std.specs.Prelude.{◌≡◌, ℕ, ◌<◌, List, [], map, vec_len, IfOk};
ghost use Rattle.std.specs.List.{slice_index_or};
ghost use Rattle.lw_calls.specs.declared.reply.Reply.{Reply as AnyReply};
ghost use Rattle.lw_calls.specs.Limits.{IsWithinLimits};
ghost use Rattle.lw_machine.specs.Desk.{Desk, empty_desk, shelf_of};
ghost use Rattle.lw_machine.specs.Finals.{final_of};
ghost use Rattle.lw_engine.specs.Layers.{layer_relations, AreLayers, AreRegisters};
ghost use Rattle.lw_engine.specs.Owners.{IsAssembled};

use crate::all_layers::on_all;
use crate::finishing::finish;
use crate::layer_info::LayerInfo;
use crate::opening::{Opened, empty_registers, unopened_slots};
use crate::slot::Slot;
use lw_backfill::{Backfill, Shelf};
use lw_calls::{Assets, Call, Final, Replies, Reply, Sizes};
use lw_engine_trait::Engine;
use lw_layer_calls::{Regs, on_info, on_registers};
use lw_planes::Spare;
use lw_stack::Info;
use std::alloc::{AllocError, Global};
use std::marker::PhantomData;
use std::sync::Mutex;

/// The step of the machine on layers (the manual's Layers Library chapter), for desks with these sizes to which these glyphs and
/// bitmaps were handed in. It borrows them, and keeps no part of a desk: each call is lent the parts that it touches.
#[derive(Drop)]
pub struct LayerEngine<'a, B: Backfill> {
    sizes: Sizes,
    assets: &'a Assets,
    // It has no hook: calls are lent them, and a lock lets threads share what is no more than `Send`.
    hooks: PhantomData<Mutex<B>>,
}

impl<'a, B: Backfill> LayerEngine<'a, B> {
    /// The engine for desks with these sizes, to which these were handed in.
    pub fn new(sizes: Sizes, assets: &'a Assets) -> LayerEngine<'a, B>
        ensures sizes { result.sizes ≡ sizes }
        ensures assets { result.assets.now ≡ assets.now }
    {
        LayerEngine {
            sizes,
            assets,
            hooks: PhantomData,
        }
    }

    /// The parts of the desk before the first call: no layer was created, the hooks are on the shelf, in their order, and all
    /// registers are empty. It fails only when out of memory.
    pub fn open(&self, alloc: Global, hooks: Vec<B>) -> Result<Opened<B>, AllocError>
        requires { IsWithinLimits self.now.sizes }
        ensures layers { IfOk result (λ o. AreLayers self.now.sizes self.now.assets.now o.info o.slots.items
            (empty_desk self.now.sizes self.now.assets.now (shelf_of (map B.hook hooks.items)))) }
        ensures registers { IfOk result (λ o. AreRegisters o.registers.items
            (empty_desk self.now.sizes self.now.assets.now (shelf_of (map B.hook hooks.items)))) }
        ensures tasks { IfOk result (λ o. vec_len o.registers ≡ self.now.sizes.tasks) }
    {
        let info = Info::new(alloc, &self.sizes)?;
        let shelf = Shelf::new(alloc, hooks)?;
        let slots = unopened_slots(alloc, self.sizes.slots)?;
        let registers = empty_registers(alloc, self.sizes.tasks)?;
        let spare = Spare::new(alloc)?;
        let info = LayerInfo { info, shelf, spare };
        Ok(Opened {
            info,
            slots,
            registers,
        })
    }

    /// What a run leaves of these parts whose tasks had these replies, a list for each task: the screen, where each layer is
    /// shown with its damage, and the replies. The screen is assembled of the strips of all slots and of the desktop. It fails
    /// only when out of memory.
    pub fn finish(
        &self,
        alloc: Global,
        info: &LayerInfo<B>,
        slots: &[Slot<B>],
        replies: Vec<Replies>,
    ) -> Result<Final, AllocError>
        requires tasks { vec_len replies ≡ self.now.sizes.tasks }
        requires desk { (d : Desk) × AreLayers self.now.sizes self.now.assets.now info.now slots.now d }
        ensures final_state { IfOk result (λ last. (d : Desk) (rs : ℕ → List AnyReply)
            → AreLayers self.now.sizes self.now.assets.now info.now slots.now d
            → ((t : ℕ) → t < self.now.sizes.tasks → slice_index_or replies.items t [] ≡ rs t)
            → last ≡ final_of d rs) }
        ensures assembled { IfOk result (λ last. IsAssembled info.now.stack slots.now last.planes) }
    {
        finish(alloc, &info.info, slots, replies)
    }
}

impl<'a, B: Backfill + Send> Engine for LayerEngine<'a, B> {
    type Info = LayerInfo<B>;

    type Cell = Slot<B>;

    type Regs = Regs;

    ghost sizes = { λ e. e.sizes };

    ghost assets = { λ e. e.assets.now };

    ghost relations = { layer_relations };

    fn regs(&self, alloc: Global, regs: &mut Regs, call: &Call) -> Result<Reply, AllocError> {
        on_registers(alloc, regs, call)
    }

    fn look(&self, info: &LayerInfo<B>, call: &Call) -> Reply {
        on_info(&info.info, call)
    }

    fn one(
        &self,
        alloc: Global,
        cell: &mut Slot<B>,
        regs: &Regs,
        task: u32,
        call: &Call,
    ) -> Result<Reply, AllocError> {
        cell.on_layer(alloc, regs, self.assets, task, call)
    }

    fn two(&self, source: &Slot<B>, to: &mut Slot<B>, call: &Call) -> Reply {
        to.with_source(source, call)
    }

    fn all(
        &self,
        alloc: Global,
        info: &mut LayerInfo<B>,
        cells: &mut [Slot<B>],
        task: u32,
        call: &Call,
    ) -> Result<Reply, AllocError> {
        on_all(
            alloc,
            &mut info.info,
            &mut info.shelf,
            cells,
            self.assets,
            task,
            call,
            &mut info.spare,
        )
    }
}

// Threads may share an engine where its hooks may go to another thread: the bounds ask for the proofs.
fn crosses_threads<'a, B: Backfill + Send>() {
    is_shared::<LayerEngine<'a, B>>();
}

fn is_shared<T: Sync>() {}
