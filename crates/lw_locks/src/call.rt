// Calls that take locks.

ghost use Rattle.std.specs.Prelude.{◌≡◌, ◌≢◌, ◌<◌, [], ◌∷◌, IfOk, OnErr, IsTrue};
ghost use Rattle.lw_calls.specs.declared.touch.Role.TheVariants.{Task};
ghost use Rattle.lw_calls.specs.Entries.{count_of};
ghost use Rattle.lw_calls.specs.Limits.{call_fits};
ghost use Rattle.lw_calls.specs.declared.touch.CallClass.TheVariants.{OnRegisters, OnInfo, OnLayer, OnLayers};
ghost use Rattle.lw_calls.specs.Touches.{class_of};
ghost use Rattle.lw_order.specs.Promised.{Follows};
ghost use Rattle.lw_locks.specs.Called.{MayCall, Called};
ghost use Rattle.lw_locks.specs.Promised.{Done};

use crate::answer::Answer;
use crate::desk::Desk;
use crate::gate::{Gate, Spot};
use crate::held::{Layer, LayerInfo, Place};
use crate::locking::lock;
use crate::opening::Opening;
use crate::pass::Pass;
use lw_calls::{Call, CallClass, Role, class_of};
use lw_engine_trait::Engine;
use std::alloc::{AllocError, Global};
use std::marker::PhantomData;
use std::sync::Wait;

impl<E: Engine, N: Opening> Desk<E, N> {
    /// Makes a call under the locks of just what it touches: LayerInfo, at which it looks, one layer, two layers, or all of
    /// these. It may wait, and so promises no return. After it ran out of memory the call isn't in the history.
    pub fn call<R: Wait, G: Gate>(
        &self,
        rt: &R,
        alloc: Global,
        gate: &G,
        pass: &mut Pass<E, N>,
        call: &Call,
    ) -> Result<Answer, AllocError>
        requires registers { class_of call.now ≢ OnRegisters }
        requires fits { IsTrue (call_fits N.desk.sizes call.now) }
        requires room { count_of pass.old.task pass.old.history < 4294967295 }
        ensures task { pass.new.task ≡ pass.old.task }
        ensures done { IfOk result
            (λ a. Done N.desk
            (Task pass.old.task ∷ []) pass.old.task pass.old.history pass.new.history call.now a.reply a.ticket) }
        ensures failed { OnErr result (Follows (Task pass.old.task ∷ []) pass.old.history pass.new.history) }
    {
        let (task, seq) = (pass.task(), pass.made());
        gate.pass(task, seq, Spot::Before);
        let answer = self.locked(rt, alloc, gate, pass, call);
        gate.pass(task, seq, Spot::After);
        answer
    }

    // Makes a call under its locks, and gives these back.
    fn locked<R: Wait, G: Gate>(
        &self,
        rt: &R,
        alloc: Global,
        gate: &G,
        pass: &mut Pass<E, N>,
        call: &Call,
    ) -> Result<Answer, AllocError>
        requires registers { class_of call.now ≢ OnRegisters }
        requires may { MayCall N.desk pass.old.task pass.old.history call.now }
        ensures { Called N.desk pass.old pass.new call.now result }
    {
        match class_of(call) {
            CallClass::OnInfo => Ok(self.under_info(rt, gate, pass, call)),
            CallClass::OnLayer(slot) => self.under_layer(rt, alloc, gate, pass, slot, call),
            CallClass::OnLayers(source, slot) => {
                self.under_layers(rt, gate, pass, source, slot, call)
            }
            CallClass::OnAll => self.once_under_all(rt, alloc, gate, pass, call),
            CallClass::OnRegisters => unreachable!(),
        }
    }

    // Under the lock of LayerInfo.
    fn under_info<R: Wait, G: Gate>(
        &self,
        rt: &R,
        gate: &G,
        pass: &mut Pass<E, N>,
        call: &Call,
    ) -> Answer
        requires class { class_of call.now ≡ OnInfo }
        requires may { MayCall N.desk pass.old.task pass.old.history call.now }
        ensures task { pass.new.task ≡ pass.old.task }
        ensures done { Done N.desk (Task pass.old.task ∷ []) pass.old.task pass.old.history pass.new.history call.now result.reply result.ticket }
    {
        let mut guard = lock(rt, &self.info);
        gate.pass(pass.task(), pass.made(), Spot::Under);
        let place = &mut *guard;
        let Some(info) = place.held.take() else {
            unreachable!();
        };
        let LayerInfo {
            info,
            seat: theirs,
            of,
        } = info;
        self.steps.hold(&mut pass.holder, theirs);
        let answer = self.steps.on_info(&info, &mut pass.holder, call);
        let seat = self.steps.give(&mut pass.holder, Role::Info);
        let back = LayerInfo { info, seat, of };
        place.held = Some(back);
        answer
    }

    // Under the lock of one layer. No lock has another slot's layer; if it had, the call would fail.
    fn under_layer<R: Wait, G: Gate>(
        &self,
        rt: &R,
        alloc: Global,
        gate: &G,
        pass: &mut Pass<E, N>,
        slot: u32,
        call: &Call,
    ) -> Result<Answer, AllocError>
        requires class { class_of call.now ≡ OnLayer slot }
        requires may { MayCall N.desk pass.old.task pass.old.history call.now }
        ensures { Called N.desk pass.old pass.new call.now result }
    {
        let mut guard = lock(rt, &self.layers[slot as usize]);
        gate.pass(pass.task(), pass.made(), Spot::Under);
        let place = &mut *guard;
        let Some(layer) = place.held.take() else {
            unreachable!();
        };
        if layer.slot != slot {
            place.held = Some(layer);
            return Err(AllocError);
        }
        let Layer {
            slot,
            mut cell,
            seat: theirs,
            of,
        } = layer;
        self.steps.hold(&mut pass.holder, theirs);
        let answer = self
            .steps
            .on_layer(alloc, &mut cell, &mut pass.holder, call);
        let seat = self.steps.give(&mut pass.holder, Role::Slot(slot));
        let back = Layer {
            slot,
            cell,
            seat,
            of,
        };
        place.held = Some(back);
        answer
    }

    // Under the locks of two layers, of which that with the lower number is taken first.
    fn under_layers<R: Wait, G: Gate>(
        &self,
        rt: &R,
        gate: &G,
        pass: &mut Pass<E, N>,
        source: u32,
        slot: u32,
        call: &Call,
    ) -> Result<Answer, AllocError>
        requires class { class_of call.now ≡ OnLayers source slot }
        requires may { MayCall N.desk pass.old.task pass.old.history call.now }
        ensures { Called N.desk pass.old pass.new call.now result }
    {
        if source < slot {
            let mut from = lock(rt, &self.layers[source as usize]);
            let mut into = lock(rt, &self.layers[slot as usize]);
            gate.pass(pass.task(), pass.made(), Spot::Under);
            return self.in_layers(&mut from, &mut into, pass, source, slot, call);
        }
        let mut into = lock(rt, &self.layers[slot as usize]);
        let mut from = lock(rt, &self.layers[source as usize]);
        gate.pass(pass.task(), pass.made(), Spot::Under);
        self.in_layers(&mut from, &mut into, pass, source, slot, call)
    }

    // A call on the layers behind two locks. No lock has another slot's layer; if it had, the call would fail.
    fn in_layers(
        &self,
        from: &mut Place<Layer<E, N>>,
        into: &mut Place<Layer<E, N>>,
        pass: &mut Pass<E, N>,
        source: u32,
        slot: u32,
        call: &Call,
    ) -> Result<Answer, AllocError>
        requires class { class_of call.now ≡ OnLayers source slot }
        requires may { MayCall N.desk pass.old.task pass.old.history call.now }
        ensures places { (from.new.held ≡ from.old.held) × (into.new.held ≡ into.old.held) }
        ensures called { Called N.desk pass.old pass.new call.now result }
    {
        let Some(first) = from.held.take() else {
            unreachable!();
        };
        let Some(second) = into.held.take() else {
            unreachable!();
        };
        if first.slot != source || second.slot != slot {
            from.held = Some(first);
            into.held = Some(second);
            return Err(AllocError);
        }
        let (read, written, answer) = self.make_in_layers(first, second, pass, call);
        from.held = Some(read);
        into.held = Some(written);
        Ok(answer)
    }

    // A call on two layers.
    fn make_in_layers(
        &self,
        first: Layer<E, N>,
        second: Layer<E, N>,
        pass: &mut Pass<E, N>,
        call: &Call,
    ) -> (Layer<E, N>, Layer<E, N>, Answer)
        requires class { class_of call.now ≡ OnLayers first second }
        requires may { MayCall N.desk pass.old.task pass.old.history call.now }
        ensures slots { (result.0 ≡ first) × (result.1 ≡ second) }
        ensures task { pass.new.task ≡ pass.old.task }
        ensures done { Done N.desk
            (Task pass.old.task ∷ []) pass.old.task pass.old.history pass.new.history call.now result.2.reply result.2.ticket }
    {
        let Layer {
            slot: source,
            cell: from,
            seat: first,
            of: _,
        } = first;
        let Layer {
            slot,
            mut cell,
            seat: second,
            of,
        } = second;
        self.steps.hold(&mut pass.holder, first);
        self.steps.hold(&mut pass.holder, second);
        let answer = self
            .steps
            .on_layers(&from, &mut cell, &mut pass.holder, call);
        let second = self.steps.give(&mut pass.holder, Role::Slot(slot));
        let first = self.steps.give(&mut pass.holder, Role::Slot(source));
        (
            Layer {
                slot: source,
                cell: from,
                seat: first,
                of: PhantomData,
            },
            Layer {
                slot,
                cell,
                seat: second,
                of,
            },
            answer,
        )
    }
}
