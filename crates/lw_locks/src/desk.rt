ghost use Rattle.std.specs.Prelude.{◌≡◌, ◌<◌, [], ◌∷◌, IfOk, OnErr, IsTrue, vec_len};
ghost use Rattle.lw_calls.specs.declared.touch.Role.TheVariants.{Task};
ghost use Rattle.lw_calls.specs.Entries.{count_of};
ghost use Rattle.lw_calls.specs.Limits.{call_fits};
ghost use Rattle.lw_calls.specs.declared.touch.CallClass.TheVariants.{OnRegisters};
ghost use Rattle.lw_calls.specs.Touches.{class_of};
ghost use Rattle.lw_locks.specs.Promised.{Done};

use crate::answer::Answer;
use crate::gate::{Gate, Spot};
use crate::held::{Layer, LayerInfo, Place};
use crate::opening::Opening;
use crate::pass::Pass;
use crate::steps::Steps;
use lw_calls::Call;
use lw_engine_trait::Engine;
use std::alloc::{AllocError, Global};
use std::sync::Mutex;

/// A desk whose parts lie behind locks, a lock for each layer and one for LayerInfo. Any number of threads may make calls on it,
/// each with a pass of its own.
#[derive(Drop)]
pub struct Desk<E: Engine, N: Opening> {
    pub(crate) steps: Steps<E, N>,
    pub(crate) info: Mutex<Place<LayerInfo<E, N>>>,
    /// In rising number.
    pub(crate) layers: Vec<Mutex<Place<Layer<E, N>>>>,
    ghost many: { vec_len layers ≡ N.desk.sizes.slots },
}

impl<E: Engine, N: Opening> Desk<E, N> {
    /// Makes a call on the registers of the pass's task. It takes no lock, and returns.
    pub fn own<G: Gate>(
        &self,
        alloc: Global,
        gate: &G,
        pass: &mut Pass<E, N>,
        call: &Call,
    ) -> Result<Answer, AllocError>
        requires class { class_of call.now ≡ OnRegisters }
        requires fits { IsTrue (call_fits N.desk.sizes call.now) }
        requires room { count_of pass.old.task pass.old.history < 4294967295 }
        ensures task { pass.new.task ≡ pass.old.task }
        ensures done { IfOk result
            (λ a. Done N.desk
            (Task pass.old.task ∷ []) pass.old.task pass.old.history pass.new.history call.now a.reply a.ticket) }
        ensures failed { OnErr result (pass.new ≡ pass.old) }
    {
        let (task, seq) = (pass.task(), pass.made());
        gate.pass(task, seq, Spot::Before);
        gate.pass(task, seq, Spot::Under);
        let answer = self.steps.on_registers(alloc, &mut pass.holder, call);
        gate.pass(task, seq, Spot::After);
        answer
    }
}

// A pass may go to another thread, and threads may share a desk: the bounds ask for the proofs.
fn cross_threads<E: Engine, N: Opening + Send + Sync>() {
    crosses::<Pass<E, N>>();
    is_shared::<Desk<E, N>>();
}

fn crosses<T: Send>() {}

fn is_shared<T: Sync>() {}
