//! What scenes leave: each one's script is run by itself, in its order.

ghost use Rattle.std.specs.Prelude.{◌≡◌, List, ◌∷◌, [], ◌++◌, map, true, IfOk, OnOk};
ghost use Rattle.std.specs.List.{All};
ghost use Rattle.lw_calls.specs.Orders.{is_legal};
ghost use Rattle.lw_machine.specs.Finals.{run_final};
ghost use Rattle.lw_display.specs.Shows.{SceneInput};
ghost use Rattle.lw_display.specs.ShowAnswers.{scene_meaning};
ghost use Rattle.lw_display_run.specs.Ran.{IsInOrder, HaveRun};

use lw_backfill::Solid;
use lw_calls::{Final, OrderList, Plan, Text};
use lw_display::Scene;
use lw_planes::Planes;
use lw_tasks::replay;
use std::alloc::{AllocError, Global};

/// What scenes leave whose scripts were run. In each list there is one for each scene.
#[derive(Drop)]
pub struct Ran {
    /// The names of their screens.
    pub names: Vec<Text>,
    /// The rows of the display at which these open.
    pub tops: Vec<u32>,
    /// How many rows they have.
    pub heights: Vec<u32>,
    /// What is on them.
    pub planes: Vec<Planes>,
}

impl Ran {
    /// Adds a further scene, and runs its script.
    fn add(&mut self, alloc: Global, scene: &Scene) -> Result<(), AllocError>
        requires { IsInOrder (scene_meaning scene.now) }
        ensures { OnOk result ((scenes : List SceneInput) → HaveRun scenes self.old
            → HaveRun (scenes ++ scene_meaning scene.now ∷ []) self.new) }
    {
        let input = &scene.input;
        let name = Vec::from_slice(alloc, scene.name.bytes())?;
        self.names.push(Text::new(name))?;
        self.tops.push(scene.top)?;
        self.heights.push(input.plan.sizes().height)?;
        self.planes
            .push(last_screen(alloc, &input.plan, &input.order)?)?;
        Ok(())
    }
}

/// The screen that the machine's run of a plan in a legal order leaves, without hooks.
fn last_screen(alloc: Global, plan: &Plan, order: &OrderList) -> Result<Planes, AllocError>
    requires legal { is_legal plan.now order.now ≡ true }
    ensures { IfOk result (λ screen. screen ≡ (run_final plan.now [] order.now).planes) }
{
    let Final { planes, .. } = replay(alloc, plan, Vec::<Solid>::new(alloc), order)?;
    Ok(planes)
}

/// Runs the scripts of scenes, each in its order.
pub fn run_all(alloc: Global, scenes: &[Scene]) -> Result<Ran, AllocError>
    requires { All (λ scene. IsInOrder (scene_meaning scene)) scenes.now }
    ensures { IfOk result (λ ran. HaveRun (map scene_meaning scenes.now) ran) }
{
    let mut ran = Ran {
        names: Vec::new(alloc),
        tops: Vec::new(alloc),
        heights: Vec::new(alloc),
        planes: Vec::new(alloc),
    };
    for scene in scenes {
        ran.add(alloc, scene)?;
    }
    Ok(ran)
}
