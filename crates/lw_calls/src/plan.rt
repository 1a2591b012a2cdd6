ghost use Rattle.std.specs.Prelude.{◌≡◌, ◌<◌};
ghost use Rattle.lw_calls.specs.Plan.{task_calls, task_groups, IsPlan};

use crate::assets::Assets;
use crate::call::Call;
use crate::group::Group;
use crate::pair::Pair;
use crate::sizes::Sizes;
use crate::text::Text;
use std::marker::Model;

/// A plan's parts, of which `Plan::new` makes a plan.
#[derive(Debug, Drop)]
pub struct PlanParts {
    pub sizes: Sizes,
    /// The layers' names, by slot.
    pub slot_names: Vec<Text>,
    /// The tasks' names, by number.
    pub task_names: Vec<Text>,
    /// The bitmaps' names, by number.
    pub bitmap_names: Vec<Text>,
    /// Each task's calls in their order.
    pub calls: Vec<Vec<Call>>,
    /// Each task's groups in rising order.
    pub groups: Vec<Vec<Group>>,
    /// The windows of two layers; nothing is asked of them.
    pub pairs: Vec<Pair>,
    pub assets: Assets,
}

impl Model for PlanParts {
    ghost use Rattle.std.specs.Prelude.{map};
    ghost use Rattle.lw_calls.specs.Plan.{Plan as PlanView};

    ghost Value = { PlanView };

    ghost view = { λ p. record {
      sizes = p.sizes;
      slot_names = p.slot_names.items;
      task_names = p.task_names.items;
      bitmap_names = p.bitmap_names.items;
      calls = map (λ cs. cs.items) p.calls.items;
      groups = map (λ gs. gs.items) p.groups.items;
      pairs = p.pairs.items;
      assets = p.assets;
    } };
}

/// What a script says to do: the sizes, the names, the calls and the groups of each task in their order, and what the
/// script hands in.
#[derive(Debug, Drop)]
pub struct Plan {
    parts: PlanParts,
}

impl Model for Plan {
    ghost use Rattle.lw_calls.specs.Plan.{Plan as PlanView, IsPlan};

    ghost Value = { PlanView };

    ghost view = { λ p. p.parts };

    ghost invariant = { λ p. IsPlan p.parts };
}

impl Plan {
    /// The plan of these parts.
    pub fn new(parts: PlanParts) -> Plan
        requires { IsPlan parts }
        ensures { result ≡ parts }
    {
        Plan { parts }
    }

    /// The sizes of the screen, and how many slots, tasks and bitmaps there are.
    pub fn sizes(&self) -> &Sizes
        ensures value { result.now ≡ self.now.sizes }
        ensures plan { IsPlan self.now }
    {
        &self.parts.sizes
    }

    /// The layers' names, by slot.
    pub fn slot_names(&self) -> &[Text]
        ensures { result.now ≡ self.now.slot_names }
    {
        self.parts.slot_names.as_slice()
    }

    /// The tasks' names, by number.
    pub fn task_names(&self) -> &[Text]
        ensures { result.now ≡ self.now.task_names }
    {
        self.parts.task_names.as_slice()
    }

    /// The version: 1, 2 or 3.
    pub fn version(&self) -> u32
        ensures { result ≡ self.now.sizes.version }
    {
        self.parts.sizes.version
    }

    /// The bitmaps' names, by number.
    pub fn bitmap_names(&self) -> &[Text]
        ensures { result.now ≡ self.now.bitmap_names }
    {
        self.parts.bitmap_names.as_slice()
    }

    /// The glyphs and bitmaps that the script hands in.
    pub fn assets(&self) -> &Assets
        ensures { result.now ≡ self.now.assets }
    {
        &self.parts.assets
    }

    /// The windows of two layers.
    pub fn pairs(&self) -> &[Pair]
        ensures { result.now ≡ self.now.pairs }
    {
        self.parts.pairs.as_slice()
    }

    /// The groups of a task in rising order.
    pub fn groups(&self, task: u32) -> &[Group]
        requires { task < self.now.sizes.tasks }
        ensures { result.now ≡ task_groups self.now task }
    {
        self.parts.groups[task as usize].as_slice()
    }

    /// The calls of a task in their order.
    pub fn calls(&self, task: u32) -> &[Call]
        requires { task < self.now.sizes.tasks }
        ensures { result.now ≡ task_calls self.now task }
    {
        self.parts.calls[task as usize].as_slice()
    }
}

// A plan and its assets may go to another thread, and threads may share them: the bounds ask for the proofs.
fn cross_threads() {
    crosses::<Plan>();
    crosses::<Assets>();
    is_shared::<Plan>();
    is_shared::<Assets>();
}

fn crosses<T: Send>() {}

fn is_shared<T: Sync>() {}
