ghost use Rattle.std.specs.Prelude.{◌≡◌, ◌<◌, ◌^◌};
ghost use Rattle.std.specs.List.{slice_get};
ghost use Rattle.lw_calls.specs.Orders.{meets, is_open};
ghost use Rattle.lw_calls.specs.Code.OrderState.{is_held, no_progress, progress_more};

use crate::group::{Group, Hold};
use crate::touch::Touch;

/// What a task did of an order so far.
#[derive(Clone, Copy, Debug)]
pub(crate) struct Progress {
    /// How many calls the task made.
    pub(crate) made: usize,
    /// The group that the task is within or comes to next, by its number in the task. It only rises.
    pub(crate) group: usize,
}

impl Progress {
    /// Nothing yet.
    pub(crate) fn start() -> Progress
        ensures { result ≡ no_progress }
    {
        Progress { made: 0, group: 0 }
    }

    /// One call more.
    pub(crate) fn more(&self, groups: &[Group]) -> Progress
        requires { self.now.made < 2 ^ 62 }
        ensures { result ≡ progress_more groups.now self.now }
    {
        let made = self.made + 1;
        match groups.get(self.group) {
            Some(group) if (group.last as usize) < made => Progress {
                made,
                group: self.group + 1,
            },
            _ => Progress {
                made,
                group: self.group,
            },
        }
    }

    /// The task is within a group that holds what a call touches.
    pub(crate) fn holds(&self, groups: &[Group], touch: &Touch) -> bool
        ensures { result ≡ is_held groups.now touch.now self.now }
    {
        match groups.get(self.group) {
            Some(group) => is_within(self.made, group) && holds_touched(group.hold, touch),
            None => false,
        }
    }
}

/// The group's first call was made and its last one wasn't.
fn is_within(made: usize, group: &Group) -> bool
    ensures { result ≡ is_open made group.now }
{
    (group.first as usize) < made && made <= group.last as usize
}

/// The call touches what the group holds.
fn holds_touched(hold: Hold, touch: &Touch) -> bool
    ensures { result ≡ meets hold touch.now }
{
    match hold {
        Hold::Slot(slot) => touch.slots.has(slot),
        Hold::All => touch.info || !touch.slots.is_empty(),
    }
}
