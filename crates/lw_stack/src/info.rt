ghost use Rattle.std.specs.Prelude.{◌≡◌, ◌<◌, [], None, replicate, ℤ, IfOk};
ghost use Rattle.lw_calls.specs.Limits.{IsWithinLimits};
ghost use Rattle.lw_stack.specs.Stack.{Stack, bounds_at, first_at, top_in, is_top_in, IsStack, stack_of};
ghost use Rattle.lw_stack.specs.Desktop.{IsDesktop};
ghost use Rattle.lw_region.specs.Bands.{covers};
ghost use Rattle.lw_machine.specs.Screen.{bounds_have};

use crate::shown::{cover, on_screen, screen_of_sizes, uncovered};
use lw_calls::Sizes;
use lw_region::{Rect, Region};
use lw_strips::Strip;
use std::alloc::{AllocError, Global};
use std::marker::Model;
use std::mem;

/// What LayerInfo has beside its sizes, as a value that an arrangement fills and `Info` takes up.
#[derive(Debug, Drop)]
pub struct InfoDraft {
    /// The numbers of the live layers' slots, each once, from front to back.
    pub order: Vec<u32>,
    /// By slot the layer's bounds in places of the screen, off which they may lie; `None` where the slot isn't live.
    pub bounds: Vec<Option<Rect>>,
    /// The slot of the active window; `None` where no window is active.
    pub active: Option<u32>,
    /// What of the screen no layer has, as strips of pen 0.
    pub desktop: Vec<Strip>,
}

/// What belongs to no layer alone: which layers there are, their order and their bounds, the active window, and the desktop (the
/// manual's Layers Library chapter: the `Layer_Info` structure; window and desktop are this project's own).
#[derive(Debug, Drop)]
pub struct Info {
    sizes: Sizes,
    draft: InfoDraft,
}

impl Model for Info {
    ghost use Rattle.lw_stack.specs.Stack.{Stack, IsStack, stack_of};
    ghost use Rattle.lw_stack.specs.Desktop.{IsDesktop};

    ghost Value = { Stack };

    ghost view = { λ i. stack_of i.sizes i.draft };

    ghost invariant = { λ i. IsStack (stack_of i.sizes i.draft) × IsDesktop (stack_of i.sizes i.draft) i.draft.desktop.items };
}

impl Info {
    /// The list of a desk on which nothing was created so far: the desktop is one strip. It fails only when out of memory.
    pub fn new(alloc: Global, sizes: &Sizes) -> Result<Info, AllocError>
        requires { IsWithinLimits sizes.now }
        ensures { IfOk result
            (λ info. info
            ≡ record { sizes = sizes.now; front_to_back = []; bounds = replicate sizes.now.slots None; active = None }) }
    {
        let mut bounds = Vec::with_capacity(alloc, sizes.slots as usize)?;
        for _slot in 0..sizes.slots {
            bounds.push(None)?;
        }
        let mut desktop = Vec::with_capacity(alloc, 1)?;
        desktop.push(Strip::blank(screen_of_sizes(sizes), sizes.depth))?;
        Ok(Info {
            sizes: *sizes,
            draft: InfoDraft {
                order: Vec::new(alloc),
                bounds,
                active: None,
                desktop,
            },
        })
    }

    /// The sizes with which it was made.
    pub fn sizes(&self) -> &Sizes
        ensures value { result.now ≡ self.now.sizes }
        ensures stack { IsStack self.now }
    {
        &self.sizes
    }

    /// The numbers of the live layers' slots, each once, from front to back.
    pub fn order(&self) -> &[u32]
        ensures value { result.now ≡ self.now.front_to_back }
        ensures stack { IsStack self.now }
    {
        self.draft.order.as_slice()
    }

    /// The bounds of a slot's layer in places of the screen, off which they may lie, their edges included; `None` exactly where
    /// no slot of this number is live.
    pub fn bounds(&self, slot: u32) -> Option<Rect>
        ensures { result ≡ bounds_at self.now.bounds slot }
    {
        match self.draft.bounds.get(slot as usize) {
            Some(bounds) => *bounds,
            None => None,
        }
    }

    /// The bounds of all slots, as `bounds` tells them.
    pub fn all_bounds(&self) -> &[Option<Rect>]
        ensures { result.now ≡ self.now.bounds }
    {
        self.draft.bounds.as_slice()
    }

    /// The slot of the active window; `None` exactly where no window is active.
    pub fn active(&self) -> Option<u32>
        ensures { result ≡ self.now.active }
    {
        self.draft.active
    }

    /// The desktop: what of the screen no layer has, as disjoint strips of pen 0.
    pub fn desktop(&self) -> &[Strip]
        ensures { IsDesktop self.now result.now }
    {
        self.draft.desktop.as_slice()
    }

    /// The slot of the layer that is on top at column `x` and row `y` of the screen; `None` exactly where no layer has the
    /// pixel, and off the screen (WhichLayer). Any place may be asked for.
    pub fn which(&self, x: i32, y: i32) -> Option<u32>
        ensures { result ≡ top_in self.now x y }
    {
        if !screen_of_sizes(self.sizes()).has(x, y) {
            return None;
        }
        self.first(x, y)
    }

    // The slot of the first layer of the list whose bounds have the place; `None` where none has it.
    fn first(&self, x: i32, y: i32) -> Option<u32>
        ensures { result ≡ first_at self.now.bounds self.now.front_to_back x y }
    {
        let order = self.order();
        for slot in order {
            if bounds_have(self.bounds(*slot), x, y) {
                return Some(*slot);
            }
        }
        None
    }

    /// Where on the screen the slot's layer is shown: the pixels of the screen at which it is on top. A slot that isn't live is
    /// shown nowhere. It fails only when out of memory.
    pub fn visible_of(&self, alloc: Global, slot: u32) -> Result<Region, AllocError>
        ensures { IfOk result
            (λ region. (x y : ℤ) → covers region x y ≡ is_top_in self.now slot x y) }
    {
        let order = self.order();
        let mut covered = Region::new(alloc);
        for front in order {
            let bounds = self.bounds(*front);
            if *front == slot {
                return uncovered(alloc, on_screen(self.sizes(), bounds), &covered);
            }
            cover(alloc, bounds, &mut covered)?;
        }
        Ok(Region::new(alloc))
    }

    /// Takes up another list, with its bounds, its active window and its desktop, and hands back the former one. It takes no
    /// memory.
    pub fn take_up(&mut self, draft: InfoDraft) -> InfoDraft
        requires stack { IsStack (stack_of self.old.sizes draft) }
        requires desktop { IsDesktop (stack_of self.old.sizes draft) draft.desktop.items }
        ensures taken { self.new ≡ stack_of self.old.sizes draft }
        ensures former { stack_of self.old.sizes result ≡ self.old }
        ensures desktop { IsDesktop self.old result.desktop.items }
    {
        mem::replace(&mut self.draft, draft)
    }
}

// Whether these bounds have the place.
fn bounds_have(bounds: Option<Rect>, x: i32, y: i32) -> bool
    ensures { result ≡ bounds_have bounds x y }
{
    match bounds {
        Some(rect) => rect.has(x, y),
        None => false,
    }
}

// The list may go to another thread, and threads may share it: the bounds ask for the proofs.
fn cross_threads() {
    crosses::<Info>();
    is_shared::<Info>();
}

fn crosses<T: Send>() {}

fn is_shared<T: Sync>() {}
