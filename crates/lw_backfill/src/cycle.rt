ghost use Rattle.std.specs.Prelude.{◌≡◌, ◌↔◌, [], IfSome, IsNone};
ghost use Rattle.lw_backfill.specs.Hooks.{IsHook, cycle, cycle_at};

use crate::Backfill;

/// A hook of one tile for each of its pens, all of that pen.
#[derive(Drop)]
pub struct Cycle {
    pens: Vec<u8>,
    place: usize,
    ghost sound: { IsHook (cycle_at place pens.items) },
}

impl Cycle {
    /// The hook of the pens in turn, at the first of them; none if there are no pens.
    pub fn new(pens: Vec<u8>) -> Option<Cycle>
        ensures some { IfSome result (λ made. ⟦<Cycle as Backfill>⟧.hook made ≡ cycle pens.items) }
        ensures none { IsNone result ↔ pens.items ≡ [] }
    {
        if pens.is_empty() {
            return None;
        }
        Some(Cycle { pens, place: 0 })
    }
}

impl Backfill for Cycle {
    ghost hook = { λ c. cycle_at c.place c.pens.items };

    fn pen_at(&self, _x: i32, _y: i32) -> u8 {
        self.pens[self.place]
    }

    fn turned(&mut self) {
        self.place = (self.place + 1) % self.pens.len();
    }
}
