ghost use Rattle.std.specs.Prelude.{◌≡◌};
ghost use Rattle.lw_backfill.specs.Hooks.{IsHook, solid};

use crate::Backfill;

/// A hook of one tile, all of one pen.
#[derive(Drop)]
pub struct Solid {
    pen: u8,
    ghost sound: { IsHook (solid pen) },
}

impl Solid {
    /// The hook of `pen`.
    pub fn new(pen: u8) -> Solid
        ensures { ⟦<Solid as Backfill>⟧.hook result ≡ solid pen }
    {
        Solid { pen }
    }
}

impl Backfill for Solid {
    ghost hook = { λ s. solid s.pen };

    fn pen_at(&self, _x: i32, _y: i32) -> u8 {
        self.pen
    }

    // The one tile stays.
    fn turned(&mut self) {}
}
