ghost use Rattle.std.specs.Prelude.{◌≡◌, ◌%◌, ◌==◌, ◌+ℤ◌, ℤ, unsigned_abs, if◌then◌else◌};
ghost use Rattle.lw_machine.specs.Hook.{hook_pen};
ghost use Rattle.lw_backfill.specs.Hooks.{IsHook, checker};

use crate::{Backfill, tile_place};

/// A hook of one tile, with two pens like the fields of a chessboard.
#[derive(Drop)]
pub struct Checker {
    a: u8,
    b: u8,
    ghost sound: { IsHook (checker a b) },
}

impl Checker {
    /// The hook with pen `a` where column and row have an even sum, and `b` elsewhere.
    pub fn new(a: u8, b: u8) -> Checker
        ensures tile { ⟦<Checker as Backfill>⟧.hook result ≡ checker a b }
        ensures pens { (x y : ℤ) → hook_pen (⟦<Checker as Backfill>⟧.hook result) x y
            ≡ (if unsigned_abs (x +ℤ y) % 2 == 0 then a else b) }
    {
        Checker { a, b }
    }
}

impl Backfill for Checker {
    ghost hook = { λ c. checker c.a c.b };

    fn pen_at(&self, x: i32, y: i32) -> u8 {
        if (tile_place(x) + tile_place(y)) % 2 == 0 {
            self.a
        } else {
            self.b
        }
    }

    // The one tile stays.
    fn turned(&mut self) {}
}
