ghost use Rattle.std.specs.Prelude.{◌≡◌};
ghost use Rattle.lw_machine.specs.Hook.{Hook, hook_pen, turned as turned_hook};
ghost use Rattle.lw_backfill.specs.Hooks.{IsHook};

/// A backfill hook: it has tiles of 8 by 8 pens, and is at one of them. Its calls take no memory and can't fail.
pub trait Backfill: Drop {
    // The hook as the machine has it.
    ghost hook: { Self → Hook };

    /// The pen at column `x` and row `y` of the layer: that of the tile at the remainders of both by 8.
    fn pen_at(&self, x: i32, y: i32) -> u8
        ensures pen { result ≡ hook_pen (hook self.now) x y }
        ensures sound { IsHook (hook self.now) };

    /// Goes on to the next tile, and from the last one to the first.
    fn turned(&mut self)
        ensures next { hook self.new ≡ turned_hook (hook self.old) }
        ensures sound { IsHook (hook self.new) };
}
