ghost use Rattle.std.specs.Prelude.{[], None};
ghost use Rattle.atomic_table.specs.Seated.{TableId};
ghost use Rattle.lw_calls.specs.Plan.{no_assets};
ghost use Rattle.lw_machine.specs.Desk.{Desk, empty_desk};
ghost use Rattle.lw_locks.specs.Openings.{no_sizes, no_word};

use std::marker::Brand;

/// Names one order word and one opening desk, so that values behind different locks are of one history. It has no functions:
/// which word and desk are meant is picked once, by the caller of `Desk::start`.
pub trait Opening {
    ghost word: { TableId };

    ghost desk: { Desk };
}

impl Opening for Brand {
    ghost word = { no_word };

    ghost desk = { empty_desk no_sizes no_assets (λ _. None) };
}
