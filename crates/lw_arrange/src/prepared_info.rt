// What an arrangement makes of LayerInfo, in three steps: preparing it takes all the memory, and giving up and committing take
// none.

ghost use Rattle.std.specs.Prelude.{◌≡◌, ◌-◌, ◌+◌, ◌≤◌, [], ◌++◌, reverse, length, IfOk};
ghost use Rattle.lw_region.specs.Rectangle.{Rectangle};
ghost use Rattle.lw_strips.specs.Pools.{copies, copies_in};
ghost use Rattle.lw_stack.specs.Stack.{IsStack, stack_of};
ghost use Rattle.lw_stack.specs.Desktop.{IsDesktop};
ghost use Rattle.lw_arrange.specs.Areas.{HasArea};
ghost use Rattle.lw_arrange.specs.Exchanged.{HasPieces};

use crate::arrangement::Arrangement;
use crate::desktop::desktop_after;
use crate::exchange::{Exchange, exchange_of};
use lw_stack::{Info, InfoDraft};
use lw_strips::Pool;
use std::alloc::{AllocError, Global};

/// What LayerInfo has after an arrangement, with its desktop, made beforehand, so that taking it up needs no memory.
#[derive(Debug, Drop)]
pub struct PreparedInfo {
    /// The list, the bounds, the active window and the desktop.
    pub after: InfoDraft,
    /// The pieces that the desktop loses and gains.
    pub exchange: Exchange,
}

impl PreparedInfo {
    /// How many strips the desktop has to give up.
    pub fn pieces(&self) -> usize
        ensures { result ≡ length self.now.exchange.lost.items }
    {
        self.exchange.lost.len()
    }
}

/// What LayerInfo has after the arrangement, which was planned for it. It fails only when out of memory.
pub fn prepare_info(
    alloc: Global,
    info: &Info,
    arrangement: &Arrangement,
) -> Result<PreparedInfo, AllocError>
    requires sizes { arrangement.now.stack.sizes ≡ info.now.sizes }
    requires area { HasArea info.now arrangement.now }
    ensures stack { IfOk result (λ prepared. stack_of info.now.sizes prepared.after ≡ arrangement.now.stack) }
    ensures desktop { IfOk result (λ prepared. IsDesktop arrangement.now.stack prepared.after.desktop.items) }
    ensures pieces { IfOk result (λ prepared.
        HasPieces info.now.sizes.slots info.now.sizes.depth arrangement.now.pieces
        prepared.exchange.lost.items prepared.exchange.gained.items) }
{
    let exchange = exchange_of(alloc, info.sizes().slots, arrangement)?;
    let after = InfoDraft {
        order: Vec::from_slice(alloc, arrangement.order())?,
        bounds: Vec::from_slice(alloc, arrangement.all_bounds())?,
        active: arrangement.active(),
        desktop: desktop_after(alloc, info, arrangement)?,
    };
    Ok(PreparedInfo { after, exchange })
}

/// Puts the strips that the desktop loses into the pool, which has room for them.
pub fn give_up_info(prepared: &mut PreparedInfo, pool: &mut Pool)
    requires { length prepared.old.exchange.lost.items ≤ pool.old.spare }
    ensures pool { pool.new ≡ record {
      strips = pool.old.strips ++ reverse prepared.old.exchange.lost.items;
      spare = pool.old.spare - length prepared.old.exchange.lost.items;
    } }
    ensures given { prepared.new.exchange.lost.items ≡ [] }
    ensures gained { prepared.new.exchange.gained ≡ prepared.old.exchange.gained }
    ensures after { prepared.new.after ≡ prepared.old.after }
{
    prepared.exchange.give_up(pool);
}

/// Takes what the desktop gains out of the pool, and makes of LayerInfo what was prepared for it, which gave its pieces up. It
/// takes no memory and can't be refused.
pub fn commit_info(info: &mut Info, prepared: PreparedInfo, pool: &mut Pool)
    requires stack { IsStack (stack_of info.old.sizes prepared.after) }
    requires desktop { IsDesktop (stack_of info.old.sizes prepared.after) prepared.after.desktop.items }
    requires given { prepared.exchange.lost.items ≡ [] }
    requires pool { (r : Rectangle) → copies r prepared.exchange.gained.items ≤ copies_in r pool.old.strips }
    ensures info { info.new ≡ stack_of info.old.sizes prepared.after }
    ensures numbers { (r : Rectangle) →
        copies_in r pool.old.strips ≡ copies_in r pool.new.strips + copies r prepared.exchange.gained.items }
{
    prepared.exchange.claim(pool);
    let _former = info.take_up(prepared.after);
}
