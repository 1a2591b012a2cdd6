//! A desk that was not closed, out of memory. Where memory is there it is closed at once; `rt try --test --fail-alloc N` makes an
//! allocation of its closing fail, as `bench/wrong_bodies.sh` does.
ghost use Rattle.std.specs.Prelude.{◌≡◌, [], ◌∷◌, map, IfOk};
ghost use Rattle.std.specs.List.{range_with_len};
ghost use Rattle.lw_machine.specs.Desk.{Desk as MachineDesk, empty_desk, shelf_of};
ghost use Rattle.lw_order.specs.Roles.{all_roles};
ghost use Rattle.lw_engine_trait.specs.Steps.{AreParts};
ghost use Rattle.lw_locks.specs.Closing.{task_of};
ghost use Rattle.lw_locks.specs.Seen.{opening_pass};

use crate::calls::{SIZES, are_done, calls_of_task, fill, make_all, no_assets};
use lw_backfill::Solid;
use lw_calls::{Assets, Call, Final, Replies, Reply};
use lw_engine::LayerEngine;
use lw_engine_trait::Engine;
use lw_locks::{Closed, Desk, NotClosed, OpenGate, Opening, Pass};
use lw_order::{Order, Seat};
use std::alloc::{AllocError, Global};
use std::marker::Brand;
use std::process::Abort;
use std::sync::Wait;
use std::test::Fail;

// Each of two tasks makes its calls, the first one's first. Gives their passes, and what they were told.
fn make_each<E: Engine, N: Opening, R: Wait>(
    rt: &R,
    alloc: Global,
    desk: &Desk<E, N>,
    mut passes: Vec<Pass<E, N>>,
    first: &[Call],
    second: &[Call],
) -> Result<(Vec<Pass<E, N>>, Replies, Replies), AllocError>
    requires sizes { N.desk.sizes ≡ SIZES }
    requires two { map task_of passes.items ≡ 0 ∷ 1 ∷ [] }
    ensures { IfOk result (λ r. map task_of r.0.items ≡ 0 ∷ 1 ∷ []) }
{
    let Some(mut last) = passes.pop() else {
        return Err(AllocError);
    };
    let Some(mut front) = passes.pop() else {
        return Err(AllocError);
    };
    let a = make_all(rt, alloc, &OpenGate, desk, &mut front, first)?;
    let b = make_all(rt, alloc, &OpenGate, desk, &mut last, second)?;
    passes.push(front)?;
    passes.push(last)?;
    Ok((passes, a, b))
}

// Fills the last two columns too on both layers of a desk that was not closed, and closes it.
fn close_again<E: Engine, N: Opening, R: Wait + Abort>(
    rt: &R,
    alloc: Global,
    left: NotClosed<E, N>,
) -> Result<Closed<E>, AllocError>
    requires sizes { N.desk.sizes ≡ SIZES }
    requires two { map task_of left.passes.items ≡ 0 ∷ 1 ∷ [] }
    ensures { IfOk result (λ c. (d : MachineDesk) × AreParts E.relations N.desk.sizes N.desk.assets c.info c.cells.items d) }
{
    let NotClosed { desk, passes } = left;
    let (first, second) = ([fill(rt, 0, 2, 3)], [fill(rt, 1, 2, 3)]);
    let (passes, a, b) = make_each(
        rt,
        alloc,
        &desk,
        passes,
        first.as_slice(),
        second.as_slice(),
    )?;
    assert!(rt; matches!(a.list(), [Reply::Done]));
    assert!(rt; matches!(b.list(), [Reply::Done]));
    let Ok(closed) = desk.close(alloc, passes) else {
        return Err(AllocError);
    };
    Ok(closed)
}

// Two tasks make their calls on a desk with its passes before the first call, which is then closed. Where it was not closed, more
// is filled and it is closed again. Gives what is left, what the tasks were told, and whether more was filled.
fn close_run<E: Engine, N: Opening, R: Wait + Abort>(
    rt: &R,
    alloc: Global,
    desk: Desk<E, N>,
    passes: Vec<Pass<E, N>>,
    first: &[Call],
    second: &[Call],
) -> Result<(Closed<E>, Vec<Replies>, bool), Fail>
    requires sizes { N.desk.sizes ≡ SIZES }
    requires passes { passes.items ≡ map opening_pass (range_with_len 0 SIZES.tasks) }
    ensures { IfOk result (λ r. (d : MachineDesk) × AreParts E.relations N.desk.sizes N.desk.assets r.0.info r.0.cells.items d) }
{
    let (passes, a, b) = make_each(rt, alloc, &desk, passes, first, second)?;
    let told = vec![in alloc; a, b]?;
    let left = match desk.close(alloc, passes) {
        Ok(closed) => return Ok((closed, told, false)),
        Err(left) => left,
    };
    // One allocation failed, and no other will.
    let Ok(closed) = close_again(rt, alloc, left) else {
        return Err(Fail::from("a desk that was not closed is as it was"));
    };
    Ok((closed, told, true))
}

// The same on a desk that is made for it, with what the closed desk leaves.
fn close_twice<R: Wait + Abort>(
    rt: &R,
    alloc: Global,
    assets: &Assets,
    first: &[Call],
    second: &[Call],
) -> Result<(Final, bool), Fail> {
    let (order, seat) = Order::start(alloc, &SIZES)?;
    close_twice_on::<Brand, R>(rt, alloc, assets, order, seat, first, second)
}

// On a desk for which this order word was made.
fn close_twice_on<N: Opening, R: Wait + Abort>(
    rt: &R,
    alloc: Global,
    assets: &Assets,
    order: Order,
    seat: Seat,
    first: &[Call],
    second: &[Call],
) -> Result<(Final, bool), Fail>
    requires desk { N.desk ≡ empty_desk SIZES assets.now (shelf_of []) }
    requires word { order.word ≡ N.word }
    requires sizes { order.sizes ≡ SIZES }
    requires seat_word { seat.word ≡ N.word }
    requires history { seat.history ≡ [] }
    requires roles { seat.roles ≡ all_roles SIZES.slots SIZES.tasks }
{
    let engine = LayerEngine::<Solid>::new(SIZES, assets);
    let opened = engine.open(alloc, Vec::new(alloc))?;
    let (info, cells, regs) = (opened.info, opened.slots, opened.registers);
    let (desk, passes) = Desk::<_, N>::start(alloc, order, seat, engine, info, cells, regs)?;
    let (closed, told, more) = close_run(rt, alloc, desk, passes, first, second)?;
    let Closed { info, cells, .. } = closed;
    assert_eq!(rt; told.len(), 2);
    let engine = LayerEngine::<Solid>::new(SIZES, assets);
    let last = engine.finish(alloc, &info, cells.as_slice(), told)?;
    Ok((last, more))
}

#[test]
fn a_desk_that_was_not_closed_is_as_it_was(rt: HostRuntime) -> Result<(), Fail> {
    let alloc = rt.alloc();
    let first = calls_of_task(&rt, 0, 0, None)?;
    let second = calls_of_task(&rt, 1, 8, None)?;
    let assets = no_assets(alloc);
    let (last, more) = close_twice(&rt, alloc, &assets, first.as_slice(), second.as_slice())?;
    let due = if more { [0xf0, 0xf0] } else { [0xc0, 0xc0] };
    assert_eq!(rt; last.planes.row(0, 0), due.as_slice());
    for told in &last.replies {
        assert!(rt; are_done(told));
    }
    Ok(())
}
