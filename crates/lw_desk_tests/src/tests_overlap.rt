//! An engine of the tests: the one on layers, in which a fill waits until another one is made too.
ghost use Rattle.std.specs.Prelude.{◌≡◌, []};
ghost use Rattle.lw_machine.specs.Desk.{empty_desk, shelf_of};
ghost use Rattle.lw_order.specs.Roles.{all_roles};
ghost use Rattle.lw_engine.specs.Layers.{layer_relations};

use crate::calls::{SIZES, are_done, calls_of_task, make_all, no_assets};
use lw_backfill::{Backfill, Solid};
use lw_calls::{Assets, Call, Replies, Reply};
use lw_engine::{LayerEngine, LayerInfo, Slot};
use lw_engine_trait::Engine;
use lw_layer_calls::Regs;
use lw_locks::{Desk, Gate, Opening, Pass, Spot};
use lw_order::{Order, Seat};
use std::alloc::{AllocError, Global};
use std::marker::Brand;
use std::sync::Wait;
use std::sync::atomic::{AtomicU32, Ordering};
use std::test::Fail;
use std::thread;
use std::thread::Threads;

// How many turns a call waits for another one at most.
const TURNS: u32 = 50_000_000;

// How many layers were created, and how many fills began; and whether a call waited in vain.
#[derive(Drop)]
struct Meeting {
    created: AtomicU32,
    begun: AtomicU32,
    late: AtomicU32,
}

impl Meeting {
    fn new() -> Meeting {
        Meeting {
            created: AtomicU32::new(0),
            begun: AtomicU32::new(0),
            late: AtomicU32::new(0),
        }
    }

    // Waits until the count is at two.
    fn wait(&self, count: &AtomicU32) {
        for _turn in 0..TURNS {
            if count.load(Ordering::SeqCst) >= 2 {
                return;
            }
            thread::yield_now();
        }
        self.late.store(1, Ordering::SeqCst);
    }

    // Begins a fill, which goes on once another one began too: none ends before, so both are under way at once.
    fn meet(&self) {
        self.begun.fetch_add(1, Ordering::SeqCst);
        self.wait(&self.begun);
    }
}

// Each task's first call is a creation, which needs every lock, and its second one a fill. The fills wait for both creations.
impl Gate for Meeting {
    fn pass(&self, _task: u32, seq: u32, spot: Spot) {
        if seq == 0 && spot == Spot::After {
            self.created.fetch_add(1, Ordering::SeqCst);
        }
        if seq == 1 && spot == Spot::Before {
            self.wait(&self.created);
        }
    }
}

#[derive(Drop)]
struct MeetingEngine<'a, B: Backfill> {
    layers: LayerEngine<'a, B>,
    meeting: &'a Meeting,
}

impl<'a, B: Backfill + Send> Engine for MeetingEngine<'a, B> {
    type Info = LayerInfo<B>;

    type Cell = Slot<B>;

    type Regs = Regs;

    ghost sizes = { λ e. e.layers.sizes };

    ghost assets = { λ e. e.layers.assets.now };

    ghost relations = { layer_relations };

    fn regs(&self, alloc: Global, regs: &mut Regs, call: &Call) -> Result<Reply, AllocError> {
        self.layers.regs(alloc, regs, call)
    }

    fn look(&self, info: &LayerInfo<B>, call: &Call) -> Reply {
        self.layers.look(info, call)
    }

    fn one(
        &self,
        alloc: Global,
        cell: &mut Slot<B>,
        regs: &Regs,
        task: u32,
        call: &Call,
    ) -> Result<Reply, AllocError> {
        if matches!(call, Call::Fill { .. }) {
            self.meeting.meet();
        }
        self.layers.one(alloc, cell, regs, task, call)
    }

    fn two(&self, source: &Slot<B>, to: &mut Slot<B>, call: &Call) -> Reply {
        self.layers.two(source, to, call)
    }

    fn all(
        &self,
        alloc: Global,
        info: &mut LayerInfo<B>,
        cells: &mut [Slot<B>],
        task: u32,
        call: &Call,
    ) -> Result<Reply, AllocError> {
        self.layers.all(alloc, info, cells, task, call)
    }
}

// Makes a task's calls, and gives their replies.
fn run_task<E: Engine, N: Opening, R: Wait, G: Gate>(
    rt: &R,
    alloc: Global,
    gate: &G,
    desk: &Desk<E, N>,
    mut pass: Pass<E, N>,
    calls: Vec<Call>,
) -> Result<Replies, AllocError>
    requires { N.desk.sizes ≡ SIZES }
{
    make_all(rt, alloc, gate, desk, &mut pass, calls.as_slice())
}

// Two tasks make their calls, each on a thread of its own, and tell what they were told.
fn run_both<E: Engine, N: Opening + Send + Sync, R: Threads + Wait + Sync, G: Gate + Sync>(
    rt: &R,
    alloc: Global,
    gate: &G,
    desk: &Desk<E, N>,
    mut passes: Vec<Pass<E, N>>,
    first: Vec<Call>,
    second: Vec<Call>,
) -> Result<(Replies, Replies), AllocError>
    requires { N.desk.sizes ≡ SIZES }
{
    let Some(pass_b) = passes.pop() else {
        return Err(AllocError);
    };
    let Some(pass_a) = passes.pop() else {
        return Err(AllocError);
    };
    let (a, b) = thread::join(
        rt,
        move ||
            requires { N.desk.sizes ≡ SIZES }
        { run_task(rt, alloc, gate, desk, pass_a, first) },
        move ||
            requires { N.desk.sizes ≡ SIZES }
        { run_task(rt, alloc, gate, desk, pass_b, second) },
    );
    Ok((a?, b?))
}

// Runs two tasks by this engine, each on a thread of its own, and gives what they were told.
fn run_meeting<R: Threads + Wait + Sync>(
    rt: &R,
    alloc: Global,
    assets: &Assets,
    meeting: &Meeting,
    first: Vec<Call>,
    second: Vec<Call>,
) -> Result<(Replies, Replies), AllocError> {
    let (order, seat) = Order::start(alloc, &SIZES)?;
    run_meeting_on::<Brand, R>(rt, alloc, assets, meeting, order, seat, first, second)
}

// On a desk for which this order word was made.
fn run_meeting_on<N: Opening + Send + Sync, R: Threads + Wait + Sync>(
    rt: &R,
    alloc: Global,
    assets: &Assets,
    meeting: &Meeting,
    order: Order,
    seat: Seat,
    first: Vec<Call>,
    second: Vec<Call>,
) -> Result<(Replies, Replies), AllocError>
    requires desk { N.desk ≡ empty_desk SIZES assets.now (shelf_of []) }
    requires word { order.word ≡ N.word }
    requires sizes { order.sizes ≡ SIZES }
    requires seat_word { seat.word ≡ N.word }
    requires history { seat.history ≡ [] }
    requires roles { seat.roles ≡ all_roles SIZES.slots SIZES.tasks }
{
    let layers = LayerEngine::<Solid>::new(SIZES, assets);
    let opened = layers.open(alloc, Vec::new(alloc))?;
    let (info, cells, regs) = (opened.info, opened.slots, opened.registers);
    let engine = MeetingEngine { layers, meeting };
    let (desk, passes) = Desk::<_, N>::start(alloc, order, seat, engine, info, cells, regs)?;
    run_both(rt, alloc, meeting, &desk, passes, first, second)
}

#[test]
fn fills_of_two_layers_are_made_at_once(rt: HostRuntime) -> Result<(), Fail> {
    let alloc = rt.alloc();
    let first = calls_of_task(&rt, 0, 0, None)?;
    let second = calls_of_task(&rt, 1, 8, None)?;
    let meeting = Meeting::new();
    let (a, b) = run_meeting(&rt, alloc, &no_assets(alloc), &meeting, first, second)?;
    assert_eq!(rt; meeting.begun.load(Ordering::SeqCst), 2);
    assert_eq!(rt; meeting.late.load(Ordering::SeqCst), 0);
    assert!(rt; are_done(&a));
    assert!(rt; are_done(&b));
    Ok(())
}
