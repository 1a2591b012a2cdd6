ghost use Rattle.std.specs.Prelude.{◌≡◌, ℕ, [], ◌+◌, ◌≤◌, ◌<◌, IfOk, All, Contains};
ghost use Rattle.lw_calls.specs.Entries.{count_of};

use lw_calls::{Call, Role, Sizes};
use lw_order::{Order, Seat};
use std::alloc::{AllocError, Global};
use std::process::Abort;
use std::test::*;
use std::thread;
use std::thread::Threads;

// Stamps a call that touches the task's registers alone.
fn stamp_one(order: &Order, seat: &mut Seat, task: u32) -> u64
    requires word { seat.old.word ≡ order.now.word }
    requires role { Contains seat.old.roles (Role.Task task) }
    requires room { count_of task seat.old.history < 4294967295 }
    ensures word { seat.new.word ≡ seat.old.word }
    ensures roles { seat.new.roles ≡ seat.old.roles }
    ensures counted { count_of task seat.new.history ≡ count_of task seat.old.history + 1 }
{
    order.stamp(seat, task, &Call::RegClear { reg: 0 })
}

// Stamps so many such calls, and gives their tickets.
fn stamp_many(
    alloc: Global,
    order: &Order,
    mut seat: Seat,
    task: u32,
    count: u32,
) -> Result<Vec<u64>, AllocError>
    requires word { seat.word ≡ order.now.word }
    requires role { Contains seat.roles (Role.Task task) }
    requires new { count_of task seat.history ≡ 0 }
{
    let mut tickets = Vec::with_capacity(alloc, count as usize)?;
    for i in 0..count {
        tickets.push(stamp_one(order, &mut seat, task))?;
    }
    Ok(tickets)
}

// The sizes of a small screen, with so many slots and tasks.
fn sizes_of(slots: u32, tasks: u32) -> Sizes
    ensures { (result.slots ≡ slots) × (result.tasks ≡ tasks) }
{
    Sizes {
        version: 1,
        width: 16,
        height: 4,
        depth: 2,
        slots,
        tasks,
        hooks: 0,
        bitmaps: 0,
    }
}

// An order word for two tasks, and a seat for each.
fn start_two(alloc: Global) -> Result<(Order, Seat, Seat), AllocError>
    ensures words { IfOk result (λ r. (r.1.word ≡ r.0.word) × (r.2.word ≡ r.0.word)) }
    ensures first { IfOk result (λ r. Contains r.1.roles (Role.Task 0)) }
    ensures second { IfOk result (λ r. Contains r.2.roles (Role.Task 1)) }
    ensures new { IfOk result (λ r. (count_of 0 r.1.history ≡ 0) × (count_of 1 r.2.history ≡ 0)) }
{
    let (order, mut first) = Order::start(alloc, &sizes_of(0, 2))?;
    let second = order.split(&mut first, Role::Task(1));
    Ok((order, first, second))
}

// The tickets that one seat drew rise.
fn assert_rising(rt: &impl Abort, tickets: &[u64]) {
    for pair in tickets.windows(2) {
        assert!(rt; pair[0] < pair[1], "{} before {}", pair[0], pair[1]);
    }
}

// The tickets of all seats together are the numbers from 0 on, each once.
fn assert_each_once(rt: &impl Abort, tickets: &mut [u64]) {
    tickets.sort_unstable();
    for (place, ticket) in tickets.iter().enumerate() {
        assert_eq!(rt; *ticket, place as u64);
    }
}

// Two seats drew a thousand tickets each.
fn assert_both(
    rt: &impl Abort,
    mine: Result<Vec<u64>, AllocError>,
    theirs: Result<Vec<u64>, AllocError>,
) -> Result<(), AllocError> {
    let mut tickets = mine?;
    let theirs = theirs?;
    assert_eq!(rt; tickets.len(), 1000);
    assert_eq!(rt; theirs.len(), 1000);
    assert_rising(rt, tickets.as_slice());
    assert_rising(rt, theirs.as_slice());
    tickets.extend_from_slice(theirs.as_slice())?;
    assert_each_once(rt, tickets.as_mut_slice());
    Ok(())
}

#[test]
fn two_threads_draw_each_number_once(rt: HostRuntime) -> Result<(), Fail> {
    let alloc = rt.alloc();
    let (order, first, second) = start_two(alloc)?;
    let shared = &order;
    let (mine, theirs) = thread::join(
        &rt,
        move ||
            requires { (first.word ≡ shared.now.word) × Contains first.roles (Role.Task 0) × (count_of 0 first.history ≡ 0) }
        { stamp_many(alloc, shared, first, 0, 1000) },
        move ||
            requires { (second.word ≡ shared.now.word) × Contains second.roles (Role.Task 1) × (count_of 1 second.history ≡ 0) }
        { stamp_many(alloc, shared, second, 1, 1000) },
    );
    assert_both(&rt, mine, theirs)?;
    Ok(())
}

// A seat of one task's role alone, with the task's number.
#[derive(Drop)]
struct Job {
    task: u32,
    seat: Seat,
}

// Splits off a seat for each task.
fn split_all(
    alloc: Global,
    order: &Order,
    mut seat: Seat,
    tasks: u32,
) -> Result<Vec<Job>, AllocError>
    requires word { seat.word ≡ order.now.word }
    requires roles { (t : ℕ) → t < tasks → Contains seat.roles (Role.Task t) }
    requires new { seat.history ≡ [] }
    ensures { IfOk result
        (λ jobs. All (λ j. (j.seat.word ≡ order.now.word) × Contains j.seat.roles (Role.Task j.task)
        × (count_of j.task j.seat.history ≡ 0)) jobs.items) }
{
    let mut jobs = Vec::with_capacity(alloc, tasks as usize)?;
    for task in 0..tasks {
        let own = order.split(&mut seat, Role::Task(task));
        jobs.push(Job { task, seat: own })?;
    }
    Ok(jobs)
}

// Eight seats drew a hundred tickets each.
fn assert_eight(
    rt: &(impl Abort + AllocGlobal),
    drawn: Vec<Result<Vec<u64>, AllocError>>,
) -> Result<(), AllocError> {
    let mut tickets = Vec::new(rt.alloc());
    for own in drawn {
        let own = own?;
        assert_eq!(rt; own.len(), 100);
        assert_rising(rt, own.as_slice());
        tickets.extend_from_slice(own.as_slice())?;
    }
    assert_eq!(rt; tickets.len(), 800);
    assert_each_once(rt, tickets.as_mut_slice());
    Ok(())
}

#[test]
fn eight_threads_draw_each_number_once(rt: HostRuntime) -> Result<(), Fail> {
    let alloc = rt.alloc();
    let (order, seat) = Order::start(alloc, &sizes_of(3, 8))?;
    let jobs = split_all(alloc, &order, seat, 8)?;
    let shared = &order;
    let drawn = thread::map_vec(
        &rt,
        jobs,
        &|job: Job| -> Result<Vec<u64>, AllocError>
            requires { (job.seat.word ≡ shared.now.word) × Contains job.seat.roles (Role.Task job.task)
                × (count_of job.task job.seat.history ≡ 0) }
        {
            let Job { task, seat } = job;
            stamp_many(alloc, shared, seat, task, 100)
        },
    )?;
    assert_eight(&rt, drawn)?;
    Ok(())
}
