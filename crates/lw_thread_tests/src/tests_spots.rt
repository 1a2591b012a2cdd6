//! A gate's memory of the spots that the calls of each task passed.
use lw_calls::Plan;
use lw_locks::Spot;
use std::sync::atomic::{AtomicU32, Ordering};
use std::thread;

// How many turns a hold lasts at most.
const TURNS: u32 = 50_000_000;

// How many turns a test looks on to see that something doesn't happen. Where the machine is slow it may be that it only hasn't
// happened yet: then a test passes that should have failed, and none fails that should have passed. They are few, since a turn
// can take most of a millisecond under load, and a test has a minute.
const FEW_TURNS: u32 = 20_000;

/// Holds until the count is at least so high, for a number of turns. Whether it was.
pub fn waits_for(count: &AtomicU32, least: u32) -> bool {
    comes_to(count, least, TURNS)
}

/// Looks on for fewer turns. Whether the count was at least so high.
pub fn soon_comes_to(count: &AtomicU32, least: u32) -> bool {
    comes_to(count, least, FEW_TURNS)
}

fn comes_to(count: &AtomicU32, least: u32, turns: u32) -> bool {
    for _turn in 0..turns {
        if count.load(Ordering::SeqCst) >= least {
            return true;
        }
        thread::yield_now();
    }
    false
}

/// Of each of four tasks, how many spots it passed, and a number into which each of them is worked; and whether a hold ran out,
/// or a task was seen to go on that was held up.
#[derive(Drop)]
pub struct Spots {
    counts: [AtomicU32; 4],
    numbers: [AtomicU32; 4],
    late: AtomicU32,
    early: AtomicU32,
}

impl Spots {
    pub fn new() -> Spots {
        Spots {
            counts: [
                AtomicU32::new(0),
                AtomicU32::new(0),
                AtomicU32::new(0),
                AtomicU32::new(0),
            ],
            numbers: [
                AtomicU32::new(0),
                AtomicU32::new(0),
                AtomicU32::new(0),
                AtomicU32::new(0),
            ],
            late: AtomicU32::new(0),
            early: AtomicU32::new(0),
        }
    }

    /// The call `seq` of a task passes a spot.
    pub fn note(&self, task: u32, seq: u32, spot: Spot) {
        if let Some(number) = self.numbers.get(task as usize) {
            let so_far = number.load(Ordering::SeqCst);
            number.store(worked_in(so_far, seq, spot), Ordering::SeqCst);
        }
        if let Some(count) = self.counts.get(task as usize) {
            count.fetch_add(1, Ordering::SeqCst);
        }
    }

    /// Holds until a task passed so many spots.
    pub fn hold(&self, task: u32, least: u32) {
        if let Some(count) = self.counts.get(task as usize) {
            if !waits_for(count, least) {
                self.late.store(1, Ordering::SeqCst);
            }
        }
    }

    /// Looks on for some turns whether a task passes so many spots, which it must not.
    pub fn look_on(&self, task: u32, least: u32) {
        if let Some(count) = self.counts.get(task as usize) {
            if soon_comes_to(count, least) {
                self.early.store(1, Ordering::SeqCst);
            }
        }
    }

    /// Whether no hold ran out, no task was seen to go on that was held up, and the calls of each of the plan's tasks passed
    /// their spots in their order.
    pub fn are_due(&self, plan: &Plan) -> bool {
        if self.late.load(Ordering::SeqCst) != 0 || self.early.load(Ordering::SeqCst) != 0 {
            return false;
        }
        for task in 0..plan.sizes().tasks {
            let passed = match self.numbers.get(task as usize) {
                Some(number) => number.load(Ordering::SeqCst),
                None => 0,
            };
            if Some(passed) != due(plan, task) {
                return false;
            }
        }
        true
    }
}

// The number with one spot more.
fn worked_in(so_far: u32, seq: u32, spot: Spot) -> u32 {
    let place = match spot {
        Spot::Before => 1,
        Spot::Under => 2,
        Spot::After => 3,
    };
    so_far
        .wrapping_mul(1_000_003)
        .wrapping_add(seq.wrapping_mul(4))
        .wrapping_add(place)
}

// The number of a task whose calls all passed their spots in their order.
fn due(plan: &Plan, task: u32) -> Option<u32> {
    if task >= plan.sizes().tasks {
        return None;
    }
    let count = plan.calls(task).len() as u32;
    let mut number = 0;
    let mut next = 0;
    for group in plan.groups(task) {
        for seq in next..group.first {
            number = one_call(number, seq);
        }
        let end = group.last.saturating_add(1);
        number = worked_in(number, group.first, Spot::Before);
        for seq in group.first..end {
            number = worked_in(number, seq, Spot::Under);
        }
        for seq in group.first..end {
            number = worked_in(number, seq, Spot::After);
        }
        next = end;
    }
    for seq in next..count {
        number = one_call(number, seq);
    }
    Some(number)
}

fn one_call(number: u32, seq: u32) -> u32 {
    let before = worked_in(number, seq, Spot::Before);
    let under = worked_in(before, seq, Spot::Under);
    worked_in(under, seq, Spot::After)
}
