//! `run` and `demo` with their tasks on threads: tasks that hold one another up, and the reports of many runs.
use crate::tests_demo::{SEVEN, assert_seven};
use crate::tests_realistic::REALISTIC;
use crate::tests_spots::{Spots, soon_comes_to, waits_for};
use lw_answers::{answer_through, answer_with_six};
use lw_backfill::{Backfill, Solid};
use lw_calls::Plan;
use lw_grammar::Form;
use lw_locks::{Gate, Spot};
use lw_script::read;
use lw_top::Status;
use std::alloc::{AllocError, Global};
use std::process::Abort;
use std::sync::atomic::{AtomicU32, Ordering};
use std::sync::{Arc, Wait};
use std::test::Fail;
use std::thread::Threads;

fn plan_of(alloc: Global, script: &[u8]) -> Result<Plan, Fail> {
    if script.len() > 4096 {
        return Err(Fail::from("a short script"));
    }
    match read(alloc, script, 0, Form::Plain) {
        Ok(input) => Ok(input.plan),
        Err(_) => Err(Fail::from("a script")),
    }
}

// Two tasks, each with a layer of its own.
const TWO_FILLS: &[u8] = b"screen 16 1 1
task a
create x smart front 0 0 3 0
fill x 0 0 3 0
end
task b
create y smart front 8 0 11 0
fill y 0 0 3 0
end
";

// A gate at which task 0's fill waits for the other task's creation, which needs every lock; task 1's fill waits until task 0's
// holds its lock; and task 0's fill, which holds it, waits until task 1's was answered.
#[derive(Drop)]
struct FillsMeet {
    spots: Spots,
}

impl Gate for FillsMeet {
    fn pass(&self, task: u32, seq: u32, spot: Spot) {
        self.spots.note(task, seq, spot);
        match (task, seq, spot) {
            (0, 1, Spot::Before) => self.spots.hold(1, 3),
            (1, 1, Spot::Before) => self.spots.hold(0, 5),
            (0, 1, Spot::Under) => self.spots.hold(1, 6),
            _ => {}
        }
    }
}

// Runs a script through a gate that keeps these spots. They have to be due, and the report is that of its own order.
fn runs_through<R: Threads + Wait + Abort + AllocGlobal + Sync, G: Gate + Sync>(
    rt: &R,
    gate: &G,
    spots: &Spots,
    plan: &Plan,
    script: &[u8],
) -> Result<(), Fail> {
    let (status, text) = answer_through(rt, Vec::new(rt.alloc()), gate, "run", script, b"")?;
    assert_eq!(rt; status, Status::Done);
    assert!(rt; spots.are_due(plan));
    assert_replayed(rt, script, text.as_slice())?;
    Ok(())
}

#[test]
fn a_fill_goes_on_while_another_layer_is_held(rt: HostRuntime) -> Result<(), Fail> {
    let plan = plan_of(rt.alloc(), TWO_FILLS)?;
    let gate = FillsMeet {
        spots: Spots::new(),
    };
    runs_through(&rt, &gate, &gate.spots, &plan, TWO_FILLS)
}

// A gate at which the first call of each of two tasks waits until that of the other is there.
#[derive(Drop)]
struct BothBegin {
    spots: Spots,
}

impl Gate for BothBegin {
    fn pass(&self, task: u32, seq: u32, spot: Spot) {
        self.spots.note(task, seq, spot);
        match (task, seq, spot) {
            (0, 0, Spot::Before) => self.spots.hold(1, 1),
            (1, 0, Spot::Before) => self.spots.hold(0, 1),
            _ => {}
        }
    }
}

#[test]
fn both_tasks_of_a_demo_have_begun(rt: HostRuntime) -> Result<(), Fail> {
    let gate = BothBegin {
        spots: Spots::new(),
    };
    assert_seven(&rt, &gate, 4096, Status::Done, SEVEN)?;
    let plan = lw_gen::plan_of(rt.alloc(), 7, 2)?;
    assert!(rt; gate.spots.are_due(&plan));
    Ok(())
}

// Two tasks that fill the same layer.
const ONE_LAYER: &[u8] = b"screen 16 1 1
task a
create x smart front 0 0 3 0
fill x 0 0 1 0
end
task b
fill x 2 0 3 0
end
";

// A gate at which task 1's fill waits until task 0's holds the layer's lock; and task 0's fill, which holds it, looks on whether
// task 1's comes to hold it too.
#[derive(Drop)]
struct FillsTakeTurns {
    spots: Spots,
}

impl Gate for FillsTakeTurns {
    fn pass(&self, task: u32, seq: u32, spot: Spot) {
        self.spots.note(task, seq, spot);
        match (task, seq, spot) {
            (1, 0, Spot::Before) => self.spots.hold(0, 5),
            (0, 1, Spot::Under) => self.spots.look_on(1, 2),
            _ => {}
        }
    }
}

#[test]
fn a_layer_is_held_by_one_call_at_a_time(rt: HostRuntime) -> Result<(), Fail> {
    let plan = plan_of(rt.alloc(), ONE_LAYER)?;
    let gate = FillsTakeTurns {
        spots: Spots::new(),
    };
    runs_through(&rt, &gate, &gate.spots, &plan, ONE_LAYER)
}

// A task with a layer, and a task with calls of each kind that touch others: fills, a blit, a look, a call on registers, a group
// on one layer, and an update.
const MANY_LAYERS: &[u8] = b"screen 48 1 1
task a
create x smart front 0 0 3 0
fill x 0 0 3 0
end
task b
create p smart front 8 0 11 0
create q smart front 16 0 19 0
create r smart front 24 0 27 0
create s simple front 32 0 35 0
fill p 0 0 3 0
fill q 0 0 3 0
fill r 0 0 3 0
blit p 0 0 q 1 0 2 1 c0
which 9 0
orrect 0 0 0 3 1
lock r
apen r 0
fill r 1 0 2 0
unlock r
refresh s
fill s 0 0 3 0
endrefresh s full
end
";

// A gate at which task 0's fill waits for the other task's creations, which need every lock; task 1's next call waits until that
// fill holds its lock; and the fill, which holds it, waits until all of task 1's calls were answered.
#[derive(Drop)]
struct OthersGoOn {
    spots: Spots,
}

impl Gate for OthersGoOn {
    fn pass(&self, task: u32, seq: u32, spot: Spot) {
        self.spots.note(task, seq, spot);
        match (task, seq, spot) {
            (0, 1, Spot::Before) => self.spots.hold(1, 12),
            (1, 4, Spot::Before) => self.spots.hold(0, 5),
            (0, 1, Spot::Under) => self.spots.hold(1, 42),
            _ => {}
        }
    }
}

#[test]
fn other_calls_go_on_while_a_layer_is_held(rt: HostRuntime) -> Result<(), Fail> {
    let plan = plan_of(rt.alloc(), MANY_LAYERS)?;
    let gate = OthersGoOn {
        spots: Spots::new(),
    };
    runs_through(&rt, &gate, &gate.spots, &plan, MANY_LAYERS)
}

// A layer with a hook, and a call that takes no lock.
const HOOK_AND_REGION: &[u8] = b"screen 16 4 1
task a
create w smart front 0 0 7 3 hook 0
end
task b
orrect 0 0 0 3 1
end
";

// What a hook and a gate tell each other: that the hook is being turned, that the other call was answered, and that a hold ran
// out.
#[derive(Drop)]
struct Meeting {
    turning: AtomicU32,
    answered: AtomicU32,
    late: AtomicU32,
}

impl Meeting {
    fn wait(&self, count: &AtomicU32) {
        if !waits_for(count, 1) {
            self.late.store(1, Ordering::SeqCst);
        }
    }
}

// A hook of pen 1 that, while it is turned, waits for another task's call.
#[derive(Drop)]
struct WaitingHook {
    solid: Solid,
    meeting: Arc<Meeting, Global>,
}

impl Backfill for WaitingHook {
    ghost hook = { λ h. ⟦<Solid as Backfill>⟧.hook h.solid };

    fn pen_at(&self, x: i32, y: i32) -> u8 {
        self.solid.pen_at(x, y)
    }

    fn turned(&mut self) {
        self.meeting.turning.store(1, Ordering::SeqCst);
        self.meeting.wait(&self.meeting.answered);
        self.solid.turned();
    }
}

// A gate at which task 1's call waits until the hook is being turned.
#[derive(Drop)]
struct HookMeets {
    meeting: Arc<Meeting, Global>,
}

impl Gate for HookMeets {
    fn pass(&self, task: u32, _seq: u32, spot: Spot) {
        match (task, spot) {
            (1, Spot::Before) => self.meeting.wait(&self.meeting.turning),
            (1, Spot::After) => self.meeting.answered.store(1, Ordering::SeqCst),
            _ => {}
        }
    }
}

const HOOKED_REPORT_PLANES: &[u8] = b"planes 16 4 1
plane 0
ff00
ff00
ff00
ff00
visible w 1
";

// Whether the report's planes are those of the hook's pen.
fn is_hooked(report: &[u8]) -> bool {
    match order_and_rest(report) {
        Some((_, rest)) => rest.starts_with(HOOKED_REPORT_PLANES),
        None => false,
    }
}

// Runs the script with the hook through a gate.
fn runs_with_hook<R: Threads + Wait + Abort + AllocGlobal + Sync, G: Gate + Sync>(
    rt: &R,
    hook: Box<dyn Backfill + Send>,
    gate: &G,
) -> Result<(), AllocError> {
    let hooks = vec![in rt.alloc(); hook]?;
    let (status, text) = answer_through(rt, hooks, gate, "run", HOOK_AND_REGION, b"")?;
    assert_eq!(rt; status, Status::Done);
    assert!(rt; is_hooked(text.as_slice()));
    Ok(())
}

// The hook in its box.
fn waiting(alloc: Global, meeting: &Arc<Meeting, Global>) -> Result<Box<WaitingHook>, AllocError> {
    let hook = WaitingHook {
        solid: Solid::new(1),
        meeting: Arc::try_clone(meeting)?,
    };
    Ok(Box::new(alloc, hook)?)
}

#[test]
fn a_region_call_goes_on_while_a_hook_is_turned(rt: HostRuntime) -> Result<(), Fail> {
    let alloc = rt.alloc();
    let meeting = Meeting {
        turning: AtomicU32::new(0),
        answered: AtomicU32::new(0),
        late: AtomicU32::new(0),
    };
    let meeting = Arc::new(alloc, meeting)?;
    let gate = HookMeets {
        meeting: Arc::try_clone(&meeting)?,
    };
    runs_with_hook(&rt, waiting(alloc, &meeting)?, &gate)?;
    assert_eq!(rt; meeting.late.load(Ordering::SeqCst), 0);
    Ok(())
}

// What a hook and a gate tell each other: that the hook was asked or turned, that it was turned, and what came too early or not
// at all.
#[derive(Drop)]
struct Watch {
    used: AtomicU32,
    turned: AtomicU32,
    wrong: AtomicU32,
}

// A hook of pen 1 that tells when it is asked, and when it is turned.
#[derive(Drop)]
struct WatchedHook {
    solid: Solid,
    watch: Arc<Watch, Global>,
}

impl Backfill for WatchedHook {
    ghost hook = { λ h. ⟦<Solid as Backfill>⟧.hook h.solid };

    fn pen_at(&self, x: i32, y: i32) -> u8 {
        self.watch.used.store(1, Ordering::SeqCst);
        self.solid.pen_at(x, y)
    }

    fn turned(&mut self) {
        self.watch.used.store(1, Ordering::SeqCst);
        self.watch.turned.store(1, Ordering::SeqCst);
        self.solid.turned();
    }
}

// A gate that looks on, before task 0's creation, whether its hook is used; and sees after it whether the hook was turned.
#[derive(Drop)]
struct HookIsWatched {
    watch: Arc<Watch, Global>,
}

impl Gate for HookIsWatched {
    fn pass(&self, task: u32, _seq: u32, spot: Spot) {
        let is_wrong = match (task, spot) {
            (0, Spot::Before) => soon_comes_to(&self.watch.used, 1),
            (0, Spot::After) => self.watch.turned.load(Ordering::SeqCst) == 0,
            _ => false,
        };
        if is_wrong {
            self.watch.wrong.store(1, Ordering::SeqCst);
        }
    }
}

// The hook in its box.
fn watched(alloc: Global, watch: &Arc<Watch, Global>) -> Result<Box<WatchedHook>, AllocError> {
    let hook = WatchedHook {
        solid: Solid::new(1),
        watch: Arc::try_clone(watch)?,
    };
    Ok(Box::new(alloc, hook)?)
}

#[test]
fn a_hook_is_used_while_its_creation_is_made(rt: HostRuntime) -> Result<(), Fail> {
    let alloc = rt.alloc();
    let watch = Watch {
        used: AtomicU32::new(0),
        turned: AtomicU32::new(0),
        wrong: AtomicU32::new(0),
    };
    let watch = Arc::new(alloc, watch)?;
    let gate = HookIsWatched {
        watch: Arc::try_clone(&watch)?,
    };
    runs_with_hook(&rt, watched(alloc, &watch)?, &gate)?;
    assert_eq!(rt; watch.wrong.load(Ordering::SeqCst), 0);
    Ok(())
}

// Four tasks and eight layers, which cover one another: calls on registers, on one layer, on two layers in both directions,
// looks, and arrangements; groups on one layer, updates, and groups of arrangements.
const MANY_CALLS: &[u8] = b"screen 48 24 2
task a
create a1 smart front 0 0 23 11
create a2 simple front 4 2 31 15
orrect 0 0 0 9 5
orrect 0 12 2 20 9
clip a1 0
apen a1 1
fill a1 0 0 23 11
blit b1 0 0 a1 3 1 8 6 c0
lock a1
apen a1 3
fill a1 1 1 15 9
write a1 2 2
read a1 2 2
unlock a1
which 10 5
hold
front a1
move a1 2 1
release
refresh a2
setrast a2 2
endrefresh a2 part
blit a1 0 0 d2 0 0 9 9 c0
behind a2
end
task b
create b1 smart front 8 0 39 9
create b2 smart behind 0 8 47 23
apen b1 2
fill b1 0 0 31 9
xorrect 0 0 0 30 4
xorrect 0 5 2 12 9
clip b2 0
lock b2
apen b2 1
fill b2 0 0 47 15
scrollraster b2 3 1 0 0 47 15
unlock b2
blit a1 0 0 b2 4 4 12 8 60
blit b2 1 1 c1 0 0 12 8 c0
which 20 4
size b1 -6 3
hold
front b2
behind b1
box b2 1 9 40 12
release
read b1 3 3
end
task c
create c1 simple front 16 4 40 20
apen c1 3
at c1 0 0
draw c1 20 12
create c2 smart front 2 2 13 13
blit c1 0 0 a1 2 2 10 10 c0
lock c2
setrast c2 1
fill c2 2 2 8 8
unlock c2
refresh c1
apen c1 1
fill c1 0 0 24 16
endrefresh c1 full
andrect 3 0 0 9 9
which 30 10
move c1 -8 2
front c1
close c2
create c2 simple front 5 5 20 15
behind c2
end
task d
create d1 smart front 12 6 33 19
create d2 smart front 20 0 47 23
apen d1 2
fill d1 2 2 19 11
blit d1 0 0 d2 1 1 18 10 c0
blit d2 0 0 d1 2 0 18 10 30
lock d1
mode d1 2
fill d1 0 0 10 10
unlock d1
hold
move d1 -4 -3
front d1
release
orrect 1 1 1 4 4
clip d1 1
which 15 8
setrast d1 3
infront d2 d1
close d1
end
";

// A gate that keeps the spots.
#[derive(Drop)]
struct Kept {
    spots: Spots,
}

impl Gate for Kept {
    fn pass(&self, task: u32, seq: u32, spot: Spot) {
        self.spots.note(task, seq, spot);
    }
}

// The first place at which a text has these bytes.
fn place_of(text: &[u8], bytes: &[u8]) -> Option<usize> {
    for place in 0..text.len() {
        if text.get(place..).unwrap_or(b"").starts_with(bytes) {
            return Some(place);
        }
    }
    None
}

// The lines of a report's order, without the first one, and the rest from the planes on.
fn order_and_rest(report: &[u8]) -> Option<(&[u8], &[u8])> {
    let first = place_of(report, b"\n")?;
    let planes = place_of(report, b"planes ")?;
    let order = report.get(first.saturating_add(1)..planes)?;
    Some((order, report.get(planes..)?))
}

// A line and what stands behind it.
fn under(alloc: Global, line: &[u8], text: &[u8]) -> Result<Vec<u8>, AllocError> {
    let mut lines = Vec::from_slice(alloc, line)?;
    lines.extend_from_slice(text)?;
    Ok(lines)
}

// `replay` of a script with the order of a report, and with the six hooks of `main`, gives that report.
fn assert_replayed<R: Threads + Wait + Abort + AllocGlobal + Sync>(
    rt: &R,
    script: &[u8],
    report: &[u8],
) -> Result<(), AllocError> {
    let order = match order_and_rest(report) {
        Some((order, _)) => order,
        None => b"",
    };
    let after = under(rt.alloc(), b"order\n", order)?;
    let (status, again) = answer_with_six(rt, "replay", script, after.as_slice())?;
    assert_eq!(rt; status, Status::Done);
    assert_eq!(rt; again.as_slice(), report);
    Ok(())
}

// `audit` of a script and a report of it, with the six hooks of `main`, gives this answer.
fn assert_audited<R: Threads + Wait + Abort + AllocGlobal + Sync>(
    rt: &R,
    script: &[u8],
    report: &[u8],
    due: Status,
) -> Result<(), AllocError> {
    let after = under(rt.alloc(), b"report\n", report)?;
    let (status, text) = answer_with_six(rt, "audit", script, after.as_slice())?;
    assert_eq!(rt; status, due);
    assert_eq!(rt;
        text.as_slice() == b"same\n".as_slice(),
        due == Status::Done
    );
    Ok(())
}

// Where the first row of a report's planes begins.
fn first_digit(report: &[u8]) -> usize {
    place_of(report, b"plane 0\n")
        .unwrap_or(0)
        .saturating_add(8)
}

// Runs a script on threads, and compares the report with that of its own order.
fn runs_as_replayed<R: Threads + Wait + Abort + AllocGlobal + Sync>(
    rt: &R,
    plan: &Plan,
    script: &[u8],
) -> Result<(), Fail> {
    let gate = Kept {
        spots: Spots::new(),
    };
    runs_through(rt, &gate, &gate.spots, plan, script)
}

#[test]
fn reports_of_runs_are_those_of_their_orders(rt: HostRuntime) -> Result<(), Fail> {
    let plan = plan_of(rt.alloc(), MANY_CALLS)?;
    for _time in 0..50 {
        runs_as_replayed(&rt, &plan, MANY_CALLS)?;
    }
    Ok(())
}

// The lines of a text that say no more than that a call was done.
fn plain_replies(text: &[u8]) -> usize {
    let mut count: usize = 0;
    for line in text.split(|byte| *byte == b'\n') {
        if line == b"ok".as_slice() {
            count = count.saturating_add(1);
        }
    }
    count
}

#[test]
fn windows_of_three_tasks_run_in_some_order(rt: HostRuntime) -> Result<(), Fail> {
    let (status, mut text) = answer_with_six(&rt, "run", REALISTIC, b"")?;
    assert_eq!(rt; status, Status::Done);
    // All 28 calls but `clip`, `which` and two `getmsg`.
    assert_eq!(rt; plain_replies(text.as_slice()), 24);
    assert_replayed(&rt, REALISTIC, text.as_slice())?;
    assert_audited(&rt, REALISTIC, text.as_slice(), Status::Done)?;
    // The first hexadecimal digit of the planes is another one.
    let digit = first_digit(text.as_slice());
    if let Some(byte) = text.as_mut_slice().get_mut(digit) {
        *byte = if *byte == b'7' { b'8' } else { b'7' };
    }
    let due = Status::Differs {
        place: digit as u64,
    };
    assert_audited(&rt, REALISTIC, text.as_slice(), due)?;
    Ok(())
}

// A task that creates a layer and fills it.
fn one_of_many(alloc: Global, task: u8) -> Result<String, AllocError> {
    let last = task.saturating_add(15);
    format!(in alloc;
        "task t{task}\ncreate w{task} smart front {task} 0 {last} 1\napen w{task} {task}\nfill w{task} 0 0 15 1\nend\n"
    )
}

// A script of 16 tasks, each of which creates a layer over the others' and fills it.
fn many_tasks(alloc: Global) -> Result<String, AllocError> {
    let mut script = String::from_str(alloc, "screen 32 2 4\n")?;
    for task in 0..16 {
        let lines = one_of_many(alloc, task)?;
        script.push_str(lines.as_str())?;
    }
    Ok(script)
}

#[test]
fn sixteen_tasks_run_in_some_order(rt: HostRuntime) -> Result<(), Fail> {
    let script = many_tasks(rt.alloc())?;
    let (status, text) = answer_with_six(&rt, "run", script.as_bytes(), b"")?;
    assert_eq!(rt; status, Status::Done);
    assert_replayed(&rt, script.as_bytes(), text.as_slice())?;
    Ok(())
}
