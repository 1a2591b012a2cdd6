// Taking a lock.

use std::hint::spin_loop;
use std::sync::{Mutex, MutexGuard, Wait};

// How often a lock is tried before it is left to the kit's `lock`, which soon has the task sleep, and how many of the processor's
// pauses lie between two tries at most: 4,079 pauses in all, some 200 microseconds where a pause takes 140 cycles. A call on one layer
// holds its lock for a few microseconds and an arrangement all locks for some tens, and to be woken takes longer than a short call.
const TRIES: u32 = 512;

const LONGEST_PAUSE: u32 = 8;

// Takes the lock: the task tries it for a while, and then sleeps until it is given back. It may wait, and so promises no return.
pub(crate) fn lock<'a, T, R: Wait>(rt: &R, mutex: &'a Mutex<T>) -> MutexGuard<'a, T> {
    let mut pause: u32 = 1;
    for _ in 0..TRIES {
        if let Some(guard) = mutex.try_lock() {
            return guard;
        }
        for _ in 0..pause {
            spin_loop();
        }
        pause = pause.saturating_mul(2).min(LONGEST_PAUSE);
    }
    mutex.lock(rt)
}
