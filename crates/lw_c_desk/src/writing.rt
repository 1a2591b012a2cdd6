// Lists written to the head of an array of C, with how long they are.

ghost use Rattle.std.specs.Prelude.{◌≡◌, ◌≤◌, ◌++◌, map, length, drop};
ghost use Rattle.lw_c_rectangles.specs.Bounds.{bounds_of};
ghost use Rattle.lw_c_calls.specs.Told.{message_number};
ghost use Rattle.lw_c_desk.specs.Read.{IsListed};

use crate::answers::{DONE, NO_ROOM};
use lw_c_calls::message_number;
use lw_c_rectangles::{Bounds, write_out};
use lw_calls::Message;
use lw_region::Rect;

pub(crate) fn write_slots(list: &[u32], out: &mut [u32], count: &mut usize) -> i32
    ensures { IsListed (λ s. s) list.now out.old out.new count.new result }
{
    *count = list.len();
    if out.len() < list.len() {
        return NO_ROOM;
    }
    copy(list, out);
    DONE
}

pub(crate) fn write_rects(list: &[Rect], out: &mut [Bounds], count: &mut usize) -> i32
    ensures { IsListed bounds_of list.now out.old out.new count.new result }
{
    *count = list.len();
    if out.len() < list.len() {
        return NO_ROOM;
    }
    write_out(list, out);
    DONE
}

pub(crate) fn write_messages(list: &[Message], out: &mut [u8], count: &mut usize) -> i32
    ensures { IsListed message_number list.now out.old out.new count.new result }
{
    *count = list.len();
    if out.len() < list.len() {
        return NO_ROOM;
    }
    copy_messages(list, out);
    DONE
}

fn copy_messages(list: &[Message], out: &mut [u8])
    requires { length list.now ≤ length out.old }
    ensures { out.new ≡ map message_number list.now ++ drop (length list.now) out.old }
{
    for place in 0..list.len() {
        out[place] = message_number(list[place]);
    }
}

// A list at the head of an array.
pub(crate) fn copy<T: Copy>(list: &[T], out: &mut [T])
    requires { length list.now ≤ length out.old }
    ensures { out.new ≡ list.now ++ drop (length list.now) out.old }
{
    out[..list.len()].copy_from_slice(list);
}
