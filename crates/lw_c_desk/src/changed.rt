// What C reads of where the screen changed.

ghost use Rattle.std.specs.Prelude.{Some};
ghost use Rattle.lw_c_desk.specs.Changed.{AreTaken, AreTakenIfAny};

use crate::answers::{CLOSED, DONE};
use crate::handle::Handle;
use crate::writing::write_rects;
use lw_c_rectangles::Bounds;
use lw_program_desk::ProgramDesk;

/// Writes the rectangles outside which the screen shows what it showed when they were last written, or when the desk was opened;
/// and forgets them where there is room for all, and else keeps them. They are at most 16.
#[unsafe(no_mangle)]
pub extern "C" fn lw_desk_changed(desk: &mut Handle, out: &mut [Bounds], count: &mut usize) -> i32
    ensures { AreTakenIfAny desk.old.held.state desk.new.held.state out.old out.new count.old count.new result }
{
    if !desk.is_open {
        return CLOSED;
    }
    changed(desk.held.state(), out, count)
}

fn changed(desk: &mut ProgramDesk, out: &mut [Bounds], count: &mut usize) -> i32
    ensures { AreTaken desk.old (Some desk.new) out.old out.new count.new result }
{
    let answer = write_rects(desk.changes(), out, count);
    if answer != DONE {
        return answer;
    }
    desk.forget_changes();
    DONE
}
