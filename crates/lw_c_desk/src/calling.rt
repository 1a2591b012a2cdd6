ghost use Rattle.lw_c_calls.specs.Meant.{meant};
ghost use Rattle.lw_c_desk.specs.Answered.{IsMade, IsAnswered};

use crate::answers::{CLOSED, DONE, NO_MEMORY, UNFIT};
use crate::handle::Handle;
use lw_c_calls::{CallWords, ReplyWords, call_of, told, write_rects};
use lw_c_rectangles::Bounds;
use lw_program_desk::ProgramDesk;
use std::alloc::Global;

/// Makes any call of the machine, with this text where it has one. Its reply is written to `reply`, and the rectangles of a reply
/// that has some to `rects`, where there is room for all of them; the reply says how many there are.
#[unsafe(no_mangle)]
pub extern "C" fn lw_desk_call(
    alloc: Global,
    desk: &mut Handle,
    words: &CallWords,
    text: &[u8],
    reply: &mut ReplyWords,
    rects: &mut [Bounds],
) -> i32
    ensures { IsAnswered (meant words.now text.now) desk.old.held.state desk.new.held.state
        reply.old reply.new rects.old rects.new result }
{
    if !desk.is_open {
        return CLOSED;
    }
    made(alloc, desk.held.state(), words, text, reply, rects)
}

fn made(
    alloc: Global,
    desk: &mut ProgramDesk,
    words: &CallWords,
    text: &[u8],
    reply: &mut ReplyWords,
    rects: &mut [Bounds],
) -> i32
    ensures { IsMade (meant words.now text.now) desk.old desk.new
        reply.old reply.new rects.old rects.new result }
{
    let Ok(meant) = call_of(alloc, words, text) else {
        return NO_MEMORY;
    };
    let Some(call) = meant else {
        return UNFIT;
    };
    if !desk.sizes().fits(&call) {
        return UNFIT;
    }
    let Ok(said) = desk.call(alloc, &call) else {
        return NO_MEMORY;
    };
    *reply = told(&said);
    write_rects(&said, rects);
    DONE
}
