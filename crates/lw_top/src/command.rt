ghost use Rattle.std.specs.Prelude.{◌≡◌, ◌⊎◌, ◌<◌, ◌≤◌, map, vec_len, None, IfSome, false};
ghost use Rattle.lw_io.specs.Streams.{change};
ghost use Rattle.lw_top.specs.Commands.{command_of, reads_input};
ghost use Rattle.lw_top.specs.Outcome.{Promised};
ghost use Rattle.lw_top.specs.Status.{Says, text_of};

use crate::demo::demo;
use crate::displays::display_cmd;
use crate::pictures::bitmap_cmd;
use crate::say::say;
use crate::serving::on_script;
use crate::status::Status;
use crate::words::{Command, command_of};
use lw_backfill::Backfill;
use lw_io::{Sink, Source};
use lw_locks::Gate;
use std::alloc::Global;
use std::sync::Wait;
use std::thread::Threads;

const USAGE: &str =
    "usage: layers run|check|replay|audit|demo NUMBER TASKS|display|ilbm|bitmap NAME\n";

/// The program: does what the words say, without the program's own name, with the source as its
/// input and the sink as its output, and answers how it went. A script may name the hooks by their
/// places from 0 on; they fill with the tiles that they have as the call starts. `run` and `demo`
/// make each task's calls on a thread, tell the gate of each, and may wait, so the call promises no
/// return; `check`, `replay_cmd`, `audit`, `display_cmd`, `ilbm_cmd` and `bitmap_cmd`, which it calls for
/// the other words, return.
pub fn layers<R: Threads + Wait + Sync, S: Source, K: Sink, G: Gate + Sync>(
    rt: &R,
    alloc: Global,
    words: &[String],
    source: &mut S,
    sink: &mut K,
    hooks: Vec<Box<dyn Backfill + Send>>,
    gate: &G,
) -> Status
    requires few { vec_len hooks < 4294967296 }
    // The words' command has an outcome on what was taken from the source, with these hooks. For
    // `run` of a script that is the report of the machine's run in the legal order that the report
    // prints; a malformed script is refused at its first bad line. The outcome is the answer, and
    // its text is written whole, unless reading failed, memory ran out, or the sink failed after a
    // prefix of the text. A fault of a stream is answered, and never passed over. Of a demo the text
    // is that of the order in which each task comes after the one before it, whatever order it has.
    ensures answered { IfSome (command_of words.now) (λ asked.
        Promised (map (λ b. hook b) hooks.items) asked result
        (change S.left S.faults source.old source.new)
        (change K.written K.faults sink.old sink.new)) }
    // Words that are no command get the usage line.
    ensures usage { command_of words.now ≡ None
        → Says (text_of Status.Usage) Status.Usage result
        (change K.written K.faults sink.old sink.new) }
    // The source is left alone by words that ask for nothing of the input.
    ensures unread { reads_input (command_of words.now) ≡ false → source.new ≡ source.old }
    // Nothing is written where reading failed or memory ran out.
    ensures untouched { (result ≡ Status.ReadFault) ⊎ (result ≡ Status.NoMemory)
        → sink.new ≡ sink.old }
    ensures sink_count { K.faults sink.old ≤ K.faults sink.new }
{
    match command_of(words) {
        Some(Command::Script(command)) => on_script(rt, alloc, command, source, sink, hooks, gate),
        Some(Command::Demo { number, tasks }) => demo(rt, alloc, number, tasks, sink, gate),
        Some(Command::Display) => display_cmd(alloc, source, sink),
        Some(Command::Bitmap { name }) => bitmap_cmd(alloc, name, source, sink),
        None => say(sink, USAGE.as_bytes(), Status::Usage),
    }
}
