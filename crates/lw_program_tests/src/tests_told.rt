//! A caller of `layers` that draws from its promises what each answer tells.
ghost use Rattle.std.specs.Prelude.{◌<◌, map, vec_len};
ghost use Rattle.lw_io.specs.Streams.{change};
ghost use Rattle.lw_top.specs.Commands.{command_of};
ghost use Rattle.lw_top.specs.Laws.{ToldOfWords};

use lw_backfill::Backfill;
use lw_io::{Sink, Source};
use lw_locks::Gate;
use lw_top::{Status, answers_tell, layers};
use std::alloc::Global;
use std::sync::Wait;
use std::thread::Threads;

pub fn told<R: Threads + Wait + Sync, S: Source, K: Sink, G: Gate + Sync>(
    rt: &R,
    alloc: Global,
    words: &[String],
    source: &mut S,
    sink: &mut K,
    hooks: Vec<Box<dyn Backfill + Send>>,
    gate: &G,
) -> Status
    requires few { vec_len hooks < 4294967296 }
    ensures { ToldOfWords (map (λ b. hook b) hooks.items) (command_of words.now) result
        (change S.left S.faults source.old source.new)
        (change K.written K.faults sink.old sink.new) }
{
    let status = layers(rt, alloc, words, source, sink, hooks, gate);
    answers_tell();
    status
}
