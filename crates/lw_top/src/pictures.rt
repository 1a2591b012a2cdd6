//! The command `bitmap`: the picture in an input, as a script has it. It takes no lock, and returns.

ghost use Rattle.std.specs.Prelude.{◌≡◌, ◌⊎◌, ◌≤◌, length, IfOk, IsTrue};
ghost use Rattle.lw_grammar.specs.Tokens.{is_a_name};
ghost use Rattle.lw_io.specs.Streams.{change};
ghost use Rattle.lw_top.specs.Bitmaps.{IsBitmapOutcome};
ghost use Rattle.lw_top.specs.Outcome.{Answered};
ghost use Rattle.lw_top.specs.Status.{input_limit, text_of};

use crate::outcome::{Outcome, done};
use crate::say::{say, say_stop};
use crate::serving::INPUT_LIMIT;
use crate::status::Status;
use lw_ilbm::{PictureStop, decode};
use lw_io::{Sink, Source, read_all};
use lw_print::print_bitmap;
use std::alloc::{AllocError, Global};

/// How many columns and rows a bitmap of a script has at most.
const BITMAP_LIMIT: u32 = 1024;

/// Reads an ILBM file, of at most 1,024 columns and 1,024 rows, from the source to its end, and writes its picture as the lines
/// of a bitmap of this name in a script, or the text of another answer. It takes no lock, and returns.
pub fn bitmap_cmd<S: Source, K: Sink>(
    alloc: Global,
    name: &str,
    source: &mut S,
    sink: &mut K,
) -> Status
    requires named { IsTrue (is_a_name name.now) }
    ensures answered { Answered (IsBitmapOutcome name.now) result
        (change S.left S.faults source.old source.new)
        (change K.written K.faults sink.old sink.new) }
    ensures untouched { (result ≡ Status.ReadFault) ⊎ (result ≡ Status.NoMemory)
        → sink.new ≡ sink.old }
{
    match read_all(alloc, source, INPUT_LIMIT) {
        Ok(input) => match bitmap_outcome(alloc, name.as_bytes(), input.as_slice()) {
            Ok(outcome) => say(sink, outcome.text.as_slice(), outcome.status),
            Err(_) => Status::NoMemory,
        },
        Err(stop) => say_stop(sink, stop),
    }
}

/// The outcome of `bitmap` with this name, on an input of no more bytes than the limit.
fn bitmap_outcome(alloc: Global, name: &[u8], input: &[u8]) -> Result<Outcome, AllocError>
    requires { length input.now ≤ input_limit }
    ensures { IfOk result (λ outcome. IsBitmapOutcome name.now input.now outcome.status outcome.text.items) }
{
    match decode(alloc, input, BITMAP_LIMIT) {
        Ok(picture) => Ok(done(print_bitmap(alloc, name, &picture)?)),
        Err(PictureStop::BadPicture { place }) => bad_picture(alloc, place),
        Err(PictureStop::Memory) => Err(AllocError),
    }
}

/// The outcome where an input has its first fault at this place.
fn bad_picture(alloc: Global, place: u32) -> Result<Outcome, AllocError>
    ensures { IfOk result (λ outcome. (outcome.status ≡ Status.BadPicture place)
        × (outcome.text.items ≡ text_of (Status.BadPicture place))) }
{
    let text = format!(in alloc; "bad picture at {place}\n")?.into_bytes();
    Ok(Outcome {
        status: Status::BadPicture { place },
        text,
    })
}
