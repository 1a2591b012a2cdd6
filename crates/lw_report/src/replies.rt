//! The report's sixth part: the replies of each task.

ghost use Rattle.std.specs.Prelude.{◌≡◌, ◌++◌, OnOk};
ghost use Rattle.std.specs.List.{flat_map};
ghost use Rattle.lw_calls.specs.Written.{line_of};
ghost use Rattle.lw_machine.specs.Report.{message_text, reply_text, reply_lines, replies_part};
ghost use Rattle.lw_report.specs.Words.{reply_word, reply_rest};

use crate::rects::push_rects;
use lw_calls::{Message, Replies, Reply, Text};
use lw_text_output::{end_line, name_of, push_numbered_line, push_spaced, push_word};
use std::alloc::{AllocError, Global};

/// Writes each task's name and replies, in rising number of the tasks. `names` has the layers' names by slot, and
/// `tasks` the tasks'.
#[tactic(auto, unfolding(lw_machine::specs::Report::replies_part))]
pub fn push_replies(
    alloc: Global,
    out: &mut Vec<u8>,
    names: &[Text],
    tasks: &[Text],
    replies: &[Replies],
) -> Result<(), AllocError>
    ensures { OnOk result (out.new.items ≡ out.old.items ++ replies_part names.now tasks.now replies.now) }
{
    for task in 0..replies.len() {
        push_task(
            alloc,
            out,
            names,
            name_of(tasks, task),
            replies[task].list(),
        )?;
    }
    Ok(())
}

/// Writes a task's name and how many replies it had, and each reply on a line.
#[tactic(auto, unfolding(lw_machine::specs::Report::reply_lines))]
fn push_task(
    alloc: Global,
    out: &mut Vec<u8>,
    names: &[Text],
    task: &[u8],
    replies: &[Reply],
) -> Result<(), AllocError>
    ensures { OnOk result (out.new.items ≡ out.old.items ++ reply_lines names.now task.now replies.now) }
{
    out.extend_from_slice(b"replies ")?;
    push_numbered_line(alloc, out, task, replies.len())?;
    push_each_reply(alloc, out, names, replies)
}

/// Writes each reply on a line.
fn push_each_reply(
    alloc: Global,
    out: &mut Vec<u8>,
    names: &[Text],
    replies: &[Reply],
) -> Result<(), AllocError>
    ensures { OnOk result (out.new.items ≡ out.old.items ++ flat_map (λ r. line_of (reply_text names.now r)) replies.now) }
{
    for reply in replies {
        push_reply(alloc, out, names, reply)?;
    }
    Ok(())
}

/// Writes a line with a reply.
fn push_reply(
    alloc: Global,
    out: &mut Vec<u8>,
    names: &[Text],
    reply: &Reply,
) -> Result<(), AllocError>
    ensures { OnOk result (out.new.items ≡ out.old.items ++ line_of (reply_text names.now reply.now)) }
{
    out.extend_from_slice(reply_word(reply).as_bytes())?;
    push_rest(alloc, out, names, reply)?;
    end_line(out)
}

/// The word that a reply begins with.
fn reply_word(reply: &Reply) -> &'static str
    ensures { result.now ≡ reply_word reply.now }
{
    match reply {
        Reply::Done => "ok",
        Reply::Pen(_) => "pen",
        Reply::Outside => "outside",
        Reply::Nothing => "none",
        Reply::Layer(_) => "layer",
        Reply::Rects(_) => "region",
        Reply::Got(_) => "message",
        Reply::NotOpen => "not-open",
        Reply::AlreadyOpen => "already-open",
        Reply::NotWindow => "not-window",
        Reply::NotOwner => "not-owner",
        Reply::Backdrop => "backdrop",
        Reply::NotSuper => "not-super",
        Reply::InUpdate => "in-update",
        Reply::NotInUpdate => "not-in-update",
        Reply::OutOfBounds => "out-of-bounds",
        Reply::TooManyRects => "too-many-rects",
    }
}

/// Writes what a reply has after its first word.
fn push_rest(
    alloc: Global,
    out: &mut Vec<u8>,
    names: &[Text],
    reply: &Reply,
) -> Result<(), AllocError>
    ensures { OnOk result (out.new.items ≡ out.old.items ++ reply_rest names.now reply.now) }
{
    match reply {
        Reply::Pen(pen) => push_spaced(alloc, out, *pen as usize),
        Reply::Layer(slot) => push_word(out, name_of(names, *slot as usize)),
        Reply::Rects(region) => push_rects(alloc, out, region.rects()),
        Reply::Got(message) => push_word(out, message_word(*message).as_bytes()),
        _ => Ok(()),
    }
}

/// How a message is printed.
pub fn message_word(message: Message) -> &'static str
    ensures { result.now ≡ message_text message }
{
    match message {
        Message::Refresh => "refresh",
        Message::NewSize => "newsize",
        Message::Change => "change",
        Message::Active => "active",
        Message::Inactive => "inactive",
    }
}
