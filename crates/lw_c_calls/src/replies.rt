ghost use Rattle.std.specs.Prelude.{◌≡◌};
ghost use Rattle.lw_c_calls.specs.Told.{told, message_number, list_written, rects_written};

use lw_c_rectangles::{Bounds, write_out};
use lw_calls::{Message, Reply};
use lw_region::Rect;

/// A reply, as C reads it.
#[repr(C)]
#[derive(Clone, Copy, Debug, PartialEq, Eq)]
pub struct ReplyWords {
    /// Which reply it is.
    pub kind: u64,
    /// The pen, the slot, how many rectangles, or the message; else 0.
    pub number: u64,
}

/// The reply in numbers.
pub fn told(reply: &Reply) -> ReplyWords
    ensures { result ≡ told reply.now }
{
    let (kind, number) = match reply {
        Reply::Done => (0, 0),
        Reply::Pen(pen) => (1, u64::from(*pen)),
        Reply::Outside => (2, 0),
        Reply::Nothing => (3, 0),
        Reply::Layer(slot) => (4, u64::from(*slot)),
        Reply::Rects(region) => (5, region.rects().len() as u64),
        Reply::Got(message) => (6, u64::from(message_number(*message))),
        Reply::NotOpen => (7, 0),
        Reply::AlreadyOpen => (8, 0),
        Reply::NotWindow => (9, 0),
        Reply::NotOwner => (10, 0),
        Reply::Backdrop => (11, 0),
        Reply::NotSuper => (12, 0),
        Reply::InUpdate => (13, 0),
        Reply::NotInUpdate => (14, 0),
        Reply::OutOfBounds => (15, 0),
        Reply::TooManyRects => (16, 0),
    };
    ReplyWords { kind, number }
}

/// A message's number, 0 to 4.
pub fn message_number(message: Message) -> u8
    ensures { result ≡ message_number message }
{
    match message {
        Message::Refresh => 0,
        Message::NewSize => 1,
        Message::Change => 2,
        Message::Active => 3,
        Message::Inactive => 4,
    }
}

/// Writes the reply's rectangles, if it has any, at the head of an array, where there is room for all of them.
pub fn write_rects(reply: &Reply, out: &mut [Bounds])
    ensures { out.new ≡ rects_written reply.now out.old }
{
    if let Reply::Rects(region) = reply {
        write_list(region.rects(), out);
    }
}

fn write_list(rects: &[Rect], out: &mut [Bounds])
    ensures { out.new ≡ list_written rects.now out.old }
{
    if rects.len() <= out.len() {
        write_out(rects, out);
    }
}
