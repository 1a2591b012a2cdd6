use crate::message::Message;
use lw_region::Region;
use std::alloc::AllocError;
use std::marker::Model;

/// What a call answers. The answers from `NotOpen` on refuse the call, which then leaves all as it was.
#[derive(Debug, Drop)]
pub enum Reply {
    /// The call was done.
    Done,
    /// The pen that was read.
    Pen(u8),
    /// The pixel can't be written, or read.
    Outside,
    /// There is no layer, no clip region or no message.
    Nothing,
    /// The slot of the layer that was found.
    Layer(u32),
    /// The clip region that was installed before.
    Rects(Region),
    /// The message that was taken.
    Got(Message),
    /// Refused: a named layer isn't live.
    NotOpen,
    /// Refused: the slot's layer is live, or, before version 3, was closed.
    AlreadyOpen,
    /// Refused: the layer isn't a window.
    NotWindow,
    /// Refused: another task opened the window.
    NotOwner,
    /// Refused: a named layer is a backdrop layer.
    Backdrop,
    /// Refused: the layer has no bitmap of its own.
    NotSuper,
    /// Refused: the layer is updating.
    InUpdate,
    /// Refused: the layer isn't updating.
    NotInUpdate,
    /// Refused: a bound, a size, a portion or a cursor would leave its range.
    OutOfBounds,
    /// Refused: the register would have more than 128 rectangles.
    TooManyRects,
}

/// A task's replies in the order of its calls. Contracts see the list.
#[derive(Debug, Drop)]
pub struct Replies {
    replies: Vec<Reply>,
}

impl Model for Replies {
    ghost use Rattle.std.specs.Prelude.{List};
    ghost use Rattle.lw_calls.specs.declared.reply.Reply.{Reply};

    ghost Value = { List Reply };

    ghost view = { λ r. r.replies.items };
}

impl Replies {
    ghost use Rattle.std.specs.Prelude.{◌≡◌, [], ◌∷◌, ◌++◌, length, OnOk, OnErr};

    /// A task's replies as they stand in the vector: the first one is that to its first call. No memory is taken.
    pub fn new(replies: Vec<Reply>) -> Replies
        ensures { result ≡ replies.items }
    {
        Replies { replies }
    }

    /// The replies, in the order of the task's calls.
    pub fn list(&self) -> &[Reply]
        ensures { result.now ≡ self.now }
    {
        self.replies.as_slice()
    }

    /// A reply more, to the task's next call. After an error the list is as before.
    pub fn push(&mut self, reply: Reply) -> Result<(), AllocError>
        ensures ok { OnOk result (self.new ≡ self.old ++ reply ∷ []) }
        ensures err { OnErr result (self.new ≡ self.old) }
    {
        self.replies.push(reply)?;
        Ok(())
    }
}
