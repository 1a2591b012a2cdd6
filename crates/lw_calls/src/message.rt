use std::marker::Model;

/// What a window's port is told (the manual's Intuition Windows chapter: IDCMP classes).
#[derive(Clone, Copy, Debug, PartialEq, Eq)]
pub enum Message {
    /// REFRESHWINDOW: some damage is there.
    Refresh,
    /// NEWSIZE: the width or height changed.
    NewSize,
    /// CHANGEWINDOW: the bounds changed.
    Change,
    /// ACTIVEWINDOW: the window became active.
    Active,
    /// INACTIVEWINDOW: the window ceased to be active.
    Inactive,
}

/// A port's messages, from the oldest. Contracts see the list.
#[derive(Debug, Drop)]
pub struct Messages {
    messages: Vec<Message>,
}

impl Model for Messages {
    ghost use Rattle.std.specs.Prelude.{List};
    ghost use Rattle.lw_calls.specs.declared.message.Message.{Message};

    ghost Value = { List Message };

    ghost view = { λ m. m.messages.items };
}

impl Messages {
    ghost use Rattle.std.specs.Prelude.{◌≡◌};

    /// A port's messages as they stand in the vector: the first one is the oldest. No memory is taken.
    pub fn new(messages: Vec<Message>) -> Messages
        ensures { result ≡ messages.items }
    {
        Messages { messages }
    }

    /// The messages, the oldest first.
    pub fn list(&self) -> &[Message]
        ensures { result.now ≡ self.now }
    {
        self.messages.as_slice()
    }
}
