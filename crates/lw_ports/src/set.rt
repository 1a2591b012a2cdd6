ghost use Rattle.std.specs.Prelude.{◌≡◌, ◌<◌, ◌^◌, ⊤, [], ◌∷◌, codes};
ghost use Rattle.std.specs.Int.RustNames.{bit_or};
ghost use Rattle.lw_machine.specs.Layer.{class_bit};
ghost use Rattle.lw_ports.specs.Sets.{classes_of, has_class};

use bitflags::{Flag, Flags, bitflag_items};
use lw_calls::Message;

/// A set of message classes. Contracts see it as the machine has it, as a number with a bit for each class: 1 for refresh, 2
/// for newsize, 4 for change, 8 for active and 16 for inactive.
#[derive(Clone, Copy, Debug, PartialEq, Eq)]
pub struct MessageSet(u8);

bitflag_items! {
    impl MessageSet: u8 {
        const REFRESH = 1;
        const NEW_SIZE = 2;
        const CHANGE = 4;
        const ACTIVE = 8;
        const INACTIVE = 16;
    }
}

impl Flags for MessageSet {
    type Bits = u8;

    ghost exact = { ⊤ };

    ghost table = { (codes "REFRESH", 1) ∷ (codes "NEW_SIZE", 2) ∷ (codes "CHANGE", 4) ∷ (codes "ACTIVE", 8)
        ∷ (codes "INACTIVE", 16) ∷ [] };

    ghost set_of = { classes_of };

    fn flags<'a>() -> &'a [Flag<MessageSet>] {
        MessageSet::FLAGS
    }

    fn bits(&self) -> u8 {
        self.0
    }

    fn from_bits_retain(bits: u8) -> MessageSet {
        MessageSet(bits)
    }
}

impl MessageSet {
    /// The set of these classes, as a script gives them.
    pub fn from_classes(classes: u8) -> MessageSet
        requires { classes < 32 }
        ensures { classes_of result ≡ classes }
    {
        MessageSet(classes)
    }

    /// The set of a message's class alone.
    pub fn of(message: Message) -> MessageSet
        ensures { classes_of result ≡ 2 ^ class_bit message }
    {
        match message {
            Message::Refresh => MessageSet::REFRESH,
            Message::NewSize => MessageSet::NEW_SIZE,
            Message::Change => MessageSet::CHANGE,
            Message::Active => MessageSet::ACTIVE,
            Message::Inactive => MessageSet::INACTIVE,
        }
    }

    /// The set with a message's class too.
    pub fn with(self, message: Message) -> MessageSet
        ensures { classes_of result ≡ bit_or (classes_of self) (2 ^ class_bit message) }
    {
        self.union(MessageSet::of(message))
    }

    /// Whether the set has a message's class.
    pub fn has(self, message: Message) -> bool
        ensures { result ≡ has_class (classes_of self) message }
    {
        self.contains(MessageSet::of(message))
    }
}
