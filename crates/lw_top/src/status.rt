ghost use Rattle.std.specs.Prelude.{◌≡◌};
ghost use Rattle.lw_top.specs.Status.{number_of};

use lw_grammar::Reason;

/// What a call of the program answers.
#[derive(Clone, Copy, Debug, PartialEq, Eq)]
pub enum Status {
    /// The job was done, and its text was written whole.
    Done,
    /// The script's first bad line, counted from 1, and its first reason.
    Refused { line: u32, reason: Reason },
    /// The line, counted from 1, that ends a show's first scene whose order isn't legal: the show's first bad line.
    RefusedOrder { line: u32 },
    /// The words are no command.
    Usage,
    /// The source failed.
    ReadFault,
    /// The sink failed.
    WriteFault,
    /// Memory ran out. Nothing was written.
    NoMemory,
    /// The input has more than 4,194,304 bytes.
    TooLong,
    /// The report that stands behind a script isn't the machine's, and this is the first place, counted from 0, at which it
    /// isn't.
    Differs { place: u64 },
    /// The order isn't legal, from this place on, counted from 0.
    BadOrder { place: u32 },
    /// The input is no picture, and its first fault is at this place: the number of bytes before it.
    BadPicture { place: u32 },
}

impl Status {
    /// The exit status: 0 to 9.
    pub fn number(&self) -> u8
        ensures { result ≡ number_of self.now }
    {
        match self {
            Status::Done => 0,
            Status::Refused { .. } => 1,
            Status::RefusedOrder { .. } => 1,
            Status::Usage => 2,
            Status::ReadFault => 3,
            Status::WriteFault => 4,
            Status::NoMemory => 5,
            Status::TooLong => 6,
            Status::Differs { .. } => 7,
            Status::BadOrder { .. } => 8,
            Status::BadPicture { .. } => 9,
        }
    }
}
