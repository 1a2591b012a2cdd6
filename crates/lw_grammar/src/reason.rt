/// Why a line of a script is refused, in the order in which the reasons are asked.
#[derive(Clone, Copy, Debug, PartialEq, Eq)]
pub enum Reason {
    /// The line has more than 512 bytes.
    LineTooLong,
    /// The line has a byte outside 0x20 to 0x7e.
    BadByte,
    /// The leftmost fault of the line is an empty word.
    Spacing,
    /// The leftmost fault of the line is a double quote inside a word, or a text whose next quote isn't the line's last
    /// byte.
    Quote,
    /// No line of this version begins with this word.
    UnknownWord,
    /// Lines with this first word don't stand in this part of this input.
    Misplaced,
    /// The words fit no form of the first word.
    Form,
    /// A number is outside its range, a glyph's code outside 0x20 to 0x7e, or a maximum below its minimum.
    Range,
    /// No bitmap, no pattern, or no window of two layers, of this name stands above.
    NoName,
    /// A bitmap, a pattern or a task of this name, or a glyph of this code, stands above; or so does a layer's name for a new
    /// window of two layers, whose two names may not be one either.
    DoubleName,
    /// The line would part the two layers of a window that a `gopen` above made.
    Gzz,
    /// The line may not stand in this group, or ends none, or ends one without a call.
    Group,
    /// A 17th task, bitmap, pattern or line that asks for a super-bitmap layer, or a layer name or a call of a task more than the
    /// version allows.
    TooMany,
    /// There is no hook of this number.
    NoHook,
    /// The hook is named above.
    HookUsed,
    /// A padding bit of a bitmap's row is 1.
    Padding,
    /// The input ends before the script does.
    Missing,
}
