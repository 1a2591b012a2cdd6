/// Pixels of one row of a layer, from one on to the right, whose pens are in one line of one buffer: the number of that
/// buffer (`Cell` says how they are numbered), the line, the first pixel's bit in it from the left, and how many pixels there
/// are.
#[derive(Clone, Copy, Debug, PartialEq, Eq)]
pub struct Run {
    pub buffer: usize,
    pub line: u32,
    pub bit: u32,
    pub len: u32,
}
