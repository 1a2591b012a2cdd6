/// Where a call is: before it holds a lock; under its locks; or answered or failed, with its locks given back. A call that runs
/// out of memory before it holds its locks is never under them.
#[derive(Clone, Copy, Debug, PartialEq, Eq)]
pub enum Spot {
    Before,
    Under,
    After,
}

/// What is told of each call on its way, such as a test that holds calls up. It returns, is told no more than this, and changes
/// nothing.
pub trait Gate {
    /// The call `seq` of a task is at a spot.
    fn pass(&self, task: u32, seq: u32, spot: Spot);
}

/// A gate that does nothing: the program's own.
#[derive(Clone, Copy, Debug)]
pub struct OpenGate;

impl Gate for OpenGate {
    fn pass(&self, _task: u32, _seq: u32, _spot: Spot) {}
}
