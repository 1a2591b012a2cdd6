/// A GimmeZeroZero window, which is made of two layers (the manual's Intuition Windows chapter: GIMMEZEROZERO; that it is two
/// windows is this project's own): the slot of the outer window, which has the frame, and that of the inner one, in which is
/// drawn.
#[derive(Clone, Copy, Debug, PartialEq, Eq)]
pub struct Pair {
    pub outer: u32,
    pub inner: u32,
}
