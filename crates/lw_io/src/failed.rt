/// The answer of a read or a write that did not happen.
///
/// It has no cause in it: the stream that answers it has counted one more fault.
#[derive(Clone, Copy, Debug, PartialEq, Eq)]
pub struct Failed;
