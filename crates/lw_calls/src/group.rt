/// What a group of calls holds.
#[derive(Clone, Copy, Debug, PartialEq, Eq)]
pub enum Hold {
    /// One layer, by its slot.
    Slot(u32),
    /// LayerInfo and all layers.
    All,
}

/// A group of a task's calls, between which no other task's call touches what the group holds.
#[derive(Clone, Copy, Debug, PartialEq, Eq)]
pub struct Group {
    /// The number of its first call in the task, from 0.
    pub first: u32,
    /// The number of its last call.
    pub last: u32,
    pub hold: Hold,
}
