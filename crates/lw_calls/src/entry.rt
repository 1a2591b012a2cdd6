use crate::call::Call;

/// One step of a history: which task made which call, `seq` being the number of the task's earlier calls.
#[derive(Debug, Drop)]
pub struct Entry {
    pub task: u32,
    pub seq: u32,
    pub call: Call,
}
