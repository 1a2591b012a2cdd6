use lw_calls::Reply;

/// A call's reply, and its ticket: its place in the history, from 0.
#[derive(Debug, Drop)]
pub struct Answer {
    pub reply: Reply,
    pub ticket: u64,
}
