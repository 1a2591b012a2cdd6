//! Super-bitmap layers: the portion of their bitmap that is shown (the manual's Layers Library chapter: ScrollLayer).
#![tactic(auto)]

mod scrolling;
mod shown;
mod writing;

pub use scrolling::scroll;
pub use writing::write_back;
