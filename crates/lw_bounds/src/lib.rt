//! How many rectangles a layer is cut into: laws that bound their number by the number of layers in front. Each function does
//! nothing, and its contract is the law.
#![tactic(auto)]

mod laws;

pub use laws::{
    counted_examples, rectangles_are_few, rectangles_in_lists_are_few,
    rectangles_on_screens_are_few, rectangles_under_covers_are_few, rectangles_under_cuts_are_few,
};
