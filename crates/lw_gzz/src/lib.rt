//! GimmeZeroZero windows: a framed outer window and a borderless inner one over its inner rectangle, kept together by groups of
//! calls. The calls of each group, the word for which calls stand, and laws that say what keeps the two windows together.
//!
//! `specs/` is the text to believe. `docs/DEFINITIONS.md` is its map.
#![tactic(auto)]

mod examples;
mod expanding;
mod laws;
mod recognized;
mod word;

pub use examples::filled_pair_is_apart;
pub use expanding::expand;
pub use laws::{
    both_are_closed_alike, calls_between_leave_the_layers, calls_have_their_word,
    calls_stand_for_one_pair, drawing_stays_inside, frame_leaves_inner_rectangle,
    groups_keep_pairs_together, openings_are_not_refused, other_calls_keep_pairs_together,
    pairs_are_opened, pairs_stay_together, words_may_part_their_pair,
};
pub use recognized::as_word;
pub use word::GzzWord;
