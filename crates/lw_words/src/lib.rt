//! The lines of a script, the words of a line, and what a word is: a name, a number, a text, hexadecimal digits or the first
//! word of a line. `lw_grammar` has the grammar as definitions, in `specs/Tokens.antt` and
//! `Verbs.antt`.
#![tactic(auto)]

mod cut;
mod hex;
mod line;
mod stop;
mod token;
mod tokens;
mod verbs;

pub use cut::{cut_line, is_text};
pub use hex::{Digits, digits_in};
pub use line::{is_skipped, line_words};
pub use stop::Stop;
pub use token::{Token, token_of, tokens_of};
pub use tokens::words_of;
pub use verbs::verb_of;
