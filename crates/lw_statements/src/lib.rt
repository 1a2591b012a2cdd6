//! The statement of a line of a script, and what it asks for: its ranges, its section, its place in a group and its call.
//! `lw_grammar` has the grammar as definitions, in `specs/Statements.antt`.
#![tactic(auto)]

mod acts;
mod calls;
mod converted;
mod gzz_calls;
mod ranges;
mod section;
mod statement;

pub use acts::OpenGroup;
pub use converted::count;
pub use gzz_calls::gzz_statements;
pub use ranges::version_at_screen;
pub use section::{Section, belongs_in, is_known_in};
pub use statement::{
    Act, AskedArea, AskedBox, AskedPoint, AskedPolygon, Corners, GzzAct, Layers, Line, NewLayer,
    Statement,
};
