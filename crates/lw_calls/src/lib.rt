//! The calls of the machine, their replies and plans as plain data, with their ranges, what each call touches and which
//! orders of a plan's calls are legal.
//!
//! `specs/` is the text to believe. `docs/DEFINITIONS.md` is its map.
#![tactic(auto)]

mod area;
mod assets;
mod call;
mod entry;
mod group;
mod last;
mod limits;
mod make;
mod message;
mod operation;
mod order_list;
mod orders;
mod pair;
mod plan;
mod progress;
mod reply;
mod sizes;
mod text;
mod touch;

pub use area::Area;
pub use assets::Assets;
pub use call::Call;
pub use entry::Entry;
pub use group::{Group, Hold};
pub use last::{Final, Seen};
pub use limits::{Limits, limits_of};
pub use make::{Kind, Make, Place};
pub use message::{Message, Messages};
pub use operation::{PairOp, RectOp};
pub use order_list::OrderList;
pub use orders::bad_place;
pub use pair::Pair;
pub use plan::{Plan, PlanParts};
pub use reply::{Replies, Reply};
pub use sizes::Sizes;
pub use text::Text;
pub use touch::{CallClass, Role, Slots, Touch, class_of, touches};
