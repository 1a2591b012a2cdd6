//! The machine's step on layers (the manual's Layers Library chapter). A call is made by the function of its class, which is lent
//! the parts of the desk that such a call touches: one of `lw_layer_calls`, or `on_all` where it is on all slots, which is lent
//! LayerInfo, the shelf of hooks and all slots. `LayerEngine` has them all, as the trait `Engine` asks. A slot is a cell with the
//! hook of its layer. The glyphs and bitmaps that a script hands in are lent to the calls on a layer and to arrangements, which
//! paint frames.
#![tactic(auto)]

mod all_layers;
mod composing;
mod finishing;
mod laws;
mod layer_engine;
mod layer_info;
mod opening;
mod ready;
mod slot;
mod window_after;

pub use all_layers::on_all;
pub use composing::screen_part;
pub use laws::{cells_have_few_rectangles, strips_make_the_screen};
pub use layer_engine::LayerEngine;
pub use layer_info::LayerInfo;
pub use opening::Opened;
pub use slot::Slot;
