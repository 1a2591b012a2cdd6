//! The calls that arrange no layers (the manual's Layers Library and Graphics Primitives chapters), a function for each class of
//! them. It is lent the parts of a desk that such a call touches: the registers of its task; LayerInfo, at which it looks; the
//! cell of a layer, with the registers, what a script hands in and the number of the task; or the cells of two layers.
#![tactic(auto)]

mod blitting;
mod drawing;
mod looking;
mod one_layer;
mod raster_state;
mod registers;
mod regs;
mod two_layers;
mod updating;
mod windows;

pub use looking::on_info;
pub use one_layer::on_layer;
pub use registers::on_registers;
pub use regs::Regs;
pub use two_layers::on_layers;
