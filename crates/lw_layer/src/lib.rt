//! The cell of a layer: its raster state, clip region, damage, clip rectangles and pens (the manual's Layers Library chapter).
#![tactic(auto)]

mod alike;
mod cell;
mod copying;
mod draft;
mod kept;
mod layer;
mod laying;
mod lines;
mod look;
mod new;
mod next;
mod places;
mod raster;
mod reading;
mod run;
mod runs;
mod state;
mod windows;

pub use cell::Cell;
pub use draft::{Draft, DraftState, LiveDraft};
pub use kept::kept_region;
pub use layer::Layer;
pub use look::Look;
pub use new::inner_rectangle;
pub use raster::Raster;
pub use run::Run;
pub use windows::WindowDraft;
