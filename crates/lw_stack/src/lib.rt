//! The list of layers from front to back, and what of each is shown (the manual's Layers Library chapter: the `Layer_Info`
//! structure).
#![tactic(auto)]

mod info;
mod laws;
mod sets;
mod shown;

pub use info::{Info, InfoDraft};
pub use laws::{elsewhere_law, list_law, shown_list_law};
pub use sets::{SlotSet, SlotSets};
pub use shown::{Shown, cover, meets, on_screen, shown_in};
