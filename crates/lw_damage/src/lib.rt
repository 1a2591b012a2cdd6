//! The damage of a layer: which of its pixels are to be painted again, and whether they are being painted (the manual's
//! Layers Library chapter: the damage list, BeginUpdate and EndUpdate).
#![tactic(auto)]

mod damage;

pub use damage::Damage;
