// LayerInfo with the hooks that no call took, and with spare memory.

ghost use Rattle.std.specs.Prelude.{◌≡◌};

use lw_backfill::{Backfill, Shelf};
use lw_planes::Spare;
use lw_stack::Info;
use std::marker::Model;

/// LayerInfo, and beside it the hooks that no call took, and memory of former bitmaps for the next ones (the manual's Layers
/// Library chapter: the `Layer_Info` structure; the shelf of hooks and the spare memory are this project's own). Contracts see the
/// list of layers and the shelf.
#[derive(Drop)]
pub struct LayerInfo<B: Backfill> {
    pub(crate) info: Info,
    pub(crate) shelf: Shelf<B>,
    pub(crate) spare: Spare,
}

impl<B: Backfill> Model for LayerInfo<B> {
    ghost use Rattle.lw_engine.specs.Layers.{InfoView};

    ghost Value = { InfoView };

    ghost view = { λ i. record { stack = i.info; shelf = i.shelf } };
}

impl<B: Backfill> LayerInfo<B> {
    /// The list of layers and the desktop, without the hooks.
    pub fn info(&self) -> &Info
        ensures { result.now ≡ self.now.stack }
    {
        &self.info
    }
}
